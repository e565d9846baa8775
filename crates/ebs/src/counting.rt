// The lines of a tick, counted as they are written.
use ebs_world::{Failed, Sink};
use std::str;

/// A sink that hands everything on. Where it counts, each piece is the line of a policy.
#[derive(Drop)]
pub struct CountingSink<O: Sink + Drop> {
    to: O,
    is_counting: bool,
    lines: u64,
    refused: u64,
}

impl<O: Sink + Drop> CountingSink<O> {
    pub fn new(to: O, is_counting: bool) -> Self {
        CountingSink {
            to,
            is_counting,
            lines: 0,
            refused: 0,
        }
    }

    /// How many lines there were.
    pub fn lines(&self) -> u64 {
        self.lines
    }

    /// How many of them tell a refusal.
    pub fn refused(&self) -> u64 {
        self.refused
    }
}

impl<O: Sink + Drop> Sink for CountingSink<O> {
    ghost outlet = { λ s. O.Sink.outlet s.to };

    fn put(&mut self, piece: &[u8]) -> Result<(), Failed> {
        if self.is_counting {
            self.lines = self.lines.saturating_add(1);
            if is_refusal(piece) {
                self.refused = self.refused.saturating_add(1);
            }
        }
        self.to.put(piece)
    }
}

// Whether a policy's line tells a refusal.
fn is_refusal(line: &[u8]) -> bool {
    str::from_utf8(line).is_ok_and(|line| line.contains(" refused "))
}
