// Bytes that are read from the front.
use std::marker::Model;

/// Bytes that are still to be read.
#[derive(Drop)]
pub struct Input<'a> {
    bytes: &'a [u8],
}

impl<'a> Model for Input<'a> {
    ghost use Rattle.std.specs.Prelude.{List, ℕ};

    ghost Value = { List ℕ };

    ghost view = { λ i. i.bytes.now };
}

impl<'a> Input<'a> {
    ghost use Rattle.std.specs.Prelude.{◌≡◌, ◌==◌, ◌<◌, ◌++◌, length, IfSome, IfNone};

    pub fn new(bytes: &'a [u8]) -> Self
        ensures { result ≡ bytes.now }
    {
        Input { bytes }
    }

    pub fn is_empty(&self) -> bool
        ensures { result ≡ (length self.now == 0) }
    {
        self.bytes.is_empty()
    }

    /// The next bytes, if there are so many. Else none is taken.
    pub fn take(&mut self, count: usize) -> Option<&'a [u8]>
        ensures some { IfSome result (λ taken. (self.old ≡ taken.now ++ self.new) × (length taken.now ≡ count)) }
        ensures none { IfNone result ((self.new ≡ self.old) × (length self.old < count)) }
    {
        if self.bytes.len() < count {
            return None;
        }
        let (front, rest) = self.bytes.split_at(count);
        self.bytes = rest;
        Some(front)
    }
}
