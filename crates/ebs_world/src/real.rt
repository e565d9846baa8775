// The real things. They tell what std's reader and writer tell, and count their failures: of standard input, standard
// output and the system's clock that is nothing.
ghost use Rattle.std.specs.Prelude.{◌≡◌, None, OnOk, OnErr};
ghost use Rattle.std.specs.Io.KnownBytes.{Appends};
ghost use Rattle.ebs_world.specs.Ends.{Timeline, Inlet, Outlet, AppendsFront};

use crate::faults::{Failed, raise};
use crate::traits::{Clock, Sink, Source};
use ebs_model::Moment;
use std::io;
use std::io::{ErrorKind, Input, Printer, Read, Write};
use std::time::{SystemTime, UNIX_EPOCH};

/// The runtime's input. A `take` is one read, straight into the room.
#[derive(Drop)]
pub struct StdSource<R: Input> {
    reader: R::Reader,
    faults: u64,
}

impl<R: Input> StdSource<R> {
    /// Its first `take` goes on where the runtime's input stands.
    pub fn new(rt: &R) -> Self
        ensures { (⟦<StdSource<R> as Source>⟧.inlet result).faults ≡ 0 }
    {
        StdSource {
            reader: rt.reader(),
            faults: 0,
        }
    }
}

impl<R: Input> Source for StdSource<R> {
    ghost inlet = { λ s. record { left = R.Reader.BufRead.remaining s.reader; faults = s.faults } };

    fn take(&mut self, room: &mut [u8]) -> Result<usize, Failed> {
        match self.reader.read(room) {
            Ok(count) => Ok(count),
            Err(_) => Err(raise(&mut self.faults)),
        }
    }
}

/// A writer of std, as standard output. Nothing is held back: a piece has been written and flushed when its `put`
/// answers `Ok`.
#[derive(Drop)]
pub struct StdSink<W: Write + Drop> {
    to: W,
    faults: u64,
}

impl<'a, P: Print> StdSink<Printer<'a, P>> {
    /// Writes to the runtime's output.
    pub fn new(rt: &'a P) -> Self
        ensures { ⟦<StdSink<Printer<'a, P>> as Sink>⟧.outlet result ≡ record { written = None; faults = 0 } }
    {
        StdSink::over(io::writer(rt))
    }
}

impl<W: Write + Drop> StdSink<W> {
    /// Writes on behind what the writer holds.
    pub fn over(to: W) -> Self
        ensures { ⟦<StdSink<W> as Sink>⟧.outlet result ≡ record { written = W.Write.contents to; faults = 0 } }
    {
        StdSink { to, faults: 0 }
    }

    /// The writer, with all that was put.
    pub fn into_inner(self) -> W
        ensures { W.Write.contents result ≡ (⟦<StdSink<W> as Sink>⟧.outlet self).written }
    {
        self.to
    }
}

impl<W: Write + Drop> Sink for StdSink<W> {
    ghost outlet = { λ s. record { written = W.Write.contents s.to; faults = s.faults } };

    fn put(&mut self, piece: &[u8]) -> Result<(), Failed> {
        match write_out(&mut self.to, piece) {
            Ok(()) => Ok(()),
            Err(_) => Err(raise(&mut self.faults)),
        }
    }
}

/// Writes until all of the piece is taken, and flushes. After an error some front of it was taken.
fn write_out<W: Write>(to: &mut W, piece: &[u8]) -> io::Result<()>
    ensures ok { OnOk result (Appends (W.Write.contents to.old) (W.Write.contents to.new) piece.now) }
    ensures err { OnErr result (AppendsFront (W.Write.contents to.old) (W.Write.contents to.new) piece.now) }
{
    let mut rest = piece;
    for _ in 0..u64::MAX {
        if rest.is_empty() {
            return to.flush();
        }
        match to.write(rest) {
            Ok(0) => break,
            Ok(count) => rest = &rest[count..],
            Err(error) if error.kind() == ErrorKind::Interrupted => {}
            Err(error) => return Err(error),
        }
    }
    Err(io::Error::from(ErrorKind::WriteZero))
}

/// The clock of the system. One that can't be read gives its last reading again, at first 0.
#[derive(Drop)]
pub struct SystemClock<'a, C: std::time::Clock> {
    clock: &'a C,
    last: Moment,
}

impl<'a, C: std::time::Clock> SystemClock<'a, C> {
    /// Reads the runtime's clock at each `now`.
    pub fn new(rt: &'a C) -> Self
        ensures { ⟦<SystemClock<'a, C> as Clock>⟧.ticks result ≡ record { readings = None } }
    {
        SystemClock {
            clock: rt,
            last: Moment { second: 0 },
        }
    }
}

impl<C: std::time::Clock> Clock for SystemClock<'_, C> {
    ghost ticks = { λ c. record { readings = None } };

    fn now(&mut self) -> Moment {
        if let Ok(time) = SystemTime::now(self.clock) {
            if let Ok(since) = time.duration_since(UNIX_EPOCH) {
                self.last = Moment {
                    second: since.as_secs(),
                };
            }
        }
        self.last
    }
}
