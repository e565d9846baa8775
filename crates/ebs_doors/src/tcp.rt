// The real things, which tell nothing of content and count their failures.
ghost use Rattle.std.specs.Prelude.{◌≡◌, None, false, OnOk};
ghost use Rattle.std.specs.Io.{ReadsAtMost};
ghost use Rattle.std.specs.Io.KnownBytes.{ReadConsumes};
ghost use Rattle.ebs_world.specs.Ends.{HasCause};

use crate::conn::Conn;
use crate::faults::raise;
use crate::listener::{Accepted, Listener};
use ebs_world::{Failed, Sink, Source, StdSink};
use std::io::{ErrorKind, Read};
use std::net::{TcpListener, TcpStream};
use std::time::Duration;

/// How long a peer may stall, in seconds. Then the connection fails, so a peer that is gone without a word holds nobody for ever.
const MOST_SECONDS: u64 = 60;

/// What comes in by a stream of TCP. A peer that closed its side is the end of it, and one that is gone, or stalls for
/// 60 seconds, is a failure.
#[derive(Drop)]
pub struct TcpSource {
    stream: TcpStream,
    faults: u64,
}

impl Source for TcpSource {
    ghost inlet = { λ s. record { left = None; faults = s.faults } };

    fn take(&mut self, room: &mut [u8]) -> Result<usize, Failed> {
        take_from(&mut self.stream, &mut self.faults, room)
    }
}

/// One read, again where a signal came between.
#[tactic(auto, using(crate::proofs::Kept::keeps_itself, crate::proofs::Kept::keeps_both, crate::proofs::Kept::consumes_kept))]
fn take_from<R: Read>(from: &mut R, faults: &mut u64, room: &mut [u8]) -> Result<usize, Failed>
    ensures bound { ReadsAtMost result room.new }
    ensures bytes { ReadConsumes (R.Read.remaining from.old) (R.Read.remaining from.new) result room.new }
    ensures cause { HasCause faults.old faults.new result }
    ensures quiet { OnOk result (faults.new ≡ faults.old) }
{
    for _ in 0..u64::MAX {
        match from.read(room) {
            Ok(count) => return Ok(count),
            Err(error) if error.kind() == ErrorKind::Interrupted => {}
            Err(_) => break,
        }
    }
    raise(faults);
    Err(Failed)
}

/// What goes out by a stream of TCP, through a second handle of it. Where that was refused each piece fails.
#[derive(Drop)]
pub struct TcpSink {
    stream: Option<TcpStream>,
    faults: u64,
}

impl Sink for TcpSink {
    ghost outlet = { λ s. record { written = None; faults = s.faults } };

    fn put(&mut self, piece: &[u8]) -> Result<(), Failed> {
        if let Some(stream) = &self.stream {
            if StdSink::over(stream).put(piece).is_ok() {
                return Ok(());
            }
        }
        raise(&mut self.faults);
        Err(Failed)
    }
}

/// A stream of TCP.
pub type TcpConn = Conn<TcpSource, TcpSink>;

impl Conn<TcpSource, TcpSink> {
    /// The two sides of a stream. One that takes it is told to send each piece at once, and to fail where its peer
    /// stalls for 60 seconds.
    pub fn over(stream: TcpStream) -> Self
        ensures input { ⟦<TcpSource as Source>⟧.inlet result.input ≡ record { left = None; faults = 0 } }
        ensures output { ⟦<TcpSink as Sink>⟧.outlet result.output ≡ record { written = None; faults = 0 } }
    {
        let most = Duration::from_secs(MOST_SECONDS);
        let _ = stream.set_nodelay(true);
        let _ = stream.set_read_timeout(Some(most));
        let _ = stream.set_write_timeout(Some(most));
        let output = TcpSink {
            stream: stream.try_clone().ok(),
            faults: 0,
        };
        Conn::new(TcpSource { stream, faults: 0 }, output)
    }
}

/// The connections that come to a bound listener of TCP. It is never closed. A connection whose peer was gone before
/// it was accepted is passed over.
#[derive(Drop)]
pub struct TcpDoor<'a> {
    listener: &'a TcpListener,
    faults: u64,
}

impl<'a> TcpDoor<'a> {
    pub fn new(listener: &'a TcpListener) -> Self
        ensures { ⟦<TcpDoor<'a> as Listener>⟧.door result ≡ record { closed = false; faults = 0 } }
    {
        TcpDoor {
            listener,
            faults: 0,
        }
    }
}

impl Listener for TcpDoor<'_> {
    type Input = TcpSource;

    type Output = TcpSink;

    ghost door = { λ d. record { closed = false; faults = d.faults } };

    fn accept(&mut self) -> Accepted<TcpConn> {
        match next_stream(self.listener) {
            Some(stream) => Accepted::Connection(TcpConn::over(stream)),
            None => {
                raise(&mut self.faults);
                Accepted::Failed
            }
        }
    }
}

/// The next connection whose peer is still there, or none where the listener failed.
fn next_stream(listener: &TcpListener) -> Option<TcpStream> {
    for _ in 0..u64::MAX {
        match listener.accept() {
            Ok((stream, _)) => return Some(stream),
            Err(error) if error.kind() == ErrorKind::ConnectionAborted => {}
            Err(_) => break,
        }
    }
    None
}
