// What no clause says: that calls succeed, and what the real things do.
use ebs_model::{Bytes, Moment};
use ebs_world::*;
use std::alloc::{AllocError, Allocator, Global};
use std::cell::Cell;
use std::fmt::Display;
use std::io;
use std::io::{BufRead, Input, Lines, Read, Write};
use std::time::Duration;

/// A runtime whose first read fails, whose output is closed, and whose clock can't be read twice.
#[derive(Drop)]
struct Fake {
    clock_reads: Cell<usize>,
}

/// What the clock gives, one read after another. 0 stands for a failure.
const CLOCK: [u64; 5] = [0, 5, 0, 7, 9];

/// A reader that fails once. Each later read gives one byte, the number of the read.
#[derive(Drop)]
struct FailsOnce {
    reads: u8,
}

impl Read for FailsOnce {
    fn read(&mut self, buf: &mut [u8]) -> io::Result<usize> {
        self.reads = self.reads.saturating_add(1);
        if self.reads == 1 {
            return Err(io::Error::from(io::ErrorKind::NotConnected));
        }
        if buf.is_empty() {
            return Ok(0);
        }
        buf[0] = self.reads;
        Ok(1)
    }
}

impl BufRead for FailsOnce {
    fn fill_buf(&mut self) -> io::Result<&[u8]> {
        Ok(&[])
    }

    fn consume(&mut self, _amount: usize) {}
}

impl Input for Fake {
    type Reader = FailsOnce;

    fn read_line<A: Allocator + Clone>(&self, _buf: &mut String<A>) -> io::Result<usize> {
        Ok(0)
    }

    fn lines<A: Allocator>(&self, alloc: A) -> Lines<FailsOnce, A> {
        self.reader().lines(alloc)
    }

    fn reader(&self) -> FailsOnce {
        FailsOnce { reads: 0 }
    }
}

impl Print for Fake {
    fn print<D: Display + Drop>(&self, _value: D) -> io::Result<()> {
        self.write_all(b"")
    }

    fn println<D: Display + Drop>(&self, _value: D) -> io::Result<()> {
        self.write_all(b"")
    }

    fn write_all(&self, _bytes: &[u8]) -> io::Result<()> {
        Err(io::Error::from(io::ErrorKind::BrokenPipe))
    }
}

impl std::time::Clock for Fake {
    fn monotonic(&self) -> io::Result<Duration> {
        Err(io::Error::from(io::ErrorKind::Other))
    }

    fn since_1970(&self) -> io::Result<Duration> {
        let reads = self.clock_reads.get();
        self.clock_reads.set(reads.saturating_add(1));
        match CLOCK.get(reads) {
            Some(&second) if second > 0 => Ok(Duration::from_secs(second)),
            _ => Err(io::Error::from(io::ErrorKind::Other)),
        }
    }
}

/// A writer that takes a few bytes a call, keeps them, and is interrupted once.
#[derive(Drop)]
struct SmallWriter {
    kept: Vec<u8>,
    interrupted: bool,
    flushes: u8,
}

impl Write for SmallWriter {
    fn write(&mut self, buf: &[u8]) -> io::Result<usize> {
        if !self.interrupted {
            self.interrupted = true;
            return Err(io::Error::from(io::ErrorKind::Interrupted));
        }
        let count = buf.len().min(4099);
        self.kept.extend_from_slice(&buf[..count])?;
        Ok(count)
    }

    fn flush(&mut self) -> io::Result<()> {
        self.flushes = self.flushes.saturating_add(1);
        Ok(())
    }
}

/// What each take answers, and the room of two bytes behind it.
type Take = (Result<usize, Failed>, [u8; 2]);

fn takes_so(source: &mut impl Source, takes: &[Take]) -> bool {
    let mut room = [0u8; 2];
    for (want, bytes) in takes {
        if source.take(&mut room) != *want || room != *bytes {
            return false;
        }
    }
    true
}

fn put_once(sink: &mut impl Sink, piece: &[u8]) -> Result<(), Failed> {
    sink.put(piece)
}

fn puts_so(sink: &mut impl Sink, puts: &[(&[u8], Result<(), Failed>)]) -> bool {
    for (piece, want) in puts {
        if put_once(sink, piece) != *want {
            return false;
        }
    }
    true
}

fn read_once(clock: &mut impl Clock) -> u64 {
    clock.now().second
}

fn reads_so(clock: &mut impl Clock, seconds: &[u64]) -> bool {
    for second in seconds {
        if read_once(clock) != *second {
            return false;
        }
    }
    true
}

/// Three bytes that come in pieces of one size. Of the takes these fail.
fn source_of(alloc: Global, piece: u32, fail: &[u64]) -> Result<MemorySource, AllocError> {
    let listed = Vec::from_slice(alloc, fail)?;
    let bytes = Bytes::from_slice(alloc, b"abc")?;
    Ok(MemorySource::new(bytes, piece.max(1), listed))
}

const PIECES: [Take; 7] = [
    (Ok(1), *b"a\0"),
    (Err(Failed), *b"a\0"),
    (Ok(1), *b"b\0"),
    (Err(Failed), *b"b\0"),
    (Ok(1), *b"c\0"),
    (Ok(0), *b"c\0"),
    (Ok(0), *b"c\0"),
];

#[test]
fn source_hands_out_pieces_and_fails_listed_calls(rt: HostRuntime) -> Result<(), AllocError> {
    let mut source = source_of(rt.alloc(), 1, &[1, 3])?;
    let so = takes_so(&mut source, &PIECES);
    drop(source);
    assert!(rt; so);
    Ok(())
}

const FULL_ROOMS: [Take; 2] = [(Ok(2), *b"ab"), (Ok(1), *b"cb")];

#[test]
fn source_fills_the_room(rt: HostRuntime) -> Result<(), AllocError> {
    let mut source = source_of(rt.alloc(), 9, &[])?;
    let so = takes_so(&mut source, &FULL_ROOMS);
    drop(source);
    assert!(rt; so);
    Ok(())
}

const PUTS: [(&[u8], Result<(), Failed>); 4] = [
    (b"a", Err(Failed)),
    (b"b", Ok(())),
    (b"c", Err(Failed)),
    (b"de", Ok(())),
];

fn keeps_pieces(sink: &mut MemorySink) -> bool {
    puts_so(sink, &PUTS) && sink.bytes() == b"bde".as_slice()
}

#[test]
fn sink_keeps_pieces_and_fails_listed_calls(rt: HostRuntime) -> Result<(), AllocError> {
    let listed = Vec::from_slice(rt.alloc(), &[0, 2])?;
    let mut sink = MemorySink::new(rt.alloc(), listed);
    let kept = keeps_pieces(&mut sink);
    drop(sink);
    assert!(rt; kept);
    Ok(())
}

#[test]
fn clock_repeats_its_last_reading(rt: HostRuntime) -> Result<(), AllocError> {
    let list = vec![in rt.alloc(); Moment { second: 5 }, Moment { second: 3 }]?;
    let mut clock = ListClock::new(list);
    let so = reads_so(&mut clock, &[5, 3, 3]);
    drop(clock);
    assert!(rt; so);
    Ok(())
}

fn takes_nothing(source: &mut impl Source) -> bool {
    source.take(&mut []) == Ok(0)
}

#[test]
fn standard_streams_take_and_put(rt: HostRuntime) {
    let mut source = StdSource::new(&rt);
    assert!(rt; takes_nothing(&mut source));
    let mut sink = StdSink::new(&rt);
    assert!(rt; put_once(&mut sink, b"put\n").is_ok());
}

#[test]
fn system_clock_reads_the_present(rt: HostRuntime) {
    let mut clock = SystemClock::new(&rt);
    let first = read_once(&mut clock);
    assert!(rt; first > 1_700_000_000);
    assert!(rt; read_once(&mut clock) >= first);
}

/// The first read fails, and each later one gives its number.
const NUMBERS: [Take; 4] = [
    (Err(Failed), [0, 0]),
    (Ok(1), [2, 0]),
    (Ok(1), [3, 0]),
    (Ok(1), [4, 0]),
];

fn source_hands_on(fake: &Fake) -> bool {
    let mut source = StdSource::new(fake);
    takes_so(&mut source, &NUMBERS)
}

fn sink_hands_on(fake: &Fake) -> bool {
    let mut sink = StdSink::new(fake);
    put_once(&mut sink, b"a").is_err()
}

fn clock_hands_on(fake: &Fake) -> bool {
    let mut clock = SystemClock::new(fake);
    reads_so(&mut clock, &[0, 5, 5, 7, 9, 9])
}

#[test]
fn real_things_hand_faults_on(rt: HostRuntime) {
    let fake = Fake {
        clock_reads: Cell::new(0),
    };
    let so = source_hands_on(&fake) && sink_hands_on(&fake) && clock_hands_on(&fake);
    drop(fake);
    assert!(rt; so);
}

/// How many bytes the sink is given at once.
const LONG: usize = 600000;

fn long_piece(alloc: Global) -> Result<Vec<u8>, AllocError> {
    let mut piece = Vec::with_capacity(alloc, LONG)?;
    for place in 0..LONG {
        piece.push((place % 251) as u8)?;
    }
    Ok(piece)
}

fn small_sink(alloc: Global) -> StdSink<SmallWriter> {
    StdSink::over(SmallWriter {
        kept: Vec::new(alloc),
        interrupted: false,
        flushes: 0,
    })
}

/// Whether a writer that takes little at once gets all of the piece, and is flushed once.
fn writes_all(alloc: Global, piece: &[u8]) -> bool {
    let mut sink = small_sink(alloc);
    let put = put_once(&mut sink, piece).is_ok();
    let writer = sink.into_inner();
    let so = put && writer.kept.as_slice() == piece && writer.flushes == 1;
    drop(writer);
    so
}

#[test]
fn sink_writes_all_of_a_long_piece(rt: HostRuntime) -> Result<(), AllocError> {
    let piece = long_piece(rt.alloc())?;
    let so = writes_all(rt.alloc(), piece.as_slice());
    drop(piece);
    assert!(rt; so);
    Ok(())
}
