// Sessions whose messages a clerk answers, who keeps in a notebook when the last one came.
ghost use Rattle.std.specs.Prelude.{◌≡◌, None};
ghost use Rattle.ebs_world.specs.Ends.{Inlet, Outlet};
ghost use Rattle.ebs_model.specs.declared.answer.Answer.TheVariants as said;

use ebs_http::Message;
use ebs_model::{Answer, Bytes, Moment};
use ebs_session::{End, Responder, session};
use ebs_world::{Failed, ListClock, MemorySink, MemorySource, Sink, Source};
use std::alloc::{AllocError, Global};
use std::cell::Cell;
use std::test::Fail;

const TWO: &[u8] = b"GET /one HTTP/1.1\r\n\r\nGET /two HTTP/1.1\r\n\r\n";

const ANSWERS: &[u8] =
    b"HTTP/1.1 507 Insufficient Storage\r\nContent-Type: application/json\r\nContent-Length: 85\r\n\r\n{\"Message\":\"out of memory\",\"Reason\":\"OUT_OF_MEMORY\",\"Type\":\"InternalServerException\"}HTTP/1.1 507 Insufficient Storage\r\nContent-Type: application/json\r\nContent-Length: 85\r\n\r\n{\"Message\":\"out of memory\",\"Reason\":\"OUT_OF_MEMORY\",\"Type\":\"InternalServerException\"}";

/// Answers each message by want of memory, and counts the answers that it is told were written.
#[derive(Drop)]
struct Clerk {
    handed: u64,
    told: Cell<u64>,
}

impl Responder<u64> for Clerk {
    ghost replies = { λ old before message moment answer new after. (answer ≡ said.Memory) × (after ≡ moment.second) };

    ghost ready = { λ s world. Unit {0} };

    fn reply(&mut self, world: &mut u64, _message: Message, reading: Moment) -> Answer {
        self.handed = self.handed.saturating_add(1);
        *world = reading.second;
        Answer::Memory
    }

    fn answered(&self) {
        self.told.set(self.told.get().saturating_add(1));
    }
}

/// An input in pieces of this size.
fn source_of(alloc: Global, input: &[u8], piece: u32) -> Result<MemorySource, AllocError> {
    let bytes = Bytes::from_slice(alloc, input)?;
    Ok(MemorySource::new(bytes, piece.max(1), Vec::new(alloc)))
}

/// A clock that reads 1000 and then 1001.
fn clock_of(alloc: Global) -> Result<ListClock, AllocError> {
    let list = vec![in alloc; Moment { second: 1000 }, Moment { second: 1001 }]?;
    Ok(ListClock::new(list))
}

/// How the session ends, how many messages were answered and how many answers the clerk was told of, and when the last one was.
#[derive(Clone, Copy, PartialEq, Eq)]
struct Played {
    end: End,
    handed: u64,
    told: u64,
    last: u64,
}

fn play<I: Source, O: Sink>(
    alloc: Global,
    limit: u64,
    source: &mut I,
    clock: &mut ListClock,
    sink: &mut O,
) -> Played {
    let mut clerk = Clerk {
        handed: 0,
        told: Cell::new(0),
    };
    let mut last = 0;
    let end = session(
        alloc,
        limit.min(999),
        &mut clerk,
        &mut last,
        source,
        sink,
        clock,
    );
    Played {
        end,
        handed: clerk.handed,
        told: clerk.told.get(),
        last,
    }
}

/// A session of an input that comes in pieces of this size, and that may take so many bytes.
fn run(
    alloc: Global,
    input: &[u8],
    limit: u64,
    piece: u32,
    sink: &mut MemorySink,
) -> Result<Played, AllocError> {
    let mut source = source_of(alloc, input, piece)?;
    let mut clock = clock_of(alloc)?;
    let played = play(alloc, limit, &mut source, &mut clock, sink);
    drop(source);
    drop(clock);
    Ok(played)
}

/// A session whose answers were all written.
fn ended(end: End, handed: u64, last: u64) -> Played {
    Played {
        end,
        handed,
        told: handed,
        last,
    }
}

/// Whether a session of both messages goes so.
fn plays_as(alloc: Global, limit: u64, piece: u32, sink: &mut MemorySink, want: Played) -> bool {
    match run(alloc, TWO, limit, piece, sink) {
        Ok(played) => played == want,
        Err(_) => false,
    }
}

/// Whether both messages that come in pieces of this size are answered.
fn answers_so(alloc: Global, piece: u32) -> bool {
    let mut sink = MemorySink::new(alloc, Vec::new(alloc));
    let so = plays_as(alloc, 500, piece, &mut sink, ended(End::Done, 2, 1001));
    let written = sink.bytes() == ANSWERS;
    drop(sink);
    so && written
}

fn answers_in(alloc: Global, pieces: &[u32]) -> bool {
    for piece in pieces {
        if !answers_so(alloc, *piece) {
            return false;
        }
    }
    true
}

#[test]
fn each_message_is_answered_once_at_its_reading(rt: HostRuntime) {
    assert!(rt; answers_in(rt.alloc(), &[1, 7, 1000]));
}

/// Whether a session that may take so many bytes ends at its limit, behind so many answers.
fn ends_so(alloc: Global, limit: u64, handed: u64, last: u64) -> bool {
    let mut sink = MemorySink::new(alloc, Vec::new(alloc));
    let so = plays_as(alloc, limit, 7, &mut sink, ended(End::Limit, handed, last));
    drop(sink);
    so
}

fn end_so(alloc: Global, rows: &[(u64, u64, u64)]) -> bool {
    for (limit, handed, last) in rows {
        if !ends_so(alloc, *limit, *handed, *last) {
            return false;
        }
    }
    true
}

/// A limit, how many are answered, and when the last one is.
const LIMITS: [(u64, u64, u64); 4] = [(0, 0, 0), (20, 0, 0), (21, 1, 1000), (41, 1, 1000)];

#[test]
fn a_session_that_may_take_no_more_ends(rt: HostRuntime) {
    assert!(rt; end_so(rt.alloc(), &LIMITS));
}

/// Whether the clerk is told of the first answer alone, where the sink fails at the second.
fn first_is_told(alloc: Global) -> Result<bool, AllocError> {
    let mut sink = MemorySink::new(alloc, vec![in alloc; 1]?);
    let want = Played {
        end: End::OutputFailed,
        handed: 2,
        told: 1,
        last: 1001,
    };
    Ok(plays_as(alloc, 500, 7, &mut sink, want))
}

#[test]
fn an_answer_that_is_not_written_is_not_told(rt: HostRuntime) -> Result<(), Fail> {
    assert!(rt; first_is_told(rt.alloc())?);
    Ok(())
}

/// An input, how a session of it ends, and how many of its messages are answered.
struct Row {
    input: &'static [u8],
    end: End,
    handed: u64,
}

const ROWS: [Row; 8] = [
    Row {
        input: b"",
        end: End::Done,
        handed: 0,
    },
    Row {
        input: b"GET /one HTTP/1.1\r\nHo",
        end: End::Cut(21),
        handed: 0,
    },
    Row {
        input: b"GET /one HTTP/1.1\r\n\r\nGET /two",
        end: End::Cut(8),
        handed: 1,
    },
    Row {
        input: b"PUT /one HTTP/1.1\r\nContent-Length: 5\r\n\r\nabc",
        end: End::Cut(43),
        handed: 0,
    },
    Row {
        input: b"GET /one HTTP/1.1\r\n\r\nPUT /two HTTP/1.1\r\nContent-Length: 5\r\n\r\n",
        end: End::Cut(40),
        handed: 1,
    },
    Row {
        input: b"GET\r\n\r\n",
        end: End::Bad(0),
        handed: 0,
    },
    Row {
        input: b"GET /one HTTP/1.1\r\n\r\nGET\r\n\r\n",
        end: End::Bad(21),
        handed: 1,
    },
    Row {
        input: b"PUT /one HTTP/1.1\r\nContent-Length: 5\r\n\r\nabcdeGET /two HTTP/1.1\r\n\r\nGET /three HTTP/1.1\r\nTransfer-Encoding: chunked\r\n\r\n",
        end: End::Bad(66),
        handed: 2,
    },
];

/// Whether a session of the row's input, in pieces of this size, ends so behind so many answers.
fn ends_as(alloc: Global, row: &Row, piece: u32) -> Result<bool, AllocError> {
    let mut sink = MemorySink::new(alloc, Vec::new(alloc));
    let played = run(alloc, row.input, 500, piece, &mut sink)?;
    Ok(played.end == row.end && played.handed == row.handed && played.told == row.handed)
}

fn rows_end_so(alloc: Global, rows: &[Row], piece: u32) -> Result<bool, AllocError> {
    for row in rows {
        if !ends_as(alloc, row, piece)? {
            return Ok(false);
        }
    }
    Ok(true)
}

#[test]
fn an_end_tells_what_waits_and_where_no_message_stands(rt: HostRuntime) -> Result<(), Fail> {
    for piece in [1, 7, 1000] {
        assert!(rt; rows_end_so(rt.alloc(), &ROWS, piece)?);
    }
    Ok(())
}

const START: &[u8] =
    b"POST /snapshots HTTP/1.1\r\nHost: ebs\r\nx-ebs-account: 000000000001\r\nContent-Length: 16\r\n\r\n{\"VolumeSize\":1}";

const TWO_STARTS: &[u8] =
    b"POST /snapshots HTTP/1.1\r\nHost: ebs\r\nx-ebs-account: 000000000001\r\nContent-Length: 16\r\n\r\n{\"VolumeSize\":1}POST /snapshots HTTP/1.1\r\nHost: ebs\r\nx-ebs-account: 000000000001\r\nContent-Length: 16\r\n\r\n{\"VolumeSize\":2}";

/// How many bytes a session takes of two messages of 104 bytes with bodies, how it ends, how many it answers, the last of
/// them when, and how many bytes it writes.
struct Limited {
    limit: u64,
    end: End,
    handed: u64,
    last: u64,
    written: usize,
}

const LIMITED: [Limited; 6] = [
    Limited {
        limit: 0,
        end: End::Limit,
        handed: 0,
        last: 0,
        written: 0,
    },
    Limited {
        limit: 103,
        end: End::Limit,
        handed: 0,
        last: 0,
        written: 0,
    },
    Limited {
        limit: 104,
        end: End::Limit,
        handed: 1,
        last: 1000,
        written: 174,
    },
    Limited {
        limit: 207,
        end: End::Limit,
        handed: 1,
        last: 1000,
        written: 174,
    },
    Limited {
        limit: 208,
        end: End::Limit,
        handed: 2,
        last: 1001,
        written: 348,
    },
    Limited {
        limit: 209,
        end: End::Done,
        handed: 2,
        last: 1001,
        written: 348,
    },
];

/// Whether a session of two starts, in pieces of this size, takes no more than the row's limit.
fn keeps_limit(alloc: Global, row: &Limited, piece: u32) -> Result<bool, AllocError> {
    let mut sink = MemorySink::new(alloc, Vec::new(alloc));
    let played = run(alloc, TWO_STARTS, row.limit, piece, &mut sink)?;
    let want = ended(row.end, row.handed, row.last);
    Ok(played == want && sink.bytes().len() == row.written)
}

fn keep_limits(alloc: Global, rows: &[Limited], piece: u32) -> Result<bool, AllocError> {
    for row in rows {
        if !keeps_limit(alloc, row, piece)? {
            return Ok(false);
        }
    }
    Ok(true)
}

#[test]
fn a_session_takes_no_more_than_its_limit(rt: HostRuntime) -> Result<(), Fail> {
    for piece in [1, 100, 100000] {
        assert!(rt; keep_limits(rt.alloc(), &LIMITED, piece)?);
    }
    Ok(())
}

/// How many bytes were put, which source and sink share.
type Count = Cell<usize>;

/// A client that sends one message, and the same again only where an answer of so many bytes has come. Else its input ends.
#[derive(Drop)]
struct WaitingClient<'a> {
    put: &'a Count,
    answer_size: usize,
    sent: usize,
}

impl Source for WaitingClient<'_> {
    ghost inlet = { λ s. record { left = None; faults = 0 } };

    fn take(&mut self, room: &mut [u8]) -> Result<usize, Failed> {
        let is_due = match self.sent {
            0 => true,
            1 => self.put.get() == self.answer_size,
            _ => false,
        };
        if !is_due {
            return Ok(0);
        }
        self.sent = self.sent.saturating_add(1);
        let count = START.len().min(room.len());
        room[..count].copy_from_slice(&START[..count]);
        Ok(count)
    }
}

/// A sink that counts what is put.
#[derive(Drop)]
struct CountingSink<'a> {
    put: &'a Count,
}

impl Sink for CountingSink<'_> {
    ghost outlet = { λ s. record { written = None; faults = 0 } };

    fn put(&mut self, piece: &[u8]) -> Result<(), Failed> {
        self.put.set(self.put.get().saturating_add(piece.len()));
        Ok(())
    }
}

#[test]
fn the_second_message_comes_once_the_first_is_answered(rt: HostRuntime) -> Result<(), Fail> {
    let put = Cell::new(0);
    let mut client = WaitingClient {
        put: &put,
        answer_size: 174,
        sent: 0,
    };
    let mut sink = CountingSink { put: &put };
    let mut clock = clock_of(rt.alloc())?;
    let played = play(rt.alloc(), 500, &mut client, &mut clock, &mut sink);
    assert!(rt; played == ended(End::Done, 2, 1001));
    assert_eq!(rt; client.sent, 2);
    assert_eq!(rt; put.get(), 348);
    Ok(())
}
