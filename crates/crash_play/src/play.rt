//! Sessions over a disk in memory.
use crate::messages::{BLOCK, Call, LOOK, message};
use crate::reply::{Reply, replies};
use ebs_model::{Bytes, Moment};
use ebs_world::{ListClock, MemoryDisk, MemorySink, MemorySource};
use memory_program::run_in_memory;
use std::alloc::{AllocError, Global};

const PIECE: u32 = 65536;

const SECOND: u64 = 1000;

/// How a session ended, and what it wrote.
#[derive(Drop)]
pub struct Ended {
    pub status: u8,
    pub written: Vec<u8>,
}

/// A session of these messages.
pub fn session(alloc: Global, disk: &mut MemoryDisk, input: Vec<u8>) -> Result<Ended, AllocError> {
    session_at(alloc, disk, SECOND, input)
}

/// A session of these messages at this second since 1970.
pub fn session_at(
    alloc: Global,
    disk: &mut MemoryDisk,
    second: u64,
    input: Vec<u8>,
) -> Result<Ended, AllocError> {
    run_word(alloc, disk, "session", second, input)
}

/// A command without input.
pub fn command(alloc: Global, disk: &mut MemoryDisk, word: &str) -> Result<Ended, AllocError> {
    run_word(alloc, disk, word, SECOND, Vec::new(alloc))
}

fn run_word(
    alloc: Global,
    disk: &mut MemoryDisk,
    word: &str,
    second: u64,
    input: Vec<u8>,
) -> Result<Ended, AllocError> {
    let words = vec![in alloc; String::from_str(alloc, word)?]?;
    let mut source = MemorySource::new(Bytes::from_vec(input), PIECE, Vec::new(alloc));
    let mut sink = MemorySink::new(alloc, Vec::new(alloc));
    let mut clock = ListClock::new(vec![in alloc; Moment { second }]?);
    let status = run_in_memory(
        alloc,
        words.as_slice(),
        &mut source,
        &mut sink,
        disk,
        &mut clock,
    );
    Ok(Ended {
        status,
        written: Vec::from_slice(alloc, sink.bytes())?,
    })
}

/// The messages of these calls, each so many times.
pub fn input_of(alloc: Global, calls: &[Call], times: usize) -> Result<Vec<u8>, AllocError> {
    let mut input = Vec::new(alloc);
    for call in calls {
        let text = message(alloc, *call)?;
        for _ in 0..times {
            input.extend_from_slice(text.as_slice())?;
        }
    }
    Ok(input)
}

/// Whether all of the script was done: the parent is gone, and the child has its block in the place of one of the parent's, and the other.
pub fn has_all(alloc: Global, disk: &mut MemoryDisk) -> Result<bool, AllocError> {
    let ended = session(alloc, disk, input_of(alloc, &LOOK, 1)?)?;
    let Some(answers) = replies(alloc, ended.written.as_slice())? else {
        return Ok(false);
    };
    match answers.as_slice() {
        [gone, made, first, second] => Ok(
            gone.status == 404 && made.status == 201 && is_block(first, 5) && is_block(second, 9),
        ),
        _ => Ok(false),
    }
}

pub fn is_block(reply: &Reply<'_>, byte: u8) -> bool {
    reply.status == 200
        && reply.body.len() == BLOCK
        && reply.body.iter().all(|found| *found == byte)
}
