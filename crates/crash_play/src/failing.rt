//! Each call of the disk fails once.
use crate::messages::SCRIPT;
use crate::play::{has_all, input_of, session};
use crate::reply::{Reply, replies};
use ebs_world::{Disk, MemoryDisk};
use std::alloc::{AllocError, Global};

/// What came of a session whose disk failed once.
#[derive(Clone, Copy, PartialEq, Eq)]
pub enum Outcome {
    /// No call had the number.
    NoFault,
    /// The store wasn't opened, and was at the next start.
    NotOpened,
    /// One call was answered with 503, and it was accepted the time before or when it was given again.
    Refused,
    /// Anything else.
    Other,
}

/// Plays the script, each call twice, over a disk whose call of this number fails.
pub fn fail_at(alloc: Global, number: u64) -> Result<Outcome, AllocError> {
    let mut disk = MemoryDisk::new(alloc, vec![in alloc; number]?);
    let ended = session(alloc, &mut disk, input_of(alloc, &SCRIPT, 2)?)?;
    let mut outcome = Outcome::Other;
    if ended.status == 2 && ended.written.is_empty() {
        let again = session(alloc, &mut disk, input_of(alloc, &SCRIPT, 2)?)?;
        if again.status == 0
            && refused_pairs(alloc, again.written.as_slice(), SCRIPT.len())? == Some(0)
        {
            outcome = Outcome::NotOpened;
        }
    } else if ended.status == 0 {
        outcome = match refused_pairs(alloc, ended.written.as_slice(), SCRIPT.len())? {
            Some(0) => Outcome::NoFault,
            Some(1) => Outcome::Refused,
            _ => Outcome::Other,
        };
    }
    if outcome == Outcome::NoFault || has_all(alloc, &mut disk)? {
        Ok(outcome)
    } else {
        Ok(Outcome::Other)
    }
}

/// How many of so many calls, each made twice, were refused with 503; None where one of them wasn't accepted at the first or at the second time.
pub fn refused_pairs(
    alloc: Global,
    written: &[u8],
    calls: usize,
) -> Result<Option<u32>, AllocError> {
    let Some(answers) = replies(alloc, written)? else {
        return Ok(None);
    };
    if answers.len() != calls.saturating_mul(2) {
        return Ok(None);
    }
    let mut refused = 0u32;
    for pair in answers.as_slice().chunks(2) {
        match pair {
            [first, second] if is_accepted(first) && second.status != 503 => {}
            [first, _] if is_accepted(first) => refused = refused.saturating_add(1),
            [first, second] if first.status == 503 && is_accepted(second) => refused =
                refused.saturating_add(1),
            _ => return Ok(None),
        }
    }
    Ok(Some(refused))
}

fn is_accepted(reply: &Reply<'_>) -> bool {
    reply.status < 300
}
