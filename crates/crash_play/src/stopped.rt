//! The program is stopped at each moment.
use crate::messages::{Call, SCRIPT};
use crate::play::{has_all, input_of, session};
use crate::reply::replies;
use ebs_world::{CrashPick, MemoryDisk};
use std::alloc::{AllocError, Global};

/// What the places that weren't synced hold after a stop.
pub const PICKS: [CrashPick; 4] = [
    CrashPick::Old,
    CrashPick::New,
    CrashPick::Fill(0),
    CrashPick::Fill(255),
];

/// The disk after the script, each call by a start of its own, with the moment at which each was acknowledged. None where one wasn't accepted.
pub fn play_script(alloc: Global) -> Result<Option<(MemoryDisk, Vec<u64>)>, AllocError> {
    let mut disk = MemoryDisk::new(alloc, Vec::new(alloc));
    let mut moments = Vec::new(alloc);
    for call in SCRIPT {
        if !is_done(alloc, &mut disk, &[call], false)? {
            return Ok(None);
        }
        moments.push(disk.moment())?;
    }
    Ok(Some((disk, moments)))
}

/// At how many of a moment's crashes the rest of the script can be done, and then all of it is there.
pub fn survive(
    alloc: Global,
    disk: &MemoryDisk,
    moments: &[u64],
    moment: u64,
) -> Result<u32, AllocError> {
    let mut count = 0u32;
    let acknowledged = moments.iter().filter(|end| **end <= moment).count();
    for pick in PICKS {
        if moment > disk.moment() {
            return Ok(count);
        }
        let mut left = disk.crash(moment, pick)?;
        let rest = SCRIPT.get(acknowledged..).unwrap_or(&[]);
        if is_done(alloc, &mut left, rest, true)? && has_all(alloc, &mut left)? {
            count = count.saturating_add(1);
        }
    }
    Ok(count)
}

/// Whether each call is accepted; the first of them may have been done before, where that is said.
pub fn is_done(
    alloc: Global,
    disk: &mut MemoryDisk,
    calls: &[Call],
    is_repeat: bool,
) -> Result<bool, AllocError> {
    let ended = session(alloc, disk, input_of(alloc, calls, 1)?)?;
    let Some(answers) = replies(alloc, ended.written.as_slice())? else {
        return Ok(false);
    };
    let mut may_be_done = is_repeat;
    for reply in &answers {
        if reply.status >= 300 && !(may_be_done && reply.status < 500) {
            return Ok(false);
        }
        may_be_done = false;
    }
    Ok(ended.status == 0 && answers.len() == calls.len())
}
