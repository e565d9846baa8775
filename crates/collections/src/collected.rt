//! A collection between two sessions: each call of the disk fails once, and the program is stopped at each moment.
use crash_play::{
    Call, Ended, MORE, PICKS, SCRIPT, command, has_all, input_of, is_done, refused_pairs, session,
};
use ebs_world::{Disk, MemoryDisk};
use std::alloc::{AllocError, Global};

/// Two blocks of the child, of which one was its parent's.
const CHILD: &str = "standard 2 archived 0 leased 0\n";

/// And two that are put behind the collection.
const ALL: &str = "standard 4 archived 0 leased 0\n";

const WHOLE: &str = "blocks 4 damaged 0\n";

/// How many failures were told where the call of this number of the disk fails. None where anything else came of it, or where it was
/// told again when it was done once more.
pub fn told_failures(alloc: Global, number: u64) -> Result<Option<u32>, AllocError> {
    let mut disk = MemoryDisk::new(alloc, vec![in alloc; number]?);
    let Some(before) = session_failures(alloc, &mut disk, &SCRIPT)? else {
        return Ok(None);
    };
    let Some(collected) = command_failures(alloc, &mut disk, "collect", CHILD)? else {
        return Ok(None);
    };
    let Some(behind) = session_failures(alloc, &mut disk, &MORE)? else {
        return Ok(None);
    };
    let Some(used) = command_failures(alloc, &mut disk, "usage", ALL)? else {
        return Ok(None);
    };
    let told = before.saturating_add(collected).saturating_add(behind);
    let told = told.saturating_add(used);
    Ok(if told == 0 || has_all(alloc, &mut disk)? {
        Some(told)
    } else {
        None
    })
}

// Of a session in which each call is made twice.
fn session_failures(
    alloc: Global,
    disk: &mut MemoryDisk,
    calls: &[Call],
) -> Result<Option<u32>, AllocError> {
    let ended = session(alloc, disk, input_of(alloc, calls, 2)?)?;
    if ended.status == 0 {
        return refused_pairs(alloc, ended.written.as_slice(), calls.len());
    }
    if ended.status != 2 || !ended.written.is_empty() {
        return Ok(None);
    }
    let again = session(alloc, disk, input_of(alloc, calls, 2)?)?;
    let refused = refused_pairs(alloc, again.written.as_slice(), calls.len())?;
    Ok(if again.status == 0 && refused == Some(0) {
        Some(1)
    } else {
        None
    })
}

// Of a command that writes this line, or nothing where its disk failed.
fn command_failures(
    alloc: Global,
    disk: &mut MemoryDisk,
    word: &str,
    line: &str,
) -> Result<Option<u32>, AllocError> {
    let ended = command(alloc, disk, word)?;
    if is_told(&ended, line) {
        return Ok(Some(0));
    }
    let is_failed = ended.status == 2 && ended.written.is_empty();
    Ok(if is_failed && tells(alloc, disk, word, line)? {
        Some(1)
    } else {
        None
    })
}

fn is_told(ended: &Ended, line: &str) -> bool {
    ended.status == 0 && ended.written.as_slice() == line.as_bytes()
}

// Whether a command is done and writes this line.
fn tells(alloc: Global, disk: &mut MemoryDisk, word: &str, line: &str) -> Result<bool, AllocError> {
    Ok(is_told(&command(alloc, disk, word)?, line))
}

/// The disk after the script, a collection and more calls, with the moment at which the script was done. None where one wasn't accepted.
pub fn play_around(alloc: Global) -> Result<Option<(MemoryDisk, u64)>, AllocError> {
    let mut disk = MemoryDisk::new(alloc, Vec::new(alloc));
    if !is_done(alloc, &mut disk, &SCRIPT, false)? {
        return Ok(None);
    }
    let done = disk.moment();
    let is_so = tells(alloc, &mut disk, "collect", CHILD)?
        && is_done(alloc, &mut disk, &MORE, false)?
        && tells(alloc, &mut disk, "usage", ALL)?;
    Ok(if is_so { Some((disk, done)) } else { None })
}

/// At how many of a moment's crashes each block is the one that was put there, and the rest can be done.
pub fn survive_around(alloc: Global, disk: &MemoryDisk, moment: u64) -> Result<u32, AllocError> {
    let mut count = 0u32;
    for pick in PICKS {
        if moment > disk.moment() {
            return Ok(count);
        }
        let mut left = disk.crash(moment, pick)?;
        count = count.saturating_add(is_whole(alloc, &mut left)? as u32);
    }
    Ok(count)
}

fn is_whole(alloc: Global, disk: &mut MemoryDisk) -> Result<bool, AllocError> {
    let is_there = command(alloc, disk, "check")?.status == 0 && has_all(alloc, disk)?;
    let is_collected = command(alloc, disk, "collect")?.status == 0;
    let is_done = is_done(alloc, disk, &MORE, false)?;
    let is_counted = tells(alloc, disk, "usage", ALL)? && tells(alloc, disk, "check", WHOLE)?;
    Ok(is_there && is_collected && is_done && is_counted)
}
