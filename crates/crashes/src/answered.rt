//! The program is stopped behind answers, and the next start shows what is there.
use crash_play::{Call, PICKS, Upload, input_of, is_block, replies, session, session_at};
use ebs_world::MemoryDisk;
use std::alloc::{AllocError, Global};

/// Three o'clock in the night.
const THREE: u64 = 10860;

/// Whether a session of these calls at this second ends well and answers these statuses.
pub fn answers(
    alloc: Global,
    disk: &mut MemoryDisk,
    second: u64,
    calls: &[Call],
    wanted: &[u16],
) -> Result<bool, AllocError> {
    let ended = session_at(alloc, disk, second, input_of(alloc, calls, 1)?)?;
    let Some(found) = replies(alloc, ended.written.as_slice())? else {
        return Ok(false);
    };
    let is_wanted = found
        .iter()
        .map(|reply| reply.status)
        .eq(wanted.iter().copied());
    Ok(ended.status == 0 && is_wanted)
}

/// Whether the last of these calls is answered by a block of this byte.
fn reads(
    alloc: Global,
    disk: &mut MemoryDisk,
    calls: &[Call],
    byte: u8,
) -> Result<bool, AllocError> {
    let ended = session(alloc, disk, input_of(alloc, calls, 1)?)?;
    let Some(found) = replies(alloc, ended.written.as_slice())? else {
        return Ok(false);
    };
    Ok(found.last().is_some_and(|reply| is_block(reply, byte)))
}

/// At how many stops behind two answered writes of a block the second is read.
pub fn second_write(alloc: Global) -> Result<u32, AllocError> {
    let mut disk = MemoryDisk::new(alloc, Vec::new(alloc));
    let calls = [Call::CreateEmpty, Call::Write(0, 1), Call::Write(0, 2)];
    let mut count = 0u32;
    if answers(alloc, &mut disk, 1000, &calls, &[201, 201, 201])? {
        for pick in PICKS {
            let mut left = disk.crash(disk.moment(), pick)?;
            count = count.saturating_add(reads(alloc, &mut left, &[Call::Read(0)], 2)? as u32);
        }
    }
    Ok(count)
}

/// What two or three calls are answered; zeros where there are more or fewer answers, or the session doesn't end well.
pub fn statuses(
    alloc: Global,
    disk: &mut MemoryDisk,
    calls: &[Call],
) -> Result<[u16; 3], AllocError> {
    let ended = session(alloc, disk, input_of(alloc, calls, 1)?)?;
    let Some(found) = replies(alloc, ended.written.as_slice())? else {
        return Ok([0; 3]);
    };
    match found.as_slice() {
        [first, second] if ended.status == 0 => Ok([first.status, second.status, 0]),
        [first, second, third] if ended.status == 0 => {
            Ok([first.status, second.status, third.status])
        }
        _ => Ok([0; 3]),
    }
}

/// How often, behind a write that was answered and one that was answered 503, a stop leaves the first, the second, and neither. None
/// where no call of the disk has the number.
pub fn refused_write(alloc: Global, number: u64) -> Result<Option<[u32; 3]>, AllocError> {
    let mut disk = MemoryDisk::new(alloc, vec![in alloc; number]?);
    let calls = [Call::CreateEmpty, Call::Write(0, 1), Call::Write(0, 2)];
    match statuses(alloc, &mut disk, &calls)? {
        [201, 201, 201] => Ok(None),
        [201, 201, 503] => Ok(Some(left_of_writes(alloc, &disk)?)),
        _ => Ok(Some([0; 3])),
    }
}

// How often a stop leaves the first write, the second, and neither.
fn left_of_writes(alloc: Global, disk: &MemoryDisk) -> Result<[u32; 3], AllocError> {
    let (mut first, mut second, mut neither) = (0u32, 0u32, 0u32);
    for pick in PICKS {
        let mut left = disk.crash(disk.moment(), pick)?;
        if reads(alloc, &mut left, &[Call::Read(0)], 1)? {
            first = first.saturating_add(1);
        } else if reads(alloc, &mut left, &[Call::Read(0)], 2)? {
            second = second.saturating_add(1);
        } else {
            neither = neither.saturating_add(1);
        }
    }
    Ok([first, second, neither])
}

/// At how many stops behind a deletion that a lock refused the snapshot is there with its block.
pub fn locked_deletion(alloc: Global) -> Result<u32, AllocError> {
    let mut disk = MemoryDisk::new(alloc, Vec::new(alloc));
    let calls = [
        Call::Start,
        Call::Put(Upload::Parent, 0, 5),
        Call::Complete(Upload::Parent, 1),
        Call::LockParent,
        Call::DeleteParent,
    ];
    let mut count = 0u32;
    if answers(alloc, &mut disk, 1000, &calls, &[201, 201, 202, 200, 409])? {
        for pick in PICKS {
            let mut left = disk.crash(disk.moment(), pick)?;
            let look = [Call::DescribeParent, Call::CreateSecond, Call::Read(0)];
            count = count.saturating_add(reads(alloc, &mut left, &look, 5)? as u32);
        }
    }
    Ok(count)
}

/// At how many stops behind a policy's run the snapshot that it made has the volume's block, whatever was written since.
pub fn snapshot_of_run(alloc: Global) -> Result<u32, AllocError> {
    let mut disk = MemoryDisk::new(alloc, Vec::new(alloc));
    let calls = [Call::CreateEmpty, Call::CreatePolicy, Call::Write(0, 7)];
    let run = [Call::RunPolicy, Call::Write(0, 8)];
    let mut count = 0u32;
    if answers(alloc, &mut disk, 1000, &calls, &[201, 201, 201])?
        && answers(alloc, &mut disk, THREE, &run, &[200, 201])?
    {
        for pick in PICKS {
            let mut left = disk.crash(disk.moment(), pick)?;
            let look = [Call::CreateSecond, Call::ReadSecond(0)];
            count = count.saturating_add(reads(alloc, &mut left, &look, 7)? as u32);
        }
    }
    Ok(count)
}
