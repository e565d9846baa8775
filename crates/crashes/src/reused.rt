//! The slot of a put that isn't accepted is taken again, and no stop shows one block in the place of another.
use crate::answered::{answers, statuses};
use crash_play::{BLOCK, Call, PICKS, Reply, Upload, input_of, is_block, replies, session};
use ebs_world::{Area, MemoryDisk};
use std::alloc::{AllocError, Global};

/// How many slots three puts that are refused and one that is accepted take. None where they aren't answered so.
pub fn refused_puts(alloc: Global) -> Result<Option<u64>, AllocError> {
    let mut disk = MemoryDisk::new(alloc, Vec::new(alloc));
    let calls = [
        Call::Put(Upload::Parent, 0, 1),
        Call::Put(Upload::Parent, 0, 2),
        Call::Put(Upload::Parent, 0, 3),
        Call::Start,
        Call::Put(Upload::Parent, 0, 5),
    ];
    if answers(alloc, &mut disk, 1000, &calls, &[404, 404, 404, 201, 201])? {
        Ok(Some(slots_of(&disk)))
    } else {
        Ok(None)
    }
}

/// Where a block is written that is answered 503, and behind it the one that takes its slot.
#[derive(Clone, Copy)]
pub enum Place {
    /// At two indexes of a volume.
    Volume,
    /// In two uploads.
    Uploads,
}

const VOLUME: [Call; 2] = [Call::CreateEmpty, Call::Write(0, 1)];

const VOLUME_WRITES: [Call; 2] = [Call::Write(0, 2), Call::Write(1, 3)];

const VOLUME_READS: [Call; 2] = [Call::Read(0), Call::Read(1)];

const UPLOADS: [Call; 3] = [
    Call::Start,
    Call::StartApart,
    Call::Put(Upload::Parent, 0, 1),
];

const UPLOAD_PUTS: [Call; 2] = [
    Call::Put(Upload::Parent, 0, 2),
    Call::Put(Upload::Child, 0, 3),
];

// An upload is read by a volume that is made of it.
const UPLOAD_READS: [Call; 6] = [
    Call::Complete(Upload::Parent, 1),
    Call::CreateSecond,
    Call::Read(0),
    Call::Complete(Upload::Child, 1),
    Call::CreateVolume,
    Call::ReadSecond(0),
];

// Writes the first block.
fn is_begun(alloc: Global, disk: &mut MemoryDisk, place: Place) -> Result<bool, AllocError> {
    match place {
        Place::Volume => answers(alloc, disk, 1000, &VOLUME, &[201, 201]),
        Place::Uploads => answers(alloc, disk, 1000, &UPLOADS, &[201, 201, 201]),
    }
}

// Writes one over it, and another one, and tells what they are answered.
fn write_both(alloc: Global, disk: &mut MemoryDisk, place: Place) -> Result<[u16; 3], AllocError> {
    match place {
        Place::Volume => statuses(alloc, disk, &VOLUME_WRITES),
        Place::Uploads => statuses(alloc, disk, &UPLOAD_PUTS),
    }
}

/// How many stops there are at the moments of a write that was answered 503 and of another that takes its slot, and at how many of them each
/// block is whole. None where no call of the disk has the number.
pub fn taken_again(
    alloc: Global,
    number: u64,
    place: Place,
) -> Result<Option<[u32; 2]>, AllocError> {
    let mut disk = MemoryDisk::new(alloc, vec![in alloc; number]?);
    if !is_begun(alloc, &mut disk, place)? {
        return Ok(Some([0, 0]));
    }
    let first = disk.moment();
    match write_both(alloc, &mut disk, place)? {
        [201, 201, 0] => Ok(None),
        [503, 201, 0] if slots_of(&disk) == 2 => Ok(Some(stops_from(alloc, &disk, first, place)?)),
        _ => Ok(Some([0, 0])),
    }
}

// How many stops there are from a moment on, and at how many of them each block is whole.
fn stops_from(
    alloc: Global,
    disk: &MemoryDisk,
    first: u64,
    place: Place,
) -> Result<[u32; 2], AllocError> {
    let (mut stops, mut whole) = (0u32, 0u32);
    for moment in first..=disk.moment() {
        stops = stops.saturating_add(4);
        whole = whole.saturating_add(whole_at(alloc, disk, moment, place)?);
    }
    Ok([stops, whole])
}

fn slots_of(disk: &MemoryDisk) -> u64 {
    disk.end(Area::Blocks) / BLOCK as u64
}

// At how many stops of this moment each block is whole.
fn whole_at(
    alloc: Global,
    disk: &MemoryDisk,
    moment: u64,
    place: Place,
) -> Result<u32, AllocError> {
    let mut count = 0u32;
    for pick in PICKS {
        if moment > disk.moment() {
            return Ok(count);
        }
        let mut left = disk.crash(moment, pick)?;
        count = count.saturating_add(are_whole(alloc, &mut left, place)? as u32);
    }
    Ok(count)
}

// Whether the first block is one of the two that were written there, and the second that which was, or none.
fn are_whole(alloc: Global, disk: &mut MemoryDisk, place: Place) -> Result<bool, AllocError> {
    let input = match place {
        Place::Volume => input_of(alloc, &VOLUME_READS, 1)?,
        Place::Uploads => input_of(alloc, &UPLOAD_READS, 1)?,
    };
    let ended = session(alloc, disk, input)?;
    let Some(found) = replies(alloc, ended.written.as_slice())? else {
        return Ok(false);
    };
    match found.as_slice() {
        [first, second] => Ok(is_one_of(first) && (is_block(second, 0) || is_block(second, 3))),
        [_, _, first, _, _, second] => {
            Ok(is_one_of(first) && (second.status == 404 || is_block(second, 3)))
        }
        _ => Ok(false),
    }
}

fn is_one_of(reply: &Reply<'_>) -> bool {
    is_block(reply, 1) || is_block(reply, 2)
}
