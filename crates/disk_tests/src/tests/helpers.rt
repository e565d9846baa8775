//! Disks in memory, and what a crash may leave of each unsynced byte.
use ebs_world::{CrashPick, MemoryDisk};
use std::alloc::{AllocError, Global};

pub const PICKS: [CrashPick; 4] = [
    CrashPick::Old,
    CrashPick::New,
    CrashPick::Fill(0),
    CrashPick::Fill(255),
];

/// A disk of which these calls fail.
pub fn failing(alloc: Global, calls: &[u64]) -> Result<MemoryDisk, AllocError> {
    let listed = Vec::from_slice(alloc, calls)?;
    Ok(MemoryDisk::new(alloc, listed))
}
