//! Appends records to a new journal in `ebs-data`, by the words `append COUNT SIZE`, or opens the one that is there, by `open`.
#![tactic(auto)]

use ebs_journal::Journal;
use ebs_words::given_words;
use ebs_world::{Disk, FolderDisk};
use std::alloc::Global;
use std::process::ExitCode;

const CHECKPOINT: [u8; 96] = [0; 96];

const LAST_END: u64 = 1 << 40;

fn main(rt: HostRuntime) -> ExitCode {
    let alloc = rt.alloc();
    let Ok(words) = given_words(&rt, alloc) else {
        return ExitCode::FAILURE;
    };
    let mut disk = FolderDisk::new(&rt);
    let Some(count) = act(alloc, &mut disk, words.as_slice()) else {
        return ExitCode::FAILURE;
    };
    match println!(rt; "{count} records") {
        Ok(()) => ExitCode::SUCCESS,
        Err(_) => ExitCode::FAILURE,
    }
}

// The number of records that the journal then has.
fn act<D: Disk>(alloc: Global, disk: &mut D, words: &[String]) -> Option<u64> {
    match words {
        [_] => open(alloc, disk),
        [_, count, size] => {
            let count = count.as_str().parse::<u32>().ok()?;
            let size = size.as_str().parse::<u32>().ok()?;
            append(alloc, disk, count, size)
        }
        _ => None,
    }
}

fn open<D: Disk>(alloc: Global, disk: &mut D) -> Option<u64> {
    let (journal, _replay) = Journal::open(alloc, disk).ok()?;
    Some(journal.since_checkpoint())
}

fn append<D: Disk>(alloc: Global, disk: &mut D, count: u32, size: u32) -> Option<u64> {
    let mut journal = Journal::make(alloc, disk, &CHECKPOINT).ok()?;
    let payload = vec![in alloc; 7u8; size as usize].ok()?;
    for _ in 0..count {
        if !add(&mut journal, disk, &payload) {
            return None;
        }
    }
    Some(journal.since_checkpoint())
}

fn add<D: Disk>(journal: &mut Journal, disk: &mut D, payload: &[u8]) -> bool {
    if !journal.is_clean()
        || journal.end() > LAST_END
        || payload.is_empty()
        || payload.len() > 1048576
    {
        return false;
    }
    journal.append(disk, payload).is_ok()
}
