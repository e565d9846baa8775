// What starts of the program come to, beside what is written of it.
use crate::script::{DiskChange, Ends, Run, Script};
use ebs_model::{Bytes, Moment};
use ebs_world::{Disk, ListClock, MemoryDisk, MemorySink, MemorySource};
use memory_program::run_in_memory;
use std::alloc::{AllocError, Global};

/// The first difference from what is written, if there is one.
pub fn play(alloc: Global, script: Script) -> Result<Option<String>, AllocError> {
    let Script {
        title: _,
        fails,
        runs,
    } = script;
    let mut disk = MemoryDisk::new(alloc, fails);
    for (number, run) in runs.into_iter().enumerate() {
        if let Some(difference) = play_run(alloc, &mut disk, run)? {
            let start = number.saturating_add(1);
            return Ok(Some(format!(in alloc; "start {start}: {difference}")?));
        }
    }
    Ok(None)
}

fn play_run(
    alloc: Global,
    disk: &mut MemoryDisk,
    start: Run,
) -> Result<Option<String>, AllocError> {
    let Run {
        words,
        changes,
        ends,
        input,
        mut readings,
        wanted,
        places,
        status,
    } = start;
    if readings.is_empty() {
        readings.push(Moment { second: 0 })?;
    }
    change(disk, changes.as_slice());
    let (mut source, mut sink) = both_ends(alloc, ends, input);
    let mut clock = ListClock::new(readings);
    let end = run_in_memory(
        alloc,
        words.as_slice(),
        &mut source,
        &mut sink,
        disk,
        &mut clock,
    );
    if end != status {
        return Ok(Some(format!(in alloc; "status {end} in the place of {status}")?));
    }
    match first_difference(sink.bytes(), wanted.as_slice()) {
        None => Ok(None),
        Some(at) => difference_at(alloc, sink.bytes(), places.as_slice(), at),
    }
}

// Places behind an area's end stay as they are.
fn change(disk: &mut MemoryDisk, changes: &[DiskChange]) {
    for each in changes {
        match *each {
            DiskChange::Turned(area, at) if at < disk.end(area) => disk.spoil(area, at),
            DiskChange::Written(area, at, byte) if at < disk.end(area).min(1 << 61) => {
                let _ = disk.write(area, at, &[byte]);
            }
            _ => {}
        }
    }
}

// Where the input comes from and the output goes to.
fn both_ends(alloc: Global, ends: Ends, mut input: Vec<u8>) -> (MemorySource, MemorySink) {
    let Ends {
        piece,
        cut,
        input_fails,
        output_fails,
    } = ends;
    if let Some(length) = cut {
        input.truncate(length);
    }
    let source = MemorySource::new(Bytes::from_vec(input), piece.max(1), input_fails);
    (source, MemorySink::new(alloc, output_fails))
}

// The place of the first byte that differs, or where one of the two ends.
fn first_difference(written: &[u8], wanted: &[u8]) -> Option<usize> {
    if written == wanted {
        return None;
    }
    let same = written
        .iter()
        .zip(wanted.iter())
        .take_while(|(a, b)| *a == *b);
    Some(same.count())
}

fn difference_at(
    alloc: Global,
    written: &[u8],
    places: &[usize],
    at: usize,
) -> Result<Option<String>, AllocError> {
    let number = places.iter().filter(|place| **place <= at).count();
    let rest = written.get(at..).unwrap_or(&[]);
    let shown = rest.get(..80).unwrap_or(rest);
    let told = String::from_utf8_lossy(alloc, shown)?;
    Ok(Some(format!(in alloc; "message {number} is answered otherwise from `{told}` on")?))
}
