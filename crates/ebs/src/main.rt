//! `ebs`: the snapshot store over standard input and output, and a folder.
#![tactic(auto)]

mod counting;
mod telling;

use crate::counting::CountingSink;
use crate::telling::{tell_refused, words_for};
use ebs_cli::run;
use ebs_opening::refusal_of;
use ebs_telling::{Cause, tell, tell_made};
use ebs_words::given_words;
use ebs_world::{Disk, FolderDisk, StdSink, StdSource, SystemClock};
use std::alloc::Global;
use std::fs;
use std::process::ExitCode;

const NAME: &str = "ebs";

/// The status where there is no memory even for the words.
const NO_MEMORY: u8 = 8;

/// The file that is there once a store was made.
const MARKED: &str = "ebs-data/archive";

fn main(rt: HostRuntime) -> ExitCode {
    let alloc = rt.alloc();
    let status = match given_words(&rt, alloc) {
        Ok(words) => run_on_folder(&rt, alloc, words.as_slice()),
        Err(_) => {
            tell(&rt, NAME, NO_MEMORY, words_for(NO_MEMORY));
            NO_MEMORY
        }
    };
    ExitCode::from(status)
}

// Does what the words say, and tells on standard error what its status alone doesn't.
fn run_on_folder(rt: &HostRuntime, alloc: Global, words: &[String]) -> u8 {
    let had_store = fs::exists(rt, MARKED).unwrap_or(true);
    let command = match words {
        [command, ..] => command.as_str(),
        [] => "",
    };
    let is_making = matches!(command, "init" | "sample");
    let mut input = StdSource::new(rt);
    let mut output = CountingSink::new(StdSink::new(rt), command == "tick");
    let mut disk = FolderDisk::new(rt);
    let mut clock = SystemClock::new(rt);
    let status = run(alloc, words, &mut input, &mut output, &mut disk, &mut clock);
    if status == 0 {
        if !had_store && !is_making {
            tell_made(rt, NAME);
        }
        tell_refused(rt, output.refused(), output.lines());
    } else if disk.is_used() {
        tell(rt, NAME, status, Cause::Used);
    } else {
        tell(
            rt,
            NAME,
            status,
            cause_of(alloc, &mut disk, status, is_making),
        );
    }
    status
}

// Why the program ended with a status, on a disk that no other process uses.
fn cause_of<D: Disk>(alloc: Global, disk: &mut D, status: u8, is_making: bool) -> Cause {
    if status != 3 {
        return words_for(status);
    }
    if is_making {
        return Cause::MadeBefore;
    }
    match refusal_of(alloc, disk) {
        Some(refusal) => Cause::Unopened(refusal),
        None => words_for(status),
    }
}
