//! Plays worked steps on the catalogue, each session from an empty one, and tells which are answered as it is written. Its
//! words are the names of the files.
#![tactic(auto)]

mod bin_requests;
mod catalog;
mod play;
mod policy_requests;
mod requests;
mod row_requests;
mod session;
mod shown;
mod shown_lists;
mod shown_refusals;
mod step;
mod volume_requests;
mod words;

use crate::play::play;
use crate::session::{Session, read_sessions};
use std::alloc::Global;
use std::process::ExitCode;
use std::{env, fs, io};

fn main(rt: HostRuntime) -> ExitCode {
    match play_files(&rt) {
        Ok(true) => ExitCode::SUCCESS,
        _ => ExitCode::FAILURE,
    }
}

// Whether each session of each file is answered as it is written.
fn play_files(rt: &HostRuntime) -> io::Result<bool> {
    let mut is_well = true;
    for name in env::args(rt)?.skip(1) {
        let text = fs::read_to_string(rt, name.as_str())?;
        is_well = play_file(rt, name.as_str(), text.as_str())? && is_well;
    }
    Ok(is_well)
}

fn play_file(rt: &HostRuntime, name: &str, text: &str) -> io::Result<bool> {
    match read_sessions(rt.alloc(), text) {
        Ok(sessions) => play_sessions(rt, name, sessions.as_slice()),
        Err(number) => {
            println!(rt; "{name}: line {number} is none of a session")?;
            Ok(false)
        }
    }
}

fn play_sessions(rt: &HostRuntime, name: &str, sessions: &[Session<'_>]) -> io::Result<bool> {
    let mut count = 0u64;
    let mut is_well = true;
    for session in sessions {
        let title = session.title;
        match play(rt.alloc(), session)? {
            None => count = count.saturating_add(1),
            Some(difference) => {
                println!(rt; "{name}: {title}: {difference}")?;
                is_well = false;
            }
        }
    }
    println!(rt; "{name}: {count} sessions")?;
    Ok(is_well)
}
