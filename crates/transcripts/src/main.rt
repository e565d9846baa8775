//! Plays written sessions over memory, each from an empty store, and tells which are answered as it is written. Its words
//! are the names of the files.
#![tactic(auto)]

mod line;
mod play;
mod reader;
mod script;

use crate::play::play;
use crate::reader::read_scripts;
use crate::script::Script;
use std::alloc::Global;
use std::process::ExitCode;
use std::{env, fs, io};

fn main(rt: HostRuntime) -> ExitCode {
    match play_files(&rt) {
        Ok(true) => ExitCode::SUCCESS,
        _ => ExitCode::FAILURE,
    }
}

// Whether each session of each file is answered as it is written.
fn play_files(rt: &HostRuntime) -> io::Result<bool> {
    let mut is_well = true;
    for name in env::args(rt)?.skip(1) {
        let text = fs::read_to_string(rt, name.as_str())?;
        is_well = play_file(rt, name.as_str(), text.as_str())? && is_well;
    }
    Ok(is_well)
}

fn play_file(rt: &HostRuntime, name: &str, text: &str) -> io::Result<bool> {
    match read_scripts(rt.alloc(), text) {
        Ok(scripts) => play_scripts(rt, name, scripts),
        Err(number) => {
            println!(rt; "{name}: line {number} is none of a session")?;
            Ok(false)
        }
    }
}

fn play_scripts(rt: &HostRuntime, name: &str, scripts: Vec<Script>) -> io::Result<bool> {
    let mut count = 0u64;
    let mut is_well = true;
    for script in scripts {
        let title = script.title.clone()?;
        match play(rt.alloc(), script)? {
            None => count = count.saturating_add(1),
            Some(difference) => {
                println!(rt; "{name}: {title}: {difference}")?;
                is_well = false;
            }
        }
    }
    println!(rt; "{name}: {count} sessions")?;
    Ok(is_well)
}
