//! Reads bytes and writes again what they are. A line of standard input is the word `record` or `checkpoint` and bytes in
//! hexadecimal. For each a line is written: the bytes of what was read, or `none`.
#![tactic(auto)]

mod again;

use crate::again::written_again;
use std::alloc::{AllocError, Global};
use std::io::{self, BufRead, BufReader};
use std::process::ExitCode;

fn main(rt: HostRuntime) -> ExitCode {
    match answer_lines(&rt) {
        Ok(()) => ExitCode::SUCCESS,
        Err(_) => ExitCode::FAILURE,
    }
}

fn answer_lines(rt: &HostRuntime) -> io::Result<()> {
    let lines = BufReader::new(rt.alloc(), rt.reader())?.lines(rt.alloc());
    for line in lines {
        let answer = answer(rt.alloc(), line?.as_str())?;
        println!(rt; "{answer}")?;
    }
    Ok(())
}

fn answer(alloc: Global, line: &str) -> Result<String, AllocError> {
    let Some((kind, digits)) = line.split_once(" ") else {
        return String::from_str(alloc, "none");
    };
    let Ok(bytes) = hex::decode(alloc, digits) else {
        return String::from_str(alloc, "none");
    };
    match written_again(alloc, kind, bytes.as_slice())? {
        Some(again) => hex::encode(alloc, again.as_slice()),
        None => String::from_str(alloc, "none"),
    }
}
