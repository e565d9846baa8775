//! The session of `ebs` by a clock of its own on a new disk in memory, so that its answers to an input are always the same. Its words are the clock's
//! readings in seconds since 1970, one for each call; the last one stands for all later calls, and 1000 where there is none.
#![tactic(auto)]

use ebs_cli::run;
use ebs_model::Moment;
use ebs_world::{ListClock, MemoryDisk, StdSink, StdSource};
use std::process::ExitCode;
use std::{env, io};

const READING: Moment = Moment { second: 1000 };

fn main(rt: HostRuntime) -> ExitCode {
    match replay(&rt) {
        Ok(status) => ExitCode::from(status),
        Err(_) => ExitCode::FAILURE,
    }
}

fn replay(rt: &HostRuntime) -> io::Result<u8> {
    let alloc = rt.alloc();
    let words = vec![in alloc; String::from_str(alloc, "session")?]?;
    let mut clock = read_clock(rt)?;
    let mut input = StdSource::new(rt);
    let mut output = StdSink::new(rt);
    let mut disk = MemoryDisk::new(alloc, Vec::new(alloc));
    Ok(run(
        alloc,
        words.as_slice(),
        &mut input,
        &mut output,
        &mut disk,
        &mut clock,
    ))
}

fn read_clock(rt: &HostRuntime) -> io::Result<ListClock> {
    let mut readings = Vec::new(rt.alloc());
    for word in env::args(rt)?.skip(1) {
        let Ok(second) = word.parse() else {
            return Err(io::Error::from(io::ErrorKind::InvalidInput));
        };
        readings.push(Moment { second })?;
    }
    if readings.is_empty() {
        readings.push(READING)?;
    }
    Ok(ListClock::new(readings))
}
