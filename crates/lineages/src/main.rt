//! Plays steps on the arrays of snapshots and volumes. Each line of standard input is a step (`src/step.rt` has their words), and
//! a line is written for each step that asks or collects. A step that is none ends the program with status 1.
#![tactic(auto)]

mod asking;
mod changing;
mod collecting;
mod played;
mod step;

use crate::asking::answer;
use crate::changing::change;
use crate::collecting::collect;
use crate::played::Played;
use crate::step::{Step, read_step};
use std::io::{self, BufRead, BufReader};
use std::process::ExitCode;

fn main(rt: HostRuntime) -> ExitCode {
    match play_lines(&rt) {
        Ok(true) => ExitCode::SUCCESS,
        _ => ExitCode::FAILURE,
    }
}

// Whether each line is a step.
fn play_lines(rt: &HostRuntime) -> io::Result<bool> {
    let mut played = Played::new(rt.alloc());
    let lines = BufReader::new(rt.alloc(), rt.reader())?.lines(rt.alloc());
    for line in lines {
        match read_step(line?.as_str()) {
            Some(step) => play(rt, &mut played, step)?,
            None => return Ok(false),
        }
    }
    Ok(true)
}

fn play(rt: &HostRuntime, played: &mut Played, step: Step) -> io::Result<()> {
    match step {
        Step::Change(step) => Ok(change(played, step)?),
        Step::Collect(step) => collect(rt, played, step),
        Step::Ask(step) => answer(rt, played.holdings(), step),
    }
}
