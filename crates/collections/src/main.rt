//! Plays a session, a collection and another session over a disk in memory: once for each call of the disk, which then fails, and once for each moment from the
//! collection's beginning on at which it may be stopped, by four ways in which what wasn't synced may be left. Tells what came of them.
#![tactic(auto)]

mod collected;

use crate::collected::{play_around, survive_around, told_failures};
use std::io;
use std::process::ExitCode;

/// More calls of the disk than there are.
const MOST: u64 = 300;

fn main(rt: HostRuntime) -> ExitCode {
    match fail_around(&rt).and_then(|_| stop_around(&rt)) {
        Ok(()) => ExitCode::SUCCESS,
        Err(_) => ExitCode::FAILURE,
    }
}

fn fail_around(rt: &HostRuntime) -> io::Result<()> {
    let mut told = 0u32;
    for number in 0..MOST {
        match told_failures(rt.alloc(), number)? {
            Some(0) => break,
            Some(1) => told = told.saturating_add(1),
            _ => {
                println!(rt;
                    "call {number} of the disk failed around a collection, and something else came of it"
                )?;
            }
        }
    }
    println!(rt;
        "{told} failures of the disk around a collection: each was told once, what was asked was done when it was asked again, and 4 slots were held at the end"
    )
}

fn stop_around(rt: &HostRuntime) -> io::Result<()> {
    let alloc = rt.alloc();
    let Some((disk, done)) = play_around(alloc)? else {
        return println!(rt; "the collection isn't done");
    };
    let (mut survived, mut stops) = (0u32, 0u32);
    for moment in done..=disk.moment() {
        stops = stops.saturating_add(4);
        survived = survived.saturating_add(survive_around(alloc, &disk, moment)?);
    }
    println!(rt;
        "{survived} of {stops} crashes around a collection: each block was the one that was put there, and the rest could be done"
    )
}
