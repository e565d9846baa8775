//! Plays a session of a start, puts, a completion, a child and a deletion over a disk in memory: once for each call of the disk, which then fails, and once
//! for each moment at which it may be stopped, by four ways in which what wasn't synced may be left. Tells what came of them.
#![tactic(auto)]

mod answered;
mod reused;

use crate::answered::{locked_deletion, refused_write, second_write, snapshot_of_run};
use crate::reused::{Place, refused_puts, taken_again};
use crash_play::{Outcome, fail_at, play_script, survive};
use std::alloc::{AllocError, Global};
use std::io;
use std::process::ExitCode;

/// More calls of the disk than there are.
const MOST: u64 = 300;

fn main(rt: HostRuntime) -> ExitCode {
    match fail_each(&rt)
        .and_then(|_| stop_at_each(&rt))
        .and_then(|_| stop_behind_answers(&rt))
        .and_then(|_| take_slots_again(&rt))
    {
        Ok(()) => ExitCode::SUCCESS,
        Err(_) => ExitCode::FAILURE,
    }
}

fn fail_each(rt: &HostRuntime) -> io::Result<()> {
    let (mut unopened, mut refused) = (0u32, 0u32);
    for number in 0..MOST {
        match fail_at(rt.alloc(), number)? {
            Outcome::NotOpened => unopened = unopened.saturating_add(1),
            Outcome::Refused => refused = refused.saturating_add(1),
            Outcome::NoFault => break,
            Outcome::Other => {
                println!(rt; "call {number} of the disk failed, and something else came of it")?;
            }
        }
    }
    println!(rt;
        "{unopened} failures of the disk: the store wasn't opened, and was at the next start"
    )?;
    println!(rt;
        "{refused} failures of the disk: one call was answered with 503, accepted when it was given again, and all was there at the next start"
    )
}

fn stop_at_each(rt: &HostRuntime) -> io::Result<()> {
    let alloc = rt.alloc();
    let Some((disk, moments)) = play_script(alloc)? else {
        return println!(rt; "the script isn't accepted");
    };
    let mut survived = 0u32;
    for moment in 0..=disk.moment() {
        survived = survived.saturating_add(survive(alloc, &disk, moments.as_slice(), moment)?);
    }
    println!(rt;
        "{survived} of {} crashes: what was acknowledged was there, and the rest could be done",
        4 * (disk.moment() as u128 + 1)
    )
}

fn stop_behind_answers(rt: &HostRuntime) -> io::Result<()> {
    let alloc = rt.alloc();
    let count = second_write(alloc)?;
    println!(rt; "{count} of 4 stops behind two answered writes of a block: the second is read")?;
    let (mut first, mut second, mut neither) = (0u32, 0u32, 0u32);
    for number in 0..MOST {
        let Some(counts) = refused_write(alloc, number)? else {
            break;
        };
        let [a, b, c] = counts;
        first = first.saturating_add(a);
        second = second.saturating_add(b);
        neither = neither.saturating_add(c);
    }
    println!(rt;
        "stops behind an answered write and one that was answered 503: {first} times the first is read, {second} times the second, {neither} times neither"
    )?;
    let count = locked_deletion(alloc)?;
    println!(rt;
        "{count} of 4 stops behind a deletion that a lock refused: the snapshot is there"
    )?;
    let count = snapshot_of_run(alloc)?;
    println!(rt; "{count} of 4 stops behind a policy's run: its snapshot is read back")
}

fn take_slots_again(rt: &HostRuntime) -> io::Result<()> {
    let alloc = rt.alloc();
    match refused_puts(alloc)? {
        Some(slots) => println!(rt;
            "slots that three refused puts and an accepted one take: {slots}"
        )?,
        None => println!(rt; "the puts aren't answered so")?,
    }
    let broken = count_broken(alloc, Place::Volume)?;
    println!(rt;
        "{broken} stops behind a write that was answered 503 and one that takes its slot leave a block that isn't whole"
    )?;
    let broken = count_broken(alloc, Place::Uploads)?;
    println!(rt;
        "{broken} stops behind a put that was answered 503 and one into another upload that takes its slot leave a block that isn't whole"
    )
}

// At how many stops a block isn't whole; as many as there can be where no write was answered 503.
fn count_broken(alloc: Global, place: Place) -> Result<u32, AllocError> {
    let (mut stops, mut whole) = (0u32, 0u32);
    for number in 0..MOST {
        let Some(counts) = taken_again(alloc, number, place)? else {
            break;
        };
        let [a, b] = counts;
        stops = stops.saturating_add(a);
        whole = whole.saturating_add(b);
    }
    Ok(if stops == 0 {
        u32::MAX
    } else {
        stops.saturating_sub(whole)
    })
}
