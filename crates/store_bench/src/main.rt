//! Writes so many blocks to the volume of a new store in `ebs-data`, by the words `puts COUNT`, and with a slice of a collection behind
//! each, by `slices COUNT WORK`. Before them the volume has twice as many, all of a snapshot that was deleted: whichever of them a
//! write hides, those that are left wait again. It prints a line in front of the writes, and one that counts behind them.
#![tactic(auto)]

mod calls;
mod rounds;

use crate::calls::{new_store, used};
use crate::rounds::{Plan, Tally, play, prepare};
use ebs_disk_store::Store;
use ebs_words::given_words;
use ebs_world::{Disk, FolderDisk};
use std::alloc::Global;
use std::io;
use std::marker::Brand;
use std::process::ExitCode;

fn main(rt: HostRuntime) -> ExitCode {
    let alloc = rt.alloc();
    let Ok(words) = given_words(&rt, alloc) else {
        return ExitCode::FAILURE;
    };
    let Some(plan) = read_plan(words.as_slice()) else {
        return ExitCode::FAILURE;
    };
    let mut disk = FolderDisk::new(&rt);
    match run(&rt, alloc, &mut disk, plan) {
        Ok(true) => ExitCode::SUCCESS,
        _ => ExitCode::FAILURE,
    }
}

fn read_plan(words: &[String]) -> Option<Plan> {
    match words {
        [_, count] => Some(Plan {
            count: count.as_str().parse().ok()?,
            work: None,
        }),
        [_, count, work] => Some(Plan {
            count: count.as_str().parse().ok()?,
            work: Some(work.as_str().parse().ok()?),
        }),
        _ => None,
    }
}

// Whether there was a store for the writes.
fn run<D: Disk>(rt: &HostRuntime, alloc: Global, disk: &mut D, plan: Plan) -> io::Result<bool> {
    let Ok(mut store) = new_store(alloc, disk) else {
        return Ok(false);
    };
    let told = tell(rt, &mut store, disk, plan);
    drop(store);
    told
}

// Whether all was there for them.
fn tell<D: Disk>(
    rt: &HostRuntime,
    store: &mut Store<Brand>,
    disk: &mut D,
    plan: Plan,
) -> io::Result<bool> {
    if !prepare(store, rt.alloc(), disk, plan.count.saturating_mul(2)) {
        return Ok(false);
    }
    println!(rt; "ready")?;
    let tally = play(store, rt.alloc(), disk, plan);
    let slots = used(store);
    let Tally {
        puts,
        slices,
        looked,
    } = tally;
    println!(rt; "{puts} puts, {slices} slices, {looked} blocks looked at, {slots} slots")?;
    Ok(true)
}
