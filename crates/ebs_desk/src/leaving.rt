// What turns leave.
ghost use Rattle.std.specs.Prelude.{◌≡◌, ◌≢◌, ◌<◌, ◌^◌, true, false};
ghost use Rattle.ebs_disk_store.specs.inner.Fetched.{answer_of};
ghost use Rattle.ebs_desk.specs.Calls.{IsLeft, IsTicked};
ghost use Rattle.ebs_desk.specs.Staging.{IsLeftStaged, IsLeftStop};

use crate::desk::TurnRefusal;
use crate::item::Item;
use ebs_disk_store::{Loaded, Progress, Stop, Unavailable};
use ebs_model::{Account, Answer, Moment, Refusal, Request};
use ebs_slots::{Lease, Prepared};
use ebs_turns::Deed;
use std::snapshot::Snapshot;

fn is_unavailable(answer: &Answer) -> bool
    ensures yes { result ≡ true → answer.now ≡ Answer.Refused Refusal.Unavailable }
    ensures no { result ≡ false → answer.now ≢ Answer.Refused Refusal.Unavailable }
{
    match answer {
        Answer::Refused(refusal) => match refusal {
            Refusal::Unavailable => true,
            _ => false,
        },
        _ => false,
    }
}

fn is_memory(answer: &Answer) -> bool
    ensures yes { result ≡ true → answer.now ≡ Answer.Memory }
    ensures no { result ≡ false → answer.now ≢ Answer.Memory }
{
    match answer {
        Answer::Memory => true,
        _ => false,
    }
}

// Of a block that was loaded the answer is that block, or that it is damaged.
fn has_failed(loaded: &Loaded) -> bool
    ensures yes { result ≡ true → answer_of loaded.now ≡ Answer.Refused Refusal.Unavailable }
    ensures no { result ≡ false → answer_of loaded.now ≢ Answer.Refused Refusal.Unavailable }
{
    match loaded {
        Loaded::Answered(answer) => is_unavailable(answer),
        Loaded::Block { .. } => false,
    }
}

fn wants_memory(loaded: &Loaded) -> bool
    ensures yes { result ≡ true → answer_of loaded.now ≡ Answer.Memory }
    ensures no { result ≡ false → answer_of loaded.now ≢ Answer.Memory }
{
    match loaded {
        Loaded::Answered(answer) => is_memory(answer),
        Loaded::Block { .. } => false,
    }
}

// What the turn of a call leaves: its item, its place where it is an entry, and the number of entries.
pub(crate) fn leave<D>(
    account: Account,
    reading: Moment,
    asked: Snapshot<Request>,
    before: Snapshot<D>,
    disk: &D,
    loaded: &Loaded,
    entries: u64,
) -> (Item<D>, Option<u64>, u64)
    requires { entries < 2 ^ 63 }
    ensures { IsLeft account reading asked before disk.now (answer_of loaded.now) entries result }
{
    if has_failed(loaded) {
        return (Item::Fault(before, Snapshot::of(disk)), None, entries);
    }
    if wants_memory(loaded) {
        return (Item::Blank, None, entries);
    }
    let item = Item::Entry(account, reading, asked, Snapshot::of(loaded));
    (item, Some(entries), entries + 1)
}

// What the turn of a slice leaves, and what is told of it.
pub(crate) fn leave_tick<D>(
    reading: Moment,
    work: u32,
    before: Snapshot<D>,
    disk: &D,
    done: Result<Progress, Unavailable>,
) -> (Item<D>, Result<Progress, TurnRefusal>)
    ensures { IsTicked reading work before disk.now done result }
{
    match done {
        Ok(progress) => (Item::Tick(reading, work, progress), Ok(progress)),
        Err(_) => {
            let item = Item::Fault(before, Snapshot::of(disk));
            (item, Err(TurnRefusal::Unavailable))
        }
    }
}

// What a staging leaves that stopped, and its deed.
fn leave_stop<D>(before: Snapshot<D>, disk: &D, stop: Stop) -> (Item<D>, Deed)
    ensures { IsLeftStop before disk.now stop result }
{
    match stop {
        Stop::Unavailable => (Item::Fault(before, Snapshot::of(disk)), Deed::Nothing),
        Stop::Memory => (Item::Blank, Deed::Nothing),
    }
}

// What the turn of a staging leaves, and its deed.
pub(crate) fn leave_staged<D>(
    block: &Prepared,
    before: Snapshot<D>,
    disk: &D,
    done: &Result<Lease, Stop>,
) -> (Item<D>, Deed)
    ensures { IsLeftStaged block.now before disk.now done.now result }
{
    match done {
        Ok(lease) => (Item::Staged(Snapshot::of(block)), Deed::Takes(lease.slot())),
        Err(stop) => leave_stop(before, disk, *stop),
    }
}
