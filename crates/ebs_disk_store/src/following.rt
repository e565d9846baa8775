// Following the records of a journal.
ghost use Rattle.std.specs.Prelude.{◌≡◌, ◌≤◌, ◌<◌, ◌^◌, None, Some, true, not, IfSome, IfNone, OnOk};
ghost use Rattle.ebs_holds.specs.Counted.{KeepsBlocks};
ghost use Rattle.ebs_holds.specs.Holds.{nodes_in};
ghost use Rattle.ebs_slots.specs.inner.Slots.{IsFree};
ghost use Rattle.ebs_collect.specs.Slices.{IsCounted, Frees};
ghost use Rattle.ebs_model.specs.Limits.{bad_member};
ghost use Rattle.ebs_kept.specs.inner.Counted.{ChangesCounted};
ghost use Rattle.ebs_kept.specs.inner.Requests.{write_at};
ghost use Rattle.ebs_records.specs.declared.record.Record.TheVariants.{Accepted, Advance};
ghost use Rattle.ebs_records.specs.Records.{IsRecord};
ghost use Rattle.ebs_recovery.specs.Made.{State, called, advanced, is_taken, stated};
ghost use Rattle.ebs_recovery.specs.inner.Changes.{IsRowChange};
ghost use Rattle.ebs_disk_store.specs.inner.Following.{IsKeptState, IsBrought, Makes, Follows, FollowsRecord, FollowsPayload, FollowsAll, judged};

use crate::sweeping::{collect_all, sweep};
use crate::taking::release_old;
use ebs_collect::blocks_stay;
use ebs_kept::{Kept, Place};
use ebs_model::{Account, Answer, Bytes, Failure, Moment, Request};
use ebs_records::{AcceptedCall, Read, Record, read_record};
use ebs_slots::Slots;
use std::alloc::Global;

/// Why a record isn't followed.
#[derive(Clone, Copy, Debug, PartialEq, Eq)]
pub(crate) enum Unfollowed {
    /// It is no record, or no change of the state before it.
    Bad,
    /// It is of a kind that no store of this kind writes.
    NotBuilt,
    /// There wasn't memory enough.
    Memory,
}

/// Where records aren't followed any more.
#[derive(Clone, Copy, Debug)]
pub(crate) struct Stopped {
    /// So many were followed before.
    pub(crate) behind: usize,
    pub(crate) why: Unfollowed,
}

/// A block that a record names.
#[derive(Clone, Copy, Debug)]
pub(crate) struct Brought {
    pub(crate) place: Place,
    pub(crate) index: u64,
    pub(crate) digest: [u8; 32],
    pub(crate) slot: u64,
}

fn judge(stays: bool, answered: Result<Answer, Failure>) -> Result<(), Unfollowed>
    ensures { result ≡ judged stays answered }
{
    match answered {
        Ok(_) if stays => Err(Unfollowed::Bad),
        Ok(_) => Ok(()),
        Err(Failure::Refused(_)) => Err(Unfollowed::Bad),
        Err(Failure::Memory) => Err(Unfollowed::Memory),
    }
}

// A call that brings no block.
fn call(kept: &mut Kept, account: Account, at: Moment, request: &Request) -> Result<(), Unfollowed>
    requires later { kept.old.machine.clock.second ≤ at.second }
    requires early { at.second ≤ 2 ^ 36 }
    requires within { bad_member request.now ≡ None }
    requires row { IsRowChange request.now }
    ensures makes { Makes kept.old.machine kept.new.machine at account request.now result }
    ensures blocks { KeepsBlocks (nodes_in kept.old.holding) (nodes_in kept.new.holding) }
{
    let before = kept.changes();
    let answered = kept.act(account, at, request);
    judge(kept.changes() == before, answered)
}

// A block that is put.
fn put(kept: &mut Kept, account: Account, at: Moment, block: &Brought) -> Result<(), Unfollowed>
    requires later { kept.old.machine.clock.second ≤ at.second }
    requires early { at.second ≤ 2 ^ 36 }
    ensures makes { Makes kept.old.machine kept.new.machine at account (write_at block.now.place block.now.index block.now.digest block.now.digest) result }
    ensures counted { ChangesCounted kept.old kept.new (write_at block.now.place block.now.index block.now.digest block.now.digest) }
{
    let before = kept.changes();
    let answered = kept.put(account, at, &block.place, block.index, block.digest);
    judge(kept.changes() == before, answered)
}

// Tells whether no block has the slot. A stamp without a block may have it still, and loses it then. What waits is looked at
// first, so that all rows are walked only where time alone took the block, which is once for each row that it ends at most.
fn free_slot(kept: &mut Kept, slots: &mut Slots, slot: u64) -> bool
    requires state { IsKeptState kept.old.machine slots.old }
    requires counted { IsCounted slots.old (nodes_in kept.old.holding) }
    ensures machine { kept.new.machine ≡ kept.old.machine }
    ensures state { IsKeptState kept.new.machine slots.new }
    ensures counted { IsCounted slots.new (nodes_in kept.new.holding) }
    ensures frees { Frees slots.old slots.new }
    ensures taken { result ≡ not (is_taken (record { machine = kept.old.machine; slots = slots.old.keys }) slot) }
    ensures free { result ≡ true → IsFree slots.new slot }
{
    if slots.is_free(slot) {
        return true;
    }
    collect_all(kept, slots);
    if slots.is_free(slot) {
        return true;
    }
    sweep(kept, slots);
    slots.is_free(slot)
}

// A call that brings a block.
fn block(
    kept: &mut Kept,
    slots: &mut Slots,
    call: &AcceptedCall,
    block: &Brought,
) -> Result<(), Unfollowed>
    requires state { IsKeptState kept.old.machine slots.old }
    requires counted { IsCounted slots.old (nodes_in kept.old.holding) }
    requires later { kept.old.machine.clock.second ≤ call.now.at.second }
    requires early { call.now.at.second ≤ 2 ^ 36 }
    requires brought { IsBrought call.now block.now }
    ensures follows { Follows kept.old.machine slots.old kept.new.machine slots.new (called (record call.now { request = stated call.now.request })) result }
    ensures counted { OnOk result (IsCounted slots.new (nodes_in kept.new.holding)) }
{
    if !free_slot(kept, slots, block.slot) {
        return Err(Unfollowed::Bad);
    }
    let stamp = kept.stamps();
    let replaced = kept.replaced_at(&block.place, block.index);
    match put(kept, call.account, call.at, block) {
        Ok(()) => match slots.place(stamp, block.slot) {
            Ok(()) => {
                release_old(slots, replaced);
                kept.blocks_have_slots();
                Ok(())
            }
            Err(_) => Err(Unfollowed::Memory),
        },
        Err(why) => Err(why),
    }
}

// The block that a record of a call brings.
fn block_of(call: &AcceptedCall) -> Option<Brought>
    requires { IsRecord (Accepted call.now) }
    ensures some { IfSome result (λ b. IsBrought call.now b) }
    ensures none { IfNone result (IsRowChange call.now.request × (call.now.slot ≡ None) × (bad_member call.now.request ≡ None)) }
{
    let slot = call.slot.unwrap_or(0);
    match &call.request {
        Request::PutSnapshotBlock {
            key,
            index,
            digest,
            ..
        } => Some(Brought {
            place: Place::Upload(*key),
            index: *index,
            digest: *digest,
            slot,
        }),
        Request::WriteVolumeBlock {
            key,
            index,
            digest,
            ..
        } => Some(Brought {
            place: Place::Volume(*key),
            index: *index,
            digest: *digest,
            slot,
        }),
        _ => None,
    }
}

// A call that was accepted.
fn accepted(kept: &mut Kept, slots: &mut Slots, made: &AcceptedCall) -> Result<(), Unfollowed>
    requires state { IsKeptState kept.old.machine slots.old }
    requires counted { IsCounted slots.old (nodes_in kept.old.holding) }
    requires value { IsRecord (Accepted made.now) }
    ensures follows { Follows kept.old.machine slots.old kept.new.machine slots.new (called (record made.now { request = stated made.now.request })) result }
    ensures counted { OnOk result (IsCounted slots.new (nodes_in kept.new.holding)) }
{
    blocks_stay();
    if made.at.second < kept.clock().second {
        return Err(Unfollowed::Bad);
    }
    match block_of(made) {
        Some(brought) => block(kept, slots, made, &brought),
        None => call(kept, made.account, made.at, &made.request),
    }
}

// Time has passed.
fn advance(kept: &mut Kept, slots: &Slots, at: Moment) -> Result<(), Unfollowed>
    requires state { IsKeptState kept.old.machine slots.now }
    requires early { at.second ≤ 2 ^ 36 }
    ensures follows { Follows kept.old.machine slots.now kept.new.machine slots.now (advanced at) result }
    ensures holding { kept.new.holding ≡ kept.old.holding }
{
    if at.second <= kept.clock().second {
        return Err(Unfollowed::Bad);
    }
    kept.tick(at);
    Ok(())
}

// One record.
fn follow(kept: &mut Kept, slots: &mut Slots, made: &Record) -> Result<(), Unfollowed>
    requires state { IsKeptState kept.old.machine slots.old }
    requires counted { IsCounted slots.old (nodes_in kept.old.holding) }
    requires value { IsRecord made.now }
    ensures follows { FollowsRecord kept.old.machine slots.old kept.new.machine slots.new made.now result }
    ensures counted { OnOk result (IsCounted slots.new (nodes_in kept.new.holding)) }
{
    match made {
        Record::Accepted(made) => accepted(kept, slots, made),
        Record::Advance(at) => advance(kept, slots, *at),
        Record::Moved(_) => Err(Unfollowed::NotBuilt),
    }
}

// What one payload spells.
fn follow_payload(
    alloc: Global,
    kept: &mut Kept,
    slots: &mut Slots,
    payload: &[u8],
) -> Result<(), Unfollowed>
    requires state { IsKeptState kept.old.machine slots.old }
    requires counted { IsCounted slots.old (nodes_in kept.old.holding) }
    ensures follows { FollowsPayload kept.old.machine slots.old kept.new.machine slots.new payload.now result }
    ensures counted { OnOk result (IsCounted slots.new (nodes_in kept.new.holding)) }
{
    match read_record(alloc, payload) {
        Read::Value(made) => follow(kept, slots, &made),
        Read::NoValue => Err(Unfollowed::Bad),
        Read::Memory => Err(Unfollowed::Memory),
    }
}

/// All payloads, one after the other.
pub(crate) fn follow_all(
    alloc: Global,
    kept: &mut Kept,
    slots: &mut Slots,
    payloads: &[Bytes],
) -> Result<(), Stopped>
    requires state { IsKeptState kept.old.machine slots.old }
    requires counted { IsCounted slots.old (nodes_in kept.old.holding) }
    ensures follows { FollowsAll kept.old.machine slots.old kept.new.machine slots.new payloads.now result }
    ensures counted { OnOk result (IsCounted slots.new (nodes_in kept.new.holding)) }
{
    let mut behind = 0;
    for payload in payloads {
        if let Err(why) = follow_payload(alloc, kept, slots, payload.as_slice()) {
            return Err(Stopped { behind, why });
        }
        behind += 1;
    }
    Ok(())
}
