// One turn of a call.
ghost use Rattle.std.specs.Prelude.{◌≡◌, IfOk, OnErr};
ghost use Rattle.ebs_disk_store.specs.inner.Puts.{with_bytes};
ghost use Rattle.ebs_turns.specs.declared.line.Deed.TheVariants.{Spends};
ghost use Rattle.ebs_turns.specs.Known.{IsAt, IsResting, IsSame};
ghost use Rattle.ebs_desk.specs.Calls.{Answered, Called};
ghost use Rattle.ebs_desk.specs.Staging.{HasStaged, Keeps, MayTake};
ghost use Rattle.ebs_desk.specs.Tasks.{request_of, IsPrepared};

use crate::desk::Receipt;
use crate::item::Item;
use crate::leaving::{leave, leave_staged};
use crate::shelf::Shelf;
use crate::task::{Task, apply_task};
use ebs_disk_store::{Loaded, Promise, PutHead, Stop, Store, judge};
use ebs_lawful::answers_are_own;
use ebs_model::{Account, Moment, Request};
use ebs_slots::{Lease, Prepared};
use ebs_turns::{Deed, Turns};
use ebs_world::Disk;
use std::snapshot::Snapshot;
use std::sync::Wait;

pub(crate) type Line<S, D> = Turns<Shelf<Store<S>, D>, Item<D>>;

pub(crate) type Caller<S, D> = ebs_turns::Pass<Shelf<Store<S>, D>, Item<D>>;

/// Does a call in one turn. A block that is read is hashed behind it.
pub(crate) fn call_in_one<R: Wait, S: Promise, D: Disk + Drop>(
    rt: &R,
    turns: &Line<S, D>,
    caller: &mut Caller<S, D>,
    account: Account,
    reading: Moment,
    asked: Snapshot<Request>,
    task: Task,
) -> Receipt
    requires at { IsAt turns.now.board.shared turns.now.passes caller.old.seat }
    requires may { MayTake 1 caller.old.seat.me }
    requires asked { asked.value ≡ request_of task }
    requires prepared { IsPrepared task }
    ensures at { IsAt turns.now.board.shared turns.now.passes caller.new.seat }
    ensures rests { IsResting caller.new.seat.me }
    ensures same { IsSame caller.old.seat.me.0 caller.new.seat.me.0 }
    ensures called { Called S.sound D.view turns.now.board.shared.key.first.value caller.old.seat.me.0 account reading asked.value result caller.new.seat.me.0 }
{
    let Shelf {
        mut store,
        mut disk,
        entries,
    } = turns.begin(rt, caller);
    let before = Snapshot::of(&disk);
    answers_are_own();
    let loaded = apply_task(&mut store, &mut disk, account, reading, task);
    let (item, place, entries) = leave(account, reading, asked, before, &disk, &loaded, entries);
    let shelf = Shelf {
        store,
        disk,
        entries,
    };
    turns.end(caller, shelf, item, Deed::Nothing);
    let answer = judge(loaded);
    Receipt { answer, place }
}

/// Stages a block in one turn.
pub(crate) fn stage<R: Wait, S: Promise, D: Disk + Drop>(
    rt: &R,
    turns: &Line<S, D>,
    caller: &mut Caller<S, D>,
    block: &Prepared,
) -> Result<Lease, Stop>
    requires at { IsAt turns.now.board.shared turns.now.passes caller.old.seat }
    requires may { MayTake 2 caller.old.seat.me }
    ensures at { IsAt turns.now.board.shared turns.now.passes caller.new.seat }
    ensures same { IsSame caller.old.seat.me.0 caller.new.seat.me.0 }
    ensures word { caller.new.seat.me.0.ticket_word ≡ caller.old.seat.me.0.ticket_word }
    ensures ok { IfOk result (λ lease. Keeps lease block.now caller.new.seat.me) }
    ensures err { OnErr result (IsResting caller.new.seat.me) }
    ensures staged { HasStaged S.sound D.view turns.now.board.shared.key.first.value caller.old.seat.me.0.number caller.old.seat.me.0.seen caller.new.seat.me.0.seen block.now result }
{
    let Shelf {
        mut store,
        mut disk,
        entries,
    } = turns.begin(rt, caller);
    let before = Snapshot::of(&disk);
    let done = store.stage_put(&mut disk, block);
    let (item, deed) = leave_staged(block, before, &disk, &done);
    let shelf = Shelf {
        store,
        disk,
        entries,
    };
    turns.end(caller, shelf, item, deed);
    done
}

/// Puts a block that was staged, in one turn.
pub(crate) fn commit<R: Wait, S: Promise, D: Disk + Drop>(
    rt: &R,
    turns: &Line<S, D>,
    caller: &mut Caller<S, D>,
    account: Account,
    reading: Moment,
    asked: Snapshot<Request>,
    head: PutHead,
    block: Snapshot<Prepared>,
    lease: Lease,
) -> Receipt
    requires at { IsAt turns.now.board.shared turns.now.passes caller.old.seat }
    requires keeps { Keeps lease block.value caller.old.seat.me }
    requires asked { asked.value ≡ with_bytes head block.value }
    ensures at { IsAt turns.now.board.shared turns.now.passes caller.new.seat }
    ensures rests { IsResting caller.new.seat.me }
    ensures same { IsSame caller.old.seat.me.0 caller.new.seat.me.0 }
    ensures word { caller.new.seat.me.0.ticket_word ≡ caller.old.seat.me.0.ticket_word }
    ensures answered { Answered S.sound D.view turns.now.board.shared.key.first.value caller.old.seat.me.0.number caller.old.seat.me.0.seen caller.new.seat.me.0.seen (Spends lease.slot) account reading asked.value result }
{
    let _ = block;
    let slot = lease.slot();
    let Shelf {
        mut store,
        mut disk,
        entries,
    } = turns.begin(rt, caller);
    let before = Snapshot::of(&disk);
    answers_are_own();
    let answer = store.commit_put(&mut disk, account, reading, head, lease);
    let loaded = Loaded::Answered(answer);
    let (item, place, entries) = leave(account, reading, asked, before, &disk, &loaded, entries);
    let shelf = Shelf {
        store,
        disk,
        entries,
    };
    turns.end(caller, shelf, item, Deed::Spends(slot));
    let answer = judge(loaded);
    Receipt { answer, place }
}
