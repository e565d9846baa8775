// Puts in two turns.
ghost use Rattle.std.specs.Prelude.{◌≡◌, nat_eq};
ghost use Rattle.std.specs.Cmp.Lexicographic.{pointwise};
ghost use Rattle.sha2.specs.Sha256.{sha256};
ghost use Rattle.ebs_model.specs.Limits.{bad_member};
ghost use Rattle.ebs_disk_store.specs.inner.Puts.{stated_in, with_bytes};
ghost use Rattle.ebs_turns.specs.Known.{IsAt, IsResting, IsSame};
ghost use Rattle.ebs_desk.specs.Calls.{Called};
ghost use Rattle.ebs_desk.specs.Staging.{MayTake};
ghost use Rattle.ebs_desk.specs.Tasks.{request_of, IsPrepared};

use crate::desk::Receipt;
use crate::one_turn::{Caller, Line, call_in_one, commit, stage};
use crate::task::Task;
use ebs_disk_store::{Promise, PutHead, Stop};
use ebs_model::{Account, Answer, Moment, Refusal, Request};
use ebs_slots::Prepared;
use ebs_world::Disk;
use std::snapshot::Snapshot;
use std::sync::Wait;

fn is_stated(head: &PutHead, block: &Prepared) -> bool
    ensures { result ≡ pointwise nat_eq (stated_in head.now) (sha256 block.now) }
{
    let stated = match head {
        PutHead::Snapshot { digest, .. } => *digest,
        PutHead::Volume { digest, .. } => *digest,
    };
    stated == block.digest()
}

fn answer_of(stop: Stop) -> Answer
    ensures unavailable { stop ≡ Stop.Unavailable → result ≡ Answer.Refused Refusal.Unavailable }
    ensures memory { stop ≡ Stop.Memory → result ≡ Answer.Memory }
{
    match stop {
        Stop::Unavailable => Answer::Refused(Refusal::Unavailable),
        Stop::Memory => Answer::Memory,
    }
}

// Stages a block in one turn, and puts it in another.
fn put_in_two<R: Wait, S: Promise, D: Disk + Drop>(
    rt: &R,
    turns: &Line<S, D>,
    caller: &mut Caller<S, D>,
    account: Account,
    reading: Moment,
    asked: Snapshot<Request>,
    head: PutHead,
    block: Prepared,
) -> Receipt
    requires at { IsAt turns.now.board.shared turns.now.passes caller.old.seat }
    requires may { MayTake 2 caller.old.seat.me }
    requires asked { asked.value ≡ with_bytes head block }
    ensures at { IsAt turns.now.board.shared turns.now.passes caller.new.seat }
    ensures rests { IsResting caller.new.seat.me }
    ensures same { IsSame caller.old.seat.me.0 caller.new.seat.me.0 }
    ensures called { Called S.sound D.view turns.now.board.shared.key.first.value caller.old.seat.me.0 account reading asked.value result caller.new.seat.me.0 }
{
    let kept = Snapshot::of(&block);
    let done = stage(rt, turns, caller, &block);
    drop(block);
    match done {
        Ok(lease) => commit(
            rt, turns, caller, account, reading, asked, head, kept, lease,
        ),
        Err(stop) => Receipt {
            answer: answer_of(stop),
            place: None,
        },
    }
}

/// Does a call that is ready: in one turn, or in two where it is a put of a block that has the stated SHA-256.
pub(crate) fn do_task<R: Wait, S: Promise, D: Disk + Drop>(
    rt: &R,
    turns: &Line<S, D>,
    caller: &mut Caller<S, D>,
    account: Account,
    reading: Moment,
    asked: Snapshot<Request>,
    task: Task,
) -> Receipt
    requires at { IsAt turns.now.board.shared turns.now.passes caller.old.seat }
    requires may { MayTake 2 caller.old.seat.me }
    requires asked { asked.value ≡ request_of task }
    requires prepared { IsPrepared task }
    ensures at { IsAt turns.now.board.shared turns.now.passes caller.new.seat }
    ensures rests { IsResting caller.new.seat.me }
    ensures same { IsSame caller.old.seat.me.0 caller.new.seat.me.0 }
    ensures called { Called S.sound D.view turns.now.board.shared.key.first.value caller.old.seat.me.0 account reading asked.value result caller.new.seat.me.0 }
{
    match task {
        Task::Put(head, block) => {
            if is_stated(&head, &block) {
                put_in_two(rt, turns, caller, account, reading, asked, head, block)
            } else {
                let task = Task::Put(head, block);
                call_in_one(rt, turns, caller, account, reading, asked, task)
            }
        }
        Task::Fetch(request) => {
            let task = Task::Fetch(request);
            call_in_one(rt, turns, caller, account, reading, asked, task)
        }
        Task::Call(request) => {
            let task = Task::Call(request);
            call_in_one(rt, turns, caller, account, reading, asked, task)
        }
    }
}
