// Who gives room back behind the work, and ends the journal.
ghost use Rattle.ebs_turns.specs.Known.{IsAt, IsSame};

use crate::bell::Bell;
use ebs_collect::Progress;
use ebs_desk::{Desk, Pass};
use ebs_disk_store::Promise;
use ebs_model::Moment;
use ebs_world::{Clock, Disk};
use std::sync::Wait;

/// How many of the blocks that wait are looked at in a turn.
const WORK: u32 = 64;

/// A checkpoint takes the place of the records once there are so many.
const MOST_RECORDS: u64 = 4096;

/// Collects in rounds, each behind the bell, until a round behind the last ringer's end.
pub(crate) fn collect_behind<R: Wait, S: Promise, D: Disk + Drop, K: Clock>(
    rt: &R,
    desk: &Desk<S, D>,
    pass: &mut Pass<S, D>,
    clock: &mut K,
    bell: &Bell,
)
    requires at { IsAt desk.now.turns.board.shared desk.now.turns.passes pass.old.inner.seat }
    ensures at { IsAt desk.now.turns.board.shared desk.now.turns.passes pass.new.inner.seat }
    ensures same { IsSame pass.old.inner.seat.me.0 pass.new.inner.seat.me.0 }
{
    'round: for _ in rt.forever() {
        let has_ringers = bell.wait(rt);
        let reading = clock.now();
        collect_round(rt, desk, pass, reading);
        if !has_ringers {
            return;
        }
    }
    unreachable!()
}

// Collects until nothing waits, and then ends the journal where it is long; or until a turn is refused.
fn collect_round<R: Wait, S: Promise, D: Disk + Drop>(
    rt: &R,
    desk: &Desk<S, D>,
    pass: &mut Pass<S, D>,
    reading: Moment,
)
    requires at { IsAt desk.now.turns.board.shared desk.now.turns.passes pass.old.inner.seat }
    ensures at { IsAt desk.now.turns.board.shared desk.now.turns.passes pass.new.inner.seat }
    ensures same { IsSame pass.old.inner.seat.me.0 pass.new.inner.seat.me.0 }
{
    'slice: for _ in rt.forever() {
        match desk.collect(rt, pass, reading, WORK) {
            Ok(Progress::More) => {}
            Ok(Progress::Finished) => {
                end_journal(rt, desk, pass);
                return;
            }
            Err(_) => return,
        }
    }
    unreachable!()
}

// Writes a checkpoint where enough records stand. One that is refused is tried again in the next round.
fn end_journal<R: Wait, S: Promise, D: Disk + Drop>(
    rt: &R,
    desk: &Desk<S, D>,
    pass: &mut Pass<S, D>,
)
    requires at { IsAt desk.now.turns.board.shared desk.now.turns.passes pass.old.inner.seat }
    ensures at { IsAt desk.now.turns.board.shared desk.now.turns.passes pass.new.inner.seat }
    ensures same { IsSame pass.old.inner.seat.me.0 pass.new.inner.seat.me.0 }
{
    let _ = desk.checkpoint(rt, pass, MOST_RECORDS);
}
