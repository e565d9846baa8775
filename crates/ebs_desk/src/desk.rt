// The desk, and its calls.
ghost use Rattle.std.specs.Prelude.{◌≡◌, ◌≢◌, ◌≤◌, ◌<◌, ◌^◌, None, true, false, IfOk, IfErr, IfSome, IfNone};
ghost use Rattle.std.specs.FinMap as fin;
ghost use Rattle.ebs_recovery.specs.inner.Fits.{Fits};
ghost use Rattle.ebs_turns.specs.Known.{IsAt, IsFirst, IsResting, IsSame, IsSplit, IsMet};
ghost use Rattle.ebs_desk.specs.Calls.{Called, Closed, Saved, Ticked};

use crate::item::Item;
use crate::laws::turns_leave_fronts;
use crate::leaving::leave_tick;
use crate::saving::{leave_saving, save_store};
use crate::shelf::Shelf;
use crate::task::prepare;
use crate::two_turns::do_task;
use ebs_disk_store::{Progress, Promise, Store, Unavailable};
use ebs_model::{Account, Answer, Moment, Refusal, Request, Spent};
use ebs_turns::{Deed, Turns};
use ebs_world::Disk;
use std::alloc::Global;
use std::snapshot::Snapshot;
use std::sync::Wait;

/// A store with its disk, at which passes take turns.
#[derive(Drop)]
pub struct Desk<S: Promise, D: Disk + Drop> {
    pub turns: Turns<Shelf<Store<S>, D>, Item<D>>,
}

/// Who may call at a desk, and what it has seen of the line.
#[derive(Drop)]
pub struct Pass<S: Promise, D: Disk + Drop> {
    pub inner: ebs_turns::Pass<Shelf<Store<S>, D>, Item<D>>,
    ghost rests: { IsResting inner.seat.me },
}

/// An answer, and the place of the call among all that were answered.
#[derive(Drop)]
pub struct Receipt {
    pub answer: Answer,
    pub place: Option<u64>,
}

/// Why a turn without a call didn't do its work.
#[derive(Clone, Copy, Debug, PartialEq, Eq)]
pub enum TurnRefusal {
    /// The disk failed, which its count of faults shows.
    Unavailable,
    /// 2^42 tickets were taken.
    Turns,
    /// No checkpoint can be written: it would be too long, or the journal's epochs are used up.
    Exhausted,
    /// There wasn't memory enough.
    Memory,
}

impl<S: Promise, D: Disk + Drop> Desk<S, D> {
    /// A desk for so many passes, and its first pass. Err hands both back, for want of memory.
    pub fn new(
        alloc: Global,
        store: Store<S>,
        disk: D,
        passes: u32,
    ) -> Result<(Desk<S, D>, Pass<S, D>), (Store<S>, D)>
        requires some { 1 ≤ passes }
        requires fits { Fits S.sound (D.view disk) store }
        requires bare { store.slots.leases ≡ fin.empty }
        ensures ok { IfOk result (λ r. (r.0.turns.passes ≡ passes) × IsFirst (record { store = store; disk = disk; entries = 0 }) passes r.0.turns.board.shared r.1.inner.seat) }
        ensures err { IfErr result (λ r. r ≡ (store, disk)) }
    {
        let shelf = Shelf {
            store,
            disk,
            entries: 0,
        };
        match Turns::new(alloc, shelf, passes) {
            Ok((turns, inner)) => Ok((Desk { turns }, Pass { inner })),
            Err(shelf) => Err((shelf.store, shelf.disk)),
        }
    }

    /// Does a call of an account, as the store does it, in one turn. The block of a put within its limits is hashed before, and where it has the stated SHA-256 it is staged in a
    /// turn of its own, so that calls of others come between that and the put. A block that is read is hashed behind the turn: what was loaded there decides the answer.
    pub fn call<R: Wait>(
        &self,
        rt: &R,
        pass: &mut Pass<S, D>,
        account: Account,
        reading: Moment,
        request: Request,
    ) -> Receipt
        requires at { IsAt self.now.turns.board.shared self.now.turns.passes pass.old.inner.seat }
        ensures at { IsAt self.now.turns.board.shared self.now.turns.passes pass.new.inner.seat }
        ensures same { IsSame pass.old.inner.seat.me.0 pass.new.inner.seat.me.0 }
        ensures called { Called S.sound D.view self.now.turns.board.shared.key.first.value pass.old.inner.seat.me.0 account reading request result pass.new.inner.seat.me.0 }
    {
        let turns = &self.turns;
        let inner = &mut pass.inner;
        if !turns.is_open(inner) {
            return Receipt {
                answer: Answer::Refused(Refusal::Exhausted(Spent::Turns)),
                place: None,
            };
        }
        let asked = Snapshot::of(&request);
        let task = prepare(request);
        do_task(rt, turns, inner, account, reading, asked, task)
    }

    /// Gives up what time has ended by the reading, and looks at so many of the blocks that wait since nobody may have them any more, as the store
    /// does it, in one turn.
    pub fn collect<R: Wait>(
        &self,
        rt: &R,
        pass: &mut Pass<S, D>,
        reading: Moment,
        work: u32,
    ) -> Result<Progress, TurnRefusal>
        requires at { IsAt self.now.turns.board.shared self.now.turns.passes pass.old.inner.seat }
        ensures at { IsAt self.now.turns.board.shared self.now.turns.passes pass.new.inner.seat }
        ensures same { IsSame pass.old.inner.seat.me.0 pass.new.inner.seat.me.0 }
        ensures ticked { Ticked S.sound D.view self.now.turns.board.shared.key.first.value pass.old.inner.seat.me.0 reading work result pass.new.inner.seat.me.0 }
    {
        let turns = &self.turns;
        let inner = &mut pass.inner;
        if !turns.is_open(inner) {
            return Err(TurnRefusal::Turns);
        }
        let Shelf {
            mut store,
            mut disk,
            entries,
        } = turns.begin(rt, inner);
        let before = Snapshot::of(&disk);
        let done = store.collect_slice(&mut disk, reading, work);
        let (item, told) = leave_tick(reading, work, before, &disk, done);
        let shelf = Shelf {
            store,
            disk,
            entries,
        };
        turns.end(inner, shelf, item, Deed::Nothing);
        told
    }

    /// Writes a checkpoint in the place of the records, as the store does it, in one turn, where at least so many stand behind the last one.
    pub fn checkpoint<R: Wait>(
        &self,
        rt: &R,
        pass: &mut Pass<S, D>,
        least: u64,
    ) -> Result<(), TurnRefusal>
        requires at { IsAt self.now.turns.board.shared self.now.turns.passes pass.old.inner.seat }
        ensures at { IsAt self.now.turns.board.shared self.now.turns.passes pass.new.inner.seat }
        ensures same { IsSame pass.old.inner.seat.me.0 pass.new.inner.seat.me.0 }
        ensures saved { Saved S.sound D.view self.now.turns.board.shared.key.first.value pass.old.inner.seat.me.0 least result pass.new.inner.seat.me.0 }
    {
        let turns = &self.turns;
        let inner = &mut pass.inner;
        if !turns.is_open(inner) {
            return Err(TurnRefusal::Turns);
        }
        let Shelf {
            mut store,
            mut disk,
            entries,
        } = turns.begin(rt, inner);
        let before = Snapshot::of(&disk);
        let done = save_store(&mut store, &mut disk, least);
        let (item, told) = leave_saving(before, &disk, done);
        let shelf = Shelf {
            store,
            disk,
            entries,
        };
        turns.end(inner, shelf, item, Deed::Nothing);
        told
    }

    /// A pass that has seen what this one has, with a number of its own. None where so many passes were made as the desk is for.
    pub fn split(&self, pass: &mut Pass<S, D>) -> Option<Pass<S, D>>
        requires at { IsAt self.now.turns.board.shared self.now.turns.passes pass.old.inner.seat }
        ensures at { IsAt self.now.turns.board.shared self.now.turns.passes pass.new.inner.seat }
        ensures same { IsSame pass.old.inner.seat.me.0 pass.new.inner.seat.me.0 × (pass.new.inner.seat.me.0.seen ≡ pass.old.inner.seat.me.0.seen) }
        ensures some { IfSome result (λ p. IsAt self.now.turns.board.shared self.now.turns.passes p.inner.seat × IsSplit pass.old.inner.seat.me.0 p.inner.seat.me.0
            × (p.inner.seat.me.0.passes_word < self.now.turns.passes)) }
        ensures none { IfNone result (self.now.turns.passes ≤ pass.new.inner.seat.me.0.passes_word) }
    {
        let inner = self.turns.split(&mut pass.inner)?;
        Some(Pass { inner })
    }

    /// The kept pass has seen what both had, and stands for both.
    pub fn meet(&self, kept: &mut Pass<S, D>, other: Pass<S, D>)
        requires kept { IsAt self.now.turns.board.shared self.now.turns.passes kept.old.inner.seat }
        requires other { IsAt self.now.turns.board.shared self.now.turns.passes other.inner.seat }
        ensures at { IsAt self.now.turns.board.shared self.now.turns.passes kept.new.inner.seat }
        ensures met { IsMet kept.old.inner.seat.me.0 other.inner.seat.me.0 kept.new.inner.seat.me.0 }
    {
        let Pass { inner } = other;
        self.turns.meet(&mut kept.inner, inner);
    }

    /// The store and the disk that the line leaves, where the pass stands for all that were made, and what a crash may have left of it meanwhile.
    pub fn close(self, pass: Pass<S, D>) -> Result<(Store<S>, D), (Desk<S, D>, Pass<S, D>)>
        requires at { IsAt self.turns.board.shared self.turns.passes pass.inner.seat }
        ensures ok { IfOk result (λ r. Closed S.sound D.view self.turns.board.shared.key.first.value pass.inner.seat.me.0.seen r.0 r.1) }
        ensures err { IfErr result (λ r. (r.0 ≡ self) × IsAt self.turns.board.shared self.turns.passes r.1.inner.seat × IsSame pass.inner.seat.me.0 r.1.inner.seat.me.0
            × (r.1.inner.seat.me.0.seen ≡ pass.inner.seat.me.0.seen) × (r.1.inner.seat.me.0.tally < self.turns.passes) × (r.1.inner.seat.me.0.tally < r.1.inner.seat.me.0.passes_word)) }
    {
        turns_leave_fronts::<S, D>();
        let Desk { turns } = self;
        let Pass { inner } = pass;
        match turns.close(inner) {
            Ok(shelf) => Ok((shelf.store, shelf.disk)),
            Err((turns, inner)) => Err((Desk { turns }, Pass { inner })),
        }
    }
}
