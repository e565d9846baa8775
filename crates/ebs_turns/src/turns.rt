// Turns, and the passes that take them.
ghost use Rattle.std.specs.Prelude.{◌≡◌, ◌<◌, ◌≤◌, ◌^◌, ◌+◌, [], ◌∷◌, ◌++◌, IfOk, IfErr, IfSome, IfNone, true, false, ◌⊎◌};
ghost use Rattle.ebs_turns.specs.Tells.{behind, split_left, spent};
ghost use Rattle.ebs_turns.specs.declared.seats.Place.{Place};
ghost use Rattle.ebs_turns.specs.declared.line.Left.{Left};
ghost use Rattle.ebs_turns.specs.Known.{IsSized, IsAt, IsFirst, IsFree, IsResting, Looked, Began, MayEnd, Ended, IsSame, IsSplit, IsMet, Leaves};

use crate::line::{Deed, Left};
use crate::plays::{
    CountPass, CutPass, EndTurn, LookAtMet, LookAtPasses, LookAtTicket, LookAtTurn, MeetPass,
    TakeTicket, UndoCount,
};
use crate::seats::{Board, Chair, Opening, Place, Top};
use crate::subject::Subject;
use atomic_table::Table;
use std::alloc::Global;
use std::snapshot::Snapshot;
use std::sync::Wait;
use std::thread::yield_now;

/// Below this number of tickets that were taken a pass may take turns.
const MOST_TICKETS: u64 = 1 << 42;

/// After so many looks for its turn a pass sleeps between two.
const QUICK_LOOKS: u32 = 64;

/// A value at which passes take turns.
#[derive(Drop)]
pub struct Turns<T: Subject<I> + Drop, I: Drop> {
    pub board: Board<T, I>,
    pub passes: u64,
}

/// Who may take turns, and what it has seen of the line.
#[derive(Drop)]
pub struct Pass<T, I> {
    pub seat: Chair<T, I>,
    tally: u64,
    ghost tally_is: { tally ≡ seat.me.0.tally },
}

// Lays a place into the slot in hand, and drops the one that was there.
fn lay<T: Subject<I> + Drop, I: Drop>(top: &Top<T, I>, seat: &mut Chair<T, I>, place: Place<T, I>)
    requires table { seat.old.table_id ≡ top.now.table_id }
    requires hand { (old : Place T I) × (seat.old.me.1 ≡ (0, old) ∷ []) }
    ensures same { (seat.new.table_id ≡ seat.old.table_id) × (seat.new.id ≡ seat.old.id) }
    ensures hand { seat.new.me ≡ (seat.old.me.0, (0, place) ∷ []) }
{
    let _ = top.exchange(seat, 0, place);
}

// Waits between two looks, the last of which found this number served: yields at first, and then sleeps while the lower half
// of the word is still what was found. No wake-up is lost: whoever ends a turn raises the word and then wakes all, so where
// the word was raised since the look, either no sleep begins or the wake ends it. The half doesn't come round in between,
// since the word stops at each ticket until its turn ends, and fewer than 2^32 tickets are out.
fn wait<T: Subject<I> + Drop, I: Drop, R: Wait>(rt: &R, top: &Top<T, I>, served: u64, looks: u32)
    requires { 1 < top.now.table_id.words }
{
    if looks < QUICK_LOOKS {
        yield_now();
    } else {
        top.park(rt, 1, (served % (1 << 32)) as u32);
    }
}

impl<T: Subject<I> + Drop, I: Drop> Turns<T, I> {
    /// Looks at the ticket word: whether the pass may take turns, two of them.
    pub fn is_open(&self, pass: &mut Pass<T, I>) -> bool
        requires at { IsAt self.now.board.shared self.now.passes pass.old.seat }
        requires live { 1 ≤ pass.old.seat.me.0.tally }
        ensures at { IsAt self.now.board.shared self.now.passes pass.new.seat }
        ensures looked { Looked result pass.old.seat.me pass.new.seat.me }
    {
        self.board.shared.load::<LookAtTicket>(&mut pass.seat, 0) < MOST_TICKETS
    }

    /// Takes a ticket, waits until it is served, and takes the value out.
    pub fn begin<R: Wait>(&self, rt: &R, pass: &mut Pass<T, I>) -> T
        requires at { IsAt self.now.board.shared self.now.passes pass.old.seat }
        requires free { IsFree pass.old.seat.me }
        ensures at { IsAt self.now.board.shared self.now.passes pass.new.seat }
        ensures began { Began T.follows pass.old.seat.me.0 pass.new.seat.me result }
    {
        let top = &self.board.shared;
        let seat = &mut pass.seat;
        let ticket = top.fetch_add::<TakeTicket>(seat, 0, 1);
        let mut looks = 0;
        for _ in rt.forever() {
            let served = top.load::<LookAtTurn>(seat, 1);
            if served == ticket {
                return match top.exchange(seat, 0, Place::Out) {
                    Place::Home(value, _) => value,
                    Place::Out => unreachable!(),
                };
            }
            wait(rt, top, served, looks);
            looks = QUICK_LOOKS.min(looks.saturating_add(1));
        }
        unreachable!()
    }

    /// Puts the value back with what the turn leaves, and serves the next ticket.
    pub fn end(&self, pass: &mut Pass<T, I>, value: T, item: I, deed: Deed)
        requires at { IsAt self.now.board.shared self.now.passes pass.old.seat }
        requires due { MayEnd T.follows pass.old.seat.me value item deed }
        ensures at { IsAt self.now.board.shared self.now.passes pass.new.seat }
        ensures ended { Ended pass.old.seat.me item deed pass.new.seat.me }
    {
        let top = &self.board.shared;
        let seat = &mut pass.seat;
        lay(top, seat, Place::Home(value, Some(Left { item, deed })));
        top.fetch_add::<EndTurn>(seat, 1, 1);
        top.wake_all(1);
    }

    /// Turns at this value for so many passes, and their first pass. Err hands the value back, for want of memory.
    pub fn new(alloc: Global, value: T, passes: u32) -> Result<(Turns<T, I>, Pass<T, I>), T>
        requires some { 1 ≤ passes }
        requires first { T.follows value [] value }
        ensures ok { IfOk result (λ r. (r.0.passes ≡ passes) × IsFirst value passes r.0.board.shared r.1.seat) }
        ensures err { IfErr result (λ r. r ≡ value) }
    {
        let about = Opening {
            first: Snapshot::of(&value),
            passes: passes as u64,
        };
        let mut slots = Vec::new(alloc);
        if let Err(failed) = slots.push(Place::Home(value, None)) {
            return match failed.value {
                Place::Home(value, _) => Err(value),
                Place::Out => unreachable!(),
            };
        }
        match Table::new(alloc, &[0, 0, 1], slots, &about) {
            Ok((board, seat)) => {
                let turns = Turns {
                    board,
                    passes: passes as u64,
                };
                Ok((turns, Pass { seat, tally: 1 }))
            }
            Err(mut refused) => match refused.slots.pop() {
                Some(Place::Home(value, _)) => Err(value),
                _ => unreachable!(),
            },
        }
    }

    /// A pass that has seen what this one has, with a number of its own. None where so many passes were made as there may be.
    pub fn split(&self, pass: &mut Pass<T, I>) -> Option<Pass<T, I>>
        requires at { IsAt self.now.board.shared self.now.passes pass.old.seat }
        requires rests { IsResting pass.old.seat.me }
        ensures at { IsAt self.now.board.shared self.now.passes pass.new.seat }
        ensures rests { IsResting pass.new.seat.me }
        ensures same { IsSame pass.old.seat.me.0 pass.new.seat.me.0 × (pass.new.seat.me.0.seen ≡ pass.old.seat.me.0.seen) }
        ensures some { IfSome result (λ p. IsAt self.now.board.shared self.now.passes p.seat × IsResting p.seat.me × IsSplit pass.old.seat.me.0 p.seat.me.0 × (p.seat.me.0.passes_word < self.now.passes)) }
        ensures none { IfNone result (self.now.passes ≤ pass.new.seat.me.0.passes_word) }
    {
        let top = &self.board.shared;
        let seat = &mut pass.seat;
        if top.fetch_add::<CountPass>(seat, 2, 1) >= self.passes {
            top.fetch_sub::<UndoCount>(seat, 2, 1);
            return None;
        }
        let seat = top.split_seat::<CutPass>(seat);
        Some(Pass { seat, tally: 1 })
    }

    /// The kept pass has seen what both had, and stands for both.
    pub fn meet(&self, kept: &mut Pass<T, I>, other: Pass<T, I>)
        requires kept { IsAt self.now.board.shared self.now.passes kept.old.seat }
        requires other { IsAt self.now.board.shared self.now.passes other.seat }
        requires rests { IsResting kept.old.seat.me }
        requires other_rests { IsResting other.seat.me }
        ensures at { IsAt self.now.board.shared self.now.passes kept.new.seat }
        ensures rests { IsResting kept.new.seat.me }
        ensures met { IsMet kept.old.seat.me.0 other.seat.me.0 kept.new.seat.me.0 }
        ensures few { (kept.new.seat.me.0.tally ≤ self.now.passes) × (self.now.passes < 2 ^ 32) }
    {
        let top = &self.board.shared;
        let Pass { seat, tally } = other;
        top.join_seat::<MeetPass>(&mut kept.seat, seat);
        top.load::<LookAtMet>(&mut kept.seat, 0);
        kept.tally += tally;
    }

    // A pass that this one doesn't stand for is out.
    fn has_others(&self, pass: &mut Pass<T, I>) -> bool
        requires at { IsAt self.now.board.shared self.now.passes pass.old.seat }
        requires rests { IsResting pass.old.seat.me }
        ensures at { IsAt self.now.board.shared self.now.passes pass.new.seat }
        ensures rests { IsResting pass.new.seat.me }
        ensures same { IsSame pass.old.seat.me.0 pass.new.seat.me.0 × (pass.new.seat.me.0.seen ≡ pass.old.seat.me.0.seen) }
        ensures yes { result ≡ true → (pass.new.seat.me.0.tally < self.now.passes) × (pass.new.seat.me.0.tally < pass.new.seat.me.0.passes_word) }
        ensures no { result ≡ false → (pass.new.seat.me.0.alone ≡ 1) ⊎ (self.now.passes ≤ pass.new.seat.me.0.tally) }
    {
        if pass.tally >= self.passes {
            return false;
        }
        self.board.shared.load::<LookAtPasses>(&mut pass.seat, 2) > pass.tally
    }

    /// The value that the line leaves, where the pass stands for all that were made.
    pub fn close(self, pass: Pass<T, I>) -> Result<T, (Turns<T, I>, Pass<T, I>)>
        requires at { IsAt self.board.shared self.passes pass.seat }
        requires rests { IsResting pass.seat.me }
        ensures ok { IfOk result (Leaves T.follows pass.seat.me.0) }
        ensures err { IfErr result (λ r. (r.0 ≡ self) × IsAt self.board.shared self.passes r.1.seat × IsResting r.1.seat.me × IsSame pass.seat.me.0 r.1.seat.me.0 × (r.1.seat.me.0.seen ≡ pass.seat.me.0.seen)
            × (r.1.seat.me.0.tally < self.passes) × (r.1.seat.me.0.tally < r.1.seat.me.0.passes_word)) }
    {
        let mut pass = pass;
        if self.has_others(&mut pass) {
            return Err((self, pass));
        }
        let Turns { board, passes: _ } = self;
        let Pass { seat, tally: _ } = pass;
        let mut closed = board.close_with(seat);
        let place = closed.take(0);
        closed.free();
        match place {
            Place::Home(value, _) => Ok(value),
            Place::Out => unreachable!(),
        }
    }
}
