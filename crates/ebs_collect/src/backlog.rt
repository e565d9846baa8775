// Nodes whose blocks wait to be looked at.
use crate::judging::judge;
use ebs_lineage::{Lineage, NodeId, Place};
use ebs_slots::Slots;
use std::marker::Model;

/// Whether blocks still wait after a slice.
#[derive(Clone, Copy, Debug, PartialEq, Eq)]
pub enum Progress {
    More,
    Finished,
}

/// The first block that waits: its node, the node's place, and its index.
#[derive(Clone, Copy, Debug)]
pub(crate) struct Next {
    pub(crate) number: u64,
    pub(crate) place: Place,
    pub(crate) index: u32,
}

/// Blocks that may have lost the last node that found them. They wait by whole nodes, which are linked inside the lineage, so
/// that none of these calls takes memory.
#[derive(Debug, Drop)]
pub struct Backlog {
    first: Option<u64>,
    waiting: u128,
}

impl Model for Backlog {
    ghost use Rattle.ebs_collect.specs.Backlogs.{Queue, queue_code};

    ghost Value = { Queue };

    ghost coded = { queue_code };

    ghost use Rattle.ebs_collect.specs.Shown.{queue_shown};

    ghost view = { λ a. queue_shown a };
}

impl Backlog {
    ghost use Rattle.std.specs.Prelude.{◌≡◌, ◌⊎◌, ◌↔◌, ◌+◌, ◌-◌, ◌≤◌, ◌<◌, ◌^◌, ◌==◌, if◌then◌else◌, ℕ, None, Some, IfSome, IfNone, IsSome, min};
    ghost use Rattle.std.specs.FinMap as map;
    ghost use Rattle.ebs_lineage.specs.Lines.{IsHeld, IsFree, own, parent_of};
    ghost use Rattle.ebs_lineage.specs.Live.{IsOnLine, owner, owner_above};
    ghost use Rattle.ebs_lineage.specs.Reached.{IsCollected};
    ghost use Rattle.ebs_collect.specs.declared.backlog.Progress.TheVariants.{More, Finished};
    ghost use Rattle.ebs_collect.specs.Backlogs.{Queue, IsLinked, IsWaiting, IsLoose, IsHidden, Covers, CoversBut, IsPlacesAlone};
    ghost use Rattle.ebs_collect.specs.Steps.{IsAdded, IsNext, IsPassed};
    ghost use Rattle.ebs_collect.specs.Slices.{IsCounted, Leaves, Frees};

    /// Nothing waits.
    pub fn new() -> Self
        ensures { result ≡ record { first = None; waiting = 0 } }
    {
        Backlog {
            first: None,
            waiting: 0,
        }
    }

    /// How many blocks wait. A number of 64 bits has no room for more than 2^64 - 1 of them.
    pub fn waiting(&self) -> u64
        ensures { result ≡ min self.now.waiting (2 ^ 64 - 1) }
    {
        if self.waiting < 18446744073709551615 {
            self.waiting as u64
        } else {
            u64::MAX
        }
    }

    /// Lets all blocks wait that the node keeps, and its ancestors, as far as nobody holds these. The hold of the node was given
    /// up before.
    pub fn enqueue(&mut self, lineage: &mut Lineage, node: NodeId)
        requires linked { IsLinked self.old lineage.old }
        requires covers { CoversBut lineage.old (λ m i. IsOnLine lineage.old.table.nodes node.number m) }
        ensures linked { IsLinked self.new lineage.new }
        ensures covers { Covers lineage.new }
        ensures nodes { IsPlacesAlone lineage.old lineage.new }
        ensures waits { (m i : ℕ) → IsWaiting lineage.new m i ↔ (IsWaiting lineage.old m i ⊎ (IsOnLine lineage.old.table.nodes node.number m × IsLoose lineage.old.table.nodes m i)) }
        ensures grows { self.old.waiting ≤ self.new.waiting }
    {
        lineage.keeps_lines();
        let mut at = Some(node.number);
        while let Some(number) = at {
            self.visit(lineage, number);
            at = lineage.above(number);
        }
    }

    /// Lets the blocks wait of the node whose block a put at the index has hidden, unless somebody holds it.
    pub fn enqueue_hidden(&mut self, lineage: &mut Lineage, node: NodeId, index: u32)
        requires linked { IsLinked self.old lineage.old }
        requires covers { CoversBut lineage.old (λ m i. IsHidden lineage.old.table.nodes node.number index m) }
        ensures linked { IsLinked self.new lineage.new }
        ensures covers { Covers lineage.new }
        ensures nodes { IsPlacesAlone lineage.old lineage.new }
        ensures waits { (m i : ℕ) → IsWaiting lineage.new m i ↔ (IsWaiting lineage.old m i ⊎ (IsHidden lineage.old.table.nodes node.number index m × IsLoose lineage.old.table.nodes m i)) }
        ensures grows { self.old.waiting ≤ self.new.waiting }
    {
        lineage.keeps_lines();
        let Some(keeper) = lineage.keeper_above(node, index) else {
            return;
        };
        self.visit(lineage, keeper.number);
    }

    /// Looks at so many of the blocks that wait, or at all of them. One that no held node finds is taken out of the lineage, and
    /// with the last one that has its stamp this has no slot any more.
    pub fn slice(&mut self, lineage: &mut Lineage, slots: &mut Slots, work: u32) -> Progress
        requires linked { IsLinked self.old lineage.old }
        requires covers { Covers lineage.old }
        requires counted { IsCounted slots.old lineage.old.table.nodes }
        ensures linked { IsLinked self.new lineage.new }
        ensures covers { Covers lineage.new }
        ensures counted { IsCounted slots.new lineage.new.table.nodes }
        ensures nodes { Leaves lineage.old lineage.new }
        ensures slots { Frees slots.old slots.new }
        ensures waiting { self.new.waiting ≡ self.old.waiting - work }
        ensures progress { result ≡ (if self.new.waiting == 0 then Finished else More) }
        ensures collected { self.new.waiting ≡ 0 → IsCollected lineage.new.table.nodes }
    {
        let mut left = self.steps(work);
        while left > 0 {
            self.step(lineage, slots);
            left -= 1;
        }
        self.progress()
    }

    // How many steps so much work is.
    fn steps(&self, work: u32) -> u32
        ensures { result ≡ min self.now.waiting work }
    {
        if self.waiting < u128::from(work) {
            self.waiting as u32
        } else {
            work
        }
    }

    fn progress(&self) -> Progress
        ensures { result ≡ (if self.now.waiting == 0 then Finished else More) }
    {
        if self.waiting == 0 {
            Progress::Finished
        } else {
            Progress::More
        }
    }

    // Looks at one block.
    fn step(&mut self, lineage: &mut Lineage, slots: &mut Slots)
        requires linked { IsLinked self.old lineage.old }
        requires covers { Covers lineage.old }
        requires counted { IsCounted slots.old lineage.old.table.nodes }
        requires some { 0 < self.old.waiting }
        ensures linked { IsLinked self.new lineage.new }
        ensures covers { Covers lineage.new }
        ensures counted { IsCounted slots.new lineage.new.table.nodes }
        ensures nodes { Leaves lineage.old lineage.new }
        ensures slots { Frees slots.old slots.new }
        ensures waiting { self.old.waiting ≡ self.new.waiting + 1 }
    {
        let Some(next) = self.next(lineage) else {
            return;
        };
        self.pass(lineage, &next);
        judge(lineage, slots, next.number, next.index);
    }

    // The first block that waits.
    fn next(&self, lineage: &Lineage) -> Option<Next>
        requires { IsLinked self.now lineage.now }
        ensures none { IfNone result (self.now.waiting ≡ 0) }
        ensures some { IfSome result (λ next. IsNext self.now lineage.now next) }
    {
        let number = self.first?;
        let place = lineage.place(NodeId { number })?;
        let least = lineage.own_next(NodeId { number }, place.from)?;
        Some(Next {
            number,
            place,
            index: least.0,
        })
    }

    // The first block doesn't wait any more.
    fn pass(&mut self, lineage: &mut Lineage, next: &Next)
        requires linked { IsLinked self.old lineage.old }
        requires next { IsNext self.old lineage.old next.now }
        ensures { IsPassed self.old lineage.old next.now self.new lineage.new }
    {
        if next.place.left == 1 {
            self.pass_last(lineage, next);
        } else {
            self.pass_one(lineage, next);
        }
    }

    // It was the last of its node.
    fn pass_last(&mut self, lineage: &mut Lineage, next: &Next)
        requires linked { IsLinked self.old lineage.old }
        requires next { IsNext self.old lineage.old next.now }
        requires last { next.now.place.left ≡ 1 }
        ensures { IsPassed self.old lineage.old next.now self.new lineage.new }
    {
        lineage.clear_place(NodeId {
            number: next.number,
        });
        let waiting = self.waiting - 1;
        self.first = next.place.next;
        self.waiting = waiting;
    }

    fn pass_one(&mut self, lineage: &mut Lineage, next: &Next)
        requires linked { IsLinked self.old lineage.old }
        requires next { IsNext self.old lineage.old next.now }
        requires more { next.now.place.left ≡ 1 → ⊥ }
        ensures { IsPassed self.old lineage.old next.now self.new lineage.new }
    {
        lineage.keeps_lines();
        let from = next.index + 1;
        let left = next.place.left - 1;
        let waiting = self.waiting - 1;
        let place = Place {
            from,
            left,
            next: next.place.next,
        };
        lineage.set_place(
            NodeId {
                number: next.number,
            },
            place,
        );
        self.waiting = waiting;
    }

    // The node's blocks wait, unless somebody holds it.
    fn visit(&mut self, lineage: &mut Lineage, number: u64)
        requires { IsLinked self.old lineage.old }
        ensures { IsAdded self.old lineage.old number self.new lineage.new }
    {
        let node = NodeId { number };
        let count = lineage.own_len(node);
        if count == 0 {
            return;
        }
        if lineage.is_held(node) {
            return;
        }
        match lineage.place(node) {
            Some(place) => self.rewind(lineage, number, &place, count),
            None => self.push(lineage, number, count),
        }
    }

    // The node goes on top of those that wait.
    fn push(&mut self, lineage: &mut Lineage, number: u64, count: u64)
        requires linked { IsLinked self.old lineage.old }
        requires free { IsFree lineage.old.table.nodes number }
        requires new { map.get lineage.old.places number ≡ None }
        requires count { count ≡ map.len (own lineage.old.table.nodes number) }
        requires some { 1 ≤ count }
        ensures { IsAdded self.old lineage.old number self.new lineage.new }
    {
        lineage.keeps_numbers();
        let waiting = self.waiting + u128::from(count);
        let place = Place {
            from: 0,
            left: count,
            next: self.first,
        };
        lineage.set_place(NodeId { number }, place);
        self.first = Some(number);
        self.waiting = waiting;
    }

    // All of the node's blocks wait again, where it stands.
    fn rewind(&mut self, lineage: &mut Lineage, number: u64, place: &Place, count: u64)
        requires linked { IsLinked self.old lineage.old }
        requires free { IsFree lineage.old.table.nodes number }
        requires place { map.get lineage.old.places number ≡ Some place.now }
        requires count { count ≡ map.len (own lineage.old.table.nodes number) }
        requires some { 1 ≤ count }
        ensures { IsAdded self.old lineage.old number self.new lineage.new }
    {
        lineage.keeps_numbers();
        let others = self.waiting - u128::from(place.left);
        let waiting = others + u128::from(count);
        let whole = Place {
            from: 0,
            left: count,
            next: place.next,
        };
        lineage.set_place(NodeId { number }, whole);
        self.waiting = waiting;
    }
}
