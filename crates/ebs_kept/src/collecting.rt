// What time has ended, and blocks that nobody finds any more.
ghost use Rattle.std.specs.Prelude.{◌≡◌, ◌≤◌, true, false, IfNone, IfSome, None, IsSome};
ghost use Rattle.std.specs.FinMap as map;
ghost use Rattle.ebs_model.specs.inner.Rows.{aged};
ghost use Rattle.ebs_holds.specs.Holds.{held_in};
ghost use Rattle.ebs_catalog.specs.Held.{rows_in};
ghost use Rattle.ebs_kept.specs.inner.Stamps as stamps;
ghost use Rattle.ebs_kept.specs.inner.Counted.{KeepsShown, IsAllShown, IsShownBefore};

use crate::kept::Kept;
use crate::place::Place;
use crate::stamps::{first_holder, is_shown};
use ebs_catalog::Catalog;
use ebs_collect::Progress;
use ebs_holds::{Holder, Holdings, replaced};
use ebs_model::{Change, Moment};
use ebs_slots::Slots;

impl Kept {
    ghost use Rattle.std.specs.Prelude.{◌≡◌, ◌≤◌, ◌-◌, ◌^◌, ◌==◌, if◌then◌else◌, ℕ, [], false, Some, IfSome, IsSome, min};
    ghost use Rattle.std.specs.FinMap as map;
    ghost use Rattle.ebs_model.specs.declared.keys.SnapKey.{SnapKey};
    ghost use Rattle.ebs_model.specs.declared.keys.VolKey.{VolKey};
    ghost use Rattle.ebs_model.specs.Arrays.{WholeBlock};
    ghost use Rattle.ebs_model.specs.Machine.{advance, array_of, disk_of};
    ghost use Rattle.ebs_slots.specs.inner.Slots.{SlotTable};
    ghost use Rattle.ebs_collect.specs.declared.backlog.Progress.TheVariants.{More, Finished};
    ghost use Rattle.ebs_collect.specs.Slices.{IsCounted, Frees};
    ghost use Rattle.ebs_holds.specs.Holds.{nodes_in};
    ghost use Rattle.ebs_holds.specs.Counted.{KeepsBlocks, replaced_in};
    ghost use Rattle.ebs_kept.specs.inner.Stamps.{HasBlock};
    ghost use Rattle.ebs_kept.specs.inner.Counted.{AreAllShown};
    ghost use Rattle.ebs_kept.specs.inner.Requests.{write_at};

    /// The stamp of the block that the change puts another in the place of. It has a slot.
    pub fn replaced(&self, change: &Change) -> Option<u64>
        ensures value { result ≡ replaced_in self.now.holding change.now.request }
        ensures there { IfSome result (λ stamp. (s : SlotTable) → IsCounted s (nodes_in self.now.holding) → IsSome (map.get s.keys stamp)) }
    {
        replaced(&self.holdings, &change.request)
    }

    /// The stamp of the block that one which is written there takes the place of. It has a slot.
    pub fn replaced_at(&self, place: &Place, index: u64) -> Option<u64>
        ensures value { result ≡ replaced_in self.now.holding (write_at place.now index [] []) }
        ensures there { IfSome result (λ stamp. (s : SlotTable) → IsCounted s (nodes_in self.now.holding) → IsSome (map.get s.keys stamp)) }
    {
        match place {
            Place::Upload(key) => self.holdings.replaced(&Holder::snapshot(key), index),
            Place::Volume(key) => self.holdings.replaced(&Holder::volume(key), index),
        }
    }

    /// Whether something has an array that isn't shown any more at the moment. It looks at all arrays.
    pub fn has_ended(&self, now: Moment) -> bool
        requires { self.now.machine.clock.second ≤ now.second }
        ensures { result ≡ false → (key : SnapKey) → array_of (advance self.now.machine now) key ≡ array_of self.now.machine key }
    {
        match next_unshown(&self.catalog, &self.holdings, &first_holder(), now) {
            Some(_) => true,
            None => false,
        }
    }

    /// Time has passed, at its clock, for what is shown.
    pub fn rests(&self)
        ensures { advance self.now.machine self.now.machine.clock ≡ self.now.machine }
    {
        let _ = &self.clock;
    }

    /// Gives up what time has ended by the clock, and each array that isn't shown. It looks at all arrays, unless nothing changed since it
    /// did so.
    pub fn give_up_ended(&mut self)
        ensures machine { self.new.machine ≡ self.old.machine }
        ensures blocks { KeepsBlocks (nodes_in self.old.holding) (nodes_in self.new.holding) }
        ensures waiting { self.old.holding.queue.waiting ≤ self.new.holding.queue.waiting }
        ensures shown { AreAllShown self.new }
    {
        if self.is_settled {
            return;
        }
        end_rows(&mut self.catalog, &mut self.holdings, self.clock);
        drop_unshown(&self.catalog, &mut self.holdings, self.clock);
        self.is_settled = true;
    }

    /// How many blocks wait to be looked at, or 2^64 - 1 where there are more.
    pub fn waiting(&self) -> u64
        ensures { result ≡ min self.now.holding.queue.waiting (2 ^ 64 - 1) }
    {
        self.holdings.waiting()
    }

    /// Looks at so many of the blocks that wait, or at all of them, and gives up those that nobody finds.
    pub fn collect(&mut self, slots: &mut Slots, work: u32) -> Progress
        requires { IsCounted slots.old (nodes_in self.old.holding) }
        ensures machine { self.new.machine ≡ self.old.machine }
        ensures catalog { self.new.catalog ≡ self.old.catalog }
        ensures counted { IsCounted slots.new (nodes_in self.new.holding) }
        ensures slots { Frees slots.old slots.new }
        ensures waiting { self.new.holding.queue.waiting ≡ self.old.holding.queue.waiting - work }
        ensures progress { result ≡ (if self.new.holding.queue.waiting == 0 then Finished else More) }
        ensures shown { AreAllShown self.old → AreAllShown self.new }
        ensures shared { self.new.holding.queue.waiting ≡ 0 → AreAllShown self.new → (stamp : ℕ) → IsSome (map.get slots.new.keys stamp) → HasBlock self.new.machine stamp }
    {
        self.holdings.collect(slots, work)
    }

    /// Each block of a snapshot or of a volume has a slot.
    pub fn blocks_have_slots(&self)
        ensures snapshots { (s : SlotTable) (key : SnapKey) (index : ℕ) (block : WholeBlock) → IsCounted s (nodes_in self.now.holding) → map.get (array_of self.now.machine key) index ≡ Some block → IsSome (map.get s.keys block.stamp) }
        ensures volumes { (s : SlotTable) (key : VolKey) (index : ℕ) (block : WholeBlock) → IsCounted s (nodes_in self.now.holding) → map.get (disk_of self.now.machine key) index ≡ Some block → IsSome (map.get s.keys block.stamp) }
    {
        self.holdings.blocks_have_slots();
    }
}

// Gives up the rows and put sets that time has ended at the moment, with their arrays.
fn end_rows(catalog: &mut Catalog, holdings: &mut Holdings, now: Moment)
    requires { catalog.old.latest ≤ now.second }
    ensures rows { aged now.second (rows_in catalog.new) ≡ aged now.second (rows_in catalog.old) }
    ensures latest { catalog.new.latest ≤ now.second }
    ensures keeps { KeepsShown now.second (rows_in catalog.old) holdings.old holdings.new }
{
    while let Some(key) = catalog.next_ended(now) {
        catalog.end(&key, now);
        drop_if_hidden(catalog, holdings, &Holder::snapshot(&key), now);
    }
}

// Drops the array, if it isn't shown.
fn drop_if_hidden(catalog: &Catalog, holdings: &mut Holdings, holder: &Holder, now: Moment)
    ensures { KeepsShown now.second (rows_in catalog.now) holdings.old holdings.new }
{
    if !is_shown(catalog, now, holder) {
        holdings.drop_array(holder);
    }
}

// Drops each array that isn't shown, in one walk over all.
fn drop_unshown(catalog: &Catalog, holdings: &mut Holdings, now: Moment)
    ensures keeps { KeepsShown now.second (rows_in catalog.now) holdings.old holdings.new }
    ensures shown { IsAllShown now.second (rows_in catalog.now) holdings.new }
{
    let mut from = first_holder();
    while let Some(holder) = next_unshown(catalog, holdings, &from, now) {
        holdings.drop_array(&holder);
        from = holder;
    }
}

// The first from the holder on that has a node whose array isn't shown. Before the holder none has.
fn next_unshown(
    catalog: &Catalog,
    holdings: &Holdings,
    from: &Holder,
    now: Moment,
) -> Option<Holder>
    requires { IsShownBefore now.second (rows_in catalog.now) (held_in holdings.now) from.now }
    ensures none { IfNone result ((q : _) → stamps.is_shown now.second (rows_in catalog.now) q ≡ false → map.get (held_in holdings.now) q ≡ None) }
    ensures hidden { IfSome result (λ q. stamps.is_shown now.second (rows_in catalog.now) q ≡ false) }
    ensures there { IfSome result (λ q. IsSome (map.get (held_in holdings.now) q)) }
    ensures before { IfSome result (λ q. IsShownBefore now.second (rows_in catalog.now) (held_in holdings.now) q) }
{
    for (holder, _) in holdings.nodes().from(from) {
        if !is_shown(catalog, now, holder) {
            return Some(*holder);
        }
    }
    None
}
