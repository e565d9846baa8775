// The store without the bytes of blocks: the kept form of the machine.
ghost use Rattle.std.specs.Prelude.{◌≡◌, ◌≤◌, ◌^◌, true, IfOk, OnOk};
ghost use Rattle.std.specs.Option.{option_copied};
ghost use Rattle.std.specs.FinMap as map;
ghost use Rattle.ebs_tables.specs.Full.{full};
ghost use Rattle.ebs_model.specs.Arrays.{linear};
ghost use Rattle.ebs_model.specs.Kept.{same};
ghost use Rattle.ebs_model.specs.Step as steps;
ghost use Rattle.ebs_lineage.specs.Lines.{array};
ghost use Rattle.ebs_holds.specs.Holds.{blocks_at, nodes_in};
ghost use Rattle.ebs_holds.specs.Counted.{KeepsBlocks, replaced_by};
ghost use Rattle.ebs_holds.specs.Changes.{HasRoom};
ghost use Rattle.ebs_catalog.specs.Held.{rows_in};
ghost use Rattle.ebs_catalog.specs.Rooms.{IsReady};
ghost use Rattle.ebs_kept.specs.inner.Shown.{kept_array, put_by};
ghost use Rattle.ebs_kept.specs.inner.Room as room;
ghost use Rattle.ebs_kept.specs.inner.Room.{source_by, source_in};

mod parts;

use crate::checksums::linear_of;
use ebs_catalog::{Catalog, Room};
use ebs_collect::blocks_stay;
use ebs_holds::{Holder, Holdings, give_back, reserve, write};
use ebs_lineage::{Lineage, NodeId};
use ebs_model::{
    Account, AnyKey, Block, Change, Decision, Failure, Ids, IndexSlots, LAST_SECOND, MOST_CHANGES,
    Moment, Request, SnapKey, Text, VolKey,
};
use ebs_tables::Sequence;
use std::alloc::{AllocError, Global};
use std::marker::Model;

/// Rows and arrays, whose blocks have digests and no bytes.
#[derive(Debug, Drop)]
pub struct Kept {
    pub(crate) alloc: Global,
    secret: [u8; 32],
    pub(crate) clock: Moment,
    changes: u64,
    stamps: u64,
    pub(crate) catalog: Catalog,
    pub(crate) holdings: Holdings,
    // Nothing is kept of what time has ended by the clock.
    pub(crate) is_settled: bool,
}

/// What a change takes: what it ends once more, and its room in the rows.
#[derive(Debug, Drop)]
pub struct Reserved {
    pub(crate) ended: Ids,
    pub(crate) room: Room,
}

impl Model for Kept {
    ghost use Rattle.ebs_kept.specs.inner.Shown.{Form, form_code};

    ghost Value = { Form };

    ghost coded = { form_code };

    ghost use Rattle.ebs_kept.specs.inner.Shown.{form, shown, IsSound, IsReached};
    ghost use Rattle.ebs_kept.specs.inner.Counted.{IsSettled};

    ghost view = { λ k. form k };

    ghost invariant = { λ k. IsSound (shown k) × (IsReached k × IsSettled k) };
}

impl Kept {
    ghost use Rattle.std.specs.Prelude.{◌≡◌, ◌≤◌, ◌<◌, ◌^◌, List, ℕ, true, false, Some, is_none, IfOk, OnOk, OnErr};
    ghost use Rattle.std.specs.Option.{option_copied, option_map};
    ghost use Rattle.ebs_model.specs.Machine.{empty_machine, advance, moment_of, is_spent, rows_of, array_of, disk_of, put_of};
    ghost use Rattle.ebs_model.specs.declared.rows.VolRow.{VolRow};
    ghost use Rattle.ebs_model.specs.Arrays.{linear};
    ghost use Rattle.ebs_model.specs.Kept.{same};
    ghost use Rattle.ebs_model.specs.Rows.{first_use};
    ghost use Rattle.ebs_model.specs.Decide.{decide};
    ghost use Rattle.ebs_model.specs.Step.{changed};
    ghost use Rattle.ebs_model.specs.inner.Follows.{Agrees};
    ghost use Rattle.ebs_model.specs.inner.Rules.{KeepsDays};
    ghost use Rattle.ebs_catalog.specs.Held.{IsDecided};
    ghost use Rattle.ebs_catalog.specs.Rooms.{IsFree};
    ghost use Rattle.ebs_catalog.specs.Wants.{OnMemory, MayWant};
    ghost use Rattle.ebs_kept.specs.inner.Room.{IsReserved, HasNoArray, IsWithoutArray, HaveNoArray, deleted_snap};
    ghost use Rattle.ebs_model.specs.declared.keys.SnapKey.{SnapKey};
    ghost use Rattle.ebs_model.specs.declared.keys.PolicyKey.{PolicyKey};
    ghost use Rattle.ebs_model.specs.declared.policy.Policy.{Policy};
    ghost use Rattle.ebs_model.specs.declared.keys.AnyKey.TheVariants as any;
    ghost use Rattle.std.specs.Prelude.{map as list_map};
    ghost use Rattle.std.specs.FinMap as map;
    ghost use Rattle.ebs_lineage.specs.Lines.{array};
    ghost use Rattle.ebs_holds.specs.Holds.{nodes_in};
    ghost use Rattle.ebs_holds.specs.declared.holder.Holder.{Holder};
    ghost use Rattle.ebs_holds.specs.Changes.{GivesBack};
    ghost use Rattle.ebs_holds.specs.Counted.{KeepsBlocks, KeepsCounted, replaced_by, replaced_in};
    ghost use Rattle.ebs_world.specs.declared.area.Area.{Area};
    ghost use Rattle.ebs_slots.specs.inner.Slots.{no_slots};
    ghost use Rattle.ebs_collect.specs.Slices.{IsCounted};
    ghost use Rattle.ebs_kept.specs.inner.Shown.{kept_block, kept_array, put_by, AreGoodRows, AreGoodVolumes};
    ghost use Rattle.ebs_kept.specs.inner.Requests.{Brings};
    ghost use Rattle.ebs_kept.specs.inner.Counted.{ChangesCounted};

    /// The empty machine with this secret.
    pub fn new(alloc: Global, secret: [u8; 32]) -> Self
        ensures machine { result.machine ≡ empty_machine secret }
        ensures counted { (area : Area) → IsCounted (no_slots area) (nodes_in result.holding) }
        ensures waiting { result.holding.queue.waiting ≡ 0 }
    {
        Kept {
            alloc,
            secret,
            clock: Moment { second: 0 },
            changes: 0,
            stamps: 0,
            catalog: Catalog::new(alloc),
            holdings: Holdings::new(alloc),
            is_settled: true,
        }
    }

    /// The empty machine behind so many changes.
    pub fn behind(alloc: Global, secret: [u8; 32], changes: u64) -> Self
        requires { changes ≤ 2 ^ 40 }
        ensures machine { result.machine ≡ record (empty_machine secret) { changes = changes } }
        ensures counted { (area : Area) → IsCounted (no_slots area) (nodes_in result.holding) }
        ensures waiting { result.holding.queue.waiting ≡ 0 }
    {
        let mut kept = Kept::new(alloc, secret);
        kept.changes = changes;
        kept
    }

    pub fn alloc(&self) -> Global {
        self.alloc
    }

    pub fn secret(&self) -> &[u8; 32]
        ensures { result.now ≡ self.now.machine.secret }
    {
        &self.secret
    }

    pub fn clock(&self) -> Moment
        ensures { result ≡ self.now.machine.clock }
    {
        self.clock
    }

    /// How many changes were accepted.
    pub fn changes(&self) -> u64
        ensures { result ≡ self.now.machine.changes }
    {
        self.changes
    }

    /// The stamp of the next block.
    pub fn stamps(&self) -> u64
        ensures { result ≡ self.now.machine.stamps }
    {
        self.stamps
    }

    pub fn moment_of(&self, reading: Moment) -> Moment
        ensures moment { result ≡ moment_of self.now.machine reading }
        ensures later { self.now.machine.clock.second ≤ result.second }
        ensures early { result.second ≤ 2 ^ 36 }
    {
        Moment {
            second: self.clock.second.max(reading.second.min(LAST_SECOND)),
        }
    }

    pub fn is_spent(&self) -> bool
        ensures test { result ≡ is_spent self.now.machine }
        ensures few { result ≡ false → self.now.machine.changes < 2 ^ 40 }
    {
        self.changes >= MOST_CHANGES
    }

    /// Brings the clock to the moment.
    pub fn tick(&mut self, now: Moment)
        requires later { self.old.machine.clock.second ≤ now.second }
        requires early { now.second ≤ 2 ^ 36 }
        ensures machine { self.new.machine ≡ advance self.old.machine now }
        ensures holding { self.new.holding ≡ self.old.holding }
    {
        self.is_settled = stays_settled(self.is_settled, self.clock, now);
        self.clock = now;
    }

    /// All policies, in ascending account and then number.
    pub fn policies(&self) -> Result<Ids, AllocError>
        ensures { IfOk result (λ ids. ids ≡ list_map (λ (e : PolicyKey × Policy). any.Policy e.0) (map.entries self.now.machine.policies)) }
    {
        self.catalog.policies()
    }

    /// What the rows decide at the moment.
    pub fn decide(
        &self,
        account: Account,
        now: Moment,
        request: &Request,
    ) -> Result<Decision, Failure>
        requires later { self.now.machine.clock.second ≤ now.second }
        requires early { now.second ≤ 2 ^ 36 }
        ensures decided { Agrees result (decide (rows_of (advance self.now.machine now)) now account request.now) }
        ensures memory { OnMemory result (MayWant request.now (decide (rows_of (advance self.now.machine now)) now account request.now)) }
    {
        self.catalog.decide(account, now, request)
    }

    /// Each rule keeps what it matches for a day at least.
    pub fn keeps_days(&self)
        ensures { KeepsDays self.now.machine.books }
    {
        self.catalog.keeps_days();
    }

    /// A kept snapshot has a size, and a pending one a timeout.
    pub fn keeps_rows(&self)
        ensures { AreGoodRows self.now.machine.snaps }
    {
        let _ = &self.catalog;
    }

    /// A volume has a size.
    pub fn keeps_volumes(&self)
        ensures { AreGoodVolumes self.now.machine.vols }
    {
        let _ = &self.catalog;
    }

    /// The clock isn't above 2^36, and at most 2^40 changes were accepted.
    pub fn keeps_limits(&self)
        ensures early { self.now.machine.clock.second ≤ 2 ^ 36 }
        ensures few { self.now.machine.changes ≤ 2 ^ 40 }
    {
        let _ = &self.clock;
    }

    /// Whether no earlier call used the account's client token. It needs no memory.
    pub fn is_first_use(&self, account: Account, now: Moment, token: &Option<Text>) -> bool
        requires { self.now.machine.clock.second ≤ now.second }
        ensures { result ≡ is_none (first_use (rows_of (advance self.now.machine now)) account token.now) }
    {
        match self.catalog.first_use(account, token) {
            Some(_) => false,
            None => true,
        }
    }

    /// The node of a snapshot's blocks at the moment.
    pub(crate) fn node_at(&self, key: &SnapKey, now: Moment) -> NodeId
        requires { self.now.machine.clock.second ≤ now.second }
        ensures { kept_array (array (nodes_in self.now.holding) result.number) ≡ array_of (advance self.now.machine now) key.now }
    {
        if self.catalog.has_blocks(key, now) {
            self.holdings.node_of(&Holder::snapshot(key))
        } else {
            self.holdings.lineage().without_blocks()
        }
    }

    /// The block of a snapshot at the moment, at an index of 32 bits.
    pub(crate) fn block_at(&self, key: &SnapKey, now: Moment, index: u64) -> Option<Block>
        requires later { self.now.machine.clock.second ≤ now.second }
        requires small { index < 2 ^ 32 }
        ensures { option_map kept_block result ≡ map.get (array_of (advance self.now.machine now) key.now) index }
    {
        self.holdings
            .lineage()
            .find(self.node_at(key, now), index as u32)
    }

    /// The block of a volume that is there, at an index of 32 bits.
    pub(crate) fn disk_block(&self, key: &VolKey, index: u64) -> Option<Block>
        requires { index < 2 ^ 32 }
        ensures { (row : VolRow) → map.get self.now.machine.vols key.now ≡ Some row → option_map kept_block result ≡ map.get (disk_of self.now.machine key.now) index }
    {
        self.holdings.find(&Holder::volume(key), index as u32)
    }

    // The indexes that were put in an upload, as time leaves them.
    fn put_at(&self, key: &SnapKey, now: Moment) -> Option<&IndexSlots>
        requires { self.now.machine.clock.second ≤ now.second }
        ensures { put_by (option_copied result) ≡ put_of (advance self.now.machine now) key.now }
    {
        if self.catalog.has_blocks(key, now) {
            self.catalog.put(key)
        } else {
            None
        }
    }

    /// The LINEAR checksum of what was put in an upload.
    pub fn checksum(&self, key: &SnapKey, now: Moment) -> [u8; 32]
        requires { self.now.machine.clock.second ≤ now.second }
        ensures { result ≡ linear same (array_of (advance self.now.machine now) key.now) (put_of (advance self.now.machine now) key.now) }
    {
        checksum_of(
            self.alloc,
            self.put_at(key, now),
            self.holdings.lineage(),
            self.node_at(key, now),
        )
    }

    /// Reserves what the change takes. What is seen of the machine stays.
    pub fn reserve(&mut self, change: &Change) -> Result<Reserved, AllocError>
        requires early { change.now.at.second ≤ 2 ^ 36 }
        ensures machine { self.new.machine ≡ self.old.machine }
        ensures reserved { IfOk result (λ reserved. IsReserved self.new change.now reserved) }
        ensures blocks { KeepsBlocks (nodes_in self.old.holding) (nodes_in self.new.holding) }
        ensures queue { self.new.holding.queue ≡ self.old.holding.queue }
        ensures replaced { (q : Holder) (index : ℕ) → replaced_by self.new.holding q index ≡ replaced_by self.old.holding q index }
    {
        reserve_all(self.alloc, &mut self.catalog, &mut self.holdings, change)
    }

    /// Gives back what was reserved for a change that doesn't come.
    pub fn release(&mut self, change: &Change, reserved: &Reserved)
        ensures machine { self.new.machine ≡ self.old.machine }
        ensures free { IsFree self.new.catalog change.now reserved.now.room }
        ensures unready { GivesBack self.new.holding change.now.made change.now.request }
        ensures blocks { KeepsBlocks (nodes_in self.old.holding) (nodes_in self.new.holding) }
        ensures queue { self.new.holding.queue ≡ self.old.holding.queue }
    {
        give_back(&mut self.holdings, change);
        self.catalog.release(change, &reserved.room);
    }

    /// Makes a change that was decided at the moment and whose room is reserved. It takes no memory.
    pub fn commit(&mut self, now: Moment, change: Change, digest: [u8; 32], reserved: Reserved)
        requires later { self.old.machine.clock.second ≤ now.second }
        requires early { now.second ≤ 2 ^ 36 }
        requires few { self.old.machine.changes < 2 ^ 40 }
        requires at { change.at ≡ now }
        requires decided { IsDecided (rows_of (advance self.old.machine now)) change }
        requires reserved { IsReserved self.old change reserved }
        ensures changed { (bytes : List ℕ) → Brings change.request digest bytes → self.new.machine ≡ changed (advance self.old.machine now) bytes change }
        ensures dropped { HasNoArray self.new (deleted_snap change.request) }
        ensures ended { HaveNoArray self.new change.ended }
        ensures counted { KeepsCounted (nodes_in self.old.holding) (nodes_in self.new.holding) change.request self.old.machine.stamps (replaced_in self.old.holding change.request) }
    {
        blocks_stay();
        let deleted = deleted_snap(&change.request);
        let ended = self.make(now, change, digest, reserved);
        if let Some(key) = deleted {
            self.drop_hidden(&key);
        }
        self.drop_ended(ended.as_slice());
    }

    // Makes the change, but for the arrays of what it ends, and gives what that is.
    fn make(&mut self, now: Moment, change: Change, digest: [u8; 32], reserved: Reserved) -> Ids
        requires later { self.old.machine.clock.second ≤ now.second }
        requires early { now.second ≤ 2 ^ 36 }
        requires few { self.old.machine.changes < 2 ^ 40 }
        requires at { change.at ≡ now }
        requires decided { IsDecided (rows_of (advance self.old.machine now)) change }
        requires reserved { IsReserved self.old change reserved }
        ensures changed { (bytes : List ℕ) → Brings change.request digest bytes → self.new.machine ≡ changed (advance self.old.machine now) bytes change }
        ensures ended { result ≡ change.ended }
        ensures counted { KeepsCounted (nodes_in self.old.holding) (nodes_in self.new.holding) change.request self.old.machine.stamps (replaced_in self.old.holding change.request) }
    {
        let Reserved { ended, room } = reserved;
        let block = Block {
            stamp: self.stamps,
            digest,
        };
        let writes = writes_of(&change.request);
        self.stamps += writes;
        let source = source_of(&self.catalog, &change);
        write(&mut self.holdings, &change, &source, block);
        self.catalog.commit(change, room);
        self.is_settled = writes_settled(self.is_settled, self.clock, now, writes);
        self.clock = now;
        self.changes += 1;
        ended
    }

    // Drops the arrays of what a change ended and that has no blocks any more.
    fn drop_ended(&mut self, ended: &[AnyKey])
        ensures machine { self.new.machine ≡ self.old.machine }
        ensures dropped { HaveNoArray self.new ended.now }
        ensures others { (q : SnapKey) → HasNoArray self.old (Some q) → HasNoArray self.new (Some q) }
        ensures blocks { KeepsBlocks (nodes_in self.old.holding) (nodes_in self.new.holding) }
    {
        match ended {
            [] => {}
            [id, rest @ ..] => {
                self.drop_one(id);
                self.drop_ended(rest);
            }
        }
    }

    fn drop_one(&mut self, id: &AnyKey)
        ensures machine { self.new.machine ≡ self.old.machine }
        ensures dropped { IsWithoutArray self.new id.now }
        ensures others { (q : SnapKey) → HasNoArray self.old (Some q) → HasNoArray self.new (Some q) }
        ensures blocks { KeepsBlocks (nodes_in self.old.holding) (nodes_in self.new.holding) }
    {
        match id {
            AnyKey::Snap(key) => self.drop_hidden(key),
            _ => {}
        }
    }

    // Drops the array of a snapshot that has no blocks any more. One in the bin keeps its own.
    fn drop_hidden(&mut self, key: &SnapKey)
        ensures machine { self.new.machine ≡ self.old.machine }
        ensures dropped { HasNoArray self.new (Some key.now) }
        ensures others { (q : SnapKey) → HasNoArray self.old (Some q) → HasNoArray self.new (Some q) }
        ensures blocks { KeepsBlocks (nodes_in self.old.holding) (nodes_in self.new.holding) }
    {
        if !self.catalog.has_blocks(key, self.clock) {
            self.holdings.drop_array(&Holder::snapshot(key));
        }
    }

    /// Makes a change that was decided at the moment. All memory that it takes is reserved before anything changes.
    pub fn change(
        &mut self,
        now: Moment,
        change: Change,
        digest: [u8; 32],
    ) -> Result<(), AllocError>
        requires later { self.old.machine.clock.second ≤ now.second }
        requires early { now.second ≤ 2 ^ 36 }
        requires few { self.old.machine.changes < 2 ^ 40 }
        requires at { change.at ≡ now }
        requires decided { IsDecided (rows_of (advance self.old.machine now)) change }
        ensures ok { OnOk result ((bytes : List ℕ) → Brings change.request digest bytes → self.new.machine ≡ changed (advance self.old.machine now) bytes change) }
        ensures err { OnErr result (self.new.machine ≡ self.old.machine) }
        ensures counted { ChangesCounted self.old self.new change.request }
    {
        blocks_stay();
        match self.reserve(&change) {
            Ok(reserved) => {
                self.commit(now, change, digest, reserved);
                Ok(())
            }
            Err(error) => {
                drop(change);
                Err(error)
            }
        }
    }
}

// What is settled stays so where the clock stays.
fn stays_settled(is_settled: bool, clock: Moment, now: Moment) -> bool
    ensures settled { result ≡ true → is_settled ≡ true }
    ensures same { result ≡ true → now.second ≡ clock.second }
{
    is_settled && now.second == clock.second
}

// And so it does behind a change there that writes a block.
fn writes_settled(is_settled: bool, clock: Moment, now: Moment, writes: u64) -> bool
    ensures settled { result ≡ true → is_settled ≡ true }
    ensures same { result ≡ true → now.second ≡ clock.second }
    ensures writes { result ≡ true → writes ≡ 1 }
{
    writes == 1 && stays_settled(is_settled, clock, now)
}

// Reserves all that the change takes, or nothing.
fn reserve_all(
    alloc: Global,
    catalog: &mut Catalog,
    holdings: &mut Holdings,
    change: &Change,
) -> Result<Reserved, AllocError>
    requires early { change.now.at.second ≤ 2 ^ 36 }
    ensures rows { rows_in catalog.new ≡ rows_in catalog.old }
    ensures latest { catalog.new.latest ≡ catalog.old.latest }
    ensures arrays { (q : _) → blocks_at holdings.new q ≡ blocks_at holdings.old q }
    ensures ready { IfOk result (λ reserved. IsReady catalog.new change.now reserved.room) }
    ensures room { OnOk result (HasRoom holdings.new change.now.made change.now.request) }
    ensures ended { IfOk result (λ reserved. reserved.ended ≡ change.now.ended) }
    ensures blocks { KeepsBlocks (nodes_in holdings.old) (nodes_in holdings.new) }
    ensures queue { holdings.new.queue ≡ holdings.old.queue }
    ensures replaced { (q : _) (index : _) → replaced_by holdings.new q index ≡ replaced_by holdings.old q index }
{
    let room = match catalog.prepare(change) {
        Ok(room) => room,
        Err(error) => {
            catalog.release(change, &Room::none());
            return Err(error);
        }
    };
    match reserve_parts(alloc, holdings, change) {
        Ok(ended) => Ok(Reserved { ended, room }),
        Err(error) => {
            give_back(holdings, change);
            catalog.release(change, &room);
            Err(error)
        }
    }
}

// Reserves in the arrays what the change takes, and copies what it ends.
fn reserve_parts(alloc: Global, holdings: &mut Holdings, change: &Change) -> Result<Ids, AllocError>
    ensures arrays { (q : _) → blocks_at holdings.new q ≡ blocks_at holdings.old q }
    ensures room { OnOk result (HasRoom holdings.new change.now.made change.now.request) }
    ensures ended { IfOk result (λ ended. ended ≡ change.now.ended) }
    ensures blocks { KeepsBlocks (nodes_in holdings.old) (nodes_in holdings.new) }
    ensures queue { holdings.new.queue ≡ holdings.old.queue }
    ensures replaced { (q : _) (index : _) → replaced_by holdings.new q index ≡ replaced_by holdings.old q index }
{
    let ended = copy_ids(alloc, &change.ended)?;
    reserve(holdings, change)?;
    Ok(ended)
}

// The ids once more.
fn copy_ids(alloc: Global, ids: &Ids) -> Result<Ids, AllocError>
    ensures { IfOk result (λ copy. copy ≡ ids.now) }
{
    let mut copies = Vec::new(alloc);
    for id in ids.as_slice() {
        copies.push(*id)?;
    }
    Ok(Sequence::from_vec(copies))
}

// Whose array an upload or a volume begins with that the change makes.
fn source_of(catalog: &Catalog, change: &Change) -> Option<Holder>
    ensures { result ≡ source_in change.now.at.second (rows_in catalog.now) change.now.request }
{
    match &change.request {
        Request::StartSnapshot { parent, .. } => source_at(catalog, parent, change.at),
        Request::CreateVolume { origin, .. } => source_at(catalog, origin, change.at),
        _ => None,
    }
}

fn source_at(catalog: &Catalog, parent: &Option<SnapKey>, now: Moment) -> Option<Holder>
    ensures { result ≡ source_by now.second (rows_in catalog.now) parent.now }
{
    let Some(parent) = parent else {
        return None;
    };
    if catalog.has_blocks(parent, now) {
        Some(Holder::snapshot(parent))
    } else {
        None
    }
}

// The snapshot that the request deletes.
fn deleted_snap(request: &Request) -> Option<SnapKey>
    ensures { result ≡ room.deleted_snap request.now }
{
    match request {
        Request::DeleteSnapshot { key } => Some(*key),
        _ => None,
    }
}

fn checksum_of(alloc: Global, put: Option<&IndexSlots>, lineage: &Lineage, node: NodeId) -> [u8; 32]
    ensures { result ≡ linear same (kept_array (array lineage.now.table.nodes node.number)) (put_by (option_copied put.entry)) }
{
    let no_indexes = IndexSlots::new(alloc);
    linear_of(lineage, node, indexes_or(put, &no_indexes))
}

fn indexes_or<'a>(put: Option<&'a IndexSlots>, none: &'a IndexSlots) -> &'a IndexSlots
    requires { none.now ≡ map.empty }
    ensures { map.keys (full result.now) ≡ put_by (option_copied put.entry) }
{
    match put {
        Some(put) => put,
        None => none,
    }
}

// How many blocks the request writes.
fn writes_of(request: &Request) -> u64
    ensures value { result ≡ steps.writes_of request.now }
    ensures few { result ≤ 1 }
{
    match request {
        Request::PutSnapshotBlock { .. } => 1,
        Request::WriteVolumeBlock { .. } => 1,
        _ => 0,
    }
}
