// Opening a store.
ghost use Rattle.std.specs.Prelude.{◌≡◌, ◌<◌, ◌+◌, ℕ, List, length, get_or, true, None, IfOk, IfErr};
ghost use Rattle.std.specs.FinMap as fin;
ghost use Rattle.ebs_world.specs.Image.{Everywhere};
ghost use Rattle.ebs_world.specs.View.{Ran};
ghost use Rattle.ebs_journal.specs.inner.Format.{places_from};
ghost use Rattle.ebs_journal.specs.inner.Line.{line};
ghost use Rattle.ebs_model.specs.Machine.{Machine};
ghost use Rattle.ebs_holds.specs.Holds.{nodes_in};
ghost use Rattle.ebs_collect.specs.Slices.{IsCounted};
ghost use Rattle.ebs_checkpoints.specs.Checkpoints.{spelled};
ghost use Rattle.ebs_checkpoint_rules.specs.Rules.{IsCheckpoint};
ghost use Rattle.ebs_recovery.specs.Bases.{HasNoCopies};
ghost use Rattle.ebs_recovery.specs.inner.Fits.{Fits};
ghost use Rattle.ebs_recovery.specs.Stands.{Stands};
ghost use Rattle.ebs_disk_store.specs.inner.Opened.{Begun, Gives, IsRead, IsUnread, MayRefuse, OpensAs, opened_store, refusal_for};
ghost use Rattle.ebs_disk_store.specs.Opened.{IsPromising, IsUnopened};
ghost use Rattle.ebs_disk_store.specs.inner.Shown.{IsSound};
ghost use Rattle.ebs_disk_store.specs.declared.refusal.OpenRefusal.TheVariants.{NotBuilt};

use crate::following::{Stopped, Unfollowed, follow_all};
use crate::refusal::OpenRefusal;
use crate::store::{Promise, Store};
use crate::sweeping::sweep;
use ebs_checkpoint_rules::read_checkpoint;
use ebs_checkpoints::Checkpoint;
use ebs_journal::{Journal, Replay, none_refused, one_journal};
use ebs_kept::Kept;
use ebs_records::Read;
use ebs_recovery::{history_replays, one_base, one_replay, opened_fits, recorded_rests};
use ebs_restored::{has_no_copies, restore};
use ebs_slots::Slots;
use ebs_world::Disk;
use std::alloc::Global;
use std::marker::PhantomData;

// Why a journal's records aren't followed, by the places of their gates.
fn refuse(stopped: Stopped, places: &[u64]) -> OpenRefusal
    requires { stopped.behind < length places.now }
    ensures { result ≡ refusal_for stopped.why (get_or places.now stopped.behind 0) }
{
    match stopped.why {
        Unfollowed::Bad => OpenRefusal::BadRecord(places[stopped.behind]),
        Unfollowed::NotBuilt => OpenRefusal::NotBuilt,
        Unfollowed::Memory => OpenRefusal::Memory,
    }
}

// The checkpoint that is spelled so, of which nothing may be in the archive.
fn checkpoint_of(alloc: Global, bytes: &[u8]) -> Result<Checkpoint, OpenRefusal>
    ensures is_checkpoint { IfOk result (λ point. IsCheckpoint point) }
    ensures here { IfOk result (λ point. HasNoCopies point) }
    ensures is { IfOk result (λ point. bytes.now ≡ spelled point) }
    ensures refused { IfErr result (λ refusal. (payloads : List (List ℕ)) → IsUnread bytes.now payloads refusal) }
{
    match read_checkpoint(alloc, bytes) {
        Read::Value(point) => standing_here(point),
        Read::NoValue => Err(OpenRefusal::BadCheckpoint),
        Read::Memory => Err(OpenRefusal::Memory),
    }
}

// It, unless something is in the archive.
fn standing_here(point: Checkpoint) -> Result<Checkpoint, OpenRefusal>
    ensures ok { IfOk result (λ kept. (kept ≡ point) × HasNoCopies point) }
    ensures err { IfErr result (λ refusal. (refusal ≡ NotBuilt) × (HasNoCopies point → ⊥)) }
{
    if has_no_copies(&point) {
        Ok(point)
    } else {
        drop(point);
        Err(OpenRefusal::NotBuilt)
    }
}

// The kept form and the slots that a checkpoint says.
fn begin(alloc: Global, checkpoint: &[u8]) -> Result<(Kept, Slots), OpenRefusal>
    ensures begun { IfOk result (λ p. Begun checkpoint.now p.0.machine p.1) }
    ensures counted { IfOk result (λ p. IsCounted p.1 (nodes_in p.0.holding)) }
    ensures refused { IfErr result (λ refusal. (payloads : List (List ℕ)) → IsUnread checkpoint.now payloads refusal) }
{
    one_base();
    let point = checkpoint_of(alloc, checkpoint)?;
    let Ok((kept, slots)) = restore(alloc, point) else {
        return Err(OpenRefusal::Memory);
    };
    kept.blocks_have_slots();
    let _top = slots.top();
    Ok((kept, slots))
}

// The kept form and the slots that a journal gives. What nothing holds behind the last record is given up.
fn follow_replay(alloc: Global, replay: &Replay) -> Result<(Kept, Slots), OpenRefusal>
    requires { replay.now.places ≡ places_from (29 + length replay.now.checkpoint) replay.now.records }
    ensures gives { IfOk result (λ p. Gives replay.now.checkpoint replay.now.records p.0.machine p.1) }
    ensures counted { IfOk result (λ p. IsCounted p.1 (nodes_in p.0.holding)) }
    ensures waiting { IfOk result (λ p. p.0.holding.queue.waiting ≡ 0) }
    ensures refused { IfErr result (IsUnread replay.now.checkpoint replay.now.records) }
{
    let (mut kept, mut slots) = begin(alloc, replay.checkpoint.as_slice())?;
    match follow_all(alloc, &mut kept, &mut slots, replay.records.as_slice()) {
        Ok(()) => {
            sweep(&mut kept, &mut slots);
            kept.keeps_limits();
            let _top = slots.top();
            Ok((kept, slots))
        }
        Err(stopped) => Err(refuse(stopped, replay.places.as_slice())),
    }
}

impl<S: Promise> Store<S> {
    // The store of these parts.
    fn resume(kept: Kept, slots: Slots, journal: Journal) -> Store<S>
        requires { IsSound (opened_store kept.machine slots (line journal) kept.holding.queue.waiting) (nodes_in kept.holding) }
        ensures { result ≡ opened_store kept.machine slots (line journal) kept.holding.queue.waiting }
    {
        let clock = kept.clock();
        Store {
            kept,
            clock,
            slots,
            journal,
            pending: None,
            promise: PhantomData,
        }
    }

    /// Opens the store that was made on a disk, after a sync of all areas. Nothing is written, so that whatever a crash leaves
    /// meanwhile is what it could have left before.
    pub fn open<D: Disk>(alloc: Global, disk: &mut D) -> Result<Store<S>, OpenRefusal>
        requires sound { S.sound → IsPromising (D.view disk.old) }
        ensures fits { IfOk result (λ store. Fits S.sound (D.view disk.new) store) }

        // Where the disk stood for a machine, the store fits and has that machine.
        ensures machine { IfOk result (λ store. (D.view disk.old).tells ≡ true → (D.view disk.old).honest ≡ true → (m : Machine) → OpensAs (D.view disk.old) (D.view disk.new) store m) }

        // On any disk it is what the records give, each digest taken as right.
        ensures read { IfOk result (λ store. (D.view disk.old).tells ≡ true → IsRead (D.view disk.old).reads store) }

        ensures clean { IfOk result (λ store. (store.pending ≡ None) × (store.slots.leases ≡ fin.empty)) }
        ensures refused { IfErr result (IsUnopened (D.view disk.old) (D.view disk.new)) }

        // Where the disk stood for a machine, nothing of it is refused.
        ensures stood { IfErr result (λ refusal. (D.view disk.old).tells ≡ true → (m : Machine) → Stands (D.view disk.old).reads m → MayRefuse refusal) }

        ensures ran { Ran Everywhere (D.view disk.old) (D.view disk.new) }
    {
        history_replays();
        none_refused();
        one_journal();
        one_replay();
        one_base();
        opened_fits::<D>();
        recorded_rests::<D>();
        let (journal, replay) = Journal::open(alloc, disk)?;
        let (kept, slots) = follow_replay(alloc, &replay)?;
        Ok(Store::resume(kept, slots, journal))
    }
}
