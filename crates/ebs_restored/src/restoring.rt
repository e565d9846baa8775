// A store made of a checkpoint.
ghost use Rattle.std.specs.Prelude.{◌≡◌, ℕ, IfOk};
ghost use Rattle.std.specs.FinMap as map;
ghost use Rattle.ebs_world.specs.declared.area.Area.TheVariants.{Blocks};
ghost use Rattle.ebs_checkpoint_rules.specs.Rules.{HasRules};
ghost use Rattle.ebs_recovery.specs.inner.Bases.{machine_of};
ghost use Rattle.ebs_recovery.specs.Bases.{HasNoCopies};
ghost use Rattle.ebs_collect.specs.Slices.{IsCounted};
ghost use Rattle.ebs_holds.specs.Holds.{nodes_in};
ghost use Rattle.ebs_regrown.specs.Counted.{IsBehind, slot_in};
ghost use Rattle.ebs_restored.specs.Restored.{AreRestored};

use crate::holdings::holdings_of;
use ebs_checkpoints::Checkpoint;
use ebs_holds::Holdings;
use ebs_kept::Kept;
use ebs_point_rules::machines_are_settled;
use ebs_regrown::{count_slots, regrown_is_counted};
use ebs_restored_rows::{catalog_of, rules_let_restore};
use ebs_slots::Slots;
use std::alloc::{AllocError, Global};

/// The store that a checkpoint says, and the slots of its blocks. It fails only for want of memory.
pub fn restore(alloc: Global, point: Checkpoint) -> Result<(Kept, Slots), AllocError>
    requires rules { HasRules point }
    requires copies { HasNoCopies point }
    ensures machine { IfOk result (λ store. store.0.machine ≡ machine_of point) }
    ensures counted { IfOk result (λ store. IsCounted store.1 (nodes_in store.0.holding)) }
    ensures keys { IfOk result (λ store. (stamp : ℕ) → map.get store.1.keys stamp ≡ slot_in point.standard stamp) }
    ensures leases { IfOk result (λ store. store.1.leases ≡ map.empty) }
    ensures area { IfOk result (λ store. store.1.area ≡ Blocks) }
    ensures behind { IfOk result (λ store. IsBehind store.1) }
{
    let holdings = holdings_of(alloc, &point)?;
    let slots = slots_of(alloc, &point, &holdings)?;
    let kept = kept_of(alloc, point, holdings)?;
    Ok((kept, slots))
}

// The slots of a checkpoint's blocks.
fn slots_of(alloc: Global, point: &Checkpoint, holdings: &Holdings) -> Result<Slots, AllocError>
    requires rules { HasRules point.now }
    requires restored { AreRestored point.now holdings.now }
    ensures counted { IfOk result (λ slots. IsCounted slots (nodes_in holdings.now)) }
    ensures keys { IfOk result (λ slots. (stamp : ℕ) → map.get slots.keys stamp ≡ slot_in point.now.standard stamp) }
    ensures leases { IfOk result (λ slots. slots.leases ≡ map.empty) }
    ensures area { IfOk result (λ slots. slots.area ≡ Blocks) }
    ensures behind { IfOk result (λ slots. IsBehind slots) }
{
    let slots = count_slots(alloc, point.nodes.as_slice(), point.standard.as_slice())?;
    regrown_is_counted();
    Ok(slots)
}

// The rows of a checkpoint, with arrays that were made of it.
fn kept_of(alloc: Global, point: Checkpoint, holdings: Holdings) -> Result<Kept, AllocError>
    requires rules { HasRules point }
    requires copies { HasNoCopies point }
    requires restored { AreRestored point holdings }
    ensures machine { IfOk result (λ kept. kept.machine ≡ machine_of point) }
    ensures holding { IfOk result (λ kept. kept.holding ≡ holdings) }
{
    rules_let_restore();
    machines_are_settled();
    let Checkpoint {
        clock,
        accepted,
        next_stamp,
        next_copy: _,
        secret,
        accounts,
        snapshots,
        volumes,
        rules,
        policies,
        nodes: _,
        standard: _,
        archive: _,
    } = point;
    let catalog = catalog_of(alloc, accounts, snapshots, volumes, rules, policies)?;
    Ok(Kept::of(
        alloc, secret, clock, accepted, next_stamp, catalog, holdings,
    ))
}
