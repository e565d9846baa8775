// A checkpoint of all that a store keeps.
ghost use Rattle.std.specs.Prelude.{◌≡◌, ◌≤◌, IfOk};
ghost use Rattle.ebs_model.specs.Quotas.{last_second};
ghost use Rattle.ebs_model.specs.Machine.{advance};
ghost use Rattle.ebs_world.specs.declared.area.Area.TheVariants.{Blocks};
ghost use Rattle.ebs_collect.specs.Slices.{IsCounted};
ghost use Rattle.ebs_holds.specs.Holds.{nodes_in};
ghost use Rattle.ebs_catalog.specs.Held.{rows_in};
ghost use Rattle.ebs_checkpoint_rules.specs.Rules.{HasRules, IsCheckpoint};
ghost use Rattle.ebs_records.specs.Fields.{IsDigest};
ghost use Rattle.ebs_recovery.specs.Bases as said;
ghost use Rattle.ebs_recovery.specs.inner.Bases.{machine_of};
ghost use Rattle.ebs_recovery.specs.inner.Fits.{AgreeOn};
ghost use Rattle.ebs_lawful.specs.Lawful.{IsLawful};
ghost use Rattle.ebs_lawful.specs.Arrays.{AreArrays};
ghost use Rattle.ebs_lawful_points.specs.Blocks.{HasStamps};
ghost use Rattle.ebs_recovery.specs.Bases.{HasNoCopies};
ghost use Rattle.ebs_point_rules.specs.Values.{HasShortLists};
ghost use Rattle.ebs_kept.specs.inner.Nodes.{HaveNodes};
ghost use Rattle.ebs_point.specs.Points.{AreKeysOf, CanPoint, IsPointAt};

use crate::fields::check_digest;
use crate::nodes::nodes_of;
use crate::slots::slots_of;
use ebs_catalog::Catalog;
use ebs_checkpoints::{Checkpoint, SlotRows};
use ebs_holds::Holdings;
use ebs_kept::Kept;
use ebs_model::Moment;
use ebs_pointed::{accounts_of, policies_of, rules_of, snapshots_of, volumes_of};
use ebs_slots::Slots;
use std::alloc::{AllocError, Global};

/// The checkpoint of what a store keeps, at a moment that isn't before its clock. What time has ended by then is left out. It fails only
/// for want of memory, and is one that can be written where its lists are short.
pub fn point(
    alloc: Global,
    kept: &Kept,
    slots: &Slots,
    at: Moment,
) -> Result<Checkpoint, AllocError>
    requires later { kept.now.machine.clock.second ≤ at.second }
    requires early { at.second ≤ last_second }
    requires lawful { IsLawful kept.now.machine }
    requires arrays { AreArrays kept.now.machine }
    requires stamps { HasStamps kept.now.machine }
    requires nodes { HaveNodes at.second (rows_in kept.now.catalog) kept.now.holding }
    requires counted { IsCounted slots.now (nodes_in kept.now.holding) }
    requires area { slots.now.area ≡ Blocks }
    ensures machine { IfOk result (λ point. machine_of point ≡ advance kept.now.machine at) }
    ensures copies { IfOk result (λ point. HasNoCopies point) }
    ensures rules { IfOk result (λ point. HasRules point) }
    ensures checkpoint { IfOk result (λ point. HasShortLists point → IsCheckpoint point) }
    ensures keys { IfOk result (λ point. AgreeOn (advance kept.now.machine at) (said.slots_of point.standard) slots.now.keys) }
    ensures stored { IfOk result (λ point. AreKeysOf slots.now.keys point.standard) }
{
    let catalog = kept.catalog();
    let holdings = kept.holdings();
    kept.shows_parts();
    catalog.keeps_places();
    holdings.keeps_holders();
    let point = point_of(alloc, kept, catalog, holdings, slots, at)?;
    Ok(point)
}

// The checkpoint, of the rows and of the arrays that the store has.
fn point_of(
    alloc: Global,
    kept: &Kept,
    catalog: &Catalog,
    holdings: &Holdings,
    slots: &Slots,
    at: Moment,
) -> Result<Checkpoint, AllocError>
    requires { CanPoint kept.now.machine (rows_in catalog.now) holdings.now slots.now at }
    ensures { IfOk result (λ point. IsPointAt kept.now.machine slots.now at point) }
{
    let snapshots = snapshots_of(alloc, catalog, holdings, at)?;
    let volumes = volumes_of(alloc, catalog, holdings)?;
    let digests = kept.digests()?;
    let nodes = nodes_of(
        alloc,
        holdings,
        snapshots.as_slice(),
        volumes.as_slice(),
        &digests,
    )?;
    let standard = slots_of(alloc, nodes.as_slice(), slots)?;
    let rules = rules_of(alloc, catalog)?;
    let accounts = accounts_of(alloc, catalog)?;
    let policies = policies_of(alloc, catalog)?;
    Ok(Checkpoint {
        clock: at,
        accepted: kept.changes(),
        next_stamp: kept.stamps(),
        next_copy: 0,
        secret: secret_of(kept),
        accounts,
        snapshots,
        volumes,
        rules,
        policies,
        nodes,
        standard,
        archive: SlotRows::new(alloc),
    })
}

fn secret_of(kept: &Kept) -> [u8; 32]
    ensures value { result ≡ kept.now.machine.secret }
    ensures width { IsDigest result }
{
    let secret = kept.secret();
    check_digest(secret);
    *secret
}
