// What a change does to arrays, and the room that it takes.
ghost use Rattle.std.specs.Prelude.{◌≡◌, ◌<◌, ◌+◌, ◌^◌, true, OnOk, IfSome, IsSome};
ghost use Rattle.std.specs.FinMap as map;
ghost use Rattle.ebs_model.specs.Decisions.{made_snap, made_vol};
ghost use Rattle.ebs_slots.specs.inner.Slots.{SlotTable};
ghost use Rattle.ebs_collect.specs.Slices.{IsCounted};
ghost use Rattle.ebs_holds.specs.Holds.{blocks_at, nodes_in, is_ready, HasNodes, CanPut};
ghost use Rattle.ebs_holds.specs.Counted.{KeepsBlocks, KeepsCounted, replaced_by, replaced_in};
ghost use Rattle.ebs_holds.specs.Changes.{AreFree, AreReady, CanMake, CanRun, GivesBack, HasRoom, HasSmallIndex, IsFree, IsFreeOne, IsReadyOne, after, begins, runs, runs_one, snap_holder, vol_holder};

use crate::holder::Holder;
use crate::holdings::Holdings;
use ebs_model::{AnyKey, Block, Change, Request};
use std::alloc::AllocError;

/// Keeps the room that the change takes. The arrays stay.
pub fn reserve(holdings: &mut Holdings, change: &Change) -> Result<(), AllocError>
    ensures arrays { (q : _) → blocks_at holdings.new q ≡ blocks_at holdings.old q }
    ensures room { OnOk result (HasRoom holdings.new change.now.made change.now.request) }
    ensures blocks { KeepsBlocks (nodes_in holdings.old) (nodes_in holdings.new) }
    ensures queue { holdings.new.queue ≡ holdings.old.queue }
    ensures replaced { (q : _) (index : _) → replaced_by holdings.new q index ≡ replaced_by holdings.old q index }
{
    let made = change.made.as_slice();
    match &change.request {
        Request::StartSnapshot { .. } => reserve_made(holdings, &made_snapshot(made)),
        Request::CreateVolume { .. } => reserve_made(holdings, &made_volume(made)),
        Request::CreateSnapshot { .. } => reserve_made(holdings, &made_snapshot(made)),
        Request::RunPolicy { .. } => reserve_run(holdings, made),
        Request::PutSnapshotBlock { key, index, .. } => {
            reserve_index(holdings, &Holder::snapshot(key), *index)
        }
        Request::WriteVolumeBlock { key, index, .. } => {
            reserve_index(holdings, &Holder::volume(key), *index)
        }
        _ => Ok(()),
    }
}

fn reserve_made(holdings: &mut Holdings, made: &Option<Holder>) -> Result<(), AllocError>
    ensures arrays { (q : _) → blocks_at holdings.new q ≡ blocks_at holdings.old q }
    ensures room { OnOk result (CanMake holdings.new made.now) }
    ensures blocks { KeepsBlocks (nodes_in holdings.old) (nodes_in holdings.new) }
    ensures queue { holdings.new.queue ≡ holdings.old.queue }
    ensures replaced { (q : _) (index : _) → replaced_by holdings.new q index ≡ replaced_by holdings.old q index }
{
    match made {
        Some(holder) => {
            holdings.prepare(holder)?;
            holdings.reserve_nodes(1)
        }
        None => Ok(()),
    }
}

fn reserve_index(holdings: &mut Holdings, holder: &Holder, index: u64) -> Result<(), AllocError>
    ensures arrays { (q : _) → blocks_at holdings.new q ≡ blocks_at holdings.old q }
    ensures room { OnOk result (index < 2 ^ 32 → CanPut holdings.new holder.now) }
    ensures blocks { KeepsBlocks (nodes_in holdings.old) (nodes_in holdings.new) }
    ensures queue { holdings.new.queue ≡ holdings.old.queue }
    ensures replaced { (q : _) (index : _) → replaced_by holdings.new q index ≡ replaced_by holdings.old q index }
{
    if index >= 1 << 32 {
        return Ok(());
    }
    holdings.reserve_put(holder)
}

fn reserve_run(holdings: &mut Holdings, made: &[AnyKey]) -> Result<(), AllocError>
    ensures arrays { (q : _) → blocks_at holdings.new q ≡ blocks_at holdings.old q }
    ensures room { OnOk result (CanRun holdings.new made.now) }
    ensures blocks { KeepsBlocks (nodes_in holdings.old) (nodes_in holdings.new) }
    ensures queue { holdings.new.queue ≡ holdings.old.queue }
    ensures replaced { (q : _) (index : _) → replaced_by holdings.new q index ≡ replaced_by holdings.old q index }
{
    let Ok(count) = u32::try_from(made.len()) else {
        return Err(AllocError);
    };
    prepare_all(holdings, made)?;
    holdings.reserve_nodes(count)
}

fn prepare_all(holdings: &mut Holdings, made: &[AnyKey]) -> Result<(), AllocError>
    ensures arrays { (q : _) → blocks_at holdings.new q ≡ blocks_at holdings.old q }
    ensures ready { OnOk result (AreReady holdings.new made.now) }
    ensures others { (q : _) → is_ready holdings.old q ≡ true → is_ready holdings.new q ≡ true }
    ensures blocks { KeepsBlocks (nodes_in holdings.old) (nodes_in holdings.new) }
    ensures queue { holdings.new.queue ≡ holdings.old.queue }
    ensures replaced { (q : _) (index : _) → replaced_by holdings.new q index ≡ replaced_by holdings.old q index }
{
    match made {
        [] => Ok(()),
        [id, rest @ ..] => {
            prepare_one(holdings, id)?;
            prepare_all(holdings, rest)
        }
    }
}

fn prepare_one(holdings: &mut Holdings, id: &AnyKey) -> Result<(), AllocError>
    ensures arrays { (q : _) → blocks_at holdings.new q ≡ blocks_at holdings.old q }
    ensures ready { OnOk result (IsReadyOne holdings.new id.now) }
    ensures others { (q : _) → is_ready holdings.old q ≡ true → is_ready holdings.new q ≡ true }
    ensures blocks { KeepsBlocks (nodes_in holdings.old) (nodes_in holdings.new) }
    ensures queue { holdings.new.queue ≡ holdings.old.queue }
    ensures replaced { (q : _) (index : _) → replaced_by holdings.new q index ≡ replaced_by holdings.old q index }
{
    match id {
        AnyKey::Snap(key) => holdings.prepare(&Holder::snapshot(key)),
        _ => Ok(()),
    }
}

/// The stamp of the block that the request puts another in the place of. It has a slot.
pub fn replaced(holdings: &Holdings, request: &Request) -> Option<u64>
    ensures value { result ≡ replaced_in holdings.now request.now }
    ensures there { IfSome result (λ stamp. (s : SlotTable) → IsCounted s (nodes_in holdings.now) → IsSome (map.get s.keys stamp)) }
{
    match request {
        Request::PutSnapshotBlock { key, index, .. } => {
            holdings.replaced(&Holder::snapshot(key), *index)
        }
        Request::WriteVolumeBlock { key, index, .. } => {
            holdings.replaced(&Holder::volume(key), *index)
        }
        _ => None,
    }
}

/// Takes back the room for a change that doesn't come. The arrays stay.
pub fn give_back(holdings: &mut Holdings, change: &Change)
    ensures arrays { (q : _) → blocks_at holdings.new q ≡ blocks_at holdings.old q }
    ensures free { GivesBack holdings.new change.now.made change.now.request }
    ensures blocks { KeepsBlocks (nodes_in holdings.old) (nodes_in holdings.new) }
    ensures queue { holdings.new.queue ≡ holdings.old.queue }
    ensures replaced { (q : _) (index : _) → replaced_by holdings.new q index ≡ replaced_by holdings.old q index }
{
    let made = change.made.as_slice();
    match &change.request {
        Request::StartSnapshot { .. } => give_back_all(holdings, made),
        Request::CreateVolume { .. } => give_back_all(holdings, made),
        Request::CreateSnapshot { .. } => give_back_all(holdings, made),
        Request::RunPolicy { .. } => give_back_all(holdings, made),
        _ => {}
    }
}

fn give_back_all(holdings: &mut Holdings, made: &[AnyKey])
    ensures arrays { (q : _) → blocks_at holdings.new q ≡ blocks_at holdings.old q }
    ensures free { AreFree holdings.new made.now }
    ensures others { (q : _) → IsFree holdings.old q → IsFree holdings.new q }
    ensures blocks { KeepsBlocks (nodes_in holdings.old) (nodes_in holdings.new) }
    ensures queue { holdings.new.queue ≡ holdings.old.queue }
    ensures replaced { (q : _) (index : _) → replaced_by holdings.new q index ≡ replaced_by holdings.old q index }
{
    match made {
        [] => {}
        [id, rest @ ..] => {
            give_back_one(holdings, id);
            give_back_all(holdings, rest);
        }
    }
}

fn give_back_one(holdings: &mut Holdings, id: &AnyKey)
    ensures arrays { (q : _) → blocks_at holdings.new q ≡ blocks_at holdings.old q }
    ensures free { IsFreeOne holdings.new id.now }
    ensures others { (q : _) → IsFree holdings.old q → IsFree holdings.new q }
    ensures blocks { KeepsBlocks (nodes_in holdings.old) (nodes_in holdings.new) }
    ensures queue { holdings.new.queue ≡ holdings.old.queue }
    ensures replaced { (q : _) (index : _) → replaced_by holdings.new q index ≡ replaced_by holdings.old q index }
{
    match id {
        AnyKey::Snap(key) => holdings.release(&Holder::snapshot(key)),
        AnyKey::Vol(key) => holdings.release(&Holder::volume(key)),
        _ => {}
    }
}

/// Does to arrays what the change does, which takes no memory. What a start or a creation makes begins from the source.
pub fn write(holdings: &mut Holdings, change: &Change, source: &Option<Holder>, block: Block)
    requires room { HasRoom holdings.old change.now.made change.now.request }
    requires small { HasSmallIndex change.now.request }
    ensures arrays { (q : _) → blocks_at holdings.new q ≡ after change.now.made change.now.sources source.now block (blocks_at holdings.old) change.now.request q }
    ensures counted { KeepsCounted (nodes_in holdings.old) (nodes_in holdings.new) change.now.request block.stamp (replaced_in holdings.old change.now.request) }
{
    let made = change.made.as_slice();
    match &change.request {
        Request::StartSnapshot { .. } => begin_made(holdings, &made_snapshot(made), source),
        Request::CreateVolume { .. } => begin_made(holdings, &made_volume(made), source),
        Request::CreateSnapshot { key, .. } => {
            begin_made(holdings, &made_snapshot(made), &Some(Holder::volume(key)));
        }
        Request::RunPolicy { .. } => begin_run(holdings, made, change.sources.as_slice()),
        Request::PutSnapshotBlock { key, index, .. } => {
            holdings.put(&Holder::snapshot(key), *index as u32, block);
        }
        Request::WriteVolumeBlock { key, index, .. } => {
            holdings.put(&Holder::volume(key), *index as u32, block);
        }
        Request::CompleteSnapshot { key, .. } => holdings.seal(&Holder::snapshot(key)),
        Request::DeleteVolume { key } => holdings.drop_array(&Holder::volume(key)),
        _ => {}
    }
}

fn begin_made(holdings: &mut Holdings, made: &Option<Holder>, source: &Option<Holder>)
    requires { CanMake holdings.old made.now }
    ensures arrays { (q : _) → blocks_at holdings.new q ≡ begins (blocks_at holdings.old) made.now source.now q }
    ensures blocks { KeepsBlocks (nodes_in holdings.old) (nodes_in holdings.new) }
{
    if let Some(holder) = made {
        holdings.begin(holder, source);
    }
}

fn begin_run(holdings: &mut Holdings, made: &[AnyKey], sources: &[AnyKey])
    requires { CanRun holdings.old made.now }
    ensures arrays { (q : _) → blocks_at holdings.new q ≡ runs (blocks_at holdings.old) made.now sources.now q }
    ensures blocks { KeepsBlocks (nodes_in holdings.old) (nodes_in holdings.new) }
{
    match sources {
        [] => {}
        [source, sources @ ..] => match made {
            [] => {}
            [id, made @ ..] => {
                begin_one(holdings, id, source);
                begin_run(holdings, made, sources);
            }
        },
    }
}

fn begin_one(holdings: &mut Holdings, id: &AnyKey, source: &AnyKey)
    requires ready { IsReadyOne holdings.old id.now }
    requires room { HasNodes holdings.old 1 }
    ensures arrays { (q : _) → blocks_at holdings.new q ≡ runs_one (blocks_at holdings.old) id.now source.now q }
    ensures room { (count : _) → HasNodes holdings.old (count + 1) → HasNodes holdings.new count }
    ensures ready { (q : _) → is_ready holdings.new q ≡ is_ready holdings.old q }
    ensures blocks { KeepsBlocks (nodes_in holdings.old) (nodes_in holdings.new) }
{
    if let (AnyKey::Snap(key), AnyKey::Vol(volume)) = (id, source) {
        holdings.begin(&Holder::snapshot(key), &Some(Holder::volume(volume)));
    }
}

fn made_snapshot(made: &[AnyKey]) -> Option<Holder>
    ensures { result ≡ snap_holder (made_snap made.now) }
{
    match made {
        [AnyKey::Snap(key), ..] => Some(Holder::snapshot(key)),
        _ => None,
    }
}

fn made_volume(made: &[AnyKey]) -> Option<Holder>
    ensures { result ≡ vol_holder (made_vol made.now) }
{
    match made {
        [AnyKey::Vol(key), ..] => Some(Holder::volume(key)),
        _ => None,
    }
}
