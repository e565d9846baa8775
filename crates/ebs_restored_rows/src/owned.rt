// Volumes and policies.
ghost use Rattle.std.specs.Prelude.{◌≡◌, OnOk};
ghost use Rattle.std.specs.List.{All};
ghost use Rattle.ebs_catalog.specs.Held.{rows_in};
ghost use Rattle.ebs_restored_rows.specs.Placed.{put_all, with_policy, with_volume};
ghost use Rattle.ebs_restored_rows.specs.Restores.{MayRestorePolicy, MayRestoreVolume};

use ebs_catalog::Catalog;
use ebs_checkpoints::{PolicyRows, VolPoints};
use std::alloc::AllocError;

/// Puts all volumes back.
pub(crate) fn restore_volumes(catalog: &mut Catalog, volumes: VolPoints) -> Result<(), AllocError>
    requires { All (MayRestoreVolume (rows_in catalog.old).own) volumes }
    ensures rows { OnOk result (rows_in catalog.new ≡ put_all with_volume (rows_in catalog.old) volumes) }
    ensures latest { catalog.new.latest ≡ catalog.old.latest }
{
    let mut rows = volumes.into_vec();
    'volume: while let Some(volume) = rows.pop() {
        catalog.restore_volume(volume.row)?;
    }
    Ok(())
}

/// Puts all policies back.
pub(crate) fn restore_policies(
    catalog: &mut Catalog,
    policies: PolicyRows,
) -> Result<(), AllocError>
    requires { All MayRestorePolicy policies }
    ensures rows { OnOk result (rows_in catalog.new ≡ put_all with_policy (rows_in catalog.old) policies) }
    ensures latest { catalog.new.latest ≡ catalog.old.latest }
{
    let mut rows = policies.into_vec();
    'policy: while let Some(policy) = rows.pop() {
        catalog.restore_policy(policy)?;
    }
    Ok(())
}
