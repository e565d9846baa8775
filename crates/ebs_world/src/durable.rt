// A write that is durable once it is done.
ghost use Rattle.std.specs.Prelude.{◌≡◌, ◌+◌, ◌≤◌, ◌^◌, true, length, OnOk};
ghost use Rattle.ebs_world.specs.Image.{Spells, IsOutside, Durable};
ghost use Rattle.ebs_world.specs.View.{Ran, IsCaused};

use crate::area::Area;
use crate::disk::Disk;
use crate::faults::Failed;

/// Writes a piece and syncs its area.
pub fn write_durably<D: Disk>(disk: &mut D, area: Area, at: u64, piece: &[u8]) -> Result<(), Failed>
    requires { at + length piece.now ≤ 2 ^ 62 }
    ensures written { OnOk result ((D.view disk.old).tells ≡ true → Spells ((D.view disk.new).reads area) at piece.now) }
    ensures durable { OnOk result ((D.view disk.old).tells ≡ true → (D.view disk.old).honest ≡ true
        → Durable area (D.view disk.new).reads (D.view disk.new).may_leave) }
    ensures ran { Ran (IsOutside area at (length piece.now)) (D.view disk.old) (D.view disk.new) }
    ensures cause { IsCaused (D.view disk.old) (D.view disk.new) result }
{
    disk.write(area, at, piece)?;
    disk.sync(area)?;
    Ok(())
}
