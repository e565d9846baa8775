// The check of all blocks.
ghost use Rattle.std.specs.Prelude.{◌≡◌, ◌≢◌};
ghost use Rattle.ebs_world.specs.Image.{Everywhere};
ghost use Rattle.ebs_world.specs.View.{Leaves, Ran};
ghost use Rattle.ebs_recovery.specs.inner.Fits.{Fits, StandsForOne, kept_state};
ghost use Rattle.ebs_disk_store.specs.inner.Told.{IfSound};
ghost use Rattle.ebs_commands.specs.Ends.{Checks, Tells};
ghost use Rattle.ebs_commands.specs.declared.ending.CommandEnd.TheVariants as ends;

use crate::ending::{CommandEnd, put_line};
use crate::lines::check_line;
use ebs_disk_store::{Checked, Promise, Stop, Store};
use ebs_world::{Disk, Sink};
use std::alloc::Global;

// What was found, told.
fn tell<O: Sink>(alloc: Global, output: &mut O, checked: Checked) -> CommandEnd
    ensures { Tells result checked (O.outlet output.old) (O.outlet output.new) }
{
    let Ok(line) = check_line(alloc, checked) else {
        return CommandEnd::Memory;
    };
    match put_line(output, line.as_bytes()) {
        Ok(()) if checked.damaged != 0 => CommandEnd::Damaged,
        Ok(()) => CommandEnd::Done,
        Err(end) => end,
    }
}

/// Reads each block that has a slot, and prints how many there are and how many are damaged.
pub fn check<S: Promise, D: Disk, O: Sink>(
    alloc: Global,
    store: &mut Store<S>,
    disk: &mut D,
    output: &mut O,
) -> CommandEnd
    requires fits { Fits S.sound (D.view disk.old) store.old }
    ensures fits { Fits S.sound (D.view disk.new) store.new }
    ensures ends { Checks result (D.view disk.old) (D.view disk.new) (kept_state store.old) (O.outlet output.old) (O.outlet output.new) }
    ensures still { store.new ≡ store.old }

    // On an honest disk with a sound store nothing is damaged.
    ensures sound { IfSound S.sound (D.view disk.old) (result ≢ ends.Damaged) }

    ensures moments { IfSound S.sound (D.view disk.old) (Leaves (D.view disk.old) (D.view disk.new) (StandsForOne (D.view disk.old) store.old)) }
    ensures ran { Ran Everywhere (D.view disk.old) (D.view disk.new) }
{
    match store.check(disk) {
        Ok(checked) => tell(alloc, output, checked),
        Err(Stop::Unavailable) => CommandEnd::DiskFailed,
        Err(Stop::Memory) => CommandEnd::Memory,
    }
}
