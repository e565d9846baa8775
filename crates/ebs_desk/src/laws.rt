// What a crash leaves while passes take turns.
ghost use Rattle.std.specs.Prelude.{List};
ghost use Rattle.ebs_recovery.specs.inner.Fits.{Fits, Seen};
ghost use Rattle.ebs_turns.specs.declared.line.Turn.{Turn};
ghost use Rattle.ebs_desk.specs.declared.item.Item.{Item};
ghost use Rattle.ebs_desk.specs.declared.shelf.Shelf.{Shelf};
ghost use Rattle.ebs_desk.specs.Turns.{Went};
ghost use Rattle.ebs_desk.specs.Fronts.{LeavesOnlyFronts};

use ebs_disk_store::Promise;
use ebs_recovery::images_stand_for_one;
use ebs_world::Disk;

/// On an honest disk with a sound store no crash takes back what was answered in a turn: what one leaves at any moment since the first turns of a line were made
/// stands for a front of it that has them, or for that after one change more.
pub fn turns_leave_fronts<S: Promise, D: Disk>()
    ensures { (first : Shelf Seen D) (line : List (Turn (Item D))) (last : Seen) (end : D) → Went S.sound D.view first.store first.disk line last end → Fits S.sound (D.view end) last
        → LeavesOnlyFronts S.sound D.view first line last end }
{
    images_stand_for_one::<D>();
}
