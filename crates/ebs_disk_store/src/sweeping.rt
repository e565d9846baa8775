// Giving up what nothing holds any more.
ghost use Rattle.std.specs.Prelude.{◌≡◌, ℕ, IsSome};
ghost use Rattle.std.specs.FinMap as fin;
ghost use Rattle.ebs_holds.specs.Holds.{nodes_in};
ghost use Rattle.ebs_collect.specs.Slices.{IsCounted, Frees};
ghost use Rattle.ebs_kept.specs.inner.Counted.{AreAllShown};
ghost use Rattle.ebs_disk_store.specs.Collected.{IsShared};
ghost use Rattle.ebs_disk_store.specs.inner.Shown.{AreSlotted};

use ebs_collect::{Progress, blocks_stay};
use ebs_kept::Kept;
use ebs_slots::Slots;

/// Looks at all blocks that wait, each once. Where no array is left that time has ended, the slots of shared blocks stay and no
/// other.
pub(crate) fn collect_all(kept: &mut Kept, slots: &mut Slots)
    requires { IsCounted slots.old (nodes_in kept.old.holding) }
    ensures machine { kept.new.machine ≡ kept.old.machine }
    ensures counted { IsCounted slots.new (nodes_in kept.new.holding) }
    ensures frees { Frees slots.old slots.new }
    ensures waiting { kept.new.holding.queue.waiting ≡ 0 }
    ensures shared { AreAllShown kept.old → (stamp : ℕ) → IsSome (fin.get slots.new.keys stamp) → IsShared kept.new.machine stamp }
    ensures slotted { AreSlotted slots.new.keys kept.new.machine }
{
    'slices: while let Progress::More = kept.collect(slots, u32::MAX) {}
    kept.blocks_have_slots();
}

/// Gives up what time has ended at the clock, which walks the rows that wait for it, and looks at all blocks that wait.
pub(crate) fn sweep(kept: &mut Kept, slots: &mut Slots)
    requires { IsCounted slots.old (nodes_in kept.old.holding) }
    ensures machine { kept.new.machine ≡ kept.old.machine }
    ensures counted { IsCounted slots.new (nodes_in kept.new.holding) }
    ensures frees { Frees slots.old slots.new }
    ensures waiting { kept.new.holding.queue.waiting ≡ 0 }
    ensures shared { (stamp : ℕ) → IsSome (fin.get slots.new.keys stamp) → IsShared kept.new.machine stamp }
    ensures slotted { AreSlotted slots.new.keys kept.new.machine }
{
    blocks_stay();
    kept.give_up_ended();
    collect_all(kept, slots);
}
