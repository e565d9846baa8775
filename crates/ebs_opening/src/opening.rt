// The store of a disk.
ghost use Rattle.std.specs.Prelude.{◌≡◌, true, None, IfOk, IfErr, IfSome};
ghost use Rattle.std.specs.FinMap as fin;
ghost use Rattle.ebs_world.specs.Image.{Everywhere};
ghost use Rattle.ebs_world.specs.View.{Leaves, Ran};
ghost use Rattle.ebs_journal.specs.Opening.{OffMaking};
ghost use Rattle.ebs_model.specs.Machine.{Machine};
ghost use Rattle.ebs_recovery.specs.inner.Fits.{Fits};
ghost use Rattle.ebs_recovery.specs.Stands.{Stands};
ghost use Rattle.ebs_disk_store.specs.Opened.{IsMarked, IsPromising, IsUnopened};
ghost use Rattle.ebs_disk_store.specs.inner.Opened.{MayRefuse};
ghost use Rattle.ebs_opening.specs.Opens.{AllStand, IsUnready};
ghost use Rattle.ebs_opening.specs.inner.Opens.{Has, IsReadOrNew, is_unmade};

use ebs_disk_store::{OpenRefusal, Promise, Store};
use ebs_recovery::{new_stands, one_machine, standing_rests};
use ebs_world::Disk;
use std::alloc::Global;
use std::marker::Brand;

/// The secret of a store that no command made.
const NO_SECRET: [u8; 32] = [0; 32];

/// Opens the store of a disk, or makes it where none was made.
pub fn open_or_make<S: Promise, D: Disk>(
    alloc: Global,
    disk: &mut D,
) -> Result<Store<S>, OpenRefusal>
    requires sound { S.sound → IsPromising (D.view disk.old) }
    ensures fits { IfOk result (λ store. Fits S.sound (D.view disk.new) store) }

    // Where the disk stood for a machine, that is the store's.
    ensures machine { IfOk result (λ store. (D.view disk.old).tells ≡ true → (D.view disk.old).honest ≡ true → (m : Machine) → Stands (D.view disk.old).reads m → Has (D.view disk.new) store m) }

    // On any disk that tells, it is what the journal gives where a store was made, and else the new one.
    ensures read { IfOk result (λ store. (D.view disk.old).tells ≡ true → IsReadOrNew (D.view disk.old) store) }

    ensures clean { IfOk result (λ store. store.pending ≡ None) }
    ensures unleased { IfOk result (λ store. store.slots.leases ≡ fin.empty) }
    ensures refused { IfErr result (IsUnready (D.view disk.old) (D.view disk.new)) }
    ensures stood { IfErr result (λ refusal. (D.view disk.old).tells ≡ true → (m : Machine) → Stands (D.view disk.old).reads m → MayRefuse refusal) }

    // Where each image stood for that machine before, each image of each moment does.
    ensures moments { (D.view disk.old).tells ≡ true → (D.view disk.old).honest ≡ true → (m : Machine) → Stands (D.view disk.old).reads m → AllStand (D.view disk.old) m
        → Leaves (D.view disk.old) (D.view disk.new) (λ c. Stands c m) }

    ensures ran { Ran OffMaking (D.view disk.old) (D.view disk.new) }

    // Where a store was made nothing is written.
    ensures unwritten { (D.view disk.old).tells ≡ true → IsMarked (D.view disk.old) → Ran Everywhere (D.view disk.old) (D.view disk.new) }
{
    new_stands();
    one_machine();
    standing_rests();
    let refusal = match Store::open(alloc, disk) {
        Ok(store) => return Ok(store),
        Err(why) => why,
    };
    if is_unmade(refusal) {
        return Store::make(alloc, disk, NO_SECRET);
    }
    Err(refusal)
}

// Whether the refusal is that no store was made.
fn is_unmade(refusal: OpenRefusal) -> bool
    ensures { result ≡ is_unmade refusal }
{
    matches!(refusal, OpenRefusal::NotMade)
}

/// Why the store of a disk isn't opened, by opening it. Nothing is written.
pub fn refusal_of<D: Disk>(alloc: Global, disk: &mut D) -> Option<OpenRefusal>
    ensures refused { IfSome result (IsUnopened (D.view disk.old) (D.view disk.new)) }
    ensures ran { Ran Everywhere (D.view disk.old) (D.view disk.new) }
{
    Store::<Brand>::open(alloc, disk).err()
}
