// Making a store.
ghost use Rattle.std.specs.Prelude.{◌≡◌, ◌≤◌, ◌^◌, true, IfOk, IfErr, IsErrOf};
ghost use Rattle.ebs_world.specs.declared.area.Area.TheVariants.{Archive};
ghost use Rattle.ebs_world.specs.Image.{Everywhere};
ghost use Rattle.ebs_world.specs.View.{Leaves, Ran, IsCaused};
ghost use Rattle.ebs_journal.specs.inner.Line.{line};
ghost use Rattle.ebs_journal.specs.Opening.{OffMaking};
ghost use Rattle.ebs_recovery.specs.inner.Fits.{Fits, new_store};
ghost use Rattle.ebs_disk_store.specs.inner.Creations.{IsUnmade};
ghost use Rattle.ebs_disk_store.specs.Opened.{KeepsMade, NoneNewOrOld};
ghost use Rattle.ebs_disk_store.specs.declared.refusal.OpenRefusal.TheVariants.{AlreadyMade};

use crate::refusal::OpenRefusal;
use crate::store::{Promise, Store};
use ebs_journal::{Journal, sync_all};
use ebs_kept::Kept;
use ebs_model::Moment;
use ebs_recovery::{new_stands, slots_fit, write_first};
use ebs_slots::Slots;
use ebs_world::{Area, Disk, Failed};
use std::alloc::Global;
use std::marker::PhantomData;

// The mark that a store was made.
fn read_mark<D: Disk>(disk: &mut D) -> Result<u8, Failed>
    ensures byte { IfOk result (λ b. (D.view disk.old).tells ≡ true → b ≡ (D.view disk.old).reads Archive 0) }
    ensures ran { Ran Everywhere (D.view disk.old) (D.view disk.new) }
    ensures cause { IsCaused (D.view disk.old) (D.view disk.new) result }
{
    let mut room = [0u8; 1];
    disk.read(Area::Archive, 0, &mut room)?;
    Ok(room[0])
}

impl<S: Promise> Store<S> {
    // A store without records, behind its new journal.
    fn begin(alloc: Global, secret: [u8; 32], journal: Journal) -> Store<S>
        requires end { (line journal).end ≤ 2 ^ 41 }
        requires clean { (line journal).clean ≡ true }
        ensures { result ≡ new_store secret (line journal) }
    {
        Store {
            kept: Kept::new(alloc, secret),
            clock: Moment { second: 0 },
            slots: Slots::new(alloc, Area::Blocks),
            journal,
            pending: None,
            promise: PhantomData,
        }
    }

    /// Makes the store of the empty machine with this secret on a disk where none was made, after a sync of all areas. On a disk
    /// where one was made nothing is written.
    pub fn make<D: Disk>(
        alloc: Global,
        disk: &mut D,
        secret: [u8; 32],
    ) -> Result<Store<S>, OpenRefusal>
        ensures fits { IfOk result (λ store. Fits S.sound (D.view disk.new) store) }
        ensures store { IfOk result (λ store. store ≡ new_store secret store.journal) }

        // At each moment of an honest disk no store was made, the new one is whole, or an image is one of before.
        ensures moments { (D.view disk.old).tells ≡ true → (D.view disk.old).honest ≡ true → Leaves (D.view disk.old) (D.view disk.new) (NoneNewOrOld (D.view disk.old) secret) }

        ensures refused { IfErr result (IsUnmade (D.view disk.old) (D.view disk.new)) }
        ensures new { IfOk result (λ store. (D.view disk.old).tells ≡ true → (D.view disk.old).reads Archive 0 ≡ 0) }
        ensures unwritten { IsErrOf result AlreadyMade → Ran Everywhere (D.view disk.old) (D.view disk.new) }

        // Over a store that was made nothing is written, whatever the result.
        ensures kept { KeepsMade (D.view disk.old) (D.view disk.new) }

        ensures ran { Ran OffMaking (D.view disk.old) (D.view disk.new) }
    {
        slots_fit::<D>();
        new_stands();
        sync_all(disk)?;
        if read_mark(disk)? != 0 {
            return Err(OpenRefusal::AlreadyMade);
        }
        let journal = Journal::make(alloc, disk, &write_first(secret))?;
        Ok(Store::begin(alloc, secret, journal))
    }
}
