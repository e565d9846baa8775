// Closing the gate that is in doubt.
ghost use Rattle.std.specs.Prelude.{◌≡◌, None, OnOk, OnErr};
ghost use Rattle.ebs_world.specs.View.{Leaves, Ran, IsCaused};
ghost use Rattle.ebs_journal.specs.Opening.{OffJournal};
ghost use Rattle.ebs_recovery.specs.inner.Fits.{Fits, StandsForOne, recorded};
ghost use Rattle.ebs_disk_store.specs.inner.Told.{IfSound, mended};

use crate::store::{Promise, Store};
use ebs_journal::DiskFailed;
use ebs_recovery::{doubt_is_told, fit_stays, held_is_kept, moments_stand, outcomes_fit};
use ebs_world::Disk;

impl<S: Promise> Store<S> {
    /// Takes back a record, or a checkpoint, that isn't known to be there. Where none is pending it makes no call.
    pub(crate) fn mend<D: Disk>(&mut self, disk: &mut D) -> Result<(), DiskFailed>
        requires fits { Fits S.sound (D.view disk.old) self.old }
        ensures fits { Fits S.sound (D.view disk.new) self.new }
        ensures ok { OnOk result (self.new ≡ mended self.old) }
        ensures err { OnErr result (self.new ≡ self.old) }
        ensures same { IfSound S.sound (D.view disk.old) (recorded (D.view disk.new) self.new ≡ recorded (D.view disk.old) self.old) }
        ensures moments { IfSound S.sound (D.view disk.old) (Leaves (D.view disk.old) (D.view disk.new) (StandsForOne (D.view disk.old) self.old)) }
        ensures still { self.old.pending ≡ None → disk.new ≡ disk.old }
        ensures ran { Ran OffJournal (D.view disk.old) (D.view disk.new) }
        ensures cause { IsCaused (D.view disk.old) (D.view disk.new) result }
    {
        fit_stays::<D>();
        held_is_kept::<D>();
        moments_stand::<D>();
        doubt_is_told::<D>();
        outcomes_fit::<D>();
        if self.pending.is_none() {
            return Ok(());
        }
        let Ok(()) = self.journal.mend(disk) else {
            return Err(DiskFailed);
        };
        self.pending = None;
        Ok(())
    }
}
