// Blocks that are read.
ghost use Rattle.std.specs.Prelude.{◌≡◌};
ghost use Rattle.ebs_model.specs.Quotas.{Rose};
ghost use Rattle.ebs_world.specs.Image.{Everywhere};
ghost use Rattle.ebs_world.specs.View.{Leaves, Ran};
ghost use Rattle.ebs_model.specs.Machine.{advance};
ghost use Rattle.ebs_kept.specs.inner.Wants.{MayRunOut};
ghost use Rattle.ebs_recovery.specs.inner.Fits.{Fits, StandsForOne};
ghost use Rattle.ebs_disk_store.specs.inner.Told.{IfSound, at_reading};
ghost use Rattle.ebs_disk_store.specs.inner.Turned.{Turn, kept_call};
ghost use Rattle.ebs_disk_store.specs.inner.Fetched.{IsFetch, Fetched};

use crate::loading::judge;
use crate::store::{Promise, Store};
use ebs_model::{Account, Answer, Moment, Request};
use ebs_world::Disk;

impl<S: Promise> Store<S> {
    /// Reads a block of a completed snapshot or of a volume, at the moment of the store's clock and the reading, which is in seconds since 1970 in
    /// UTC. What is answered has the SHA-256 that was kept of the block; where the bytes in its slot have another one, the answer is E18. E17 comes only
    /// of a block that is there.
    pub fn read<D: Disk>(
        &mut self,
        disk: &mut D,
        account: Account,
        reading: Moment,
        request: &Request,
    ) -> Answer
        requires fetch { IsFetch request.now }
        requires fits { Fits S.sound (D.view disk.old) self.old }
        ensures fits { Fits S.sound (D.view disk.new) self.new }
        ensures told { Fetched (disk.new ≡ disk.old) (Rose (D.view disk.old).faults (D.view disk.new).faults) (D.view disk.old) self.old self.new account (at_reading self.old reading) request.now result }
        ensures memory { result ≡ Answer.Memory → MayRunOut (kept_call (advance self.old.recorded (at_reading self.old reading)) account request.now) }

        // On an honest disk with a sound store it is the machine's own answer, and never E18.
        ensures step { IfSound S.sound (D.view disk.old) (Turn (D.view disk.old) (D.view disk.new) self.old self.new account reading request.now result) }

        ensures moments { IfSound S.sound (D.view disk.old) (Leaves (D.view disk.old) (D.view disk.new) (StandsForOne (D.view disk.old) self.old)) }
        ensures ran { Ran Everywhere (D.view disk.old) (D.view disk.new) }
    {
        judge(self.load(disk, account, reading, request))
    }
}
