// Blocks that are loaded and judged.
ghost use Rattle.std.specs.Prelude.{◌≡◌, ◌≤◌, ◌^◌, Ok, Some};
ghost use Rattle.ebs_model.specs.Quotas.{Rose};
ghost use Rattle.ebs_world.specs.Image.{Everywhere};
ghost use Rattle.ebs_world.specs.View.{Leaves, Ran};
ghost use Rattle.ebs_model.specs.Machine.{advance};
ghost use Rattle.ebs_kept.specs.inner.Wants.{MayRunOut};
ghost use Rattle.ebs_recovery.specs.inner.Fits.{Fits, StandsForOne};
ghost use Rattle.ebs_disk_store.specs.inner.Told.{IfSound, at_reading};
ghost use Rattle.ebs_disk_store.specs.inner.Turned.{Turn, TurnAt, kept_call};
ghost use Rattle.ebs_disk_store.specs.inner.Fetched.{IsFetch, Finds, Fetched, answer_of};

use crate::store::{Promise, Store};
use crate::turning::check_members;
use ebs_model::{Account, Answer, Block, Bytes, Failure, Moment, Refusal, Request, kept_form};
use ebs_recovery::fit_stays;
use ebs_slots::StageRefusal;
use ebs_world::Disk;
use sha2::{Digest, Sha256};

/// What a read came to before anything was hashed.
#[derive(Drop)]
pub enum Loaded {
    /// There is no block to judge.
    Answered(Answer),
    /// What stands in the slot of a block, and the SHA-256 that is kept of it.
    Block { stored: [u8; 32], bytes: Bytes },
}

/// Hashes what was loaded, and answers. It needs no store, so another call may have its turn meanwhile.
pub fn judge(loaded: Loaded) -> Answer
    ensures { result ≡ answer_of loaded }
{
    match loaded {
        Loaded::Answered(answer) => answer,
        Loaded::Block { stored, bytes } => judge_block(stored, bytes),
    }
}

// The bytes, where they have the digest that is kept.
fn judge_block(stored: [u8; 32], bytes: Bytes) -> Answer
    ensures { result ≡ answer_of (Loaded.Block stored bytes) }
{
    let found = Sha256::digest(bytes.as_slice());
    if found == stored {
        Answer::BlockRead {
            digest: stored,
            bytes,
        }
    } else {
        Answer::Refused(Refusal::Damaged { stored, found })
    }
}

impl<S: Promise> Store<S> {
    // The block that is read, by its digest.
    fn find(
        &self,
        account: Account,
        now: Moment,
        request: &Request,
    ) -> Result<Option<Block>, Failure>
        requires later { self.now.recorded.clock.second ≤ now.second }
        requires early { now.second ≤ 2 ^ 36 }
        requires fetch { IsFetch request.now }
        ensures { Finds (advance self.now.recorded now) account request.now result }
    {
        if let Err(failure) = check_members(self.alloc(), request) {
            return Err(failure);
        }
        match request {
            Request::GetSnapshotBlock { key, index, token } => {
                match self.kept.find(account, now, request, key, *index, token) {
                    Ok(block) => Ok(Some(block)),
                    Err(failure) => Err(failure),
                }
            }
            Request::ReadVolumeBlock { key, index } => self.kept.fetch(account, now, key, *index),
            _ => unreachable!(),
        }
    }

    // What stands in the slot of a kept block.
    fn load_block<D: Disk>(
        &mut self,
        disk: &mut D,
        account: Account,
        now: Moment,
        request: &Request,
        block: Block,
    ) -> Loaded
        requires later { self.old.clock.second ≤ now.second }
        requires early { now.second ≤ 2 ^ 36 }
        requires fetch { IsFetch request.now }
        requires finds { Finds (advance self.old.recorded now) account request.now (Ok (Some block)) }
        requires fits { Fits S.sound (D.view disk.old) self.old }
        ensures fits { Fits S.sound (D.view disk.new) self.new }
        ensures told { Fetched (disk.new ≡ disk.old) (Rose (D.view disk.old).faults (D.view disk.new).faults) (D.view disk.old) self.old self.new account now request.now (answer_of result) }
        ensures step { IfSound S.sound (D.view disk.old) (TurnAt (D.view disk.old) (D.view disk.new) self.old self.new account now request.now (answer_of result)) }
        ensures moments { IfSound S.sound (D.view disk.old) (Leaves (D.view disk.old) (D.view disk.new) (StandsForOne (D.view disk.old) self.old)) }
        ensures ran { Ran Everywhere (D.view disk.old) (D.view disk.new) }
    {
        kept_form();
        fit_stays::<D>();
        let stored = block.digest;
        match self.slots.load(disk, block.stamp) {
            Ok(bytes) => {
                self.tick(now);
                Loaded::Block { stored, bytes }
            }
            Err(StageRefusal::DiskFailed) => {
                Loaded::Answered(Answer::Refused(Refusal::Unavailable))
            }
            Err(StageRefusal::Memory) => Loaded::Answered(Answer::Memory),
        }
    }

    /// Loads a block of a completed snapshot or of a volume for a read, at the moment of the store's clock and the reading, which is in seconds since
    /// 1970 in UTC, and hashes nothing. `judge` gives the answer, and all that is told here is told of that answer. The moment is passed whichever digest the bytes have.
    pub fn load<D: Disk>(
        &mut self,
        disk: &mut D,
        account: Account,
        reading: Moment,
        request: &Request,
    ) -> Loaded
        requires fetch { IsFetch request.now }
        requires fits { Fits S.sound (D.view disk.old) self.old }
        ensures fits { Fits S.sound (D.view disk.new) self.new }
        ensures told { Fetched (disk.new ≡ disk.old) (Rose (D.view disk.old).faults (D.view disk.new).faults) (D.view disk.old) self.old self.new account (at_reading self.old reading) request.now (answer_of result) }
        ensures memory { answer_of result ≡ Answer.Memory → MayRunOut (kept_call (advance self.old.recorded (at_reading self.old reading)) account request.now) }

        // On an honest disk with a sound store it is judged to be the machine's own answer, and never E18.
        ensures step { IfSound S.sound (D.view disk.old) (Turn (D.view disk.old) (D.view disk.new) self.old self.new account reading request.now (answer_of result)) }

        ensures moments { IfSound S.sound (D.view disk.old) (Leaves (D.view disk.old) (D.view disk.new) (StandsForOne (D.view disk.old) self.old)) }
        ensures ran { Ran Everywhere (D.view disk.old) (D.view disk.new) }
    {
        kept_form();
        fit_stays::<D>();
        let now = self.moment(reading);
        match self.find(account, now, request) {
            Ok(Some(block)) => self.load_block(disk, account, now, request, block),
            Ok(None) => {
                self.tick(now);
                Loaded::Answered(Answer::ZeroBlockRead)
            }
            Err(failure) => Loaded::Answered(self.fail(now, failure)),
        }
    }
}
