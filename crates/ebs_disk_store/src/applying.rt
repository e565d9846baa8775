// Calls of any kind.
ghost use Rattle.std.specs.Prelude.{◌≡◌, None, length};
ghost use Rattle.sha2.specs.Sha256.{sha256};
ghost use Rattle.ebs_model.specs.Quotas.{Rose};
ghost use Rattle.ebs_world.specs.View.{Leaves};
ghost use Rattle.ebs_model.specs.Limits.{bad_member};
ghost use Rattle.ebs_model.specs.Machine.{advance};
ghost use Rattle.ebs_recovery.specs.Made.{called};
ghost use Rattle.ebs_recovery.specs.inner.Fits.{Fits, recorded};
ghost use Rattle.ebs_disk_store.specs.inner.Told.{IfSound, RanOffJournalAndOne, at_reading, called_at};
ghost use Rattle.ebs_disk_store.specs.inner.Turned.{MayLeave, OneMoreOrNone, Turn};
ghost use Rattle.ebs_disk_store.specs.inner.Puts.{WholePutTold, with_bytes};
ghost use Rattle.ebs_disk_store.specs.inner.Wants.{OnWant};
ghost use Rattle.ebs_disk_store.specs.inner.Applied.{Applied, IsPut};
ghost use Rattle.ebs_disk_store.specs.inner.Pending.{IsPendingAfter, RecordedCallsAreAsked};

use crate::heads::PutHead;
use crate::kinds::{Kind, kind_of};
use crate::store::{Promise, Store};
use crate::turning::check_members;
use ebs_model::{Account, Answer, Bytes, Moment, Refusal, Request, kept_form};
use ebs_recovery::{fit_stays, recorded_rests, writing_fits};
use ebs_slots::Prepared;
use ebs_world::Disk;

impl<S: Promise> Store<S> {
    // Puts a block that has its size.
    fn put_bytes<D: Disk>(
        &mut self,
        disk: &mut D,
        account: Account,
        reading: Moment,
        head: PutHead,
        bytes: Bytes,
    ) -> Answer
        requires whole { length bytes ≡ 524288 }
        requires fits { Fits S.sound (D.view disk.old) self.old }
        ensures fits { Fits S.sound (D.view disk.new) self.new }
        ensures told { WholePutTold (disk.new ≡ disk.old) (Rose (D.view disk.old).faults (D.view disk.new).faults) self.old self.new account (at_reading self.old reading) head (sha256 bytes) result }
        ensures step { IfSound S.sound (D.view disk.old) (Turn (D.view disk.old) (D.view disk.new) self.old self.new account reading (with_bytes head bytes) result) }
        ensures moments { IfSound S.sound (D.view disk.old) (Leaves (D.view disk.old) (D.view disk.new)
            (MayLeave (result ≡ Answer.Refused Refusal.Unavailable) (D.view disk.old) (D.view disk.new) self.old self.new (called (called_at account (at_reading self.old reading) (with_bytes head bytes))))) }
        ensures ran { RanOffJournalAndOne self.old.slots (D.view disk.old) (D.view disk.new) }
    {
        let Ok(block) = Prepared::new(bytes.into_vec()) else {
            unreachable!()
        };
        self.put(disk, account, reading, head, &block)
    }

    // A put within its limits, by its request.
    fn put_request<D: Disk>(
        &mut self,
        disk: &mut D,
        account: Account,
        reading: Moment,
        request: Request,
    ) -> Answer
        requires put { IsPut request }
        requires within { bad_member request ≡ None }
        requires fits { Fits S.sound (D.view disk.old) self.old }
        ensures fits { Fits S.sound (D.view disk.new) self.new }
        ensures told { Applied (disk.new ≡ disk.old) (Rose (D.view disk.old).faults (D.view disk.new).faults) (D.view disk.old) self.old self.new account (at_reading self.old reading) request result }
        ensures step { IfSound S.sound (D.view disk.old) (Turn (D.view disk.old) (D.view disk.new) self.old self.new account reading request result) }
        ensures moments { IfSound S.sound (D.view disk.old) (Leaves (D.view disk.old) (D.view disk.new) (MayLeave (result ≡ Answer.Refused Refusal.Unavailable) (D.view disk.old) (D.view disk.new) self.old self.new (called (called_at account (at_reading self.old reading) request)))) }
        ensures ran { RanOffJournalAndOne self.old.slots (D.view disk.old) (D.view disk.new) }
    {
        match request {
            Request::PutSnapshotBlock {
                key,
                index,
                digest,
                bytes,
            } => {
                let head = PutHead::Snapshot { key, index, digest };
                self.put_bytes(disk, account, reading, head, bytes)
            }
            Request::WriteVolumeBlock {
                key,
                index,
                digest,
                bytes,
            } => {
                let head = PutHead::Volume { key, index, digest };
                self.put_bytes(disk, account, reading, head, bytes)
            }
            _ => unreachable!(),
        }
    }

    // A put by its request.
    fn apply_put<D: Disk>(
        &mut self,
        disk: &mut D,
        account: Account,
        reading: Moment,
        request: Request,
    ) -> Answer
        requires put { IsPut request }
        requires fits { Fits S.sound (D.view disk.old) self.old }
        ensures fits { Fits S.sound (D.view disk.new) self.new }
        ensures told { Applied (disk.new ≡ disk.old) (Rose (D.view disk.old).faults (D.view disk.new).faults) (D.view disk.old) self.old self.new account (at_reading self.old reading) request result }
        ensures step { IfSound S.sound (D.view disk.old) (Turn (D.view disk.old) (D.view disk.new) self.old self.new account reading request result) }
        ensures moments { IfSound S.sound (D.view disk.old) (Leaves (D.view disk.old) (D.view disk.new) (MayLeave (result ≡ Answer.Refused Refusal.Unavailable) (D.view disk.old) (D.view disk.new) self.old self.new (called (called_at account (at_reading self.old reading) request)))) }
        ensures ran { RanOffJournalAndOne self.old.slots (D.view disk.old) (D.view disk.new) }
    {
        fit_stays::<D>();
        let _top = self.slots.top();
        let now = self.moment(reading);
        match check_members(self.alloc(), &request) {
            Ok(()) => self.put_request(disk, account, reading, request),
            Err(failure) => self.fail(now, failure),
        }
    }

    /// Does a call of an account at the moment of the store's clock and the reading, which is in seconds since 1970 in UTC. A change is answered
    /// once its record is durable. E17 comes only where the disk's count of faults rose, and E18 only where the bytes of a block that is read
    /// have another SHA-256 than the one that was kept of it; E17 and want of memory leave the machine with its clock.
    pub fn apply<D: Disk>(
        &mut self,
        disk: &mut D,
        account: Account,
        reading: Moment,
        request: Request,
    ) -> Answer
        requires fits { Fits S.sound (D.view disk.old) self.old }
        ensures fits { Fits S.sound (D.view disk.new) self.new }
        ensures told { Applied (disk.new ≡ disk.old) (Rose (D.view disk.old).faults (D.view disk.new).faults) (D.view disk.old) self.old self.new account (at_reading self.old reading) request result }

        ensures cause { result ≡ Answer.Refused Refusal.Unavailable → Rose (D.view disk.old).faults (D.view disk.new).faults }

        // On an honest disk with a sound store it is the machine's own step, or a stop.
        ensures step { IfSound S.sound (D.view disk.old) (Turn (D.view disk.old) (D.view disk.new) self.old self.new account reading request result) }

        // There want of memory is told of no call that brings no block and that the machine refuses, but by a bad member's name.
        ensures memory { IfSound S.sound (D.view disk.old) (OnWant (advance (recorded (D.view disk.old) self.old) (at_reading self.old reading)) account request result) }

        // A change that is accepted is recorded, and then the recorded machine is the one that answers calls; else what is recorded stays.
        ensures recorded { IfSound S.sound (D.view disk.old) (OneMoreOrNone (D.view disk.old) (D.view disk.new) self.old self.new) }

        // Nothing is pending after it, or what was; or this call, and then the answer is E17.
        ensures pending { IsPendingAfter self.old self.new account (at_reading self.old reading) request result }
        ensures moments { IfSound S.sound (D.view disk.old) (Leaves (D.view disk.old) (D.view disk.new) (MayLeave (result ≡ Answer.Refused Refusal.Unavailable) (D.view disk.old) (D.view disk.new) self.old self.new (called (called_at account (at_reading self.old reading) request)))) }
        ensures ran { RanOffJournalAndOne self.old.slots (D.view disk.old) (D.view disk.new) }
    {
        kept_form();
        fit_stays::<D>();
        recorded_rests::<D>();
        writing_fits::<D>();
        let _top = self.slots.top();
        match kind_of(&request) {
            Kind::View => self.view(disk, account, reading, &request),
            Kind::Read => self.read(disk, account, reading, &request),
            Kind::Change => self.change(disk, account, reading, request),
            Kind::Put => self.apply_put(disk, account, reading, request),
        }
    }
}

/// A change whose record is that of a call is what was asked: that put or that write, of some bytes, and else what the asked call does at
/// its moment. So the size that the record of a creation has beyond what was asked changes nothing.
pub fn recorded_calls_are_asked()
    ensures { RecordedCallsAreAsked }
{}
