// Puts of blocks that were staged.
ghost use Rattle.std.specs.Prelude.{◌≡◌, ◌⊎◌, ◌+◌, ◌≤◌, ◌^◌, [], ℕ, List, None, Some, Ok, Err, IfOk, OnOk, OnErr, IsErrOf};
ghost use Rattle.std.specs.FinMap as fin;
ghost use Rattle.ebs_world.specs.declared.area.Area.TheVariants.{Blocks};
ghost use Rattle.ebs_model.specs.Quotas.{Rose};
ghost use Rattle.ebs_world.specs.View.{Leaves, Ran};
ghost use Rattle.ebs_journal.specs.Opening.{OffJournal};
ghost use Rattle.ebs_slots.specs.inner.Standing.{Lies};
ghost use Rattle.ebs_model.specs.Machine.{advance, rows_of};
ghost use Rattle.ebs_model.specs.Decide.{decide};
ghost use Rattle.ebs_model.specs.inner.Follows.{Agrees};
ghost use Rattle.ebs_model.specs.Step.{changed};
ghost use Rattle.ebs_records.specs.declared.record.Record.TheVariants.{Accepted};
ghost use Rattle.ebs_recovery.specs.inner.Made.{Leads};
ghost use Rattle.ebs_recovery.specs.Made.{called};
ghost use Rattle.ebs_recovery.specs.inner.Fits.{Fits, recorded};
ghost use Rattle.ebs_disk_store.specs.inner.Told.{IfSound, RanOffJournalAndOne, at_reading, called_at, mended, unsure, without_lease};
ghost use Rattle.sha2.specs.Sha256.{sha256};
ghost use Rattle.ebs_disk_store.specs.inner.Turned.{IsSpared, MayLeave, Turn, TurnAt};
ghost use Rattle.ebs_disk_store.specs.inner.Puts.{IsBounded, IsPutRuled, IsPutTaken, PutRules, PutTold, WholePutTold, put_at, with_bytes};

use crate::heads::{PutHead, check_head, check_size};
use crate::recording::{append, drop_change, drop_record, drop_reserved, keep_unsure};
use crate::ruling::{Ruling, check_key, check_volume, ruling_of};
use crate::store::{Promise, Stop, Store};
use crate::taking::take_put;
use ebs_collect::blocks_stay;
use ebs_model::{Account, Answer, Change, Decision, Failure, Moment, Refusal, kept_form};
use ebs_records::{AcceptedCall, Record};
use ebs_recovery::{
    fit_stays, held_is_kept, kept_form_finds, moments_stand, outcomes_fit, slots_fit,
};
use ebs_slots::{Lease, Prepared};
use ebs_world::Disk;

impl<S: Promise> Store<S> {
    // What rows decide of a put at the moment.
    fn decide_put(&self, account: Account, now: Moment, head: &PutHead) -> Result<Decision, Failure>
        requires later { self.now.recorded.clock.second ≤ now.second }
        requires early { now.second ≤ 2 ^ 36 }
        ensures { Agrees result (decide (rows_of (advance self.now.recorded now)) now account (with_bytes head.now [])) }
    {
        let request = head.request(self.alloc());
        self.kept.decide(account, now, &request)
    }

    // What the kept form does at the moment for a put of a block with this digest.
    fn rule_put(
        &self,
        account: Account,
        now: Moment,
        head: &PutHead,
        found: [u8; 32],
    ) -> Result<Ruling, Failure>
        requires later { self.now.recorded.clock.second ≤ now.second }
        requires early { now.second ≤ 2 ^ 36 }
        ensures { PutRules (advance self.now.recorded now) account head.now found result }
    {
        if let Err(failure) = check_head(self.alloc(), head, found) {
            return Err(failure);
        }
        match self.decide_put(account, now, head) {
            Ok(decision) => ruling_of(decision, Ok(()), self.kept.is_spent()),
            Err(failure) => Err(failure),
        }
    }

    // Reads the key, and how large that is where the block goes.
    fn check_place(&self, head: &PutHead)
        ensures { IsBounded self.now.recorded head.now }
    {
        match head {
            PutHead::Snapshot { key, .. } => {
                check_key(key);
                self.kept.keeps_rows();
            }
            PutHead::Volume { key, .. } => {
                check_volume(key);
                self.kept.keeps_volumes();
            }
        }
    }

    // Records a put that the kept form makes at the moment, and makes it once its record is durable.
    fn record_put<D: Disk>(
        &mut self,
        disk: &mut D,
        account: Account,
        now: Moment,
        head: PutHead,
        lease: Lease,
        change: Change,
        answer: Answer,
    ) -> Result<Answer, Stop>
        requires clean { self.old.pending ≡ None }
        requires late { self.old.clock.second ≤ now.second }
        requires early { now.second ≤ 2 ^ 36 }
        requires leased { fin.get self.old.slots.leases lease.slot ≡ Some lease.digest }
        requires ruled { IsPutRuled (advance self.old.recorded now) account head lease.digest change answer }
        requires fits { Fits S.sound (D.view disk.old) self.old }
        ensures fits { Fits S.sound (D.view disk.new) self.new }
        ensures answered { IfOk result (λ a. a ≡ answer) }
        ensures ok { OnOk result (IsPutTaken self.old now lease.slot (changed (advance self.old.recorded now) lease.digest change) self.new) }
        ensures leads { OnOk result (IfSound S.sound (D.view disk.old) ((bytes : List ℕ) → Lies (D.view disk.old) Blocks lease.slot bytes
            → Leads (recorded (D.view disk.old) self.old) (called (put_at account now head lease.slot bytes)) (recorded (D.view disk.new) self.new))) }
        ensures err { OnErr result ((self.new ≡ without_lease self.old lease.slot) ⊎ (self.new ≡ unsure (without_lease self.old lease.slot) (Accepted (put_at account now head lease.slot [])))) }
        ensures same { OnErr result (IfSound S.sound (D.view disk.old) (recorded (D.view disk.new) self.new ≡ recorded (D.view disk.old) self.old)) }
        ensures moments { IfSound S.sound (D.view disk.old) ((bytes : List ℕ) → Lies (D.view disk.old) Blocks lease.slot bytes
            → Leaves (D.view disk.old) (D.view disk.new) (MayLeave (IsErrOf result Stop.Unavailable) (D.view disk.old) (D.view disk.new) self.old self.new (called (put_at account now head lease.slot bytes)))) }
        ensures ran { Ran OffJournal (D.view disk.old) (D.view disk.new) }
        ensures unavailable { IsErrOf result Stop.Unavailable → Rose (D.view disk.old).faults (D.view disk.new).faults }
        ensures memory { IsErrOf result Stop.Memory → self.new ≡ without_lease self.old lease.slot }
    {
        fit_stays::<D>();
        held_is_kept::<D>();
        kept_form_finds::<D>();
        moments_stand::<D>();
        outcomes_fit::<D>();
        slots_fit::<D>();
        blocks_stay();
        self.check_place(&head);
        check_size(head.digest());
        let _top = self.slots.top();
        let _number = account.number();
        let slot = lease.slot();
        let Ok(reserved) = self.kept.reserve(&change) else {
            self.slots.abandon(lease);
            drop_change(change, answer);
            return Err(Stop::Memory);
        };
        let alloc = self.kept.alloc();
        let made = Record::Accepted(AcceptedCall {
            at: now,
            account,
            request: head.request(alloc),
            slot: Some(slot),
        });
        if let Err(stop) = append(alloc, disk, &mut self.journal, &made) {
            self.kept.release(&change, &reserved);
            self.slots.abandon(lease);
            keep_unsure(self.journal.is_clean(), &mut self.pending, made);
            drop_reserved(reserved);
            drop_change(change, answer);
            return Err(stop);
        }
        drop_record(made);
        take_put(
            &mut self.kept,
            &mut self.slots,
            now,
            change,
            reserved,
            lease,
        );
        self.clock = now;
        Ok(answer)
    }

    // Records a put, after what isn't known was taken back.
    fn settle_put<D: Disk>(
        &mut self,
        disk: &mut D,
        account: Account,
        now: Moment,
        head: PutHead,
        lease: Lease,
        change: Change,
        answer: Answer,
    ) -> Result<Answer, Stop>
        requires late { self.old.clock.second ≤ now.second }
        requires early { now.second ≤ 2 ^ 36 }
        requires leased { fin.get self.old.slots.leases lease.slot ≡ Some lease.digest }
        requires ruled { IsPutRuled (advance self.old.recorded now) account head lease.digest change answer }
        requires fits { Fits S.sound (D.view disk.old) self.old }
        ensures fits { Fits S.sound (D.view disk.new) self.new }
        ensures answered { IfOk result (λ a. a ≡ answer) }
        ensures ok { OnOk result (IsPutTaken self.old now lease.slot (changed (advance self.old.recorded now) lease.digest change) self.new) }
        ensures leads { OnOk result (IfSound S.sound (D.view disk.old) ((bytes : List ℕ) → Lies (D.view disk.old) Blocks lease.slot bytes
            → Leads (recorded (D.view disk.old) self.old) (called (put_at account now head lease.slot bytes)) (recorded (D.view disk.new) self.new))) }
        ensures err { OnErr result ((self.new ≡ without_lease self.old lease.slot) ⊎ ((self.new ≡ mended (without_lease self.old lease.slot))
            ⊎ (self.new ≡ unsure (mended (without_lease self.old lease.slot)) (Accepted (put_at account now head lease.slot []))))) }
        ensures same { OnErr result (IfSound S.sound (D.view disk.old) (recorded (D.view disk.new) self.new ≡ recorded (D.view disk.old) self.old)) }
        ensures moments { IfSound S.sound (D.view disk.old) ((bytes : List ℕ) → Lies (D.view disk.old) Blocks lease.slot bytes
            → Leaves (D.view disk.old) (D.view disk.new) (MayLeave (IsErrOf result Stop.Unavailable) (D.view disk.old) (D.view disk.new) self.old self.new (called (put_at account now head lease.slot bytes)))) }
        ensures ran { Ran OffJournal (D.view disk.old) (D.view disk.new) }
        ensures unavailable { IsErrOf result Stop.Unavailable → Rose (D.view disk.old).faults (D.view disk.new).faults }
        ensures memory { IsErrOf result Stop.Memory → IsSpared (without_lease self.old lease.slot) self.new }
    {
        let Ok(()) = self.mend(disk) else {
            drop(change);
            drop(answer);
            self.abandon_put(disk, lease);
            return Err(Stop::Unavailable);
        };
        self.record_put(disk, account, now, head, lease, change, answer)
    }

    // Makes the put that was ruled.
    fn make_put<D: Disk>(
        &mut self,
        disk: &mut D,
        account: Account,
        now: Moment,
        head: PutHead,
        lease: Lease,
        ruling: Ruling,
    ) -> Answer
        requires late { self.old.clock.second ≤ now.second }
        requires early { now.second ≤ 2 ^ 36 }
        requires leased { fin.get self.old.slots.leases lease.slot ≡ Some lease.digest }
        requires rules { PutRules (advance self.old.recorded now) account head lease.digest (Ok ruling) }
        requires fits { Fits S.sound (D.view disk.old) self.old }
        ensures fits { Fits S.sound (D.view disk.new) self.new }
        ensures told { PutTold (disk.new ≡ disk.old) (Rose (D.view disk.old).faults (D.view disk.new).faults) self.old self.new account now head lease.slot lease.digest result }
        ensures step { IfSound S.sound (D.view disk.old) ((bytes : List ℕ) → Lies (D.view disk.old) Blocks lease.slot bytes
            → TurnAt (D.view disk.old) (D.view disk.new) self.old self.new account now (with_bytes head bytes) result) }
        ensures moments { IfSound S.sound (D.view disk.old) ((bytes : List ℕ) → Lies (D.view disk.old) Blocks lease.slot bytes
            → Leaves (D.view disk.old) (D.view disk.new) (MayLeave (result ≡ Answer.Refused Refusal.Unavailable) (D.view disk.old) (D.view disk.new) self.old self.new (called (put_at account now head lease.slot bytes)))) }
        ensures ran { Ran OffJournal (D.view disk.old) (D.view disk.new) }
    {
        kept_form();
        self.kept.keeps_rows();
        let Ruling::Change(change, answer) = ruling else {
            unreachable!()
        };
        match self.settle_put(disk, account, now, head, lease, change, answer) {
            Ok(answer) => answer,
            Err(Stop::Unavailable) => Answer::Refused(Refusal::Unavailable),
            Err(Stop::Memory) => Answer::Memory,
        }
    }

    /// Puts a block that was staged into an open upload, or writes it to a volume, at the moment of the store's clock and the reading, which is in
    /// seconds since 1970 in UTC. It is answered once its record is durable, and then the block that it replaces in the same array, if nothing began
    /// from that since, has its slot no more. The lease is spent whatever the answer; E17 and want of memory
    /// leave the machine with its clock, E17 comes only of a put that would be a change, want of memory leaves no record of the put, and a
    /// refused put moves the clock alone and makes no call of the disk.
    pub fn commit_put<D: Disk>(
        &mut self,
        disk: &mut D,
        account: Account,
        reading: Moment,
        head: PutHead,
        lease: Lease,
    ) -> Answer
        requires leased { fin.get self.old.slots.leases lease.slot ≡ Some lease.digest }
        requires fits { Fits S.sound (D.view disk.old) self.old }
        ensures fits { Fits S.sound (D.view disk.new) self.new }
        ensures told { PutTold (disk.new ≡ disk.old) (Rose (D.view disk.old).faults (D.view disk.new).faults) self.old self.new account (at_reading self.old reading) head lease.slot lease.digest result }

        // The bytes are those that lie in the slot of the lease.
        ensures step { IfSound S.sound (D.view disk.old) ((bytes : List ℕ) → Lies (D.view disk.old) Blocks lease.slot bytes
            → Turn (D.view disk.old) (D.view disk.new) self.old self.new account reading (with_bytes head bytes) result) }
        ensures moments { IfSound S.sound (D.view disk.old) ((bytes : List ℕ) → Lies (D.view disk.old) Blocks lease.slot bytes
            → Leaves (D.view disk.old) (D.view disk.new) (MayLeave (result ≡ Answer.Refused Refusal.Unavailable) (D.view disk.old) (D.view disk.new) self.old self.new (called (put_at account (at_reading self.old reading) head lease.slot bytes)))) }

        ensures ran { Ran OffJournal (D.view disk.old) (D.view disk.new) }
    {
        kept_form();
        fit_stays::<D>();
        let now = self.moment(reading);
        match self.rule_put(account, now, &head, lease.digest()) {
            Ok(ruling) => self.make_put(disk, account, now, head, lease, ruling),
            Err(failure) => {
                self.abandon_put(disk, lease);
                self.fail(now, failure)
            }
        }
    }

    /// Puts a block into an open upload, or writes it to a volume, at the moment of the store's clock and the reading, which is in seconds
    /// since 1970 in UTC. A block with a bad index or another SHA-256 than the stated one is refused with no call of the disk; any other is
    /// staged first, and given up again where the put is refused. E17 and want of memory leave the machine with its clock, and want of memory
    /// leaves no record of the put.
    pub fn put<D: Disk>(
        &mut self,
        disk: &mut D,
        account: Account,
        reading: Moment,
        head: PutHead,
        block: &Prepared,
    ) -> Answer
        requires fits { Fits S.sound (D.view disk.old) self.old }
        ensures fits { Fits S.sound (D.view disk.new) self.new }
        ensures told { WholePutTold (disk.new ≡ disk.old) (Rose (D.view disk.old).faults (D.view disk.new).faults) self.old self.new account (at_reading self.old reading) head (sha256 block.now) result }
        ensures step { IfSound S.sound (D.view disk.old) (Turn (D.view disk.old) (D.view disk.new) self.old self.new account reading (with_bytes head block.now) result) }
        ensures moments { IfSound S.sound (D.view disk.old) (Leaves (D.view disk.old) (D.view disk.new)
            (MayLeave (result ≡ Answer.Refused Refusal.Unavailable) (D.view disk.old) (D.view disk.new) self.old self.new (called (called_at account (at_reading self.old reading) (with_bytes head block.now))))) }
        ensures ran { RanOffJournalAndOne self.old.slots (D.view disk.old) (D.view disk.new) }
    {
        kept_form();
        fit_stays::<D>();
        let _top = self.slots.top();
        let _bytes = block.bytes();
        if let Err(failure) = check_head(self.alloc(), &head, block.digest()) {
            let now = self.moment(reading);
            return self.fail(now, failure);
        }
        match self.stage_put(disk, block) {
            Ok(lease) => self.commit_put(disk, account, reading, head, lease),
            Err(Stop::Unavailable) => Answer::Refused(Refusal::Unavailable),
            Err(Stop::Memory) => Answer::Memory,
        }
    }
}
