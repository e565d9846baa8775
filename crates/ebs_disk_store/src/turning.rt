// Changes of rows, as the store's callers ask for them.
ghost use Rattle.std.specs.Prelude.{◌≡◌, ◌⊎◌, ◌≤◌, ◌^◌, [], None, Some, Ok, IfOk, OnOk, OnErr, IsErrOf};
ghost use Rattle.ebs_model.specs.Quotas.{Rose};
ghost use Rattle.ebs_world.specs.View.{Leaves, Ran};
ghost use Rattle.ebs_journal.specs.Opening.{OffJournal};
ghost use Rattle.ebs_model.specs.Limits.{bad_member};
ghost use Rattle.ebs_model.specs.Limits as limits;
ghost use Rattle.ebs_model.specs.Machine.{advance, rows_of};
ghost use Rattle.ebs_model.specs.Decide.{decide};
ghost use Rattle.ebs_model.specs.Step.{act, changed};
ghost use Rattle.ebs_model.specs.Kept.{same};
ghost use Rattle.ebs_model.specs.inner.Follows.{Agrees};
ghost use Rattle.ebs_model.specs.Refuse.{refuse_bad};
ghost use Rattle.ebs_catalog.specs.Wants.{OnMemory, NamesMember};
ghost use Rattle.ebs_kept.specs.inner.Wants.{MayRunOut};
ghost use Rattle.ebs_records.specs.declared.record.Record.TheVariants.{Accepted};
ghost use Rattle.ebs_recovery.specs.inner.Made.{Leads};
ghost use Rattle.ebs_recovery.specs.Made.{called};
ghost use Rattle.ebs_recovery.specs.inner.Fits.{Fits, recorded};
ghost use Rattle.ebs_recovery.specs.inner.Changes.{IsRowChange};
ghost use Rattle.ebs_disk_store.specs.inner.Calls.{IsRuled};
ghost use Rattle.ebs_disk_store.specs.inner.Told.{IfSound, at_clock, at_reading, called_at, mended, taken, unsure};
ghost use Rattle.ebs_disk_store.specs.inner.Turned.{Fails, IsSpared, MayLeave, Told, TurnAt, Turn, kept_call};

use crate::ruling::{Ruling, own_request};
use crate::store::{Promise, Stop, Store};
use ebs_model::{
    Account, Answer, Change, Decision, Failure, LAST_SECOND, Moment, Refusal, Request, Text,
    bad_member, kept_form,
};
use ebs_recovery::fit_stays;
use ebs_world::Disk;
use std::alloc::Global;

impl<S: Promise> Store<S> {
    pub(crate) fn alloc(&self) -> Global {
        self.kept.alloc()
    }

    // The moment of a call at a reading of the clock.
    pub(crate) fn moment(&self, reading: Moment) -> Moment
        ensures moment { result ≡ at_reading self.now reading }
        ensures later { self.now.clock.second ≤ result.second }
        ensures early { result.second ≤ 2 ^ 36 }
        ensures late { self.now.recorded.clock.second ≤ result.second }
    {
        Moment {
            second: self.clock.second.max(reading.second.min(LAST_SECOND)),
        }
    }

    // Brings the clock of what answers calls to the moment.
    pub(crate) fn tick(&mut self, now: Moment)
        requires later { self.old.clock.second ≤ now.second }
        requires early { now.second ≤ 2 ^ 36 }
        ensures { self.new ≡ at_clock self.old now }
    {
        self.clock = now;
    }

    // Records a change, after what isn't known was taken back.
    fn settle<D: Disk>(
        &mut self,
        disk: &mut D,
        account: Account,
        now: Moment,
        request: Request,
        change: Change,
        answer: Answer,
    ) -> Result<Answer, Stop>
        requires late { self.old.clock.second ≤ now.second }
        requires early { now.second ≤ 2 ^ 36 }
        requires row { IsRowChange request }
        requires within { bad_member request ≡ None }
        requires ruled { IsRuled (advance self.old.recorded now) account request change answer }
        requires fits { Fits S.sound (D.view disk.old) self.old }
        ensures fits { Fits S.sound (D.view disk.new) self.new }
        ensures answered { IfOk result (λ a. a ≡ answer) }
        ensures ok { OnOk result (self.new ≡ taken self.old now (changed (advance self.old.recorded now) [] change) self.new.journal self.new.waiting) }
        ensures leads { OnOk result (IfSound S.sound (D.view disk.old) (Leads (recorded (D.view disk.old) self.old) (called (called_at account now request)) (recorded (D.view disk.new) self.new))) }
        ensures err { OnErr result ((self.new ≡ self.old) ⊎ ((self.new ≡ mended self.old) ⊎ (self.new ≡ unsure (mended self.old) (Accepted (called_at account now request))))) }
        ensures memory { IsErrOf result Stop.Memory → IsSpared self.old self.new }
        ensures same { OnErr result (IfSound S.sound (D.view disk.old) (recorded (D.view disk.new) self.new ≡ recorded (D.view disk.old) self.old)) }
        ensures moments { IfSound S.sound (D.view disk.old) (Leaves (D.view disk.old) (D.view disk.new) (MayLeave (IsErrOf result Stop.Unavailable) (D.view disk.old) (D.view disk.new) self.old self.new (called (called_at account now request)))) }
        ensures ran { Ran OffJournal (D.view disk.old) (D.view disk.new) }
        ensures unavailable { IsErrOf result Stop.Unavailable → Rose (D.view disk.old).faults (D.view disk.new).faults }
    {
        let Ok(()) = self.mend(disk) else {
            drop(request);
            drop(change);
            drop(answer);
            return Err(Stop::Unavailable);
        };
        self.record(disk, account, now, request, change, answer)
    }

    // Makes the change that was ruled.
    fn make_change<D: Disk>(
        &mut self,
        disk: &mut D,
        account: Account,
        now: Moment,
        request: Request,
        change: Change,
        answer: Answer,
    ) -> Answer
        requires late { self.old.clock.second ≤ now.second }
        requires early { now.second ≤ 2 ^ 36 }
        requires row { IsRowChange request }
        requires within { bad_member request ≡ None }
        requires ruled { IsRuled (advance self.old.recorded now) account request change answer }
        requires decides { decide (rows_of (advance self.old.recorded now)) now account request ≡ Ok (Decision.Change change answer) }
        requires fits { Fits S.sound (D.view disk.old) self.old }
        ensures fits { Fits S.sound (D.view disk.new) self.new }
        ensures told { Told (disk.new ≡ disk.old) (Rose (D.view disk.old).faults (D.view disk.new).faults) self.old self.new account now request result }
        ensures step { IfSound S.sound (D.view disk.old) (TurnAt (D.view disk.old) (D.view disk.new) self.old self.new account now request result) }
        ensures moments { IfSound S.sound (D.view disk.old) (Leaves (D.view disk.old) (D.view disk.new) (MayLeave (result ≡ Answer.Refused Refusal.Unavailable) (D.view disk.old) (D.view disk.new) self.old self.new (called (called_at account now request)))) }
        ensures ran { Ran OffJournal (D.view disk.old) (D.view disk.new) }
    {
        kept_form();
        self.kept.keeps_days();
        self.kept.keeps_rows();
        let own = own_request(request, &change.request);
        match self.settle(disk, account, now, own, change, answer) {
            Ok(answer) => answer,
            Err(Stop::Unavailable) => Answer::Refused(Refusal::Unavailable),
            Err(Stop::Memory) => Answer::Memory,
        }
    }

    // A refusal moves the clock, and want of memory nothing.
    pub(crate) fn fail(&mut self, now: Moment, failure: Failure) -> Answer
        requires late { self.old.clock.second ≤ now.second }
        requires early { now.second ≤ 2 ^ 36 }
        ensures { Fails self.old self.new now failure result }
    {
        match failure {
            Failure::Refused(refusal) => {
                self.tick(now);
                Answer::Refused(refusal)
            }
            Failure::Memory => Answer::Memory,
        }
    }

    // What a request within its limits does at the moment.
    fn turn<D: Disk>(
        &mut self,
        disk: &mut D,
        account: Account,
        now: Moment,
        request: Request,
    ) -> Answer
        requires late { self.old.clock.second ≤ now.second }
        requires recorded { self.old.recorded.clock.second ≤ now.second }
        requires early { now.second ≤ 2 ^ 36 }
        requires row { IsRowChange request }
        requires within { bad_member request ≡ None }
        requires fits { Fits S.sound (D.view disk.old) self.old }
        ensures fits { Fits S.sound (D.view disk.new) self.new }
        ensures told { Told (disk.new ≡ disk.old) (Rose (D.view disk.old).faults (D.view disk.new).faults) self.old self.new account now request result }
        ensures memory { result ≡ Answer.Memory → MayRunOut (act same (advance self.old.recorded now) account request) }
        ensures step { IfSound S.sound (D.view disk.old) (TurnAt (D.view disk.old) (D.view disk.new) self.old self.new account now request result) }
        ensures moments { IfSound S.sound (D.view disk.old) (Leaves (D.view disk.old) (D.view disk.new) (MayLeave (result ≡ Answer.Refused Refusal.Unavailable) (D.view disk.old) (D.view disk.new) self.old self.new (called (called_at account now request)))) }
        ensures ran { Ran OffJournal (D.view disk.old) (D.view disk.new) }
    {
        kept_form();
        fit_stays::<D>();
        self.kept.keeps_days();
        match self.rule(account, now, &request) {
            Ok(Ruling::Change(change, answer)) => {
                self.make_change(disk, account, now, request, change, answer)
            }
            Ok(Ruling::Answer(answer)) => {
                drop(request);
                self.tick(now);
                answer
            }
            Err(failure) => {
                drop(request);
                self.fail(now, failure)
            }
        }
    }

    /// Starts or ends an upload, deletes, shares, locks, unlocks, archives or restores a snapshot, takes one out of the bin, makes one of a volume, makes or deletes a volume, creates,
    /// changes, locks, unlocks or deletes a Recycle Bin rule, or creates, deletes or runs a lifecycle policy, at the moment of the store's clock and the reading, which is in seconds since 1970 in UTC. A change is answered once its record is durable, and a start or a creation of a volume with a client token that was used is answered without a change; the record of a creation has the size that is made. E17 and want of memory leave the machine with
    /// its clock, E17 comes only of a call that would be a change, want of memory leaves no record of the call, and a refused call moves the clock alone and makes no call of the disk.
    pub fn change<D: Disk>(
        &mut self,
        disk: &mut D,
        account: Account,
        reading: Moment,
        request: Request,
    ) -> Answer
        requires row { IsRowChange request }
        requires fits { Fits S.sound (D.view disk.old) self.old }
        ensures fits { Fits S.sound (D.view disk.new) self.new }
        ensures told { Told (disk.new ≡ disk.old) (Rose (D.view disk.old).faults (D.view disk.new).faults) self.old self.new account (at_reading self.old reading) request result }
        ensures slots { self.new.slots ≡ self.old.slots }

        // Want of memory is told of no call that is refused, but by a bad member's name.
        ensures memory { result ≡ Answer.Memory → MayRunOut (kept_call (advance self.old.recorded (at_reading self.old reading)) account request) }

        ensures step { IfSound S.sound (D.view disk.old) (Turn (D.view disk.old) (D.view disk.new) self.old self.new account reading request result) }
        ensures moments { IfSound S.sound (D.view disk.old) (Leaves (D.view disk.old) (D.view disk.new) (MayLeave (result ≡ Answer.Refused Refusal.Unavailable) (D.view disk.old) (D.view disk.new) self.old self.new (called (called_at account (at_reading self.old reading) request)))) }
        ensures ran { Ran OffJournal (D.view disk.old) (D.view disk.new) }
    {
        fit_stays::<D>();
        let now = self.moment(reading);
        match check_members(self.alloc(), &request) {
            Ok(()) => self.turn(disk, account, now, request),
            Err(failure) => self.fail(now, failure),
        }
    }
}

// Refuses a request that has a member out of its limits.
pub(crate) fn check_members(alloc: Global, request: &Request) -> Result<(), Failure>
    ensures within { Agrees result (refuse_bad (limits.bad_member request.now)) }
    ensures memory { OnMemory result (NamesMember (refuse_bad (limits.bad_member request.now))) }
{
    match bad_member(request) {
        Some(name) => Err(bad_parameter(alloc, name)),
        None => Ok(()),
    }
}

// The refusal of the member with this name, or want of memory.
pub(crate) fn bad_parameter(alloc: Global, name: &str) -> Failure
    ensures { (result ≡ Failure.Refused (Refusal.BadParameter name.now)) ⊎ (result ≡ Failure.Memory) }
{
    match String::from_str(alloc, name) {
        Ok(name) => Failure::Refused(Refusal::BadParameter(Text::from_string(name))),
        Err(_) => Failure::Memory,
    }
}
