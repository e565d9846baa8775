// Changes that are recorded.
ghost use Rattle.std.specs.Prelude.{◌≡◌, ◌⊎◌, ◌+◌, ◌-◌, ◌<◌, ◌≤◌, ◌^◌, ◌∷◌, ◌++◌, [], ℕ, List, length, true, false, None, Some, IfOk, OnOk, OnErr, IsErrOf};
ghost use Rattle.ebs_model.specs.Quotas.{Rose};
ghost use Rattle.ebs_world.specs.View.{Leaves, Ran};
ghost use Rattle.ebs_journal.specs.inner.Line.{line};
ghost use Rattle.ebs_journal.specs.Opening.{OffJournal};
ghost use Rattle.ebs_journal.specs.inner.Standing.{IsSettled, IsPending, IsOrAlso};
ghost use Rattle.ebs_model.specs.Limits.{bad_member};
ghost use Rattle.ebs_model.specs.Machine.{advance};
ghost use Rattle.ebs_model.specs.Step.{changed};
ghost use Rattle.ebs_records.specs.declared.record.Record.TheVariants.{Accepted};
ghost use Rattle.ebs_records.specs.Records.{IsRecord, record_bytes};
ghost use Rattle.ebs_recovery.specs.inner.Made.{Leads};
ghost use Rattle.ebs_recovery.specs.Made.{called};
ghost use Rattle.ebs_recovery.specs.inner.Fits.{Fits, recorded};
ghost use Rattle.ebs_recovery.specs.inner.Changes.{IsRowChange};
ghost use Rattle.ebs_disk_store.specs.inner.Calls.{IsRuled};
ghost use Rattle.ebs_disk_store.specs.inner.Told.{IfSound, called_at, taken, unsure};
ghost use Rattle.ebs_disk_store.specs.inner.Turned.{MayLeave};

use crate::ruling::check_fields;
use crate::store::{Promise, Stop, Store};
use ebs_collect::blocks_stay;
use ebs_journal::Journal;
use ebs_kept::Reserved;
use ebs_model::{Account, Answer, Change, Moment, Request};
use ebs_records::{AcceptedCall, Record, write_record};
use ebs_recovery::{fit_stays, held_is_kept, kept_form_finds, moments_stand, outcomes_fit};
use ebs_world::Disk;
use std::alloc::Global;

const NO_DIGEST: [u8; 32] = [0; 32];

// Spells a record and appends it.
pub(crate) fn append<D: Disk>(
    alloc: Global,
    disk: &mut D,
    journal: &mut Journal,
    made: &Record,
) -> Result<(), Stop>
    requires value { IsRecord made.now }
    requires short { (1 ≤ length (record_bytes made.now)) × (length (record_bytes made.now) ≤ 1048576) }
    requires clean { (line journal.old).clean ≡ true }
    requires end { (line journal.old).end ≤ 2 ^ 62 - 2 ^ 22 }
    ensures acknowledged { OnOk result ((checkpoint : List ℕ) (rs : List (List ℕ)) → IsSettled (D.view disk.old) (line journal.old) checkpoint rs
        → IsSettled (D.view disk.new) (line journal.new) checkpoint (rs ++ record_bytes made.now ∷ [])) }
    ensures refused_clean { OnErr result ((line journal.new).clean ≡ true → (checkpoint : List ℕ) (rs : List (List ℕ))
        → IsSettled (D.view disk.old) (line journal.old) checkpoint rs → IsSettled (D.view disk.new) (line journal.new) checkpoint rs) }
    ensures refused_unclean { OnErr result ((line journal.new).clean ≡ false → (checkpoint : List ℕ) (rs : List (List ℕ))
        → IsSettled (D.view disk.old) (line journal.old) checkpoint rs → IsPending (D.view disk.new) (line journal.new) checkpoint rs (record_bytes made.now)) }
    ensures any_moment { (checkpoint : List ℕ) (rs : List (List ℕ)) → IsSettled (D.view disk.old) (line journal.old) checkpoint rs
        → Leaves (D.view disk.old) (D.view disk.new) (λ c. IsOrAlso c (line journal.old) checkpoint rs (record_bytes made.now)) }
    ensures ok { OnOk result (((line journal.new).clean ≡ true) × ((line journal.new).end ≤ (line journal.old).end + 1048581)) }
    ensures err { OnErr result (line journal.new ≡ record (line journal.old) { clean = (line journal.new).clean }) }
    ensures ran { Ran OffJournal (D.view disk.old) (D.view disk.new) }
    ensures unavailable { IsErrOf result Stop.Unavailable → Rose (D.view disk.old).faults (D.view disk.new).faults }
    ensures memory { IsErrOf result Stop.Memory → line journal.new ≡ line journal.old }
    ensures still { IsErrOf result Stop.Memory → disk.new ≡ disk.old }
{
    let Ok(bytes) = write_record(alloc, made) else {
        return Err(Stop::Memory);
    };
    let Ok(()) = journal.append(disk, bytes.as_slice()) else {
        return Err(Stop::Unavailable);
    };
    Ok(())
}

// Keeps the record whose gate isn't known.
pub(crate) fn keep_unsure(clean: bool, pending: &mut Option<Record>, made: Record)
    ensures known { clean ≡ true → pending.new ≡ pending.old }
    ensures unsure { clean ≡ false → pending.new ≡ Some made }
{
    if !clean {
        *pending = Some(made);
    }
}

// What a call that records a change has no use for is dropped in functions of their own: such a call has few parts then.
pub(crate) fn drop_change(change: Change, answer: Answer) {
    drop(change);
    drop(answer);
}

fn drop_request(request: Request) {
    drop(request);
}

pub(crate) fn drop_reserved(reserved: Reserved) {
    drop(reserved);
}

pub(crate) fn drop_record(made: Record) {
    drop(made);
}

impl<S: Promise> Store<S> {
    /// Records a change that the kept form makes at the moment, and makes it once its record is durable.
    pub(crate) fn record<D: Disk>(
        &mut self,
        disk: &mut D,
        account: Account,
        now: Moment,
        request: Request,
        change: Change,
        answer: Answer,
    ) -> Result<Answer, Stop>
        requires clean { self.old.pending ≡ None }
        requires late { self.old.clock.second ≤ now.second }
        requires early { now.second ≤ 2 ^ 36 }
        requires row { IsRowChange request }
        requires within { bad_member request ≡ None }
        requires ruled { IsRuled (advance self.old.recorded now) account request change answer }
        requires fits { Fits S.sound (D.view disk.old) self.old }
        ensures fits { Fits S.sound (D.view disk.new) self.new }
        ensures answered { IfOk result (λ a. a ≡ answer) }
        ensures ok { OnOk result (self.new ≡ taken self.old now (changed (advance self.old.recorded now) [] change) self.new.journal self.new.waiting) }
        ensures leads { OnOk result (IfSound S.sound (D.view disk.old) (Leads (recorded (D.view disk.old) self.old) (called (called_at account now request)) (recorded (D.view disk.new) self.new))) }
        ensures err { OnErr result ((self.new ≡ self.old) ⊎ (self.new ≡ unsure self.old (Accepted (called_at account now request)))) }
        ensures same { OnErr result (IfSound S.sound (D.view disk.old) (recorded (D.view disk.new) self.new ≡ recorded (D.view disk.old) self.old)) }
        ensures moments { IfSound S.sound (D.view disk.old) (Leaves (D.view disk.old) (D.view disk.new) (MayLeave (IsErrOf result Stop.Unavailable) (D.view disk.old) (D.view disk.new) self.old self.new (called (called_at account now request)))) }
        ensures ran { Ran OffJournal (D.view disk.old) (D.view disk.new) }
        ensures unavailable { IsErrOf result Stop.Unavailable → Rose (D.view disk.old).faults (D.view disk.new).faults }
        ensures memory { IsErrOf result Stop.Memory → self.new ≡ self.old }
    {
        fit_stays::<D>();
        held_is_kept::<D>();
        kept_form_finds::<D>();
        moments_stand::<D>();
        outcomes_fit::<D>();
        blocks_stay();
        check_fields(&request);
        let _number = account.number();
        let Ok(reserved) = self.kept.reserve(&change) else {
            drop_change(change, answer);
            drop_request(request);
            return Err(Stop::Memory);
        };
        let alloc = self.kept.alloc();
        let made = Record::Accepted(AcceptedCall {
            at: now,
            account,
            request,
            slot: None,
        });
        if let Err(stop) = append(alloc, disk, &mut self.journal, &made) {
            self.kept.release(&change, &reserved);
            keep_unsure(self.journal.is_clean(), &mut self.pending, made);
            drop_reserved(reserved);
            drop_change(change, answer);
            return Err(stop);
        }
        self.kept.commit(now, change, NO_DIGEST, reserved);
        drop_record(made);
        self.clock = now;
        Ok(answer)
    }
}
