// Giving up what nothing has any more.
ghost use Rattle.std.specs.Prelude.{◌≡◌, ◌≤◌, ◌<◌, ◌^◌, ◌⊎◌, true, false, None, OnOk, OnErr, IsErr};
ghost use Rattle.std.specs.FinMap as fin;
ghost use Rattle.ebs_model.specs.Machine.{advance};
ghost use Rattle.ebs_world.specs.View.{Leaves, Ran, IsCaused};
ghost use Rattle.ebs_journal.specs.inner.Line.{line};
ghost use Rattle.ebs_journal.specs.Opening.{OffJournal};
ghost use Rattle.ebs_records.specs.declared.record.Record.TheVariants.{Advance};
ghost use Rattle.ebs_recovery.specs.Made.{advanced};
ghost use Rattle.ebs_recovery.specs.inner.Fits.{Fits, recorded, running};
ghost use Rattle.ebs_disk_store.specs.inner.Collected.{Collected, IsAged, IsLooked, IsUnpassed, Passes, Sliced, StaysUntil, Sweeps, aged_store, progress_of};
ghost use Rattle.ebs_disk_store.specs.inner.Told.{IfSound, at_reading, unsure};
ghost use Rattle.ebs_disk_store.specs.inner.Turned.{MayLeave};

use crate::recording::keep_unsure;
use crate::store::{Promise, Store};
use crate::sweeping::sweep;
pub use ebs_collect::Progress;
use ebs_collect::blocks_stay;
use ebs_model::Moment;
use ebs_records::{Record, write_advance};
use ebs_recovery::{
    fit_stays, held_is_kept, kept_form_finds, moments_stand, outcomes_fit, slots_fit,
};
use ebs_world::Disk;

/// E17's cause: the disk failed, which its count of faults shows.
#[derive(Clone, Copy, Debug, PartialEq, Eq)]
pub struct Unavailable;

/// How many slots are held, of what kind, and how many blocks wait to be moved to or from the archive. Nothing is moved yet, so
/// none is archived and none waits.
#[derive(Clone, Copy, Debug, PartialEq, Eq)]
pub struct Usage {
    pub standard: u64,
    pub archived: u64,
    pub leased: u64,
    pub waiting: u64,
}

impl<S: Promise> Store<S> {
    /// How many slots stamps have, and how many are under lease.
    pub fn usage(&self) -> Usage
        ensures { result ≡ record { standard = fin.len self.now.slots.keys; archived = 0; leased = fin.len self.now.slots.leases; waiting = 0 } }
    {
        let leased = self.slots.leased();
        Usage {
            standard: self.slots.used() - leased,
            archived: 0,
            leased,
            waiting: 0,
        }
    }

    // Whether time may take an array between the clock of the records and the moment.
    fn is_behind(&self, now: Moment) -> bool
        requires { self.now.recorded.clock.second ≤ now.second }
        ensures later { result ≡ true → self.now.recorded.clock.second < now.second }
        ensures stays { result ≡ false → StaysUntil self.now.recorded now }
    {
        self.kept.rests();
        if self.kept.clock().second == now.second {
            return false;
        }
        self.kept.has_ended(now)
    }

    // Records that time has passed until the moment.
    fn record_time<D: Disk>(&mut self, disk: &mut D, now: Moment) -> Result<(), Unavailable>
        requires clean { self.old.pending ≡ None }
        requires late { self.old.clock.second ≤ now.second }
        requires early { now.second ≤ 2 ^ 36 }
        requires later { self.old.recorded.clock.second < now.second }
        requires fits { Fits S.sound (D.view disk.old) self.old }
        ensures fits { Fits S.sound (D.view disk.new) self.new }
        ensures ok { OnOk result (self.new ≡ aged_store self.old now self.new.journal) }
        ensures aged { OnOk result (IfSound S.sound (D.view disk.old) (recorded (D.view disk.new) self.new ≡ advance (recorded (D.view disk.old) self.old) now)) }
        ensures err { OnErr result ((self.new ≡ self.old) ⊎ (self.new ≡ unsure self.old (Advance now))) }
        ensures same { OnErr result (IfSound S.sound (D.view disk.old) (recorded (D.view disk.new) self.new ≡ recorded (D.view disk.old) self.old)) }
        ensures moments { IfSound S.sound (D.view disk.old) (Leaves (D.view disk.old) (D.view disk.new) (MayLeave (IsErr result) (D.view disk.old) (D.view disk.new) self.old self.new (advanced now))) }
        ensures ran { Ran OffJournal (D.view disk.old) (D.view disk.new) }
        ensures cause { IsCaused (D.view disk.old) (D.view disk.new) result }
    {
        fit_stays::<D>();
        held_is_kept::<D>();
        kept_form_finds::<D>();
        moments_stand::<D>();
        outcomes_fit::<D>();
        let Ok(()) = self.journal.append(disk, &write_advance(now)) else {
            keep_unsure(
                self.journal.is_clean(),
                &mut self.pending,
                Record::Advance(now),
            );
            return Err(Unavailable);
        };
        self.kept.tick(now);
        self.clock = now;
        Ok(())
    }

    // Records it, after what isn't known was taken back.
    fn settle_time<D: Disk>(&mut self, disk: &mut D, now: Moment) -> Result<(), Unavailable>
        requires late { self.old.clock.second ≤ now.second }
        requires early { now.second ≤ 2 ^ 36 }
        requires later { self.old.recorded.clock.second < now.second }
        requires fits { Fits S.sound (D.view disk.old) self.old }
        ensures fits { Fits S.sound (D.view disk.new) self.new }
        ensures ok { OnOk result (self.new ≡ aged_store self.old now self.new.journal) }
        ensures aged { OnOk result (IfSound S.sound (D.view disk.old) (recorded (D.view disk.new) self.new ≡ advance (recorded (D.view disk.old) self.old) now)) }
        ensures err { OnErr result (IsUnpassed self.old self.new now) }
        ensures same { OnErr result (IfSound S.sound (D.view disk.old) (recorded (D.view disk.new) self.new ≡ recorded (D.view disk.old) self.old)) }
        ensures moments { IfSound S.sound (D.view disk.old) (Leaves (D.view disk.old) (D.view disk.new) (MayLeave (IsErr result) (D.view disk.old) (D.view disk.new) self.old self.new (advanced now))) }
        ensures ran { Ran OffJournal (D.view disk.old) (D.view disk.new) }
        ensures cause { IsCaused (D.view disk.old) (D.view disk.new) result }
    {
        let Ok(()) = self.mend(disk) else {
            return Err(Unavailable);
        };
        self.record_time(disk, now)
    }

    // Brings the clock to the moment, and records it where time has ended something by then.
    fn pass<D: Disk>(&mut self, disk: &mut D, now: Moment) -> Result<(), Unavailable>
        requires late { self.old.clock.second ≤ now.second }
        requires recorded { self.old.recorded.clock.second ≤ now.second }
        requires early { now.second ≤ 2 ^ 36 }
        requires fits { Fits S.sound (D.view disk.old) self.old }
        ensures fits { Fits S.sound (D.view disk.new) self.new }
        ensures passes { OnOk result (Passes self.old self.new now) }
        ensures slots { OnOk result (self.new.slots ≡ self.old.slots) }
        ensures waiting { OnOk result (self.new.waiting ≡ self.old.waiting) }
        ensures stays { OnOk result (StaysUntil self.new.recorded now) }
        ensures aged { OnOk result (IfSound S.sound (D.view disk.old) (IsAged (recorded (D.view disk.old) self.old) now (recorded (D.view disk.new) self.new))) }
        ensures settled { OnOk result (IfSound S.sound (D.view disk.old) ((self.new.pending ≡ None) ⊎ (recorded (D.view disk.new) self.new ≡ recorded (D.view disk.old) self.old))) }
        ensures err { OnErr result (IsUnpassed self.old self.new now) }
        ensures same { OnErr result (IfSound S.sound (D.view disk.old) (recorded (D.view disk.new) self.new ≡ recorded (D.view disk.old) self.old)) }
        ensures moments { IfSound S.sound (D.view disk.old) (Leaves (D.view disk.old) (D.view disk.new) (MayLeave (IsErr result) (D.view disk.old) (D.view disk.new) self.old self.new (advanced now))) }
        ensures ran { Ran OffJournal (D.view disk.old) (D.view disk.new) }
        ensures cause { IsCaused (D.view disk.old) (D.view disk.new) result }
    {
        fit_stays::<D>();
        if self.is_behind(now) {
            return self.settle_time(disk, now);
        }
        self.tick(now);
        Ok(())
    }

    // Gives up what has ended at the clock of the records, and looks at so many of the blocks that wait.
    fn look_at<D: Disk>(&mut self, disk: &D, work: u32) -> Progress
        requires fits { Fits S.sound (D.view disk.now) self.old }
        ensures fits { Fits S.sound (D.view disk.now) self.new }
        ensures sweeps { Sweeps self.old self.new }
        ensures looked { IsLooked self.old self.new work }
        ensures progress { result ≡ progress_of self.new.waiting }
        ensures same { IfSound S.sound (D.view disk.now) (recorded (D.view disk.now) self.new ≡ recorded (D.view disk.now) self.old) }
    {
        let _ = disk;
        slots_fit::<D>();
        blocks_stay();
        self.kept.give_up_ended();
        let progress = self.kept.collect(&mut self.slots, work);
        self.kept.blocks_have_slots();
        let _top = self.slots.top();
        progress
    }

    // And at all of them.
    fn look_at_all<D: Disk>(&mut self, disk: &D)
        requires fits { Fits S.sound (D.view disk.now) self.old }
        ensures fits { Fits S.sound (D.view disk.now) self.new }
        ensures sweeps { Sweeps self.old self.new }
        ensures none { self.new.waiting ≡ 0 }
        ensures same { IfSound S.sound (D.view disk.now) (recorded (D.view disk.now) self.new ≡ recorded (D.view disk.now) self.old) }
    {
        let _ = disk;
        slots_fit::<D>();
        sweep(&mut self.kept, &mut self.slots);
        let _top = self.slots.top();
    }

    /// Gives up what time has ended by the moment of the store's clock and the reading, which is in seconds since 1970 in UTC, and
    /// looks at so many of the blocks that wait since nobody may have them any more. One that nobody has is given up, and its slot
    /// may be handed out again. Where time has ended something, that it has passed is recorded before. E17 leaves the machine with
    /// its clock.
    pub fn collect_slice<D: Disk>(
        &mut self,
        disk: &mut D,
        reading: Moment,
        work: u32,
    ) -> Result<Progress, Unavailable>
        requires fits { Fits S.sound (D.view disk.old) self.old }
        ensures fits { Fits S.sound (D.view disk.new) self.new }
        ensures told { Sliced self.old self.new (at_reading self.old reading) work result }
        ensures aged { OnOk result (IfSound S.sound (D.view disk.old) (IsAged (recorded (D.view disk.old) self.old) (at_reading self.old reading) (recorded (D.view disk.new) self.new))) }
        ensures machine { OnOk result (IfSound S.sound (D.view disk.old) (running (D.view disk.new) self.new ≡ advance (running (D.view disk.old) self.old) (at_reading self.old reading))) }
        ensures same { OnErr result (IfSound S.sound (D.view disk.old) ((recorded (D.view disk.new) self.new ≡ recorded (D.view disk.old) self.old) × (running (D.view disk.new) self.new ≡ running (D.view disk.old) self.old))) }
        ensures moments { IfSound S.sound (D.view disk.old) (Leaves (D.view disk.old) (D.view disk.new) (MayLeave (IsErr result) (D.view disk.old) (D.view disk.new) self.old self.new (advanced (at_reading self.old reading)))) }
        ensures ran { Ran OffJournal (D.view disk.old) (D.view disk.new) }
        ensures cause { IsCaused (D.view disk.old) (D.view disk.new) result }
    {
        let now = self.moment(reading);
        let Ok(()) = self.pass(disk, now) else {
            return Err(Unavailable);
        };
        Ok(self.look_at(disk, work))
    }

    /// Gives up all that nobody has any more at the moment of the store's clock and the reading, until nothing waits.
    pub fn collect<D: Disk>(&mut self, disk: &mut D, reading: Moment) -> Result<(), Unavailable>
        requires fits { Fits S.sound (D.view disk.old) self.old }
        ensures fits { Fits S.sound (D.view disk.new) self.new }
        ensures told { Collected self.old self.new (at_reading self.old reading) result }
        ensures aged { OnOk result (IfSound S.sound (D.view disk.old) (IsAged (recorded (D.view disk.old) self.old) (at_reading self.old reading) (recorded (D.view disk.new) self.new))) }
        ensures settled { OnOk result (IfSound S.sound (D.view disk.old) ((self.new.pending ≡ None) ⊎ (recorded (D.view disk.new) self.new ≡ recorded (D.view disk.old) self.old))) }
        ensures machine { OnOk result (IfSound S.sound (D.view disk.old) (running (D.view disk.new) self.new ≡ advance (running (D.view disk.old) self.old) (at_reading self.old reading))) }
        ensures same { OnErr result (IfSound S.sound (D.view disk.old) ((recorded (D.view disk.new) self.new ≡ recorded (D.view disk.old) self.old) × (running (D.view disk.new) self.new ≡ running (D.view disk.old) self.old))) }
        ensures moments { IfSound S.sound (D.view disk.old) (Leaves (D.view disk.old) (D.view disk.new) (MayLeave (IsErr result) (D.view disk.old) (D.view disk.new) self.old self.new (advanced (at_reading self.old reading)))) }
        ensures ran { Ran OffJournal (D.view disk.old) (D.view disk.new) }
        ensures cause { IsCaused (D.view disk.old) (D.view disk.new) result }
    {
        let now = self.moment(reading);
        let Ok(()) = self.pass(disk, now) else {
            return Err(Unavailable);
        };
        self.look_at_all(disk);
        Ok(())
    }
}
