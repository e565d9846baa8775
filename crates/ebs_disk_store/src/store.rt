// The store.
use ebs_journal::Journal;
use ebs_kept::Kept;
use ebs_model::Moment;
use ebs_records::Record;
use ebs_slots::Slots;
use std::marker::{Brand, Model, PhantomData};

/// Names the fact that a store is sound: that it was made or opened on a disk which kept its promises until then.
pub trait Promise {
    ghost sound: { Type 0 };
}

impl Promise for Brand {
    ghost sound = { ⊥ };
}

/// Why a call did nothing.
#[derive(Clone, Copy, Debug, PartialEq, Eq)]
pub enum Stop {
    /// E17: the disk failed, which its count of faults shows.
    Unavailable,
    /// There wasn't memory enough.
    Memory,
}

/// A machine on a disk. The kept form is that of its records; the clock is that of the machine that answers calls, which a
/// refused call moves too.
#[derive(Drop)]
pub struct Store<S: Promise> {
    pub(crate) kept: Kept,
    pub(crate) clock: Moment,
    pub(crate) slots: Slots,
    pub(crate) journal: Journal,
    // the change of which it isn't known whether the journal has it: its record, or for a checkpoint that time has passed until its clock
    pub(crate) pending: Option<Record>,
    pub(crate) promise: PhantomData<S>,
}

impl<S: Promise> Model for Store<S> {
    ghost use Rattle.ebs_recovery.specs.inner.Fits.{Seen};
    ghost use Rattle.ebs_disk_store.specs.inner.Shown.{seen_code};

    ghost Value = { Seen };

    ghost coded = { seen_code };

    ghost use Rattle.ebs_holds.specs.Holds.{nodes_in};
    ghost use Rattle.ebs_disk_store.specs.inner.Shown.{shown, IsSound};

    ghost view = { λ s. shown s };

    ghost invariant = { λ s. IsSound (shown s) (nodes_in s.kept.holding) };
}
