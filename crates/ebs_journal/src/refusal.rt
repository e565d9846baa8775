// How the calls of a journal fail.
use ebs_world::Failed;
use std::alloc::{AllocError, AllocFailed};

/// The disk failed, which its count of faults shows.
#[derive(Clone, Copy, Debug, PartialEq, Eq)]
pub struct DiskFailed;

/// Why a journal wasn't made or opened.
#[derive(Clone, Copy, Debug, PartialEq, Eq)]
pub enum JournalRefusal {
    DiskFailed,
    /// No journal was made here.
    NotMade,
    /// The first nine bytes of the area that should be a journal.
    NotAJournal([u8; 9]),
    /// The version of the area that counts.
    BadVersion(u32),
    /// The place of the gate in front of a record whose length is bad, or 21 where it is the checkpoint's.
    BadLength(u64),
    /// There wasn't memory enough.
    Memory,
}

impl From<Failed> for JournalRefusal {
    ghost use Rattle.std.specs.Prelude.{◌≡◌};
    ghost use Rattle.ebs_journal.specs.declared.refusal.JournalRefusal.TheVariants.{DiskFailed};

    ghost from_gives = { λ _ e. e ≡ DiskFailed };

    fn from(_: Failed) -> Self {
        JournalRefusal::DiskFailed
    }
}

impl From<AllocError> for JournalRefusal {
    ghost use Rattle.std.specs.Prelude.{◌≡◌};
    ghost use Rattle.ebs_journal.specs.declared.refusal.JournalRefusal.TheVariants.{Memory};

    ghost from_gives = { λ _ e. e ≡ Memory };

    fn from(_: AllocError) -> Self {
        JournalRefusal::Memory
    }
}

impl<T: Drop> From<AllocFailed<T>> for JournalRefusal {
    ghost use Rattle.std.specs.Prelude.{◌≡◌};
    ghost use Rattle.ebs_journal.specs.declared.refusal.JournalRefusal.TheVariants.{Memory};

    ghost from_gives = { λ _ e. e ≡ Memory };

    fn from(_: AllocFailed<T>) -> Self {
        JournalRefusal::Memory
    }
}
