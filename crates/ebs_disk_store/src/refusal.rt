// Why a store isn't made or opened.
use ebs_journal::JournalRefusal;
use ebs_world::Failed;

/// Why a store wasn't made or opened.
#[derive(Clone, Copy, Debug, PartialEq, Eq)]
pub enum OpenRefusal {
    /// The disk failed, which its count of faults shows.
    DiskFailed,
    /// No store was made here.
    NotMade,
    /// A store was made here before.
    AlreadyMade,
    /// The first nine bytes of the area that should be a journal.
    NotAJournal([u8; 9]),
    /// The version of the area that counts.
    BadVersion(u32),
    /// The place of the gate in front of a record whose length is bad, or that is no change of the state before it.
    BadRecord(u64),
    /// The checkpoint's length is bad, or no checkpoint with all rules is spelled so.
    BadCheckpoint,
    /// Something of the checkpoint is in the archive, or a record is a move.
    NotBuilt,
    /// There wasn't memory enough.
    Memory,
}

impl From<Failed> for OpenRefusal {
    ghost use Rattle.std.specs.Prelude.{◌≡◌};
    ghost use Rattle.ebs_disk_store.specs.declared.refusal.OpenRefusal.TheVariants.{DiskFailed};

    ghost from_gives = { λ _ e. e ≡ DiskFailed };

    fn from(_: Failed) -> Self {
        OpenRefusal::DiskFailed
    }
}

impl From<JournalRefusal> for OpenRefusal {
    ghost use Rattle.std.specs.Prelude.{◌≡◌};
    ghost use Rattle.ebs_disk_store.specs.inner.Creations.{refusal_of};

    ghost from_gives = { λ r e. e ≡ refusal_of r };

    fn from(refusal: JournalRefusal) -> Self {
        match refusal {
            JournalRefusal::DiskFailed => OpenRefusal::DiskFailed,
            JournalRefusal::NotMade => OpenRefusal::NotMade,
            JournalRefusal::NotAJournal(nine) => OpenRefusal::NotAJournal(nine),
            JournalRefusal::BadVersion(version) => OpenRefusal::BadVersion(version),
            JournalRefusal::BadLength(21) => OpenRefusal::BadCheckpoint,
            JournalRefusal::BadLength(place) => OpenRefusal::BadRecord(place),
            JournalRefusal::Memory => OpenRefusal::Memory,
        }
    }
}
