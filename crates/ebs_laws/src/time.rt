// What time does, and what a refused call leaves.
ghost use Rattle.ebs_laws.specs.TimeLaws.{RefusedCallChangesNothing, ClockIsMoment, ClockGoesForward, ClockStaysBelow, TimePassesInParts, FailedUploadIsEmpty, BinnedSnapshotGoes, OtherSnapshotStays, NoSnapshotComes};
ghost use Rattle.ebs_laws.specs.FieldLaws.{ReadingIsReached, EarlierReadingIsPassed, LateReadingIsCut, PutLastsTimeout};

/// A refused call leaves the machine as time alone makes it.
pub fn refused_call_changes_nothing()
    ensures { RefusedCallChangesNothing }
{}

/// After any call the clock stands at the call's moment, it never goes back, and it never passes 2^36 seconds.
pub fn call_moves_clock()
    ensures moment { ClockIsMoment }
    ensures forward { ClockGoesForward }
    ensures below { ClockStaysBelow }
{}

/// Time may pass in parts.
pub fn time_passes_in_parts()
    ensures { TimePassesInParts }
{}

/// Time takes the blocks of an upload that has failed, takes out a snapshot whose stay in the bin has ended, and leaves the
/// others.
pub fn time_takes_and_leaves()
    ensures failed { FailedUploadIsEmpty }
    ensures gone { BinnedSnapshotGoes }
    ensures left { OtherSnapshotStays }
    ensures none { NoSnapshotComes }
{}

/// A reading up to 2^36 that is later than the clock is reached exactly; an earlier one leaves the clock, and a later one than
/// 2^36 counts as that.
pub fn clock_follows_reading()
    ensures reached { ReadingIsReached }
    ensures passed { EarlierReadingIsPassed }
    ensures cut { LateReadingIsCut }
{}

/// An upload stays as a put left it before so many minutes after the put as its timeout says, and is empty from then on.
pub fn put_lasts_timeout()
    ensures { PutLastsTimeout }
{}
