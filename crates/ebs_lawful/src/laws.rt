// The laws of lawful machines.
ghost use Rattle.ebs_lawful.specs.ArrayLaws.{EmptyHasArrays, CallsKeepArrays, TimeKeepsArrays};
ghost use Rattle.ebs_lawful.specs.Laws.{EmptyIsLawful, CallsKeepLaws, TimeKeepsLaws, StepsKeepLaws, RunsAreLawful};

/// The empty machine is lawful.
pub fn empty_is_lawful()
    ensures { EmptyIsLawful }
{}

/// A call within its limits that is accepted leaves a lawful machine lawful, however the digests of blocks are found.
pub fn calls_keep_laws()
    ensures { CallsKeepLaws }
{}

/// So does time.
pub fn time_keeps_laws()
    ensures { TimeKeepsLaws }
{}

/// So do steps, whatever is asked and whatever a clock reads; and each run from the empty machine on ends in a lawful one.
pub fn runs_are_lawful()
    ensures step { StepsKeepLaws }
    ensures run { RunsAreLawful }
{}

/// Each snapshot's array stands within its size and has what was put, and so does that of each volume, which alone have arrays: of the
/// empty machine, after each accepted call, and at each later moment.
pub fn arrays_are_kept()
    ensures empty { EmptyHasArrays }
    ensures call { CallsKeepArrays }
    ensures time { TimeKeepsArrays }
{}
