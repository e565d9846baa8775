// What a deletion takes, and what it leaves.
ghost use Rattle.ebs_laws.specs.DeletionLaws.{DeletedGoesByRules, DeletionLeavesGone, DeletionLeavesNumber, GoneStaysGone, GoneIsNotGiven, GoneIsNotFound, DeletionLeavesOthers, ChildStaysWhole, ChildKeepsBytes};
ghost use Rattle.ebs_laws.specs.BinLaws.{RestoreLeavesOthers, ChildOutlivesEnd, ChildKeepsBytesThroughout};

/// An accepted DeleteSnapshot is of a snapshot of the caller's own outside the bin, which was no open upload and had no lock that lasted. It is
/// gone, with its row and its blocks, exactly where its upload had failed or no rule of its owner matches it; else it stays in the bin with all
/// its other fields and all its blocks, for the most days of a rule that matches. Every other snapshot is what time left of it, no volume and no
/// rule changes, and the accounts have given out the same numbers as before.
pub fn deleted_goes_by_rules()
    ensures { DeletedGoesByRules }
{}

/// A snapshot that was deleted for good isn't there after any calls, and each call that names it, but for a start or a creation that repeats
/// another, is refused as of what isn't there. No other snapshot gets the number of one that was deleted, wherever it went.
pub fn deleted_stays_gone()
    ensures leaves { DeletionLeavesGone }
    ensures number_out { DeletionLeavesNumber }
    ensures stays { GoneStaysGone }
    ensures number { GoneIsNotGiven }
    ensures refused { GoneIsNotFound }
{}

/// The deletion of a snapshot leaves every other one with its blocks, and so each child with those that it began with: while its parent is in the bin, at the
/// parent's end there, and after its restore.
pub fn children_outlive_parents()
    ensures others { DeletionLeavesOthers }
    ensures children { ChildStaysWhole }
    ensures bytes { ChildKeepsBytes }
    ensures restored { RestoreLeavesOthers }
    ensures end { ChildOutlivesEnd }
    ensures throughout { ChildKeepsBytesThroughout }
{}
