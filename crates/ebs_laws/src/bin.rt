// What the bin keeps and until when, and who finds it there.
ghost use Rattle.ebs_laws.specs.BinLaws.{DeletionBins, EndsStay, BinnedGoesAtEnd, BinnedIsRestored, DeletedIsRestored, GoneWithoutRule, LongestRuleDecides, BinnedIsNotFound, BinnedIsNotCompared, BinnedIsListed, RestoreIsFromBin};
ghost use Rattle.ebs_laws.specs.OwnLaws.{ListsAreApart};

/// A deleted snapshot that a rule of its owner matched is in the bin, and its owner restores it from there at any moment before its end, with all fields of its
/// row and block for block, whatever was called in between by whomever, but for its own restore. The restore shows the row, and changes no other snapshot, no volume, no account
/// and no rule.
pub fn deleted_is_restored()
    ensures binned { DeletionBins }
    ensures whole { BinnedIsRestored }
    ensures run { DeletedIsRestored }
{}

/// What is in the bin stays there whole, and until the same second, through any calls, also on rules, where it isn't restored; from that second on it
/// is gone.
pub fn ends_stay()
    ensures stay { EndsStay }
    ensures gone { BinnedGoesAtEnd }
{}

/// A deleted snapshot is gone at once exactly where its upload had failed or no rule of its owner matches. Else its end in the bin is that of a rule of
/// its owner that matches, and no rule of its owner that matches has more days.
pub fn longest_rule_decides()
    ensures none { GoneWithoutRule }
    ensures longest { LongestRuleDecides }
{}

/// While its end lies ahead every call that names a snapshot in the bin, whoever asks, is refused as of what isn't there, but for its owner's restore. ListBin
/// lists it to its owner, and DescribeSnapshots doesn't: each row of an account that is kept is in one of the two lists, and in one alone.
pub fn binned_is_hidden()
    ensures named { BinnedIsNotFound }
    ensures compared { BinnedIsNotCompared }
    ensures listed { BinnedIsListed }
    ensures apart { ListsAreApart }
    ensures restore { RestoreIsFromBin }
{}
