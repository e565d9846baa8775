// What rules promise.
ghost use Rattle.ebs_bin.specs.BinLaws.{LongestRuleWins, NoneMatches, LockedRuleStays, NumberIsNew};

/// The retention of a snapshot is that of a rule that matches it, and no rule that matches it has more. There is none
/// exactly where no rule matches.
pub fn longest_rule_wins()
    ensures some { LongestRuleWins }
    ensures none { NoneMatches }
{}

/// Through any run of commands a locked rule stays with its days, tags and description until the delay of an unlock has
/// passed.
pub fn locked_rule_stays()
    ensures { LockedRuleStays }
{}

/// A number isn't given again, whatever became of the rule that had it.
pub fn number_is_new()
    ensures { NumberIsNew }
{}
