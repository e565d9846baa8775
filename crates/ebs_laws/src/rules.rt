// What becomes of an account's rules.
ghost use Rattle.ebs_laws.specs.RuleLaws.{RulesStayFit, RunsLeaveRulesFit, CreatedRuleIsAsAsked, UpdatedRuleIsAsAsked, DeletedRuleIsGone, LockedRuleIsAsAsked, UnlockedRuleIsAsAsked, LockedRuleIsKept, RuleNumbersNeverFall, CreatedRulesDiffer, ShownRuleIsTheRule, OwnRuleIsShown, ListHasRules};

/// Each rule stands under the number in its key, which was given out, and has a day to 365 days: at the beginning, and after each call.
pub fn rules_fit()
    ensures each_call { RulesStayFit }
    ensures run { RunsLeaveRulesFit }
{}

/// A created rule is what was asked for, under its account's next number. An update changes the given fields of one rule alone, a deletion takes one out, and
/// both are of an unlocked rule; a lock and an unlock change its lock alone. The answer shows the rule as it is then. Nobody else's rules, and no snapshot, volume, block, counter or client
/// token changes by a command on rules.
pub fn rule_is_as_asked()
    ensures created { CreatedRuleIsAsAsked }
    ensures updated { UpdatedRuleIsAsAsked }
    ensures deleted { DeletedRuleIsGone }
    ensures locked { LockedRuleIsAsAsked }
    ensures unlocked { UnlockedRuleIsAsAsked }
{}

/// A locked rule stays with its days, its tags and its description, whatever is called by whomever, until an unlock's delay has passed.
pub fn locked_rule_is_kept()
    ensures { LockedRuleIsKept }
{}

/// No account's next number of rules ever falls, so two rules that were created differ in their ids, whatever became of the first.
pub fn created_rules_differ()
    ensures numbers { RuleNumbersNeverFall }
    ensures ids { CreatedRulesDiffer }
{}

/// GetRule shows a rule of the caller's own as it is, with what time makes of its lock, and each of its own. ListRules shows all of them in ascending number.
pub fn shown_rule_is_the_rule()
    ensures shows { ShownRuleIsTheRule }
    ensures own { OwnRuleIsShown }
    ensures list { ListHasRules }
{}
