// All rules, and the spelling.
ghost use Rattle.ebs_point_rules.specs.Laws.{RulesGiveSpelling, TimeSettles, PointsAreSettled, PointHasAllRules, ShownPointHasAllRules};

/// What has all rules and the values of its types has a spelling.
pub fn rules_give_spelling()
    ensures { RulesGiveSpelling }
{}

/// A checkpoint that says a lawful machine at rest, with its nodes, slots and copies laid out, is one that a store can have.
pub fn point_has_all_rules()
    ensures given { PointHasAllRules }
    ensures shown { ShownPointHasAllRules }
{}

/// A lawful machine is settled at each later moment, and so is what such a checkpoint says.
pub fn machines_are_settled()
    ensures time { TimeSettles }
    ensures points { PointsAreSettled }
{}
