// What checkpoints say.
ghost use Rattle.ebs_lawful_points.specs.PointLaws.{PointsAreLawful, LawsGiveRules, SharesAscend, UploadsAreDone};

/// The machine that a checkpoint with all rules says is lawful.
pub fn points_are_lawful()
    ensures { PointsAreLawful }
{}

/// A checkpoint in order that says a lawful machine is within all limits and quotas, and its rows are their accounts'.
pub fn laws_give_rules()
    ensures { LawsGiveRules }
{}

/// So are the accounts that a row names in order, and what names a volume is completed.
pub fn rows_have_rules()
    ensures shared { SharesAscend }
    ensures uploads { UploadsAreDone }
{}
