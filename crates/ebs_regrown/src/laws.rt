// What the slots of a checkpoint say of its lineage.
ghost use Rattle.ebs_regrown.specs.Laws.{RegrownIsCounted};

/// The slots of a checkpoint count the entries of the lineage that was made of its nodes.
pub fn regrown_is_counted()
    ensures { RegrownIsCounted }
{}
