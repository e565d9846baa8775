// What the lists of a checkpoint say.
ghost use Rattle.ebs_restored_rows.specs.Laws.{ListsSayRows, RulesLetRestore};

/// A checkpoint with all rules has lists whose rows can be put back.
pub fn rules_let_restore()
    ensures { RulesLetRestore }
{}

/// The lists of a checkpoint say the rows of its machine.
pub fn lists_say_rows()
    ensures { ListsSayRows }
{}
