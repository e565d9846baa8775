// What spellings are.
ghost use Rattle.std.specs.Prelude.{◌≡◌};
ghost use Rattle.ebs_checkpoints.specs.declared.checkpoint.Checkpoint.{Checkpoint};
ghost use Rattle.ebs_checkpoints.specs.Checkpoints.{HasSpelling, spelled};

/// No two checkpoints have the same bytes.
pub fn one_checkpoint_spelling()
    ensures { (v w : Checkpoint) → HasSpelling v → HasSpelling w → spelled v ≡ spelled w → v ≡ w }
{}
