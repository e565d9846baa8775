// What checkpoints and their bytes are to one another.
ghost use Rattle.std.specs.Prelude.{◌≡◌};
ghost use Rattle.ebs_checkpoint_rules.specs.inner.Rules.{WrittenIsRead};

/// What is written of a checkpoint is read as that one, where there is memory.
pub fn written_is_read()
    ensures { WrittenIsRead }
{}
