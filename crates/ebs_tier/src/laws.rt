// What tiers promise.
ghost use Rattle.ebs_tier.specs.TierLaws.{ArchiveIsUndone, RestoreEnds};

/// What was archived isn't read until a restore, and is of the standard tier again by a restore for good.
pub fn archive_is_undone()
    ensures { ArchiveIsUndone }
{}

/// A restore for some days is read from now on, for 86400 seconds each, and then no more; a restore during one is
/// counted from its own moment.
pub fn restore_ends()
    ensures { RestoreEnds }
{}
