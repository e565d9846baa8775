// With whom a snapshot is shared.
ghost use Rattle.ebs_laws.specs.SharingLaws.{SharingIsAsAsked};
ghost use Rattle.ebs_laws.specs.HiddenLaws.{RemovedIsHidden, HiddenStays, HiddenIsRefused, HiddenIsNotCompared};

/// After an accepted ModifyPermission an account is among those that the snapshot is shared with exactly where it was or is added, and
/// isn't removed; they ascend, each once, and are at most 1000. The snapshot is public exactly where it was or all are added, and all
/// aren't removed. All else of the row, its blocks, and every other row and account are as time left them.
pub fn sharing_is_as_asked()
    ensures { SharingIsAsAsked }
{}

/// A snapshot that an account was removed from, and that isn't public, is hidden from that account, and stays so through any calls until
/// it is shared with the account or with all again. Each call of the account that names it, but for a start or a creation that
/// repeats another, is refused as if it weren't there.
pub fn withdrawn_reads_nothing()
    ensures hides { RemovedIsHidden }
    ensures stays { HiddenStays }
    ensures refused { HiddenIsRefused }
    ensures compared { HiddenIsNotCompared }
{}
