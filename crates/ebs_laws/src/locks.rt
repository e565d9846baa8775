// The lock of a snapshot: what it keeps, and what is made of it.
ghost use Rattle.ebs_laws.specs.LockLaws.{LockedIsKept, RunKeepsLocked, ComplianceIsKept, LockIsAsAsked, UnlockIsAsAsked};

/// A completed snapshot outside the bin whose lock ends after a call is there after the call with all its blocks, whoever calls what;
/// and so through any calls, while the lock that it has at each of them ends later.
pub fn locked_is_kept()
    ensures call { LockedIsKept }
    ensures run { RunKeepsLocked }
{}

/// From the end of its cool-off on, and before its own end, a lock in compliance stays through any calls of anybody: the snapshot is
/// there with all its blocks, and its lock is in compliance with the same cool-off, until no earlier.
pub fn compliance_is_kept()
    ensures { ComplianceIsKept }
{}

/// After an accepted LockSnapshot the lock is in the asked mode until the asked end, and a cool-off is counted from then; but one in
/// compliance that has cooled off and hasn't ended was only made longer. A date is a day to 36500 days away. After an accepted
/// UnlockSnapshot there is no lock, and it was in governance, or cooling off, and hadn't ended. All else of the row, its blocks, and
/// every other row and account are as time left them.
pub fn lock_is_as_asked()
    ensures lock { LockIsAsAsked }
    ensures unlock { UnlockIsAsAsked }
{}
