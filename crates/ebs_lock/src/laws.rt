// What locks promise.
ghost use Rattle.ebs_lock.specs.Runs.{ComplianceLasts, ExpiredIsNone};

/// Once its cool-off has ended a lock in compliance is never taken off, shortened or put into another mode, whatever is
/// commanded, until it expires.
pub fn compliance_lasts()
    ensures { ComplianceLasts }
{}

/// To each command an expired lock is as none.
pub fn expired_is_none()
    ensures { ExpiredIsNone }
{}
