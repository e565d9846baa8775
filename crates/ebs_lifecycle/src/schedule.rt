// When a policy is due.
ghost use Rattle.std.specs.Prelude.{◌≡◌, ◌*◌, ◌<◌, ◌≤◌, IfSome, IsNone};
ghost use Rattle.ebs_model.specs.inner.Due.{due_moment};
ghost use Rattle.ebs_lifecycle.specs.Due.{IsLatestDue, NoneIsDue};

use ebs_model::{Moment, Policy};

const HOUR: u64 = 3600;

/// The latest due moment that isn't after `now`, where it is after `since`.
pub fn due(policy: &Policy, since: Moment, now: Moment) -> Option<Moment>
    requires hours { 1 ≤ policy.now.hours }
    ensures value { result ≡ due_moment policy.now since.second now.second }
    ensures latest { IfSome result (λ m. IsLatestDue policy.now now.second m.second) }
    ensures new { IfSome result (λ m. since.second < m.second) }
    ensures none { IsNone result → NoneIsDue policy.now since.second now.second }
{
    let at = u64::from(policy.at);
    let interval = interval(policy.hours);
    if now.second < at {
        return None;
    }
    let second = now.second - (now.second - at) % interval;
    if second > since.second {
        Some(Moment { second })
    } else {
        None
    }
}

/// The seconds from one due moment to the next.
fn interval(hours: u32) -> u64
    ensures { result ≡ 3600 * hours }
{
    HOUR * u64::from(hours)
}
