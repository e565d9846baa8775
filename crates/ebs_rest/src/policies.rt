// The members of the calls on lifecycle policies, in the order in which they are tried.
ghost use Rattle.std.specs.Prelude.{◌≡◌, None, IfOk, IfErr};
ghost use Rattle.ebs_model.specs.Limits.{bad_member};
ghost use Rattle.ebs_members.specs.inner.Outcome.{Reads, IsExact, RanOut};
ghost use Rattle.ebs_members.specs.inner.Memory.{IsGiven};
ghost use Rattle.ebs_members.specs.inner.Sources.{found};
ghost use Rattle.ebs_rest.specs.Calls as calls;

use ebs_members::{Policy, Read, Retention, Scheduled, Source, TagList, TargetList, object};
use ebs_model::{PolicyKey, Request, Tags};
use std::alloc::Global;

/// The policy that a path names.
pub fn policy<'n>(path: &Source) -> Read<'n, PolicyKey>
    ensures value { Reads (calls.policy (found path.now)) result }
    ensures exact { IsExact result }
{
    path.required("policyId", Policy)
}

pub fn create_policy<'n>(alloc: Global, bytes: &[u8]) -> Read<'n, Request>
    ensures value { Reads (calls.create_policy bytes.now) result }
    ensures memory { IfErr result (λ e. RanOut e → IsGiven bytes.now) }
    ensures limits { IfOk result (λ request. bad_member request ≡ None) }
{
    let body = object(alloc, bytes)?;
    policy_of(alloc, &Source::Body(&body))
}

fn policy_of<'n>(alloc: Global, body: &Source) -> Read<'n, Request>
    ensures value { Reads (calls.policy_of (found body.now)) result }
    ensures limits { IfOk result (λ request. bad_member request ≡ None) }
{
    let targets = body.required_owned(alloc, "TargetTags", TargetList)?;
    let schedule = body.required("Schedule", Scheduled)?;
    let retain = body.required("RetainRule", Retention)?;
    let add = body.optional_owned(alloc, "TagsToAdd", TagList)?;
    Ok(Request::CreatePolicy {
        targets,
        hours: schedule.hours,
        at: schedule.at,
        retain,
        add: add.unwrap_or(Tags::new(alloc)),
    })
}
