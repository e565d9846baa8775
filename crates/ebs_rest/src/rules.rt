// The members of the calls on the Recycle Bin and its rules, in the order in which they are tried.
ghost use Rattle.std.specs.Prelude.{◌≡◌, None, codes, IfOk, IfErr};
ghost use Rattle.ebs_model.specs.Limits.{bad_member, is_first_delay};
ghost use Rattle.ebs_members.specs.inner.Outcome.{Reads, IsExact, RanOut};
ghost use Rattle.ebs_members.specs.Sources.{refuse_unless, in_query, pairs_of};
ghost use Rattle.ebs_members.specs.inner.Memory.{IsGiven};
ghost use Rattle.ebs_rest.specs.inner.Memory.{HasRule};
ghost use Rattle.ebs_members.specs.inner.Sources.{found};
ghost use Rattle.ebs_rest.specs.Calls as calls;

use crate::calls::rows_asked;
use ebs_members::{Check, Period, Read, Rule, RuleTagList, Source, Words, Wrong, object};
use ebs_model::{Request, RuleKey, RuleTag, RuleTags, is_first_delay};
use std::alloc::Global;

/// The rule that a path names.
pub fn rule<'n>(path: &Source) -> Read<'n, RuleKey>
    ensures value { Reads (calls.rule (found path.now)) result }
    ensures exact { IsExact result }
{
    path.required("identifier", Rule)
}

pub fn create_rule<'n>(alloc: Global, bytes: &[u8]) -> Read<'n, Request>
    ensures value { Reads (calls.create_rule bytes.now) result }
    ensures memory { IfErr result (λ e. RanOut e → IsGiven bytes.now) }
    ensures limits { IfOk result (λ request. bad_member request ≡ None) }
{
    let body = object(alloc, bytes)?;
    rule_of(alloc, &Source::Body(&body))
}

fn rule_of<'n>(alloc: Global, body: &Source) -> Read<'n, Request>
    ensures value { Reads (calls.rule_of (found body.now)) result }
    ensures limits { IfOk result (λ request. bad_member request ≡ None) }
{
    let days = body.required("RetentionPeriod", Period::Retention)?;
    body.required("ResourceType", Check::Exactly("EBS_SNAPSHOT"))?;
    let tags = body.optional_owned(alloc, "ResourceTags", RuleTagList)?;
    let description = body.optional_owned(alloc, "Description", Words::Description)?;
    let delay = body.optional("LockConfiguration", Period::UnlockDelay)?;
    let tags = tags.unwrap_or(RuleTags::new(alloc));
    untagged(tags.as_slice(), delay)?;
    Ok(Request::CreateRule {
        days,
        tags,
        description,
        delay,
    })
}

/// A rule with resource tags isn't created locked.
fn untagged<'n>(tags: &[RuleTag], delay: Option<u32>) -> Read<'n, ()>
    ensures value { Reads (refuse_unless (is_first_delay tags.now delay) (codes "LockConfiguration")) result }
    ensures exact { IsExact result }
{
    if is_first_delay(tags, delay) {
        return Ok(());
    }
    Err(Wrong::Member("LockConfiguration"))
}

pub fn update_rule<'n>(alloc: Global, path: &Source, bytes: &[u8]) -> Read<'n, Request>
    ensures value { Reads (calls.update_rule (found path.now) bytes.now) result }
    ensures memory { IfErr result (λ e. RanOut e → HasRule (found path.now) × IsGiven bytes.now) }
    ensures limits { IfOk result (λ request. bad_member request ≡ None) }
{
    let key = rule(path)?;
    let body = object(alloc, bytes)?;
    update_of(alloc, key, &Source::Body(&body))
}

fn update_of<'n>(alloc: Global, key: RuleKey, body: &Source) -> Read<'n, Request>
    ensures value { Reads (calls.update_of key (found body.now)) result }
    ensures limits { IfOk result (λ request. bad_member request ≡ None) }
{
    let days = body.optional("RetentionPeriod", Period::Retention)?;
    let tags = body.optional_owned(alloc, "ResourceTags", RuleTagList)?;
    let description = body.optional_owned(alloc, "Description", Words::Description)?;
    Ok(Request::UpdateRule {
        key,
        days,
        tags,
        description,
    })
}

pub fn lock_rule<'n>(alloc: Global, path: &Source, bytes: &[u8]) -> Read<'n, Request>
    ensures value { Reads (calls.lock_rule (found path.now) bytes.now) result }
    ensures memory { IfErr result (λ e. RanOut e → HasRule (found path.now) × IsGiven bytes.now) }
    ensures limits { IfOk result (λ request. bad_member request ≡ None) }
{
    let key = rule(path)?;
    let body = object(alloc, bytes)?;
    let delay = Source::Body(&body).required("LockConfiguration", Period::UnlockDelay)?;
    Ok(Request::LockRule { key, delay })
}

pub fn list_bin<'n>(alloc: Global, query: &[u8]) -> Read<'n, Request>
    ensures value { Reads (calls.list_bin (in_query (pairs_of query.now))) result }
    ensures memory { IfErr result (λ e. RanOut e → IsGiven query.now) }
    ensures limits { IfOk result (λ request. bad_member request ≡ None) }
{
    let (from, max) = rows_asked(alloc, query)?;
    Ok(Request::ListBin { from, max })
}
