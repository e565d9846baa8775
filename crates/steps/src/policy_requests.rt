// The requests of the calls on lifecycle policies.
use crate::words::{Words, given_short, policy, short, tags};
use ebs_model::{Request, Retain};
use std::alloc::Global;

pub fn policy_request(alloc: Global, verb: &str, words: Words<'_>) -> Option<Request> {
    match verb {
        "make_policy" => make_policy(alloc, words),
        "policy" => Some(Request::GetPolicy {
            key: policy(words, 0)?,
        }),
        "drop_policy" => Some(Request::DeletePolicy {
            key: policy(words, 0)?,
        }),
        "run" => Some(Request::RunPolicy {
            key: policy(words, 0)?,
        }),
        _ => None,
    }
}

// make_policy HOURS TIME targets= RETENTION [add=]
fn make_policy(alloc: Global, words: Words<'_>) -> Option<Request> {
    let hours = short(words, 0)?;
    let at = short(words, 1)?;
    let retain = retain(words)?;
    Some(Request::CreatePolicy {
        targets: tags(alloc, words, "targets")?,
        hours,
        at,
        retain,
        add: tags(alloc, words, "add")?,
    })
}

// count=, days=, weeks=, months= or years=
fn retain(words: Words<'_>) -> Option<Retain> {
    for name in ["count", "days", "weeks", "months", "years"] {
        if let Some(number) = given_short(words, name)? {
            return retain_of(name, number);
        }
    }
    None
}

fn retain_of(name: &str, number: u32) -> Option<Retain> {
    match name {
        "count" => Some(Retain::Count(number)),
        "days" => Some(Retain::Days(number)),
        "weeks" => Some(Retain::Weeks(number)),
        "months" => Some(Retain::Months(number)),
        "years" => Some(Retain::Years(number)),
        _ => None,
    }
}
