// The requests of the calls on the Recycle Bin.
use crate::words::{Words, given_short, rule, rule_tags, short, snap};
use ebs_model::{Request, RuleTags};
use std::alloc::Global;

pub fn bin_request(alloc: Global, verb: &str, words: Words<'_>) -> Option<Request> {
    match verb {
        "make_rule" => make_rule(alloc, words),
        "rule" => Some(Request::GetRule {
            key: rule(words, 0)?,
        }),
        "change_rule" => change_rule(alloc, words),
        "drop_rule" => Some(Request::DeleteRule {
            key: rule(words, 0)?,
        }),
        "rules" => Some(Request::ListRules),
        "lock_rule" => Some(Request::LockRule {
            key: rule(words, 0)?,
            delay: short(words, 1)?,
        }),
        "unlock_rule" => Some(Request::UnlockRule {
            key: rule(words, 0)?,
        }),
        "bin" => Some(Request::ListBin {
            from: short(words, 0)?,
            max: short(words, 1)?,
        }),
        "recover" => Some(Request::RestoreFromBin {
            key: snap(words, 0)?,
        }),
        _ => None,
    }
}

// make_rule DAYS [tags=] [delay=]
fn make_rule(alloc: Global, words: Words<'_>) -> Option<Request> {
    let days = short(words, 0)?;
    let delay = given_short(words, "delay")?;
    Some(Request::CreateRule {
        days,
        tags: rule_tags(alloc, words)?,
        description: None,
        delay,
    })
}

// change_rule RULE [days=] [tags=]
fn change_rule(alloc: Global, words: Words<'_>) -> Option<Request> {
    let key = rule(words, 0)?;
    let days = given_short(words, "days")?;
    Some(Request::UpdateRule {
        key,
        days,
        tags: given_tags(alloc, words)?,
        description: None,
    })
}

fn given_tags(alloc: Global, words: Words<'_>) -> Option<Option<RuleTags>> {
    match words.named("tags") {
        Some(_) => Some(Some(rule_tags(alloc, words)?)),
        None => Some(None),
    }
}
