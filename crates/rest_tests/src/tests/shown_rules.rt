// What a call on rules or the bin asks, as a text.
use super::shown::{number, of_row, pasted, word};
use super::shown_policies::shown_policy;
use super::*;

pub fn shown_rule(alloc: Global, request: &Request) -> Result<String, AllocError> {
    match request {
        Request::CreateRule {
            days,
            tags,
            description,
            delay,
        } => created(alloc, *days, tags.as_slice(), description, *delay),
        Request::UpdateRule {
            key,
            days,
            tags,
            description,
        } => updated(alloc, key, *days, tags, description),
        Request::GetRule { key } => of_rule(alloc, "rule", key),
        Request::DeleteRule { key } => of_rule(alloc, "delete rule", key),
        Request::ListRules => String::from_str(alloc, "rules"),
        Request::LockRule { key, delay } => {
            pasted(alloc, of_rule(alloc, "lock rule", key)?, " ", *delay)
        }
        Request::UnlockRule { key } => of_rule(alloc, "unlock rule", key),
        Request::ListBin { from, max } => pasted(
            alloc,
            pasted(alloc, "bin", " ", *max)?,
            " ",
            *from,
        ),
        Request::RestoreFromBin { key } => of_row(alloc, "recover", key),
        _ => shown_policy(alloc, request),
    }
}

fn of_rule(alloc: Global, word: &str, key: &RuleKey) -> Result<String, AllocError> {
    pasted(alloc, word, " ", key.number.number())
}

fn created(
    alloc: Global,
    days: u32,
    tags: &[RuleTag],
    description: &Option<Text>,
    delay: Option<u32>,
) -> Result<String, AllocError> {
    let front = pasted(alloc, days, " ", tags_text(alloc, tags)?)?;
    let back = pasted(alloc, word(description), " ", number(alloc, delay)?)?;
    pasted(alloc, front, " ", back)
}

fn updated(
    alloc: Global,
    key: &RuleKey,
    days: Option<u32>,
    tags: &Option<RuleTags>,
    description: &Option<Text>,
) -> Result<String, AllocError> {
    let days = number(alloc, days)?;
    let tags = match tags {
        Some(tags) => tags_text(alloc, tags.as_slice())?,
        None => String::from_str(alloc, "-")?,
    };
    let front = pasted(alloc, key.number.number(), " ", days)?;
    let back = pasted(alloc, tags, " ", word(description))?;
    pasted(alloc, front, " ", back)
}

fn tags_text(alloc: Global, tags: &[RuleTag]) -> Result<String, AllocError> {
    let mut text = String::from_str(alloc, "[")?;
    for tag in tags {
        let tag = tag_text(alloc, tag)?;
        text.push_str(tag.as_str())?;
    }
    text.push_str("]")?;
    Ok(text)
}

fn tag_text(alloc: Global, tag: &RuleTag) -> Result<String, AllocError> {
    match &tag.value {
        Some(value) => {
            let value = pasted(alloc, value.as_str(), ";", "")?;
            pasted(alloc, tag.key.as_str(), "=", value)
        }
        None => pasted(alloc, tag.key.as_str(), ";", ""),
    }
}
