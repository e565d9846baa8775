// What a call on lifecycle policies asks, as a text.
use super::shown::pasted;
use super::*;

pub fn shown_policy(alloc: Global, request: &Request) -> Result<String, AllocError> {
    match request {
        Request::CreatePolicy {
            targets,
            hours,
            at,
            retain,
            add,
        } => created(
            alloc,
            targets.as_slice(),
            *hours,
            *at,
            *retain,
            add.as_slice(),
        ),
        Request::GetPolicy { key } => of_policy(alloc, "policy", key),
        Request::DeletePolicy { key } => of_policy(alloc, "delete policy", key),
        Request::RunPolicy { key } => of_policy(alloc, "run policy", key),
        _ => String::from_str(alloc, "a call"),
    }
}

fn of_policy(alloc: Global, word: &str, key: &PolicyKey) -> Result<String, AllocError> {
    pasted(alloc, word, " ", key.number.number())
}

fn created(
    alloc: Global,
    targets: &[Tag],
    hours: u32,
    at: u32,
    retain: Retain,
    add: &[Tag],
) -> Result<String, AllocError> {
    let targets = tags_text(alloc, targets)?;
    let front = pasted(alloc, targets, " ", pasted(alloc, hours, " ", at)?)?;
    let retain = retain_text(alloc, retain)?;
    let back = pasted(alloc, retain, " ", tags_text(alloc, add)?)?;
    pasted(alloc, front, " ", back)
}

fn retain_text(alloc: Global, retain: Retain) -> Result<String, AllocError> {
    let (count, unit) = match retain {
        Retain::Count(count) => (count, "snapshots"),
        Retain::Days(days) => (days, "days"),
        Retain::Weeks(weeks) => (weeks, "weeks"),
        Retain::Months(months) => (months, "months"),
        Retain::Years(years) => (years, "years"),
    };
    pasted(alloc, count, " ", unit)
}

fn tags_text(alloc: Global, tags: &[Tag]) -> Result<String, AllocError> {
    let mut text = String::from_str(alloc, "[")?;
    for tag in tags {
        let tag = tag_text(alloc, tag)?;
        text.push_str(tag.as_str())?;
    }
    text.push_str("]")?;
    Ok(text)
}

fn tag_text(alloc: Global, tag: &Tag) -> Result<String, AllocError> {
    let value = pasted(alloc, tag.value.as_str(), ";", "")?;
    pasted(alloc, tag.key.as_str(), "=", value)
}
