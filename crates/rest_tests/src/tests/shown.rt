// What a call asks, as a text.
use super::shown_rules::shown_rule;
use super::*;
use std::fmt::Display;

/// Two values with the mark between them. One proof serves each pair.
pub fn pasted<A: Display + Drop, B: Display + Drop>(
    alloc: Global,
    first: A,
    mark: &str,
    second: B,
) -> Result<String, AllocError> {
    format!(in alloc; "{first}{mark}{second}")
}

/// What a call asks, or what else is told of a message: the name of the bad member where there is one.
pub fn shown(alloc: Global, outcome: &Result<Call, Failure>) -> Result<String, AllocError> {
    match outcome {
        Ok(call) => asked(alloc, &call.request),
        Err(failure) => String::from_str(alloc, refused(failure)),
    }
}

fn refused(failure: &Failure) -> &str {
    match failure {
        Failure::Memory => "out of memory",
        Failure::Refused(Refusal::BadParameter(name)) => name.as_str(),
        Failure::Refused(Refusal::NoSuchCall) => "no such call",
        Failure::Refused(_) => "another refusal",
    }
}

fn asked(alloc: Global, request: &Request) -> Result<String, AllocError> {
    match request {
        Request::StartSnapshot { client_token, .. } => start(alloc, client_token),
        Request::DeleteSnapshot { key } => of_row(alloc, "delete", key),
        Request::UnlockSnapshot { key } => of_row(alloc, "unlock", key),
        Request::ArchiveSnapshot { key } => of_row(alloc, "archive", key),
        Request::RestoreTier { key, days } => restored(alloc, key, *days),
        Request::ModifyPermission {
            key: _,
            add,
            add_all,
            remove,
            remove_all,
        } => shared(
            alloc,
            add.as_slice(),
            *add_all,
            remove.as_slice(),
            *remove_all,
        ),
        Request::LockSnapshot {
            key,
            mode,
            term,
            cool_hours,
        } => locked(alloc, key, *mode, *term, *cool_hours),
        Request::CreateVolume {
            origin,
            size,
            tags,
            client_token,
        } => created(alloc, *origin, *size, tags.as_slice().len(), client_token),
        Request::CreateSnapshot {
            key,
            description,
            tags,
        } => snapped(alloc, key, description, tags.as_slice().len()),
        Request::WriteVolumeBlock {
            key,
            index,
            bytes,
            ..
        } => written(alloc, key, *index, bytes.len()),
        Request::ReadVolumeBlock { key, index } => {
            pasted(alloc, of_volume(alloc, "read", key)?, " ", *index)
        }
        Request::DescribeVolume { key } => of_volume(alloc, "volume", key),
        Request::DeleteVolume { key } => of_volume(alloc, "delete volume", key),
        _ => listed(alloc, request),
    }
}

fn created(
    alloc: Global,
    origin: Option<SnapKey>,
    size: Option<u64>,
    tags: usize,
    client_token: &Option<Text>,
) -> Result<String, AllocError> {
    let front = pasted(
        alloc,
        origin_text(alloc, origin)?,
        " ",
        size_text(alloc, size)?,
    )?;
    let back = pasted(alloc, tags, " ", start(alloc, client_token)?)?;
    pasted(alloc, front, " ", back)
}

fn origin_text(alloc: Global, origin: Option<SnapKey>) -> Result<String, AllocError> {
    match origin {
        Some(key) => of_row(alloc, "of", &key),
        None => String::from_str(alloc, "empty"),
    }
}

fn size_text(alloc: Global, size: Option<u64>) -> Result<String, AllocError> {
    match size {
        Some(size) => pasted(alloc, size, "", ""),
        None => String::from_str(alloc, "-"),
    }
}

fn snapped(
    alloc: Global,
    key: &VolKey,
    description: &Option<Text>,
    tags: usize,
) -> Result<String, AllocError> {
    let front = of_volume(alloc, "snapshot of", key)?;
    let back = pasted(alloc, tags, " ", word(description))?;
    pasted(alloc, front, " ", back)
}

fn written(alloc: Global, key: &VolKey, index: u64, size: usize) -> Result<String, AllocError> {
    let front = of_volume(alloc, "write", key)?;
    pasted(alloc, front, " ", pasted(alloc, index, " ", size)?)
}

fn of_volume(alloc: Global, word: &str, key: &VolKey) -> Result<String, AllocError> {
    pasted(alloc, word, " ", key.number.number())
}

/// A text that may lack.
pub fn word(text: &Option<Text>) -> &str {
    match text {
        Some(text) => text.as_str(),
        None => "none",
    }
}

fn listed(alloc: Global, request: &Request) -> Result<String, AllocError> {
    match request {
        Request::GetSnapshotBlock { index, token, .. } => block(alloc, *index, token),
        Request::DescribeSnapshots { from, max } => page(alloc, "", &None, *max, u64::from(*from)),
        Request::ListSnapshotBlocks {
            key,
            page: token,
            max,
            start,
        } => page(
            alloc,
            numbers(alloc, key, key)?.as_str(),
            token,
            *max,
            *start,
        ),
        Request::ListChangedBlocks {
            first,
            second,
            page: token,
            max,
            start,
        } => page(
            alloc,
            numbers(alloc, first, second)?.as_str(),
            token,
            *max,
            *start,
        ),
        _ => shown_rule(alloc, request),
    }
}

fn start(alloc: Global, client_token: &Option<Text>) -> Result<String, AllocError> {
    match client_token {
        Some(token) => pasted(alloc, "a call", " with ", token.as_str()),
        None => String::from_str(alloc, "a call"),
    }
}

fn block(alloc: Global, index: u64, token: &Text) -> Result<String, AllocError> {
    pasted(alloc, index, " ", token.as_str())
}

fn numbers(alloc: Global, first: &SnapKey, second: &SnapKey) -> Result<String, AllocError> {
    let first = pasted(alloc, first.number.number(), " ", second.number.number())?;
    pasted(alloc, first, " ", "")
}

fn page(
    alloc: Global,
    keys: &str,
    token: &Option<Text>,
    max: u32,
    start: u64,
) -> Result<String, AllocError> {
    let back = pasted(alloc, max, " ", start)?;
    pasted(alloc, pasted(alloc, keys, "", word(token))?, " ", back)
}

pub fn of_row(alloc: Global, word: &str, key: &SnapKey) -> Result<String, AllocError> {
    pasted(alloc, word, " ", key.number.number())
}

fn restored(alloc: Global, key: &SnapKey, days: Option<u32>) -> Result<String, AllocError> {
    let front = of_row(alloc, "restore", key)?;
    pasted(alloc, front, " ", number(alloc, days)?)
}

pub fn number(alloc: Global, number: Option<u32>) -> Result<String, AllocError> {
    match number {
        Some(number) => pasted(alloc, number, "", ""),
        None => String::from_str(alloc, "-"),
    }
}

fn shared(
    alloc: Global,
    add: &[Account],
    add_all: bool,
    remove: &[Account],
    remove_all: bool,
) -> Result<String, AllocError> {
    let add = accounts(alloc, add, add_all)?;
    let remove = accounts(alloc, remove, remove_all)?;
    pasted(alloc, add, "- ", remove)
}

fn accounts(alloc: Global, accounts: &[Account], all: bool) -> Result<String, AllocError> {
    let mut text = String::from_str(alloc, if all { "all" } else { "" })?;
    for account in accounts {
        let account = pasted(alloc, account.number(), " ", "")?;
        text.push_str(account.as_str())?;
    }
    Ok(text)
}

fn locked(
    alloc: Global,
    key: &SnapKey,
    mode: LockMode,
    term: Term,
    cool_hours: Option<u32>,
) -> Result<String, AllocError> {
    let mode = match mode {
        LockMode::Governance => "governance",
        LockMode::Compliance => "compliance",
    };
    let front = pasted(alloc, key.number.number(), " ", mode)?;
    let back = pasted(
        alloc,
        term_text(alloc, term)?,
        " ",
        number(alloc, cool_hours)?,
    )?;
    pasted(alloc, front, " ", back)
}

fn term_text(alloc: Global, term: Term) -> Result<String, AllocError> {
    match term {
        Term::Days(days) => pasted(alloc, "days", " ", days),
        Term::Date(date) => pasted(alloc, "date", " ", date.second),
    }
}
