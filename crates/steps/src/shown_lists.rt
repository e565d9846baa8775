// Lists and rows in a few words.
use ebs_model::{AnyKey, BlockEntry, ChangedToken, RuleView, SnapView};
use std::alloc::{AllocError, Global};

pub fn shown_blocks(alloc: Global, entries: &[BlockEntry]) -> Result<String, AllocError> {
    let mut text = String::from_str(alloc, "blocks")?;
    add_blocks(alloc, &mut text, entries)?;
    Ok(text)
}

fn add_blocks(alloc: Global, text: &mut String, entries: &[BlockEntry]) -> Result<(), AllocError> {
    for entry in entries {
        add_number(alloc, text, entry.index)?;
    }
    Ok(())
}

fn add_number(alloc: Global, text: &mut String, number: u32) -> Result<(), AllocError> {
    let number = format!(in alloc; " {number}")?;
    text.push_str(number.as_str())
}

/// After each index a 1 where the first snapshot has a block there, and a 2 where the second does.
pub fn shown_changes(alloc: Global, entries: &[ChangedToken]) -> Result<String, AllocError> {
    let mut text = String::from_str(alloc, "changes")?;
    add_changes(alloc, &mut text, entries)?;
    Ok(text)
}

fn add_changes(
    alloc: Global,
    text: &mut String,
    entries: &[ChangedToken],
) -> Result<(), AllocError> {
    for entry in entries {
        add_number(alloc, text, entry.index)?;
        text.push_str(sides(entry.first.is_some(), entry.second.is_some()))?;
    }
    Ok(())
}

fn sides(is_first: bool, is_second: bool) -> &'static str {
    match (is_first, is_second) {
        (true, true) => ":12",
        (true, false) => ":1",
        (false, true) => ":2",
        (false, false) => ":",
    }
}

/// Its number, size and status, and for its owner how many accounts it is shared with and whether it is public.
pub fn shown_row(alloc: Global, row: &SnapView) -> Result<String, AllocError> {
    let number = row.key.number.number();
    let size = row.size;
    let status = row.status;
    match &row.permission {
        Some(permission) => {
            let count = permission.accounts.len();
            let public = permission.public;
            format!(in alloc; "{number} of {size} {status:?} own {count} {public}")
        }
        None => format!(in alloc; "{number} of {size} {status:?} read"),
    }
}

pub fn shown_rows(
    alloc: Global,
    rows: &[SnapView],
    next: Option<u32>,
) -> Result<String, AllocError> {
    let mut text = String::from_str(alloc, "rows")?;
    add_rows(alloc, &mut text, rows)?;
    add_next(alloc, &mut text, next)?;
    Ok(text)
}

fn add_rows(alloc: Global, text: &mut String, rows: &[SnapView]) -> Result<(), AllocError> {
    for row in rows {
        add_number(alloc, text, row.key.number.number())?;
    }
    Ok(())
}

fn add_next(alloc: Global, text: &mut String, next: Option<u32>) -> Result<(), AllocError> {
    let Some(next) = next else {
        return Ok(());
    };
    text.push_str(" next")?;
    add_number(alloc, text, next)
}

pub fn shown_rules(alloc: Global, rows: &[RuleView]) -> Result<String, AllocError> {
    let mut text = String::from_str(alloc, "rules")?;
    add_rules(alloc, &mut text, rows)?;
    Ok(text)
}

fn add_rules(alloc: Global, text: &mut String, rows: &[RuleView]) -> Result<(), AllocError> {
    for row in rows {
        add_number(alloc, text, row.key.number.number())?;
    }
    Ok(())
}

/// What a run of a policy made, and what it deleted.
pub fn shown_run(alloc: Global, made: &[AnyKey], deleted: &[AnyKey]) -> Result<String, AllocError> {
    let mut text = String::from_str(alloc, "ran")?;
    add_ids(alloc, &mut text, " made", made)?;
    add_ids(alloc, &mut text, " deleted", deleted)?;
    Ok(text)
}

fn add_ids(alloc: Global, text: &mut String, what: &str, ids: &[AnyKey]) -> Result<(), AllocError> {
    if !ids.is_empty() {
        text.push_str(what)?;
    }
    for id in ids {
        if let AnyKey::Snap(key) = id {
            add_number(alloc, text, key.number.number())?;
        }
    }
    Ok(())
}
