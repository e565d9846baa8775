// What a session comes to, beside what is written of it.
use crate::catalog::follow;
use crate::session::Session;
use crate::step::{Step, read_step};
use ebs_catalog::Catalog;
use std::alloc::{AllocError, Global};

/// The first difference from what is written, if there is one.
pub fn play(alloc: Global, session: &Session<'_>) -> Result<Option<String>, AllocError> {
    let mut catalog = Catalog::new(alloc);
    for line in session.lines.as_slice() {
        if let Some(difference) = play_line(alloc, &mut catalog, line)? {
            return Ok(Some(difference));
        }
    }
    Ok(None)
}

fn play_line(
    alloc: Global,
    catalog: &mut Catalog,
    line: &str,
) -> Result<Option<String>, AllocError> {
    let Some(step) = read_step(line) else {
        return said(alloc, line, "is no step");
    };
    match repeated(alloc, catalog, &step)? {
        Some(found) => compared(alloc, found.as_str(), step.wanted, line),
        None => said(alloc, line, "is no call"),
    }
}

fn said(alloc: Global, line: &str, what: &str) -> Result<Option<String>, AllocError> {
    Ok(Some(format!(in alloc; "`{line}` {what}")?))
}

fn compared(
    alloc: Global,
    found: &str,
    wanted: &str,
    line: &str,
) -> Result<Option<String>, AllocError> {
    if found == wanted {
        return Ok(None);
    }
    Ok(Some(format!(in alloc; "{found} at `{line}`")?))
}

// What is answered the last time.
fn repeated(
    alloc: Global,
    catalog: &mut Catalog,
    step: &Step<'_>,
) -> Result<Option<String>, AllocError> {
    let mut found = None;
    for _ in 0..step.count {
        found = follow(alloc, catalog, step)?;
    }
    Ok(found)
}
