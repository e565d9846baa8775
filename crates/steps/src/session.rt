// Sessions as they are written.
use std::alloc::Global;

/// The lines of a session, a step each.
#[derive(Drop)]
pub struct Session<'a> {
    pub title: &'a str,
    pub lines: Vec<&'a str>,
}

/// The sessions of a text, or the number of the first line that is none of a session, or for which there is no memory.
pub fn read_sessions(alloc: Global, text: &str) -> Result<Vec<Session<'_>>, usize> {
    let mut sessions = Vec::new(alloc);
    add_lines(alloc, &mut sessions, text)?;
    Ok(sessions)
}

fn add_lines<'a>(
    alloc: Global,
    sessions: &mut Vec<Session<'a>>,
    text: &'a str,
) -> Result<(), usize> {
    for (number, line) in text.lines().enumerate() {
        if add(alloc, sessions, line).is_none() {
            return Err(number.saturating_add(1));
        }
    }
    Ok(())
}

fn add<'a>(alloc: Global, sessions: &mut Vec<Session<'a>>, line: &'a str) -> Option<()> {
    if line.is_empty() || line.starts_with("#") {
        return Some(());
    }
    if let Some(title) = line.strip_prefix("session ") {
        return begin(alloc, sessions, title);
    }
    sessions.last_mut()?.lines.push(line).ok()
}

fn begin<'a>(alloc: Global, sessions: &mut Vec<Session<'a>>, title: &'a str) -> Option<()> {
    let session = Session {
        title,
        lines: Vec::new(alloc),
    };
    sessions.push(session).ok()
}
