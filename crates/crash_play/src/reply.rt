//! The answers that were written.
use std::alloc::{AllocError, Global};

/// An answer's status and body.
#[derive(Drop)]
pub struct Reply<'a> {
    pub status: u16,
    pub body: &'a [u8],
}

/// The answers in the bytes; None where these aren't whole answers.
pub fn replies<'a>(alloc: Global, bytes: &'a [u8]) -> Result<Option<Vec<Reply<'a>>>, AllocError> {
    let mut found = Vec::new(alloc);
    let mut rest = bytes;
    for _ in 0..bytes.len() {
        if rest.is_empty() {
            break;
        }
        let Some((reply, behind)) = first_reply(rest) else {
            return Ok(None);
        };
        found.push(reply)?;
        rest = behind;
    }
    Ok(Some(found))
}

fn first_reply(bytes: &[u8]) -> Option<(Reply<'_>, &[u8])> {
    let end = place_of(bytes, b"\r\n\r\n")?;
    let head = std::str::from_utf8(bytes.get(..end)?).ok()?;
    let status = head.get(9..12)?.parse::<u16>().ok()?;
    let length = field(head, "Content-Length: ")?.parse::<usize>().ok()?;
    let behind = bytes.get(end..)?.get(4..)?;
    let reply = Reply {
        status,
        body: behind.get(..length)?,
    };
    Some((reply, behind.get(length..)?))
}

// What stands behind the name in the line that begins with it.
fn field<'a>(head: &'a str, name: &str) -> Option<&'a str> {
    for line in head.split("\r\n") {
        if let Some(value) = line.strip_prefix(name) {
            return Some(value);
        }
    }
    None
}

fn place_of(bytes: &[u8], wanted: &[u8]) -> Option<usize> {
    (0..bytes.len()).find(|at| bytes.get(*at..).unwrap_or(&[]).starts_with(wanted))
}
