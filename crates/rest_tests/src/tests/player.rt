// Plays cases that are given as a text.
//
// A blank line stands between two groups. A group is a comment where there is one, a request, and the cases, each of
// which is put in the place of the request's `@`, and what is told then behind ` => `. A bar ends that where it ends
// in a blank or is empty. A request is a method, a target, a body where there is one, and behind ` ## ` its header
// fields, which are the account alone where there are none. `COUNT WORD` between two backquotes is the word so many
// times, with the number, from 0, in the place of its `*`.
use super::shown::{pasted, shown};
use ebs_http::{Header, Headers, Message};
use ebs_model::{Bytes, Call, Failure};
use ebs_rest::Routes;
use std::alloc::{AllocError, Global};
use std::process::Abort;
use std::test::Fail;

const ACCOUNT: &str = "x-ebs-account: 000000000001";

/// What stands before the mark, and behind it.
fn parted<'x>(text: &'x str, mark: &str) -> (&'x str, &'x str) {
    match text.split_once(mark) {
        Some(parts) => parts,
        None => (text, ""),
    }
}

fn headers(alloc: Global, fields: &str) -> Result<Headers, AllocError> {
    let mut headers = Vec::new(alloc);
    for field in fields.split("; ") {
        let (name, value) = parted(field, ": ");
        headers.push(Header {
            name: Bytes::from_slice(alloc, name.as_bytes())?,
            value: Bytes::from_slice(alloc, value.as_bytes())?,
        })?;
    }
    Ok(Headers::from_vec(headers))
}

fn message(
    alloc: Global,
    method: &str,
    target: &[u8],
    body: &str,
    fields: &str,
) -> Result<Message, AllocError> {
    Ok(Message {
        method: Bytes::from_slice(alloc, method.as_bytes())?,
        target: Bytes::from_slice(alloc, target)?,
        headers: headers(alloc, fields)?,
        body: Bytes::from_slice(alloc, body.as_bytes())?,
    })
}

fn message_of(alloc: Global, request: &str) -> Result<Message, AllocError> {
    let (line, fields) = match request.split_once(" ## ") {
        Some(parts) => parts,
        None => (request, ACCOUNT),
    };
    let (method, rest) = parted(line, " ");
    let (target, body) = parted(rest, " ");
    message(alloc, method, target.as_bytes(), body, fields)
}

// Without a contract, so that no proof of a test takes the call apart.
fn read(routes: &Routes, message: Message) -> Result<Call, Failure> {
    routes.read_call(message)
}

// Here alone a call is held and dropped.
fn told(alloc: Global, routes: &Routes, message: Message) -> Result<String, AllocError> {
    let outcome = read(routes, message);
    let told = shown(alloc, &outcome);
    drop(outcome);
    told
}

fn numbered(alloc: Global, word: &str, number: u32) -> Result<String, AllocError> {
    match word.split_once("*") {
        Some((before, after)) => pasted(alloc, before, "", pasted(alloc, number, "", after)?),
        None => String::from_str(alloc, word),
    }
}

/// Adds the word so many times.
fn repeat(alloc: Global, text: &mut String, word: &str, count: u32) -> Result<(), AllocError> {
    for number in 0..count {
        let word = numbered(alloc, word, number)?;
        text.push_str(word.as_str())?;
    }
    Ok(())
}

fn add(alloc: Global, text: &mut String, piece: &str, repeats: bool) -> Result<(), AllocError> {
    if !repeats {
        return text.push_str(piece);
    }
    let (count, word) = parted(piece, " ");
    repeat(alloc, text, word, count.parse::<u32>().unwrap_or(0))
}

fn whole(alloc: Global, text: &str) -> Result<String, AllocError> {
    let mut whole = String::new(alloc);
    let mut repeats = false;
    for piece in text.split("`") {
        add(alloc, &mut whole, piece, repeats)?;
        repeats = !repeats;
    }
    Ok(whole)
}

/// The request with the case in its place.
fn request_of(alloc: Global, request: &str, case: &str) -> Result<String, AllocError> {
    let (before, after) = parted(request, "@");
    let text = pasted(alloc, before, case, after)?;
    whole(alloc, text.as_str())
}

fn wanted_of(alloc: Global, wanted: &str) -> Result<String, AllocError> {
    whole(alloc, wanted.strip_suffix("|").unwrap_or(wanted))
}

fn assert_told(rt: &impl Abort, line: &str, found: &str, wanted: &str) {
    assert_eq!(rt; found, wanted, "{line}");
}

fn assert_case(
    rt: &impl Abort,
    alloc: Global,
    routes: &Routes,
    request: &str,
    line: &str,
) -> Result<(), AllocError> {
    let (case, wanted) = parted(line, " => ");
    let request = request_of(alloc, request, case)?;
    let wanted = wanted_of(alloc, wanted)?;
    let message = message_of(alloc, request.as_str())?;
    let told = told(alloc, routes, message)?;
    assert_told(rt, line, told.as_str(), wanted.as_str());
    Ok(())
}

/// How many cases a group has.
fn played(
    rt: &impl Abort,
    alloc: Global,
    routes: &Routes,
    group: (&str, &str),
) -> Result<u64, AllocError> {
    let mut count: u64 = 0;
    for line in group.1.lines() {
        assert_case(rt, alloc, routes, group.0, line)?;
        count = count.saturating_add(1);
    }
    Ok(count)
}

/// The request of a group, and its cases.
fn group_of(text: &str) -> (&str, &str) {
    let (first, rest) = parted(text, "\n");
    if first.starts_with("//") {
        parted(rest, "\n")
    } else {
        (first, rest)
    }
}

/// How many cases there are in all.
fn all_played(
    rt: &impl Abort,
    alloc: Global,
    routes: &Routes,
    groups: &str,
) -> Result<u64, AllocError> {
    let mut count: u64 = 0;
    for group in groups.split("\n\n") {
        let more = played(rt, alloc, routes, group_of(group))?;
        count = count.saturating_add(more);
    }
    Ok(count)
}

/// So many cases are told as they say.
pub fn check(rt: &impl Abort, alloc: Global, cases: &str, count: u64) -> Result<(), Fail> {
    let routes = Routes::new(alloc)?;
    let found = all_played(rt, alloc, &routes, cases);
    drop(routes);
    assert_eq!(rt; found?, count);
    Ok(())
}

/// What is told of a GET of a target that is no text.
pub fn check_target(
    rt: &impl Abort,
    alloc: Global,
    target: &[u8],
    wanted: &str,
) -> Result<(), Fail> {
    let message = message(alloc, "GET", target, "", ACCOUNT)?;
    let routes = Routes::new(alloc)?;
    let told = told(alloc, &routes, message);
    drop(routes);
    assert_told(rt, "a target of other bytes", told?.as_str(), wanted);
    Ok(())
}
