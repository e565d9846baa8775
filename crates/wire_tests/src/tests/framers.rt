// A framer that is fed by and by, its longest body, and the fields of a message.
use ebs_http::*;
use std::alloc::{AllocError, Global};
use std::test::Fail;

fn message_of(step: Step) -> Option<Message> {
    match step {
        Step::Message(message) => Some(message),
        Step::More | Step::Bad(_) | Step::Memory => None,
    }
}

fn feed(framer: &mut Framer, text: &[u8], size: usize) -> Result<Option<Message>, AllocError> {
    for piece in text.chunks(size.max(1)) {
        framer.feed(piece)?;
        if let Some(message) = message_of(framer.next()) {
            return Ok(Some(message));
        }
    }
    Ok(None)
}

/// The message that comes in pieces of one size, and how many bytes wait behind it.
fn fed_in(alloc: Global, text: &[u8], size: usize) -> Result<Option<(Message, u64)>, AllocError> {
    let mut framer = Framer::new(alloc);
    let found = feed(&mut framer, text, size);
    let rest = framer.rest();
    drop(framer);
    match found? {
        Some(message) => Ok(Some((message, rest))),
        None => Ok(None),
    }
}

const LONGEST: &[u8] = b"PUT / HTTP/1.1\r\nContent-Length: 4194304\r\n\r\n";

fn push_body(text: &mut Vec<u8>) -> Result<(), AllocError> {
    text.extend_from_slice(LONGEST)?;
    for place in 0..4194304u32 {
        text.push((place % 251) as u8)?;
    }
    Ok(())
}

fn is_body(message: &Message, text: &[u8]) -> bool {
    message.body.len() == 4194304 && text.ends_with(message.body.as_slice())
}

/// Whether the message comes whole in pieces of one size, with nothing behind it.
fn body_so(alloc: Global, text: &[u8], size: usize) -> bool {
    match fed_in(alloc, text, size) {
        Ok(Some((message, rest))) => {
            let so = rest == 0 && is_body(&message, text);
            drop(message);
            so
        }
        Ok(None) | Err(_) => false,
    }
}

fn is_longest(alloc: Global, text: &mut Vec<u8>) -> bool {
    push_body(text).is_ok()
        && body_so(alloc, text.as_slice(), 1)
        && body_so(alloc, text.as_slice(), 65536)
}

#[test]
fn longest_body(rt: HostRuntime) {
    let mut text = Vec::new(rt.alloc());
    let so = is_longest(rt.alloc(), &mut text);
    drop(text);
    assert!(rt; so);
}

fn is_first(headers: &Headers, name: &str, value: &[u8]) -> bool {
    match headers.find(name) {
        Some(header) => header.value.as_slice() == value,
        None => false,
    }
}

fn has_headers(headers: &Headers) -> bool {
    is_first(headers, "a", b"1")
        && headers.contains("B")
        && !headers.contains("c")
        && headers.len() == 3
        && !headers.is_empty()
}

/// Whether they are as many when they were taken apart.
fn come_back(headers: Headers) -> bool {
    let again = Headers::from_vec(headers.into_vec());
    let so = again.len() == 3;
    drop(again);
    so
}

#[test]
fn headers_by_name(rt: HostRuntime) -> Result<(), Fail> {
    let found = fed_in(rt.alloc(), b"GET / HTTP/1.1\nA: 1\nb: 2\na: 3\n\n", 9)?;
    let (message, _) = found.expect(&rt, "a message");
    assert!(rt; has_headers(&message.headers));
    assert!(rt; come_back(message.headers));
    Ok(())
}

fn is_send<T: Send + Drop>(value: T) {
    drop(value);
}

#[test]
fn framers_move_to_threads(rt: HostRuntime) {
    is_send(Framer::new(rt.alloc()));
}
