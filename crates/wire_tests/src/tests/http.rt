// Streams cut at each byte, and each kind of bad.
use ebs_http::*;
use ebs_model::Bytes;
use std::alloc::{AllocError, Global};
use std::process::Abort;

fn push_text(out: &mut String, bytes: &Bytes, end: char) -> Result<(), AllocError> {
    let text = str::from_utf8(bytes.as_slice()).unwrap_or("?");
    out.push_str(text)?;
    out.push(end)
}

fn push_header(out: &mut String, header: &Header) -> Result<(), AllocError> {
    push_text(out, &header.name, '=')?;
    push_text(out, &header.value, '\n')
}

fn push_headers(out: &mut String, headers: &[Header]) -> Result<(), AllocError> {
    for header in headers {
        push_header(out, header)?;
    }
    Ok(())
}

/// The message as text: a line for its start, one for each field, and one for its body.
fn push_message(out: &mut String, message: &Message) -> Result<(), AllocError> {
    push_text(out, &message.method, ' ')?;
    push_text(out, &message.target, '\n')?;
    push_headers(out, message.headers.as_slice())?;
    push_text(out, &message.body, '\n')
}

fn push_messages(out: &mut String, messages: &[Message]) -> Result<(), AllocError> {
    for message in messages {
        push_message(out, message)?;
    }
    Ok(())
}

fn push_framed(out: &mut String, framed: &Framed) -> Result<(), AllocError> {
    push_messages(out, framed.messages.as_slice())?;
    let (rest, bad) = (framed.rest, framed.bad);
    write!(out, "{rest} {bad:?}")
}

/// What stands in the pieces.
fn framed_of(alloc: Global, pieces: Vec<Vec<u8>>) -> Result<Framed, AllocError> {
    let framed = messages_of(alloc, pieces.as_slice());
    drop(pieces);
    framed
}

/// Whether the text of what stands there is this.
fn lists_as(alloc: Global, framed: &Framed, wanted: &str) -> bool {
    let mut out = String::new(alloc);
    let so = push_framed(&mut out, framed).is_ok() && out.as_str() == wanted;
    drop(out);
    so
}

/// Whether the messages of the pieces, and what is behind them, are this.
fn is_listed(alloc: Global, pieces: Vec<Vec<u8>>, wanted: &str) -> bool {
    match framed_of(alloc, pieces) {
        Ok(framed) => {
            let so = lists_as(alloc, &framed, wanted);
            drop(framed);
            so
        }
        Err(_) => false,
    }
}

fn push_piece(pieces: &mut Vec<Vec<u8>>, alloc: Global, piece: &[u8]) -> Result<(), AllocError> {
    let piece = Vec::from_slice(alloc, piece)?;
    Ok(pieces.push(piece)?)
}

/// The text in two pieces.
fn cut_at(alloc: Global, text: &[u8], place: usize) -> Result<Vec<Vec<u8>>, AllocError> {
    let (front, back) = text.split_at(place.min(text.len()));
    let mut pieces = Vec::new(alloc);
    push_piece(&mut pieces, alloc, front)?;
    push_piece(&mut pieces, alloc, back)?;
    Ok(pieces)
}

/// The text in pieces of one size.
fn cut_in(alloc: Global, text: &[u8], size: usize) -> Result<Vec<Vec<u8>>, AllocError> {
    let mut pieces = Vec::new(alloc);
    for piece in text.chunks(size.max(1)) {
        push_piece(&mut pieces, alloc, piece)?;
    }
    Ok(pieces)
}

const START: &str =
    "POST /snapshots HTTP/1.1\r\nHost: ebs\r\nx-ebs-account: 000000000001\r\nContent-Length: 16\r\n\r\n{\"VolumeSize\":1}";

const WHOLE: [(&str, &str); 8] = [
    (
        START,
        "POST /snapshots\nHost=ebs\nx-ebs-account=000000000001\nContent-Length=16\n{\"VolumeSize\":1}\n0 None",
    ),
    (
        "GET /a HTTP/1.1\r\nHost: ebs\r\n\r\nPUT /b HTTP/1.1\r\nContent-Length: 3\r\n\r\nxyzGET /c?d=e HTTP/1.0\r\n\r\n",
        "GET /a\nHost=ebs\n\nPUT /b\nContent-Length=3\nxyz\nGET /c?d=e\n\n0 None",
    ),
    (
        "PUT /s/0 HTTP/1.1\r\nHost: ebs\r\nUser-Agent: Boto3/1.34 md/Botocore#1.34\r\nAuthorization: AWS4-HMAC-SHA256 Credential=a, Signature=b\r\nExpect: 100-continue\r\nContent-Length: 2\r\n\r\n\r\n",
        "PUT /s/0\nHost=ebs\nUser-Agent=Boto3/1.34 md/Botocore#1.34\nAuthorization=AWS4-HMAC-SHA256 Credential=a, Signature=b\nExpect=100-continue\nContent-Length=2\n\r\n\n0 None",
    ),
    (
        "GET /a HTTP/1.1\nContent-Length: 1\n\nb",
        "GET /a\nContent-Length=1\nb\n0 None",
    ),
    ("\r\n\n\r\nGET / HTTP/1.1\r\n\r\n\r\n", "GET /\n\n2 None"),
    (
        "GET / HTTP/1.1\r\ncOnTeNt-LeNgTh: 0000000001\r\nX: \t a b \t\r\n\r\nc",
        "GET /\ncOnTeNt-LeNgTh=0000000001\nX=a b\nc\n0 None",
    ),
    (
        "GET / HTTP/1.1\r\nContent-Length: 16\r\ncontent-length: 16\r\n\r\n0123456789abcdefG",
        "GET /\nContent-Length=16\ncontent-length=16\n0123456789abcdef\n1 None",
    ),
    (
        "GET / HTTP/1.1\r\nContent-Length: 4194304\r\n\r\n",
        "43 None",
    ),
];

fn cut_so(alloc: Global, text: &[u8], place: usize, wanted: &str) -> bool {
    match cut_at(alloc, text, place) {
        Ok(pieces) => is_listed(alloc, pieces, wanted),
        Err(_) => false,
    }
}

fn cuts_so(alloc: Global, text: &[u8], wanted: &str) -> bool {
    for place in 0..=text.len() {
        if !cut_so(alloc, text, place, wanted) {
            return false;
        }
    }
    true
}

fn bytes_so(alloc: Global, text: &[u8], wanted: &str) -> bool {
    match cut_in(alloc, text, 1) {
        Ok(pieces) => is_listed(alloc, pieces, wanted),
        Err(_) => false,
    }
}

fn assert_whole(rt: &impl Abort, alloc: Global, rows: &[(&str, &str)]) {
    for (text, wanted) in rows {
        assert!(rt; cuts_so(alloc, text.as_bytes(), wanted));
        assert!(rt; bytes_so(alloc, text.as_bytes(), wanted));
    }
}

#[test]
fn messages_however_cut(rt: HostRuntime) {
    assert_whole(&rt, rt.alloc(), &WHOLE);
}

/// A message, then a second one with these fields and the bytes behind them.
fn second(alloc: Global, line: &str, count: usize, end: &str) -> Result<Vec<u8>, AllocError> {
    let mut text = Vec::new(alloc);
    text.extend_from_slice(b"GET /first HTTP/1.1\r\n\r\nGET / HTTP/1.1\r\n")?;
    for _ in 0..count {
        text.extend_from_slice(line.as_bytes())?;
    }
    text.extend_from_slice(end.as_bytes())?;
    Ok(text)
}

/// Whether as many messages stand there, the next one begins at this place, and it is bad in this way.
fn is_kind(alloc: Global, framed: &Framed, length: usize, wanted: &str) -> bool {
    let (messages, rest, bad) = (framed.messages.len(), framed.rest, framed.bad);
    let place = (length as u64).saturating_sub(rest);
    match format!(in alloc; "{messages} {place} {bad:?}") {
        Ok(found) => {
            let so = found.as_str() == wanted;
            drop(found);
            so
        }
        Err(_) => false,
    }
}

/// Whether this is so of the text in pieces of one size.
fn framed_so(alloc: Global, text: &[u8], pieces: Vec<Vec<u8>>, wanted: &str) -> bool {
    match framed_of(alloc, pieces) {
        Ok(framed) => {
            let so = is_kind(alloc, &framed, text.len(), wanted);
            drop(framed);
            so
        }
        Err(_) => false,
    }
}

fn size_so(alloc: Global, text: &[u8], size: usize, wanted: &str) -> bool {
    match cut_in(alloc, text, size) {
        Ok(pieces) => framed_so(alloc, text, pieces, wanted),
        Err(_) => false,
    }
}

fn sizes_so(alloc: Global, text: &[u8], sizes: &[usize], wanted: &str) -> bool {
    for size in sizes {
        if !size_so(alloc, text, *size, wanted) {
            return false;
        }
    }
    true
}

/// Whether it is the same in pieces of each size. The text ends here.
fn kinds_so(
    alloc: Global,
    made: Result<Vec<u8>, AllocError>,
    sizes: &[usize],
    wanted: &str,
) -> bool {
    match made {
        Ok(text) => {
            let so = sizes_so(alloc, text.as_slice(), sizes, wanted);
            drop(text);
            so
        }
        Err(_) => false,
    }
}

/// Lines, how often they stand, what is behind them, and what is found.
const BAD: [(&str, usize, &str, &str); 20] = [
    (
        "Transfer-Encoding: chunked\r\n",
        1,
        "\r\n0\r\n\r\n",
        "1 23 Some(BadLength)",
    ),
    (
        "Content-Length: 5\r\nContent-Length: 6\r\n",
        1,
        "\r\nabcdef",
        "1 23 Some(BadLength)",
    ),
    (
        "Content-Length: 16\r\nContent-Length: 016\r\n",
        1,
        "\r\n",
        "1 23 Some(BadLength)",
    ),
    ("Content-Length: -1\r\n", 1, "\r\n", "1 23 Some(BadLength)"),
    ("Content-Length:\r\n", 1, "\r\n", "1 23 Some(BadLength)"),
    (
        "Content-Length: 00000000001\r\n",
        1,
        "\r\na",
        "1 23 Some(BadLength)",
    ),
    (
        "Content-Length: 4194305\r\n",
        1,
        "\r\n",
        "1 23 Some(BodyTooLong(4194305))",
    ),
    ("Content-Length: 4194304\r\n", 1, "\r\n", "1 23 None"),
    ("Content-Length: 4194303\r\n", 1, "\r\n", "1 23 None"),
    ("Content-Length: 0\r\n", 1, "\r\n", "2 60 None"),
    ("a: b\r\n", 63, "\r\n", "2 419 None"),
    ("a: b\r\n", 65, "\r\n", "1 23 Some(BadHead)"),
    ("a: b\r\n", 65, "", "1 23 None"),
    ("a: b\r\n", 64, "\r\n", "2 425 None"),
    (" folded\r\n", 1, "", "1 23 Some(BadHead)"),
    ("a: b\r\n", 2, "c d", "1 23 Some(BadHead)"),
    ("a: b\r\n", 70, "c:\u{1}", "1 23 Some(BadHead)"),
    ("a:\n", 21840, "", "1 23 Some(TooLongHead)"),
    ("a:\n", 21839, "", "1 23 None"),
    ("", 0, "\r\nget / HTTP/2.0\r\n", "2 41 Some(BadHead)"),
];

fn assert_bad(rt: &impl Abort, alloc: Global, rows: &[(&str, usize, &str, &str)]) {
    for (line, count, end, wanted) in rows {
        let text = second(alloc, line, *count, end);
        assert!(rt; kinds_so(alloc, text, &[1, 7, 65536], wanted));
    }
}

#[test]
fn bad_messages(rt: HostRuntime) {
    assert_bad(&rt, rt.alloc(), &BAD);
}

/// A head that ends inside its target, which takes this many bytes with what is before it.
fn endless_target(alloc: Global, size: usize) -> Result<Vec<u8>, AllocError> {
    let mut text = Vec::new(alloc);
    text.extend_from_slice(b"GET /")?;
    text.resize(size.max(5), b'a')?;
    Ok(text)
}

fn assert_targets(rt: &impl Abort, alloc: Global, rows: &[(usize, &str)]) {
    for (length, wanted) in rows {
        let text = endless_target(alloc, *length);
        assert!(rt; kinds_so(alloc, text, &[4096, 65536], wanted));
    }
}

#[test]
fn targets_that_do_not_end(rt: HostRuntime) {
    let rows = [(65535, "0 0 None"), (65536, "0 0 Some(TooLongHead)")];
    assert_targets(&rt, rt.alloc(), &rows);
}

/// A whole head of this many bytes.
fn wide_head(alloc: Global, size: usize) -> Result<Vec<u8>, AllocError> {
    let mut text = Vec::new(alloc);
    text.extend_from_slice(b"GET / HTTP/1.1\r\na:")?;
    text.resize(size.saturating_sub(4).max(18), b'b')?;
    text.extend_from_slice(b"\r\n\r\n")?;
    Ok(text)
}

fn assert_heads(rt: &impl Abort, alloc: Global, rows: &[(usize, &str)]) {
    for (length, wanted) in rows {
        let text = wide_head(alloc, *length);
        assert!(rt; kinds_so(alloc, text, &[4096, 65536, 100000], wanted));
    }
}

#[test]
fn heads_at_the_limit(rt: HostRuntime) {
    let rows = [
        (65535, "1 65535 None"),
        (65536, "1 65536 None"),
        (65537, "0 0 Some(TooLongHead)"),
    ];
    assert_heads(&rt, rt.alloc(), &rows);
}
