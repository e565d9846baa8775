// The head of a request in the bytes so far.
ghost use Rattle.std.specs.Prelude.{◌≡◌, ◌*◌, ◌≤◌, length, IfOk, OnErr, List};
ghost use Rattle.httparse.specs.Spans.{RequestOverflows, RequestExceeds};
ghost use Rattle.httparse.specs.declared.spans.HeaderSpan.{HeaderSpan};
ghost use Rattle.ebs_http.specs.inner.Parsing.{IsParse};

use httparse::spans::{EMPTY_HEADER_SPAN, HeaderSpan, RequestSpans, parse_request};
use httparse::{Error, Status};
use std::alloc::{AllocError, Global};

pub const MAX_HEAD_BYTES: usize = 65536;

const MAX_FIELDS: usize = 64;

pub enum Parse {
    Whole(RequestSpans),
    Partial,
    Bad,
    TooLong,
}

/// Parses a head, with room for as many fields as the bytes can have.
fn parse_roomy(front: &[u8], fields: &mut [HeaderSpan]) -> Parse
    requires short { length front.now ≤ 65536 }
    // A field takes three bytes at least.
    requires room { length front.now ≤ 3 * length fields.old }
    ensures { IsParse front.now fields.new result }
{
    match parse_request(front, fields) {
        Ok(Status::Complete(spans)) => {
            if spans.headers <= MAX_FIELDS {
                Parse::Whole(spans)
            } else {
                Parse::Bad
            }
        }
        Ok(Status::Partial) => {
            if front.len() < MAX_HEAD_BYTES {
                Parse::Partial
            } else {
                Parse::TooLong
            }
        }
        Err(_) => Parse::Bad,
    }
}

/// Parses a head, with room for as many fields as a message may have.
pub fn parse_head(
    alloc: Global,
    front: &[u8],
    fields: &mut [HeaderSpan; 64],
) -> Result<Parse, AllocError>
    requires short { length front.now ≤ 65536 }
    ensures parse { IfOk result (IsParse front.now fields.new) }
    ensures crowded { OnErr result (RequestExceeds 64 front.now) }
{
    match parse_request(front, fields) {
        Ok(Status::Complete(spans)) => Ok(Parse::Whole(spans)),
        Ok(Status::Partial) => {
            if front.len() < MAX_HEAD_BYTES {
                Ok(Parse::Partial)
            } else {
                Ok(Parse::TooLong)
            }
        }
        Err(Error::TooManyHeaders) => parse_crowded(alloc, front),
        Err(_) => Ok(Parse::Bad),
    }
}

fn empty_spans(alloc: Global, count: usize) -> Result<Vec<HeaderSpan>, AllocError>
    ensures { IfOk result (λ spans. length spans.items ≡ count) }
{
    Vec::from_elem(alloc, EMPTY_HEADER_SPAN, count)
}

/// Parses a head of which more than 64 fields have begun: it's bad once it is whole.
fn parse_crowded(alloc: Global, front: &[u8]) -> Result<Parse, AllocError>
    requires short { length front.now ≤ 65536 }
    requires crowded { RequestOverflows 64 front.now }
    ensures { IfOk result (λ parse. (fields : List HeaderSpan) → IsParse front.now fields parse) }
{
    let mut fields = empty_spans(alloc, front.len() / 3 + 1)?;
    let parse = parse_roomy(front, fields.as_mut_slice());
    Ok(without_spans(front, &fields, parse))
}

/// The same parse, which has no spans since it isn't whole.
fn without_spans(front: &[u8], fields: &Vec<HeaderSpan>, parse: Parse) -> Parse
    requires crowded { RequestOverflows 64 front.now }
    requires parse { IsParse front.now fields.now.items parse }
    ensures { (fields : List HeaderSpan) → IsParse front.now fields result }
{
    match parse {
        Parse::Whole(_) => unreachable!(),
        Parse::Partial => Parse::Partial,
        Parse::Bad => Parse::Bad,
        Parse::TooLong => Parse::TooLong,
    }
}
