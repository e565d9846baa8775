// A head that has come whole, kept while the body comes in.
ghost use Rattle.std.specs.Prelude.{◌≡◌, ◌≤◌, length, take, map, All, IfOk, OnErr};
ghost use Rattle.httparse.specs.Spans.{IsHeaderWithin};
ghost use Rattle.ebs_http.specs.inner.Parsing.{IsParse};
ghost use Rattle.ebs_http.specs.inner.Received.{header_at, IsWholeOutcome, IsOutcome};
ghost use Rattle.ebs_http.specs.inner.Waiting.{TakesMemory};
ghost use Rattle.ebs_http.specs.declared.parse.Parse.{Parse};

use crate::headers::{Header, Headers};
use crate::length::body_length;
use crate::message::BadKind;
use crate::parse::{MAX_HEAD_BYTES, Parse, parse_head};
use ebs_model::Bytes;
use httparse::spans::{EMPTY_HEADER_SPAN, HeaderSpan, RequestSpans};
use std::alloc::{AllocError, Global};

pub const MAX_BODY_BYTES: u64 = 4194304;

/// A whole head, and how many bytes it takes and its body will take.
#[derive(Drop)]
pub struct ReceivedHead {
    pub method: Bytes,
    pub target: Bytes,
    pub headers: Headers,
    pub head_len: usize,
    pub body_len: usize,
}

#[derive(Drop)]
pub enum HeadOutcome {
    Received(ReceivedHead),
    Partial,
    Bad(BadKind),
}

fn header_at(alloc: Global, front: &[u8], span: &HeaderSpan) -> Result<Header, AllocError>
    requires within { IsHeaderWithin (length front.now) span.now }
    ensures { IfOk result (λ header. header ≡ header_at front.now span.now) }
{
    Ok(Header {
        name: Bytes::from_slice(alloc, span.name.of(front))?,
        value: Bytes::from_slice(alloc, span.value.of(front))?,
    })
}

fn headers_at(alloc: Global, front: &[u8], spans: &[HeaderSpan]) -> Result<Headers, AllocError>
    requires within { All (IsHeaderWithin (length front.now)) spans.now }
    ensures { IfOk result (λ headers. headers ≡ map (header_at front.now) spans.now) }
{
    let mut headers = Vec::with_capacity(alloc, spans.len())?;
    for span in spans {
        headers.push(header_at(alloc, front, span)?)?;
    }
    Ok(Headers::from_vec(headers))
}

/// What a whole head at the front of the bytes states.
fn read_whole(
    alloc: Global,
    front: &[u8],
    fields: &[HeaderSpan],
    spans: &RequestSpans,
) -> Result<HeadOutcome, AllocError>
    requires short { length front.now ≤ 65536 }
    requires head { IsParse front.now fields.now (Parse.Whole spans.now) }
    ensures { IfOk result (IsWholeOutcome front.now) }
{
    let headers = headers_at(alloc, front, &fields[..spans.headers])?;
    match body_length(&headers) {
        None => Ok(HeadOutcome::Bad(BadKind::BadLength)),
        Some(body_len) => {
            if body_len > MAX_BODY_BYTES {
                return Ok(HeadOutcome::Bad(BadKind::BodyTooLong(body_len)));
            }
            Ok(HeadOutcome::Received(ReceivedHead {
                method: Bytes::from_slice(alloc, spans.method.of(front))?,
                target: Bytes::from_slice(alloc, spans.path.of(front))?,
                headers,
                head_len: spans.len,
                body_len: body_len as usize,
            }))
        }
    }
}

/// The bytes in which a head must end.
fn front_of(bytes: &[u8]) -> &[u8]
    ensures { result.now ≡ take 65536 bytes.now }
{
    if bytes.len() < MAX_HEAD_BYTES {
        bytes
    } else {
        &bytes[..MAX_HEAD_BYTES]
    }
}

/// Reads the head at the front of the bytes.
pub fn receive_head(alloc: Global, bytes: &[u8]) -> Result<HeadOutcome, AllocError>
    ensures outcome { IfOk result (IsOutcome bytes.now) }
    ensures wanted { OnErr result (TakesMemory bytes.now) }
{
    let front = front_of(bytes);
    let mut fields = [EMPTY_HEADER_SPAN; 64];
    match parse_head(alloc, front, &mut fields)? {
        Parse::Whole(spans) => read_whole(alloc, front, &fields, &spans),
        Parse::Partial => Ok(HeadOutcome::Partial),
        Parse::Bad => Ok(HeadOutcome::Bad(BadKind::BadHead)),
        Parse::TooLong => Ok(HeadOutcome::Bad(BadKind::TooLongHead)),
    }
}
