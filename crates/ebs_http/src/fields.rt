// The lines of a head that isn't whole.
ghost use Rattle.std.specs.Prelude.{IfSome, IsTrue};
ghost use Rattle.ebs_http.specs.inner.Begun.{HasBegun};
ghost use Rattle.ebs_http.specs.inner.Parsing.{IsPartial, IsOpenAfter};

use crate::parse::MAX_HEAD_BYTES;
use httparse::Status;
use httparse::spans::{EMPTY_HEADER_SPAN, parse_headers_from};
use memchr::memrchr;

/// How many bytes the request line and the whole field lines of a partial head take, if the
/// request line has come.
pub fn lines_of_head(bytes: &[u8]) -> Option<usize>
    requires { IsPartial bytes.now }
    ensures { IfSome result (HasBegun bytes.now) }
{
    match memrchr(b'\n', bytes) {
        None => None,
        Some(place) => {
            // Empty lines before the request line have no space.
            if bytes[..place].contains(&b' ') {
                Some(place + 1)
            } else {
                None
            }
        }
    }
}

/// The same where some lines are known.
pub fn lines_after(bytes: &[u8], begun: usize) -> usize
    requires begun { HasBegun bytes.now begun }
    requires open { IsOpenAfter bytes.now begun }
    ensures { HasBegun bytes.now result }
{
    match memrchr(b'\n', &bytes[begun..]) {
        None => begun,
        Some(place) => begun + (place + 1),
    }
}

/// Whether what is behind the whole lines may go on, as far as it can be told at small cost.
pub fn is_open_after(bytes: &[u8], begun: usize) -> bool
    requires { HasBegun bytes.now begun }
    ensures { IsTrue result → IsOpenAfter bytes.now begun }
{
    let mut fields = [EMPTY_HEADER_SPAN; 64];
    match parse_headers_from(bytes, begun, &mut fields) {
        Ok(Status::Partial) => bytes.len() < MAX_HEAD_BYTES,
        _ => false,
    }
}
