// What a framer gives.
use crate::headers::Headers;
use ebs_model::Bytes;

/// A request with its body (RFC 9112, section 2.1).
#[derive(Debug, Drop)]
pub struct Message {
    pub method: Bytes,
    pub target: Bytes,
    pub headers: Headers,
    pub body: Bytes,
}

/// Why no message can begin at these bytes, whatever follows them.
#[derive(Clone, Copy, PartialEq, Eq, Debug)]
pub enum BadKind {
    /// Nothing that follows makes a request head, or the head has more than 64 fields.
    BadHead,
    /// 65536 bytes have come without a whole head.
    TooLongHead,
    /// The head states a body of this many bytes, more than 4194304.
    BodyTooLong(u64),
    /// Content-Length isn't 1 to 10 decimal digits or is repeated with another value, or there is
    /// a Transfer-Encoding.
    BadLength,
}

/// What a framer finds at the front of the bytes that wait.
#[derive(Debug, Drop)]
pub enum Step {
    /// A whole message, which is taken out.
    Message(Message),
    /// No whole message yet.
    More,
    /// No message, whatever follows.
    Bad(BadKind),
    /// Want of memory: nothing was taken, and the call may be made again.
    Memory,
}
