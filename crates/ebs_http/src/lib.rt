//! HTTP/1.1 messages (RFC 9112) out of a stream of bytes, in whatever pieces it comes.
#![tactic(auto)]

mod fields;
mod framer;
mod headers;
mod laws;
mod length;
mod message;
mod parse;
mod received;
mod state;
mod stream;

pub use framer::Framer;
pub use headers::{Header, Headers};
pub use laws::{bad_stays, framing, no_proper_prefix, one_split};
pub use message::{BadKind, Message, Step};
pub use stream::{Framed, messages_of};
