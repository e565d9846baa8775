// A whole stream.
ghost use Rattle.std.specs.Prelude.{◌≡◌, ℕ, List, length, IfOk, OnOk, MatchOption};
ghost use Rattle.std.specs.List.{flat_map};
ghost use Rattle.ebs_http.specs.Messages.{HasNoMessage, Stands, MayGoOn, Reads, Splits};

use crate::framer::Framer;
use crate::message::{BadKind, Message, Step};
use std::alloc::{AllocError, Global};

/// The messages of a stream, the number of bytes behind them, and why no message begins there.
#[derive(Debug, Drop)]
pub struct Framed {
    pub messages: Vec<Message>,
    pub rest: u64,
    pub bad: Option<BadKind>,
}

/// Appends each message that is whole.
fn drain(framer: &mut Framer, messages: &mut Vec<Message>) -> Result<Option<BadKind>, AllocError>
    ensures reads { OnOk result ((stream : List ℕ) → Reads stream messages.old.items framer.old.bytes
        → Reads stream messages.new.items framer.new.bytes) }
    ensures none { OnOk result (HasNoMessage framer.new.bytes) }
    ensures bad { IfOk result (λ bad. MatchOption bad (MayGoOn framer.new.bytes) (λ kind. Stands kind framer.new.bytes)) }
{
    loop {
        match framer.next() {
            Step::Message(message) => messages.push(message)?,
            Step::More => return Ok(None),
            Step::Bad(kind) => return Ok(Some(kind)),
            Step::Memory => return Err(AllocError),
        }
    }
}

/// The messages of the stream that comes in these pieces, which are those of the whole stream
/// however it is cut.
pub fn messages_of(alloc: Global, pieces: &[Vec<u8>]) -> Result<Framed, AllocError>
    ensures { IfOk result (λ framed. (rest : List ℕ)
        × Splits (flat_map (λ piece. piece.items) pieces.now) framed.messages.items rest
        × (framed.rest ≡ length rest)
        × MatchOption framed.bad (MayGoOn rest) (λ kind. Stands kind rest)) }
{
    let mut framer = Framer::new(alloc);
    let mut messages = Vec::new(alloc);
    for piece in pieces {
        framer.feed(piece.as_slice())?;
        drain(&mut framer, &mut messages)?;
    }
    let bad = drain(&mut framer, &mut messages)?;
    Ok(Framed {
        messages,
        rest: framer.rest(),
        bad,
    })
}
