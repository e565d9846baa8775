// Messages out of a stream.
ghost use Rattle.std.specs.Prelude.{◌≡◌, ◌+◌, ◌<◌, ◌≤◌, ◌⊎◌, ◌++◌, [], length, drop, vec_capacity, Some, None, OnOk, OnErr};
ghost use Rattle.ebs_http.specs.inner.Waiting.{Waiting, Gives, TakesMemory, longest_message, roomiest};
ghost use Rattle.ebs_http.specs.declared.message.BadKind.{BadKind};
ghost use Rattle.ebs_http.specs.declared.message.Step.{Step};

use crate::message::Step;
use crate::parse::MAX_HEAD_BYTES;
use crate::received::MAX_BODY_BYTES;
use crate::state::{State, advance};
use std::alloc::{AllocError, Global};
use std::marker::Model;
use std::mem;

/// The bytes of the longest head and the longest body, and of a piece behind them.
const ROOM: usize = MAX_HEAD_BYTES + MAX_BODY_BYTES as usize + 65536;

/// Takes a stream in pieces and gives its messages.
///
/// It holds the bytes that were fed and not yet given. A head is at most 65536 bytes and 64 fields
/// long, and a body at most 4194304 bytes. The first `feed` takes room
/// for both, and for a piece of 65536 bytes behind them.
pub struct Framer {
    buffer: Vec<u8>,
    start: usize,
    state: State,
}

impl Model for Framer {
    ghost use Rattle.ebs_http.specs.inner.Waiting.{Waiting};

    ghost Value = { Waiting };

    ghost use Rattle.ebs_http.specs.inner.Framing.{waiting, IsSound};

    ghost view = { waiting };

    ghost invariant = { IsSound };
}

// Written out, since a derived one is opened in the proof of each caller.
impl Drop for Framer {
    fn drop(self) {
        let Framer {
            buffer,
            start: _,
            state,
        } = self;
        drop(buffer);
        drop(state);
    }
}

impl Framer {
    pub fn new(alloc: Global) -> Framer
        ensures { result ≡ record { bytes = []; bad = None } }
    {
        Framer {
            buffer: Vec::new(alloc),
            start: 0,
            state: State::Head,
        }
    }

    /// The number of bytes that wait.
    pub fn rest(&self) -> u64
        ensures { result ≡ length self.now.bytes }
    {
        (self.buffer.len() - self.start) as u64
    }

    /// Takes in the next piece of the stream. Where bytes wait the room is there, so it fails then
    /// only if more would wait than a message and a piece of 65536 bytes.
    pub fn feed(&mut self, piece: &[u8]) -> Result<(), AllocError>
        ensures ok { OnOk result (self.new ≡ record self.old { bytes = self.old.bytes ++ piece.now }) }
        ensures err { OnErr result (self.new ≡ self.old) }
        ensures wanted { OnErr result ((self.old.bytes ≡ []) ⊎ (roomiest < length self.old.bytes + length piece.now)) }
    {
        compact(&mut self.buffer, self.start);
        self.start = 0;
        take_room(&mut self.buffer)?;
        self.buffer.extend_from_slice(piece)?;
        Ok(())
    }

    /// Takes out the message at the front, if it is whole. After `Step::Bad` each later call gives
    /// the same.
    pub fn next(&mut self) -> Step
        ensures gives { Gives self.old self.new result }
        ensures for_ever { (kind : BadKind) → self.old.bad ≡ Some kind → result ≡ Step.Bad kind }
        ensures wanted { result ≡ Step.Memory → TakesMemory self.old.bytes }
        ensures short { result ≡ Step.More → length self.new.bytes < longest_message }
    {
        let alloc = *self.buffer.allocator();
        let state = mem::replace(&mut self.state, State::Head);
        let next = advance(alloc, &self.buffer[self.start..], state);
        self.state = next.state;
        self.start += next.taken;
        next.step
    }
}

/// Moves the bytes from `start` on to the front. What is kept is what waits. Where each `feed` is
/// followed by `next` until `Step::More`, a byte moves at most once.
fn compact(buffer: &mut Vec<u8>, start: usize)
    requires { start ≤ length buffer.old.items }
    ensures kept { buffer.new.items ≡ drop start buffer.old.items }
    ensures room { vec_capacity buffer.old ≤ vec_capacity buffer.new }
{
    if start == 0 {
        return;
    }
    let rest = buffer.len() - start;
    buffer.copy_within(start.., 0);
    buffer.truncate(rest);
}

/// Takes the room, if nothing waits.
fn take_room(buffer: &mut Vec<u8>) -> Result<(), AllocError>
    ensures same { buffer.new.items ≡ buffer.old.items }
    ensures room { vec_capacity buffer.old ≤ vec_capacity buffer.new }
    ensures taken { OnOk result (buffer.new.items ≡ [] → roomiest ≤ vec_capacity buffer.new) }
    ensures wanted { OnErr result (buffer.old.items ≡ []) }
{
    if buffer.is_empty() {
        buffer.reserve(ROOM)?;
    }
    Ok(())
}
