// The states of a framer.
ghost use Rattle.std.specs.Prelude.{◌≡◌, None};
ghost use Rattle.ebs_http.specs.inner.Begun.{HasBegun};
ghost use Rattle.ebs_http.specs.inner.Parsing.{IsPartial};
ghost use Rattle.ebs_http.specs.inner.Received.{HasReceived};
ghost use Rattle.ebs_http.specs.inner.States.{bad_of, IsStateOf, IsTransition};
ghost use Rattle.ebs_http.specs.declared.state.State.{State};

use crate::fields::{is_open_after, lines_after, lines_of_head};
use crate::message::{BadKind, Message, Step};
use crate::received::{HeadOutcome, ReceivedHead, receive_head};
use ebs_model::Bytes;
use std::alloc::Global;

/// What a framer waits for.
#[derive(Drop)]
pub enum State {
    Head,
    /// The rest of a head, whose request line and whole field lines take this many bytes.
    Fields(usize),
    Body(ReceivedHead),
    Bad(BadKind),
}

/// The next state, how many bytes are taken on the way, and what is found.
#[derive(Drop)]
pub struct Transition {
    pub state: State,
    pub taken: usize,
    pub step: Step,
}

impl Transition {
    fn stay(state: State, step: Step) -> Transition
        ensures { result ≡ record { state = state; taken = 0; step = step } }
    {
        Transition {
            state,
            taken: 0,
            step,
        }
    }
}

fn read_body(alloc: Global, bytes: &[u8], received: ReceivedHead) -> Transition
    requires { HasReceived bytes.now received }
    ensures { IsTransition bytes.now (State.Body received) result }
{
    let rest = &bytes[received.head_len..];
    if rest.len() < received.body_len {
        return Transition::stay(State::Body(received), Step::More);
    }
    match Bytes::from_slice(alloc, &rest[..received.body_len]) {
        Err(_) => Transition::stay(State::Body(received), Step::Memory),
        Ok(body) => Transition {
            state: State::Head,
            taken: received.head_len + received.body_len,
            step: Step::Message(Message {
                method: received.method,
                target: received.target,
                headers: received.headers,
                body,
            }),
        },
    }
}

fn partial_state(bytes: &[u8]) -> State
    requires { IsPartial bytes.now }
    ensures state { IsStateOf bytes.now result }
    ensures good { bad_of result ≡ None }
{
    match lines_of_head(bytes) {
        Some(begun) => State::Fields(begun),
        None => State::Head,
    }
}

fn read_head(alloc: Global, bytes: &[u8]) -> Transition
    ensures { IsTransition bytes.now State.Head result }
{
    match receive_head(alloc, bytes) {
        Ok(HeadOutcome::Received(received)) => read_body(alloc, bytes, received),
        Ok(HeadOutcome::Partial) => Transition::stay(partial_state(bytes), Step::More),
        Ok(HeadOutcome::Bad(kind)) => Transition::stay(State::Bad(kind), Step::Bad(kind)),
        Err(_) => Transition::stay(State::Head, Step::Memory),
    }
}

/// Reads only what is behind the whole lines, as long as that may go on.
fn read_fields(alloc: Global, bytes: &[u8], begun: usize) -> Transition
    requires { HasBegun bytes.now begun }
    ensures { IsTransition bytes.now (State.Fields begun) result }
{
    if is_open_after(bytes, begun) {
        Transition::stay(State::Fields(lines_after(bytes, begun)), Step::More)
    } else {
        read_head(alloc, bytes)
    }
}

/// What follows on a state over the bytes that wait.
pub fn advance(alloc: Global, bytes: &[u8], state: State) -> Transition
    requires { IsStateOf bytes.now state }
    ensures { IsTransition bytes.now state result }
{
    match state {
        State::Head => read_head(alloc, bytes),
        State::Fields(begun) => read_fields(alloc, bytes, begun),
        State::Body(received) => read_body(alloc, bytes, received),
        State::Bad(kind) => Transition::stay(State::Bad(kind), Step::Bad(kind)),
    }
}
