// A session: messages in, answers out.
ghost use Rattle.std.specs.Prelude.{◌≡◌, ◌⊎◌, ◌<◌, ℕ, List, [], length, Some};
ghost use Rattle.ebs_model.specs.Quotas.{Rose};
ghost use Rattle.ebs_http.specs.Messages.{Splits};
ghost use Rattle.ebs_http.specs.declared.message.Message.{Message};
ghost use Rattle.ebs_session.specs.Session.{Chain, Session};

use crate::end::End;
use crate::pieces::{Taken, take_piece};
use crate::responder::Responder;
use crate::serving::answer_waiting;
use ebs_exchanges::answers_fall;
use ebs_http::{Framer, bad_stays, framing, one_split};
use ebs_world::{Clock, Sink, Source};
use std::alloc::Global;

/// The size of the room for a piece of the input, in bytes.
const ROOM: usize = 65536;

/// Answers the messages of the input in their order, each at one reading of the clock. It takes at most `limit` bytes.
pub fn session<W, R: Responder<W>, I: Source, O: Sink, K: Clock>(
    alloc: Global,
    limit: u64,
    responder: &mut R,
    world: &mut W,
    input: &mut I,
    output: &mut O,
    clock: &mut K,
) -> End
    requires ready { R.ready responder.old world.old }
    ensures ready { R.ready responder.new world.new }
    ensures session { Session limit result (λ exchanges. Chain R.replies responder.old world.old exchanges responder.new world.new)
        (I.inlet input.old).left (I.inlet input.new).left
        (O.outlet output.old).written (O.outlet output.new).written (K.ticks clock.old).readings (K.ticks clock.new).readings }
    ensures input { result ≡ End.InputFailed → Rose (I.inlet input.old).faults (I.inlet input.new).faults }
    ensures input_quiet { (result ≡ End.InputFailed → ⊥) → (I.inlet input.new).faults ≡ (I.inlet input.old).faults }
    ensures output { result ≡ End.OutputFailed → Rose (O.outlet output.old).faults (O.outlet output.new).faults }
    ensures output_quiet { (result ≡ End.OutputFailed → ⊥) → (O.outlet output.new).faults ≡ (O.outlet output.old).faults }

    // Whole messages are answered where no count rose, unless memory ran out.
    ensures complete { (text : List ℕ) (messages : List Message) → (I.inlet input.old).left ≡ Some text → Splits text messages []
        → length text < limit
        → (Rose (I.inlet input.old).faults (I.inlet input.new).faults → ⊥)
        → (Rose (O.outlet output.old).faults (O.outlet output.new).faults → ⊥)
        → (result ≡ End.Done) ⊎ (result ≡ End.Memory) }
{
    framing();
    one_split();
    answer_pieces(alloc, limit, responder, world, input, output, clock)
}

/// Answers the messages of the input, piece by piece.
fn answer_pieces<W, R: Responder<W>, I: Source, O: Sink, K: Clock>(
    alloc: Global,
    limit: u64,
    responder: &mut R,
    world: &mut W,
    input: &mut I,
    output: &mut O,
    clock: &mut K,
) -> End
    requires ready { R.ready responder.old world.old }
    ensures ready { R.ready responder.new world.new }
    ensures session { Session limit result (λ exchanges. Chain R.replies responder.old world.old exchanges responder.new world.new)
        (I.inlet input.old).left (I.inlet input.new).left
        (O.outlet output.old).written (O.outlet output.new).written (K.ticks clock.old).readings (K.ticks clock.new).readings }
    ensures input { result ≡ End.InputFailed → Rose (I.inlet input.old).faults (I.inlet input.new).faults }
    ensures input_quiet { (result ≡ End.InputFailed → ⊥) → (I.inlet input.new).faults ≡ (I.inlet input.old).faults }
    ensures output { result ≡ End.OutputFailed → Rose (O.outlet output.old).faults (O.outlet output.new).faults }
    ensures output_quiet { (result ≡ End.OutputFailed → ⊥) → (O.outlet output.new).faults ≡ (O.outlet output.old).faults }
{
    framing();
    bad_stays();
    answers_fall();
    let Ok(mut room) = vec![in alloc; 0u8; ROOM] else {
        return End::Memory;
    };
    let mut framer = Framer::new(alloc);
    let mut left = limit;
    'piece: loop {
        let count = match take_piece(input, room.as_mut_slice(), left) {
            Taken::Piece(count) => count,
            Taken::End if framer.rest() == 0 => return End::Done,
            Taken::End => return End::Cut(framer.rest()),
            Taken::Failed => return End::InputFailed,
            Taken::Limit => return End::Limit,
        };
        left -= count as u64;
        let Ok(()) = framer.feed(&room[..count]) else {
            return End::Memory;
        };
        match answer_waiting(
            alloc,
            limit - left,
            responder,
            world,
            &mut framer,
            output,
            clock,
        ) {
            Ok(()) => {}
            Err(end) => return end,
        }
    }
}
