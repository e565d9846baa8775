// A connection, from its first message to its end.
ghost use Rattle.std.specs.Prelude.{◌≡◌, ◌⊎◌, ◌<◌, ◌^◌, ℕ, List, [], length, Some};
ghost use Rattle.ebs_http.specs.Messages.{Splits};
ghost use Rattle.ebs_http.specs.declared.message.Message.{Message};
ghost use Rattle.ebs_model.specs.Quotas.{Rose};
ghost use Rattle.ebs_session.specs.Session.{Session, Chain};
ghost use Rattle.ebs_turns.specs.Known.{IsAt, IsSame};
ghost use Rattle.ebs_server.specs.Answers.{answers};

use crate::bell::Bell;
use crate::clerk::Clerk;
use ebs_desk::{Desk, Pass};
use ebs_disk_store::Promise;
use ebs_doors::{Conn, Gate};
use ebs_rest::Routes;
use ebs_session::{End, session};
use ebs_world::{Clock, Disk, Sink, Source};
use std::alloc::Global;
use std::sync::Wait;

/// The most bytes that are taken of a connection.
const MOST_BYTES: u64 = 1 << 40;

/// Answers the messages of a connection in their order, each at one reading of the clock and in a turn of its own at the
/// desk. The gate is passed before each turn and behind each answer that was written, and the bell is rung behind each accepted change.
pub fn serve_connection<R: Wait, S: Promise, D: Disk + Drop, I: Source, O: Sink, K: Clock, G: Gate>(
    rt: &R,
    alloc: Global,
    routes: &Routes,
    desk: &Desk<S, D>,
    pass: &mut Pass<S, D>,
    conn: &mut Conn<I, O>,
    clock: &mut K,
    gate: &G,
    bell: &Bell,
) -> End
    requires at { IsAt desk.now.turns.board.shared desk.now.turns.passes pass.old.inner.seat }
    ensures at { IsAt desk.now.turns.board.shared desk.now.turns.passes pass.new.inner.seat }
    ensures same { IsSame pass.old.inner.seat.me.0 pass.new.inner.seat.me.0 }
    ensures session { Session (2 ^ 40) result (λ exchanges. Chain (answers S.sound D.view desk.now.turns.board.shared.key.first.value) tt pass.old.inner.seat.me.0 exchanges tt pass.new.inner.seat.me.0)
        (I.inlet conn.old.input).left (I.inlet conn.new.input).left
        (O.outlet conn.old.output).written (O.outlet conn.new.output).written (K.ticks clock.old).readings (K.ticks clock.new).readings }
    ensures input { result ≡ End.InputFailed → Rose (I.inlet conn.old.input).faults (I.inlet conn.new.input).faults }
    ensures input_quiet { (result ≡ End.InputFailed → ⊥) → (I.inlet conn.new.input).faults ≡ (I.inlet conn.old.input).faults }
    ensures output { result ≡ End.OutputFailed → Rose (O.outlet conn.old.output).faults (O.outlet conn.new.output).faults }
    ensures output_quiet { (result ≡ End.OutputFailed → ⊥) → (O.outlet conn.new.output).faults ≡ (O.outlet conn.old.output).faults }

    // Whole messages are answered where no count rose, unless memory ran out.
    ensures complete { (text : List ℕ) (messages : List Message) → (I.inlet conn.old.input).left ≡ Some text → Splits text messages []
        → length text < 2 ^ 40
        → (Rose (I.inlet conn.old.input).faults (I.inlet conn.new.input).faults → ⊥)
        → (Rose (O.outlet conn.old.output).faults (O.outlet conn.new.output).faults → ⊥)
        → (result ≡ End.Done) ⊎ (result ≡ End.Memory) }
{
    let mut clerk = Clerk {
        rt,
        desk,
        routes,
        gate,
        bell,
    };
    session(
        alloc,
        MOST_BYTES,
        &mut clerk,
        pass,
        &mut conn.input,
        &mut conn.output,
        clock,
    )
}
