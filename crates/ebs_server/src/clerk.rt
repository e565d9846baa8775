// Who answers the messages of a connection.

use crate::bell::Bell;
use ebs_desk::{Desk, Pass};
use ebs_disk_store::Promise;
use ebs_doors::Gate;
use ebs_http::Message;
use ebs_model::{Answer, Failure, Moment, Request};
use ebs_rest::Routes;
use ebs_session::Responder;
use ebs_world::Disk;
use std::sync::Wait;

/// A reader of calls at a desk. What it works on is the pass with which it calls there.
#[derive(Drop)]
pub struct Clerk<'a, R, S: Promise, D: Disk + Drop, G> {
    pub rt: &'a R,
    pub desk: &'a Desk<S, D>,
    pub routes: &'a Routes,
    pub gate: &'a G,
    pub bell: &'a Bell,
}

impl<R: Wait, S: Promise, D: Disk + Drop, G: Gate> Responder<Pass<S, D>> for Clerk<'_, R, S, D, G> {
    ghost use Rattle.std.specs.Prelude.{◌≡◌};
    ghost use Rattle.ebs_turns.specs.Known.{IsAt};
    ghost use Rattle.ebs_server.specs.Answers.{IsAnswered};

    ghost replies = { λ clerk pass message reading answer next after. (next ≡ clerk) × IsAnswered S.sound D.view clerk.desk.now.turns.board.shared.key.first.value pass.inner.seat.me.0 message reading answer after.inner.seat.me.0 };

    ghost ready = { λ clerk pass. IsAt clerk.desk.now.turns.board.shared clerk.desk.now.turns.passes pass.inner.seat };

    /// The desk's answer to the call that a message makes, the refusal of one that makes none, or want of memory.
    fn reply(&mut self, pass: &mut Pass<S, D>, message: Message, reading: Moment) -> Answer {
        match self.routes.read_call(message) {
            Ok(call) => {
                self.gate.before_turn();
                let changes = is_change(&call.request);
                let receipt = self
                    .desk
                    .call(self.rt, pass, call.account, reading, call.request);
                if changes && receipt.place.is_some() {
                    self.bell.ring(self.rt);
                }
                receipt.answer
            }
            Err(Failure::Refused(refusal)) => Answer::Refused(refusal),
            Err(Failure::Memory) => Answer::Memory,
        }
    }

    fn answered(&self) {
        self.gate.after_answer();
    }
}

// Whether the call changes something where it is accepted.
fn is_change(request: &Request) -> bool {
    !matches!(
        request,
        Request::ListSnapshotBlocks { .. }
            | Request::ListChangedBlocks { .. }
            | Request::GetSnapshotBlock { .. }
            | Request::DescribeSnapshot { .. }
            | Request::DescribeSnapshots { .. }
            | Request::ReadVolumeBlock { .. }
            | Request::DescribeVolume { .. }
            | Request::GetRule { .. }
            | Request::ListRules
            | Request::ListBin { .. }
            | Request::GetPolicy { .. }
    )
}
