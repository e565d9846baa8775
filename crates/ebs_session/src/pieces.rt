// The input, piece by piece.
ghost use Rattle.std.specs.Prelude.{◌≡◌, ◌<◌, length};
ghost use Rattle.ebs_model.specs.Quotas.{Rose};
ghost use Rattle.ebs_session.specs.inner.Progress.{Took};

use ebs_world::{Failed, Source};

/// What came into a room.
#[derive(Clone, Copy, Debug, PartialEq, Eq)]
pub enum Taken {
    /// This many bytes, one at least.
    Piece(usize),
    /// The input is at its end.
    End,
    Failed,
    /// No more bytes may be taken.
    Limit,
}

/// Takes a piece of the input into the front of the room, of at most so many bytes.
pub fn take_piece<I: Source>(input: &mut I, room: &mut [u8], most: u64) -> Taken
    requires { 0 < length room.old }
    ensures took { Took result most (I.inlet input.old).left (I.inlet input.new).left room.new }
    ensures fault { result ≡ Taken.Failed → Rose (I.inlet input.old).faults (I.inlet input.new).faults }
    ensures quiet { (result ≡ Taken.Failed → ⊥) → (I.inlet input.new).faults ≡ (I.inlet input.old).faults }
{
    if most == 0 {
        return Taken::Limit;
    }
    let size = most.min(room.len() as u64) as usize;
    match input.take(&mut room[..size]) {
        Ok(0) => Taken::End,
        Ok(count) => Taken::Piece(count),
        Err(Failed) => Taken::Failed,
    }
}
