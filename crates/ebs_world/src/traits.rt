// What a session needs of the outside.
ghost use Rattle.std.specs.Prelude.{◌≡◌, OnOk, OnErr};
ghost use Rattle.std.specs.Io.{ReadsAtMost};
ghost use Rattle.std.specs.Io.KnownBytes.{ReadConsumes, Appends};
ghost use Rattle.ebs_world.specs.Ends.{Timeline, Ticks, Inlet, Outlet, AppendsFront, HasCause};

use crate::faults::Failed;
use ebs_model::Moment;

/// Bytes that come in.
pub trait Source {
    /// The bytes that are left, where it tells them, and its count of faults.
    ghost inlet: { Self → Inlet };

    /// Puts the next bytes into the front of `room`, and answers how many. None into a room that isn't empty is the
    /// end of the input. After `Failed` nothing was taken.
    fn take(&mut self, room: &mut [u8]) -> Result<usize, Failed>
        ensures bound { ReadsAtMost result room.new }
        ensures bytes { ReadConsumes (inlet self.old).left (inlet self.new).left result room.new }
        ensures cause { HasCause (inlet self.old).faults (inlet self.new).faults result }
        ensures quiet { OnOk result ((inlet self.new).faults ≡ (inlet self.old).faults) };
}

/// Bytes that go out.
pub trait Sink {
    /// The bytes so far, where it tells them, and its count of faults.
    ghost outlet: { Self → Outlet };

    /// Appends the piece. After `Failed` some front of it was appended, maybe none or all of it.
    fn put(&mut self, piece: &[u8]) -> Result<(), Failed>
        ensures ok { OnOk result (Appends (outlet self.old).written (outlet self.new).written piece.now) }
        ensures err { OnErr result (AppendsFront (outlet self.old).written (outlet self.new).written piece.now) }
        ensures cause { HasCause (outlet self.old).faults (outlet self.new).faults result }
        ensures quiet { OnOk result ((outlet self.new).faults ≡ (outlet self.old).faults) };
}

/// A clock, which never fails.
pub trait Clock {
    /// The readings that it will give, where it tells them.
    ghost ticks: { Self → Timeline };

    /// The present moment: the first of the readings, which goes unless it is the last.
    fn now(&mut self) -> Moment
        ensures { Ticks (ticks self.old).readings (ticks self.new).readings result.second };
}
