// What gives connections.
ghost use Rattle.ebs_doors.specs.Doors.{Door, Answered};

use crate::conn::Conn;
use ebs_world::{Sink, Source};

/// What a listener answers.
#[derive(Drop)]
pub enum Accepted<C> {
    Connection(C),
    /// No connection is left, and none will come.
    Closed,
    /// The listener failed, which its count of faults shows.
    Failed,
}

/// Gives connections, one after another. They can be sent to threads, so that a listener may be used by any.
pub trait Listener {
    type Input: Source + Drop + Send;

    type Output: Sink + Drop + Send;

    /// Whether it has answered `Closed`, and its count of faults.
    ghost door: { Self → Door };

    /// The next connection, which may be waited for.
    fn accept(&mut self) -> Accepted<Conn<Self::Input, Self::Output>>
        ensures { Answered (door self.old) (door self.new) result };
}
