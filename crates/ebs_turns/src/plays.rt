// What each step on the table tells.
use crate::seats::{Place, View};
use crate::subject::Subject;
use atomic_table::{Join, Play, Split};

// A look at the next ticket.
pub(crate) struct LookAtTicket;

impl<T, I> Play<Place<T, I>, View<T, I>> for LookAtTicket {
    ghost use Rattle.ebs_turns.specs.Tells.{looked};

    ghost then = { looked };
}

pub(crate) struct TakeTicket;

impl<T, I> Play<Place<T, I>, View<T, I>> for TakeTicket {
    ghost use Rattle.ebs_turns.specs.Tells.{queued};

    ghost then = { queued };
}

// A look at the ticket that is served. Where it is the seat's own, the seat has the turn.
pub(crate) struct LookAtTurn;

impl<T: Subject<I>, I> Play<Place<T, I>, View<T, I>> for LookAtTurn {
    ghost use Rattle.ebs_turns.specs.Tells.{turned};

    ghost then = { turned T.follows };
}

// The line grows by what the value in hand was left with.
pub(crate) struct EndTurn;

impl<T, I> Play<Place<T, I>, View<T, I>> for EndTurn {
    ghost use Rattle.ebs_turns.specs.Tells.{ended};

    ghost then = { ended };
}

// A pass is counted, by the seat that is to be split.
pub(crate) struct CountPass;

impl<T, I> Play<Place<T, I>, View<T, I>> for CountPass {
    ghost use Rattle.ebs_turns.specs.Tells.{counted};

    ghost then = { counted };
}

pub(crate) struct UndoCount;

impl<T, I> Play<Place<T, I>, View<T, I>> for UndoCount {
    ghost use Rattle.ebs_turns.specs.Tells.{uncounted};

    ghost then = { uncounted };
}

// After two seats met: what their lines were to each other.
pub(crate) struct LookAtMet;

impl<T, I> Play<Place<T, I>, View<T, I>> for LookAtMet {
    ghost use Rattle.ebs_turns.specs.Tells.{told};

    ghost then = { told };
}

// A look at how many passes were made.
pub(crate) struct LookAtPasses;

impl<T, I> Play<Place<T, I>, View<T, I>> for LookAtPasses {
    ghost use Rattle.ebs_turns.specs.Tells.{viewed};

    ghost then = { viewed };
}

pub(crate) struct CutPass;

impl<T, I> Split<View<T, I>> for CutPass {
    ghost use Rattle.ebs_turns.specs.Tells.{split_left, split_right};

    ghost left = { split_left };

    ghost right = { split_right };
}

pub(crate) struct MeetPass;

impl<T, I> Join<View<T, I>> for MeetPass {
    ghost use Rattle.ebs_turns.specs.Tells.{joined, spent};

    ghost both = { joined };

    ghost spent = { spent };
}
