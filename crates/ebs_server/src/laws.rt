// What the turns of a connection are.
ghost use Rattle.std.specs.Prelude.{◌≡◌, ◌++◌, List};
ghost use Rattle.ebs_exchanges.specs.Exchanges.{Exchange};
ghost use Rattle.ebs_session.specs.Session.{Chain};
ghost use Rattle.ebs_recovery.specs.inner.Fits.{Seen};
ghost use Rattle.ebs_turns.specs.declared.line.Turn.{Turn};
ghost use Rattle.ebs_turns.specs.declared.seats.View.{View};
ghost use Rattle.ebs_turns.specs.Line.{turns_of};
ghost use Rattle.ebs_desk.specs.declared.item.Item.{Item};
ghost use Rattle.ebs_desk.specs.declared.shelf.Shelf.{Shelf};
ghost use Rattle.ebs_server.specs.Answers.{answers};
ghost use Rattle.ebs_server.specs.Taken.{TookEach};

use ebs_disk_store::Promise;
use ebs_world::Disk;

/// The turns that the pass of a connection takes are those of its exchanges, in their order and each once.
pub fn turns_are_taken<S: Promise, D: Disk>()
    ensures { (first : Shelf Seen D) (v w : View (Shelf Seen D) (Item D)) (exchanges : List Exchange) → Chain (answers S.sound D.view first) tt v exchanges tt w
        → (turns : List (Turn (Item D))) × (turns_of v.number w.seen ≡ turns_of v.number v.seen ++ turns) × TookEach v.number exchanges turns }
{}
