// A disk, by what a read gives and what a crash may leave.
ghost use Rattle.std.specs.Prelude.{◌≡◌, ◌+◌, ◌≤◌, ◌^◌, true, length, OnOk};
ghost use Rattle.ebs_world.specs.Image.{Spells, IsOutside, Everywhere, Durable};
ghost use Rattle.ebs_world.specs.View.{View, Ran, IsCaused, IsTrueToItself};

use crate::area::Area;
use crate::faults::Failed;

/// A disk of four areas. A byte past an area's end reads as zero, and a write past it leaves zeros between.
pub trait Disk {
    /// What is told of it now.
    ghost view: { Self → View };

    /// Fills the room with the bytes from `at` on. After `Failed` the room may hold any bytes.
    fn read(&mut self, area: Area, at: u64, room: &mut [u8]) -> Result<(), Failed>
        requires { at + length room.old ≤ 2 ^ 62 }
        ensures bytes { OnOk result ((view self.old).tells ≡ true → Spells ((view self.old).reads area) at room.new) }
        ensures ran { Ran Everywhere (view self.old) (view self.new) }
        ensures cause { IsCaused (view self.old) (view self.new) result };

    /// Writes the piece from `at` on. Until a sync of the area succeeds, a crash may leave any bytes in its range.
    /// After `Failed` a read may give any there too.
    fn write(&mut self, area: Area, at: u64, piece: &[u8]) -> Result<(), Failed>
        requires { at + length piece.now ≤ 2 ^ 62 }
        ensures written { OnOk result ((view self.old).tells ≡ true → Spells ((view self.new).reads area) at piece.now) }
        ensures ran { Ran (IsOutside area at (length piece.now)) (view self.old) (view self.new) }
        ensures cause { IsCaused (view self.old) (view self.new) result };

    /// Makes what is read of the area durable. After `Failed` nothing was.
    fn sync(&mut self, area: Area) -> Result<(), Failed>
        ensures durable { OnOk result ((view self.old).tells ≡ true → (view self.old).honest ≡ true
            → Durable area (view self.new).reads (view self.new).may_leave) }
        ensures ran { Ran Everywhere (view self.old) (view self.new) }
        ensures cause { IsCaused (view self.old) (view self.new) result };

    /// Where it tells and is honest, what is read is one of its images, and the images since this moment are those
    /// of now.
    ghost true_to_itself: { (d : Self) → IsTrueToItself (view d) };
}
