// Whether anything is in the archive.
ghost use Rattle.std.specs.Prelude.{◌≡◌, true};
ghost use Rattle.std.specs.List.{list_all};
ghost use Rattle.ebs_recovery.specs.Bases.{HasNoCopies};
ghost use Rattle.ebs_recovery.specs.Bases as moved;

use ebs_checkpoints::{Checkpoint, SnapPoint};

/// Whether a checkpoint has nothing in the archive, as `restore` asks for it.
pub fn has_no_copies(point: &Checkpoint) -> bool
    ensures has_none { result ≡ true → HasNoCopies point.now }
    ensures has_some { HasNoCopies point.now → result ≡ true }
{
    have_no_copies(point.snapshots.as_slice())
        && point.archive.len() == 0
        && point.next_copy <= 1 << 42
}

fn have_no_copies(rows: &[SnapPoint]) -> bool
    ensures { result ≡ list_all moved.has_no_copies rows.now }
{
    rows.iter().all(|row| row.copies.len() == 0)
}
