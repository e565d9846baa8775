// Going on in the other area, with a new checkpoint.
ghost use Rattle.std.specs.Prelude.{◌≡◌, ◌+◌, ◌<◌, ◌≤◌, ◌^◌, [], ◌∷◌, ◌++◌, ℕ, List, length, true, false, OnOk, OnErr};
ghost use Rattle.std.specs.Int.{w32, w64, to_be_bytes};
ghost use Rattle.ebs_world.specs.Image.{Spells, IsOutside, Durable};
ghost use Rattle.ebs_world.specs.View.{Leaves, Ran, IsCaused};
ghost use Rattle.ebs_journal.specs.inner.Areas.{other};
ghost use Rattle.ebs_journal.specs.Format.{magic, head_of};
ghost use Rattle.ebs_journal.specs.inner.Line.{line, mended};
ghost use Rattle.ebs_journal.specs.Opening.{IsJournal, OffJournal};
ghost use Rattle.ebs_journal.specs.inner.Standing.{IsSettled, IsTurning, IsOrNext};

use crate::front::MAGIC;
use crate::journal::Journal;
use crate::refusal::DiskFailed;
use ebs_world::{Area, Disk, Failed, write_durably};

// The other of the two areas of a journal.
fn other(area: Area) -> Area
    ensures { result ≡ other area }
{
    match area {
        Area::Journal0 => Area::Journal1,
        Area::Journal1 => Area::Journal0,
        Area::Blocks => Area::Journal0,
        Area::Archive => Area::Journal0,
    }
}

// What stands between an area's gate and its checkpoint.
fn spell_head(epoch: u64, n: u64) -> [u8; 28]
    ensures { result ≡ magic ++ (to_be_bytes w32 1 ++ (to_be_bytes w64 epoch ++ to_be_bytes w64 n)) }
{
    let mut head = [0; 28];
    head[..8].copy_from_slice(&MAGIC);
    head[8..12].copy_from_slice(&1u32.to_be_bytes());
    head[12..20].copy_from_slice(&epoch.to_be_bytes());
    head[20..].copy_from_slice(&n.to_be_bytes());
    head
}

// Writes what stands behind the gate of an area without records.
fn write_behind<D: Disk>(
    disk: &mut D,
    area: Area,
    epoch: u64,
    checkpoint: &[u8],
) -> Result<(), Failed>
    requires { length checkpoint.now ≤ 2 ^ 40 }
    ensures written { OnOk result ((D.view disk.old).tells ≡ true → Spells ((D.view disk.new).reads area) 1 (head_of epoch checkpoint.now ++ 0 ∷ [])) }
    ensures durable { OnOk result ((D.view disk.old).tells ≡ true → (D.view disk.old).honest ≡ true
        → Durable area (D.view disk.new).reads (D.view disk.new).may_leave) }
    ensures ran { Ran (IsOutside area 1 (29 + length checkpoint.now)) (D.view disk.old) (D.view disk.new) }
    ensures cause { IsCaused (D.view disk.old) (D.view disk.new) result }
{
    let n = checkpoint.len() as u64;
    disk.write(area, 1, &spell_head(epoch, n))?;
    disk.write(area, 29, checkpoint)?;
    disk.write(area, 29 + n, &[0])?;
    disk.sync(area)?;
    Ok(())
}

impl Journal {
    // Closes the other area's gate, where it isn't known to be closed.
    fn close_other<D: Disk>(&mut self, disk: &mut D) -> Result<(), DiskFailed>
        ensures settled { (checkpoint : List ℕ) (rs : List (List ℕ)) → IsSettled (D.view disk.old) (line self.old) checkpoint rs
            → IsSettled (D.view disk.new) (line self.new) checkpoint rs }
        ensures any_moment { (checkpoint : List ℕ) (rs : List (List ℕ)) → IsSettled (D.view disk.old) (line self.old) checkpoint rs
            → Leaves (D.view disk.old) (D.view disk.new) (λ c. IsJournal c (line self.old).area (line self.old).epoch checkpoint rs) }
        ensures ok { OnOk result (line self.new ≡ record (line self.old) { shut = true }) }
        ensures err { OnErr result (line self.new ≡ line self.old) }
        ensures ran { Ran OffJournal (D.view disk.old) (D.view disk.new) }
        ensures cause { IsCaused (D.view disk.old) (D.view disk.new) result }
    {
        if self.shut {
            return Ok(());
        }
        let Ok(()) = write_durably(disk, other(self.area), 0, &[0]) else {
            return Err(DiskFailed);
        };
        self.shut = true;
        Ok(())
    }

    // Closes the gate of the next epoch's area, which is in doubt.
    pub(crate) fn turn_back<D: Disk>(&mut self, disk: &mut D) -> Result<(), DiskFailed>
        requires unclean { (line self.old).clean ≡ false }
        requires turning { (line self.old).turning ≡ true }
        ensures turned_back { OnOk result ((checkpoint : List ℕ) (rs : List (List ℕ)) (next : List ℕ) → IsTurning (D.view disk.old) (line self.old) checkpoint rs next
            → IsSettled (D.view disk.new) (line self.new) checkpoint rs) }
        ensures still_turning { OnErr result ((checkpoint : List ℕ) (rs : List (List ℕ)) (next : List ℕ) → IsTurning (D.view disk.old) (line self.old) checkpoint rs next
            → IsTurning (D.view disk.new) (line self.new) checkpoint rs next) }
        ensures turning_moments { (checkpoint : List ℕ) (rs : List (List ℕ)) (next : List ℕ) → IsTurning (D.view disk.old) (line self.old) checkpoint rs next
            → Leaves (D.view disk.old) (D.view disk.new) (λ c. IsOrNext c (line self.old) checkpoint rs next) }
        ensures ok { OnOk result (line self.new ≡ mended (line self.old)) }
        ensures err { OnErr result (line self.new ≡ line self.old) }
        ensures ran { Ran OffJournal (D.view disk.old) (D.view disk.new) }
        ensures cause { IsCaused (D.view disk.old) (D.view disk.new) result }
    {
        let Ok(()) = write_durably(disk, other(self.area), 0, &[0]) else {
            return Err(DiskFailed);
        };
        self.turning = false;
        self.shut = true;
        self.clean = true;
        Ok(())
    }

    /// Goes on in the other area, with the next epoch, this checkpoint and no record. After a failure it has left no trace, or
    /// the other area's gate isn't known and the journal isn't clean.
    pub fn rotate<D: Disk>(&mut self, disk: &mut D, checkpoint: &[u8]) -> Result<(), DiskFailed>
        requires clean { (line self.old).clean ≡ true }
        requires size { length checkpoint.now ≤ 2 ^ 40 }
        requires epoch { (line self.old).epoch < 2 ^ 62 }

        ensures rotated { OnOk result ((old : List ℕ) (rs : List (List ℕ)) → IsSettled (D.view disk.old) (line self.old) old rs
            → IsSettled (D.view disk.new) (line self.new) checkpoint.now []) }
        ensures refused_clean { OnErr result ((line self.new).clean ≡ true → (old : List ℕ) (rs : List (List ℕ))
            → IsSettled (D.view disk.old) (line self.old) old rs → IsSettled (D.view disk.new) (line self.new) old rs) }
        ensures refused_unclean { OnErr result ((line self.new).clean ≡ false → (old : List ℕ) (rs : List (List ℕ))
            → IsSettled (D.view disk.old) (line self.old) old rs → IsTurning (D.view disk.new) (line self.new) old rs checkpoint.now) }

        // At each moment each image is the journal that it was, or the one of the next epoch.
        ensures any_moment { (old : List ℕ) (rs : List (List ℕ)) → IsSettled (D.view disk.old) (line self.old) old rs
            → Leaves (D.view disk.old) (D.view disk.new) (λ c. IsOrNext c (line self.old) old rs checkpoint.now) }

        ensures ok { OnOk result (line self.new ≡ record {
          area = other (line self.old).area;
          epoch = (line self.old).epoch + 1;
          end = 30 + length checkpoint.now;
          since_checkpoint = 0;
          clean = true;
          shut = false;
          turning = false;
        }) }
        ensures err { OnErr result (line self.new ≡ record (line self.old) { clean = (line self.new).clean; shut = (line self.new).shut; turning = (line self.new).turning }) }
        ensures ran { Ran OffJournal (D.view disk.old) (D.view disk.new) }
        ensures cause { IsCaused (D.view disk.old) (D.view disk.new) result }
    {
        let Ok(()) = self.close_other(disk) else {
            return Err(DiskFailed);
        };
        let next = other(self.area);
        let Ok(()) = write_behind(disk, next, self.epoch + 1, checkpoint) else {
            return Err(DiskFailed);
        };
        self.clean = false;
        self.turning = true;
        let Ok(()) = write_durably(disk, next, 0, &[1]) else {
            return Err(DiskFailed);
        };
        self.turning = false;
        self.clean = true;
        self.shut = false;
        self.since_checkpoint = 0;
        self.end = 30 + checkpoint.len() as u64;
        self.epoch += 1;
        self.area = next;
        Ok(())
    }
}
