// Adding a record, and closing the gate of one that wasn't acknowledged.
ghost use Rattle.std.specs.Prelude.{◌≡◌, ◌+◌, ◌-◌, ◌≤◌, ◌^◌, [], ◌∷◌, ◌++◌, ℕ, List, Ok, length, take, true, false, OnOk, OnErr};
ghost use Rattle.ebs_world.specs.View.{Leaves, Ran, IsCaused};
ghost use Rattle.ebs_journal.specs.Format.{entry};
ghost use Rattle.ebs_journal.specs.inner.Line.{line, mended};
ghost use Rattle.ebs_journal.specs.Opening.{OffJournal};
ghost use Rattle.ebs_journal.specs.inner.Standing.{IsSettled, IsPending, IsOrAlso, IsTurning, IsOrNext};

use crate::journal::Journal;
use crate::refusal::DiskFailed;
use ebs_world::{Disk, write_durably};

// Spells what stands behind a record's gate, and a closed gate.
fn spell(buffer: &mut [u8], payload: &[u8])
    requires room { length buffer.old ≡ 1048581 }
    requires fits { length payload.now ≤ 1048576 }
    ensures { take (length payload.now + 5) buffer.new ≡ entry payload.now ++ 0 ∷ [] }
{
    let n = payload.len();
    buffer[..4].copy_from_slice(&(n as u32).to_be_bytes());
    buffer[4..4 + n].copy_from_slice(payload);
    buffer[4 + n] = 0;
}

fn spell_into(buffer: &mut Vec<u8>, payload: &[u8])
    requires room { length buffer.old.items ≡ 1048581 }
    requires fits { length payload.now ≤ 1048576 }
    ensures room { length buffer.new.items ≡ 1048581 }
    ensures spelled { take (length payload.now + 5) buffer.new.items ≡ entry payload.now ++ 0 ∷ [] }
{
    spell(buffer, payload)
}

impl Journal {
    /// Adds a record. After a failure it has left no trace, or its gate isn't known and the journal isn't clean.
    pub fn append<D: Disk>(&mut self, disk: &mut D, payload: &[u8]) -> Result<(), DiskFailed>
        requires clean { (line self.old).clean ≡ true }
        requires end { (line self.old).end ≤ 2 ^ 62 - 2 ^ 22 }
        requires record { (1 ≤ length payload.now) × (length payload.now ≤ 1048576) }

        ensures acknowledged { OnOk result ((checkpoint : List ℕ) (rs : List (List ℕ)) → IsSettled (D.view disk.old) (line self.old) checkpoint rs
            → IsSettled (D.view disk.new) (line self.new) checkpoint (rs ++ payload.now ∷ [])) }
        ensures refused_clean { OnErr result ((line self.new).clean ≡ true → (checkpoint : List ℕ) (rs : List (List ℕ))
            → IsSettled (D.view disk.old) (line self.old) checkpoint rs → IsSettled (D.view disk.new) (line self.new) checkpoint rs) }
        ensures refused_unclean { OnErr result ((line self.new).clean ≡ false → (checkpoint : List ℕ) (rs : List (List ℕ))
            → IsSettled (D.view disk.old) (line self.old) checkpoint rs
            → IsPending (D.view disk.new) (line self.new) checkpoint rs payload.now) }

        // At each moment each image has the records that it had, or those and this one.
        ensures any_moment { (checkpoint : List ℕ) (rs : List (List ℕ)) → IsSettled (D.view disk.old) (line self.old) checkpoint rs
            → Leaves (D.view disk.old) (D.view disk.new) (λ c. IsOrAlso c (line self.old) checkpoint rs payload.now) }

        ensures ok { OnOk result (line self.new ≡ record (line self.old) {
          end = (line self.old).end + (5 + length payload.now);
          since_checkpoint = (line self.old).since_checkpoint + 1;
        }) }
        ensures err { OnErr result (line self.new ≡ record (line self.old) { clean = (line self.new).clean }) }
        ensures ran { Ran OffJournal (D.view disk.old) (D.view disk.new) }
        ensures cause { IsCaused (D.view disk.old) (D.view disk.new) result }
    {
        let n = payload.len();
        spell_into(&mut self.buffer, payload);
        let Ok(()) = write_durably(disk, self.area, self.end, &self.buffer[..n + 5]) else {
            return Err(DiskFailed);
        };
        self.clean = false;
        let Ok(()) = write_durably(disk, self.area, self.end - 1, &[1]) else {
            return Err(DiskFailed);
        };
        self.clean = true;
        self.end += 5 + n as u64;
        self.since_checkpoint += 1;
        Ok(())
    }

    /// Closes the gate that is in doubt: that of a record, or of the next epoch's area, which wasn't acknowledged. Over a
    /// clean journal it makes no call.
    pub fn mend<D: Disk>(&mut self, disk: &mut D) -> Result<(), DiskFailed>
        ensures mended { OnOk result ((checkpoint : List ℕ) (rs : List (List ℕ)) (r : List ℕ) → IsPending (D.view disk.old) (line self.old) checkpoint rs r
            → IsSettled (D.view disk.new) (line self.new) checkpoint rs) }
        ensures turned_back { OnOk result ((checkpoint : List ℕ) (rs : List (List ℕ)) (next : List ℕ) → IsTurning (D.view disk.old) (line self.old) checkpoint rs next
            → IsSettled (D.view disk.new) (line self.new) checkpoint rs) }
        ensures still { OnErr result ((checkpoint : List ℕ) (rs : List (List ℕ)) (r : List ℕ) → IsPending (D.view disk.old) (line self.old) checkpoint rs r
            → IsPending (D.view disk.new) (line self.new) checkpoint rs r) }
        ensures still_turning { OnErr result ((checkpoint : List ℕ) (rs : List (List ℕ)) (next : List ℕ) → IsTurning (D.view disk.old) (line self.old) checkpoint rs next
            → IsTurning (D.view disk.new) (line self.new) checkpoint rs next) }
        ensures any_moment { (checkpoint : List ℕ) (rs : List (List ℕ)) (r : List ℕ) → IsPending (D.view disk.old) (line self.old) checkpoint rs r
            → Leaves (D.view disk.old) (D.view disk.new) (λ c. IsOrAlso c (line self.old) checkpoint rs r) }
        ensures turning_moments { (checkpoint : List ℕ) (rs : List (List ℕ)) (next : List ℕ) → IsTurning (D.view disk.old) (line self.old) checkpoint rs next
            → Leaves (D.view disk.old) (D.view disk.new) (λ c. IsOrNext c (line self.old) checkpoint rs next) }
        ensures no_call { (line self.old).clean ≡ true → (disk.new ≡ disk.old) × (result ≡ Ok tt) }
        ensures ok { OnOk result (line self.new ≡ mended (line self.old)) }
        ensures err { OnErr result (line self.new ≡ line self.old) }
        ensures ran { Ran OffJournal (D.view disk.old) (D.view disk.new) }
        ensures cause { IsCaused (D.view disk.old) (D.view disk.new) result }
    {
        if self.clean {
            return Ok(());
        }
        if self.turning {
            return self.turn_back(disk);
        }
        let Ok(()) = write_durably(disk, self.area, self.end - 1, &[0]) else {
            return Err(DiskFailed);
        };
        self.clean = true;
        Ok(())
    }
}
