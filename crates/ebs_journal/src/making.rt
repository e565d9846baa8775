// Making a journal.
ghost use Rattle.std.specs.Prelude.{◌≡◌, ◌≢◌, ◌⊎◌, ◌+◌, ◌≤◌, ◌^◌, [], ◌∷◌, ◌++◌, ℕ, List, true, false, length, IfOk, IfErr, OnOk};
ghost use Rattle.ebs_world.specs.declared.area.Area.TheVariants.{Journal0, Journal1, Archive};
ghost use Rattle.ebs_world.specs.Image.{Image, Spells, Was, IsOutside, Durable};
ghost use Rattle.ebs_world.specs.View.{Leaves, Ran, IsCaused};
ghost use Rattle.ebs_journal.specs.Format.{head_of};
ghost use Rattle.ebs_journal.specs.inner.Line.{line};
ghost use Rattle.ebs_journal.specs.Opening.{IsJournal, OffMaking};
ghost use Rattle.ebs_journal.specs.inner.Reading.{Refuses, IsNo};
ghost use Rattle.ebs_journal.specs.inner.Standing.{OffFirst, OffMarks, IsSettled};

use crate::front::MAGIC;
use crate::journal::{Journal, new_buffer};
use crate::refusal::JournalRefusal;
use ebs_world::{Area, Disk, Failed, write_durably};
use std::alloc::{AllocError, Global};

// An area without records, behind a closed gate.
fn spell_area(alloc: Global, epoch: u64, checkpoint: &[u8]) -> Result<Vec<u8>, AllocError>
    ensures { IfOk result (λ bytes. bytes.items ≡ 0 ∷ (head_of epoch checkpoint.now ++ 0 ∷ [])) }
{
    let mut bytes = Vec::new(alloc);
    bytes.push(0)?;
    bytes.extend_from_slice(&MAGIC)?;
    bytes.extend_from_slice(&1u32.to_be_bytes())?;
    bytes.extend_from_slice(&epoch.to_be_bytes())?;
    bytes.extend_from_slice(&(checkpoint.len() as u64).to_be_bytes())?;
    bytes.extend_from_slice(checkpoint)?;
    bytes.push(0)?;
    Ok(bytes)
}

// Writes the first area, and then opens its gate.
fn write_first<D: Disk>(disk: &mut D, bytes: &[u8]) -> Result<(), Failed>
    requires { length bytes.now ≤ 2 ^ 62 }
    ensures written { OnOk result ((tail : List ℕ) → bytes.now ≡ 0 ∷ tail → (D.view disk.old).tells ≡ true → Spells ((D.view disk.new).reads Journal0) 0 (1 ∷ tail)) }
    ensures durable { OnOk result ((D.view disk.old).tells ≡ true → (D.view disk.old).honest ≡ true → Durable Journal0 (D.view disk.new).reads (D.view disk.new).may_leave) }
    ensures ran { Ran OffFirst (D.view disk.old) (D.view disk.new) }
    ensures cause { IsCaused (D.view disk.old) (D.view disk.new) result }
{
    write_durably(disk, Area::Journal0, 0, bytes)?;
    write_durably(disk, Area::Journal0, 0, &[1])?;
    Ok(())
}

// Closes the gate of the second area, and then writes the mark.
fn write_mark<D: Disk>(disk: &mut D) -> Result<(), Failed>
    ensures closed { OnOk result ((D.view disk.old).tells ≡ true → (D.view disk.new).reads Journal1 0 ≡ 0) }
    ensures marked { OnOk result ((D.view disk.old).tells ≡ true → (D.view disk.new).reads Archive 0 ≡ 1) }
    ensures durable { OnOk result ((D.view disk.old).tells ≡ true → (D.view disk.old).honest ≡ true
        → Durable Journal1 (D.view disk.new).reads (D.view disk.new).may_leave × Durable Archive (D.view disk.new).reads (D.view disk.new).may_leave) }

    // The mark is written over a closed gate.
    ensures any_moment { (D.view disk.old).tells ≡ true → (D.view disk.old).honest ≡ true → Leaves (D.view disk.old) (D.view disk.new)
        (λ c. Was (IsOutside Journal1 0 1) (D.view disk.old).may_leave c ⊎ (Was OffMarks (D.view disk.old).may_leave c × (c Journal1 0 ≡ 0))) }
    ensures ran { Ran OffMarks (D.view disk.old) (D.view disk.new) }
    ensures cause { IsCaused (D.view disk.old) (D.view disk.new) result }
{
    write_durably(disk, Area::Journal1, 0, &[0])?;
    write_durably(disk, Area::Archive, 0, &[1])?;
    Ok(())
}

impl Journal {
    /// Makes a journal of epoch 1 on a disk that has none, so that its mark is zero.
    pub fn make<D: Disk>(
        alloc: Global,
        disk: &mut D,
        checkpoint: &[u8],
    ) -> Result<Journal, JournalRefusal>
        requires { length checkpoint.now ≤ 2 ^ 40 }
        ensures begun { IfOk result (λ journal. line journal ≡ record { area = Journal0; epoch = 1; end = 30 + length checkpoint.now; since_checkpoint = 0; clean = true; shut = true; turning = false }) }
        ensures made { IfOk result (λ journal. (D.view disk.old).tells ≡ true → IsJournal (D.view disk.new).reads Journal0 1 checkpoint.now []) }
        ensures settled { IfOk result (λ journal. (D.view disk.old).tells ≡ true → (D.view disk.old).honest ≡ true
            → IsSettled (D.view disk.new) (line journal) checkpoint.now []) }

        // At each moment the mark is zero, or the whole journal is there.
        ensures any_moment { (D.view disk.old).tells ≡ true → (D.view disk.old).honest ≡ true → ((c : Image) → (D.view disk.old).may_leave c → c Archive 0 ≡ 0)
            → Leaves (D.view disk.old) (D.view disk.new) (λ c. (c Archive 0 ≡ 0) ⊎ IsJournal c Journal0 1 checkpoint.now []) }

        ensures refused { IfErr result (Refuses (D.view disk.old) (D.view disk.new) IsNo) }
        ensures ran { Ran OffMaking (D.view disk.old) (D.view disk.new) }
    {
        let buffer = new_buffer(alloc)?;
        let bytes = spell_area(alloc, 1, checkpoint)?;
        write_first(disk, &bytes)?;
        write_mark(disk)?;
        Ok(Journal {
            area: Area::Journal0,
            epoch: 1,
            end: 30 + checkpoint.len() as u64,
            since_checkpoint: 0,
            clean: true,
            shut: true,
            turning: false,
            buffer,
        })
    }
}
