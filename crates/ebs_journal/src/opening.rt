// Opening a journal.
ghost use Rattle.std.specs.Prelude.{◌≡◌, ◌≢◌, ◌+◌, ◌≤◌, ◌^◌, ℕ, true, length, IfOk, IfErr, OnOk};
ghost use Rattle.ebs_world.specs.declared.area.Area.{Area};
ghost use Rattle.ebs_model.specs.Quotas.{Rose};
ghost use Rattle.ebs_world.specs.Image.{Image, Everywhere};
ghost use Rattle.ebs_world.specs.View.{Ran, IsCaused};
ghost use Rattle.ebs_journal.specs.inner.Areas.{is_journal};
ghost use Rattle.ebs_journal.specs.inner.Line.{line};
ghost use Rattle.ebs_journal.specs.Opening.{IsRefused};
ghost use Rattle.ebs_journal.specs.inner.Reading.{IsFound, Refuses};
ghost use Rattle.ebs_journal.specs.inner.Standing.{IsSettled, IsOpened, IsMeasured};

use crate::front::{Found, find};
use crate::journal::{Journal, new_buffer};
use crate::reading::{read_byte, read_bytes, read_front};
use crate::records::read_records;
use crate::refusal::JournalRefusal;
use crate::replay::{Payloads, Places, Replay};
use ebs_model::Bytes;
use ebs_world::{Area, Disk, Failed};
use std::alloc::Global;

/// Syncs all areas, so that each image has what a read gives.
pub fn sync_all<D: Disk>(disk: &mut D) -> Result<(), Failed>
    ensures durable { OnOk result ((D.view disk.old).tells ≡ true → (D.view disk.old).honest ≡ true
        → (c : Image) → (D.view disk.new).may_leave c → (a : Area) (i : ℕ) → c a i ≡ (D.view disk.new).reads a i) }
    ensures ran { Ran Everywhere (D.view disk.old) (D.view disk.new) }
    ensures cause { IsCaused (D.view disk.old) (D.view disk.new) result }
{
    disk.sync(Area::Journal0)?;
    disk.sync(Area::Journal1)?;
    disk.sync(Area::Blocks)?;
    disk.sync(Area::Archive)?;
    Ok(())
}

// The area that counts.
fn locate<D: Disk>(disk: &mut D) -> Result<Found, JournalRefusal>
    ensures fits { IfOk result (λ found. (is_journal found.area ≡ true) × (found.front.length ≤ 2 ^ 40)) }
    ensures found { IfOk result (λ found. (D.view disk.old).tells ≡ true → IsFound (D.view disk.old).reads found) }
    ensures ran { Ran Everywhere (D.view disk.old) (D.view disk.new) }
    ensures refused { IfErr result (Refuses (D.view disk.old) (D.view disk.new)
        (λ refusal. (D.view disk.old).tells ≡ true → IsRefused (D.view disk.old).reads refusal)) }
{
    if read_byte(disk, Area::Archive, 0)? == 0 {
        return Err(JournalRefusal::NotMade);
    }
    let first = read_front(disk, Area::Journal0)?;
    let second = read_front(disk, Area::Journal1)?;
    find(&first, &second)
}

// What stands behind the front of the area that counts.
fn follow<D: Disk>(
    alloc: Global,
    disk: &mut D,
    found: &Found,
) -> Result<(Journal, Replay), JournalRefusal>
    requires in_journal { is_journal found.now.area ≡ true }
    requires fits { found.now.front.length ≤ 2 ^ 40 }
    ensures opened { IfOk result (λ p. (D.view disk.old).tells ≡ true → IsFound (D.view disk.old).reads found.now → IsOpened (D.view disk.old).reads (line p.0) p.1) }
    ensures measured { IfOk result (λ p. IsMeasured (line p.0) p.1) }
    ensures ran { Ran Everywhere (D.view disk.old) (D.view disk.new) }
    ensures refused { IfErr result (Refuses (D.view disk.old) (D.view disk.new)
        (λ refusal. (D.view disk.old).tells ≡ true → IsFound (D.view disk.old).reads found.now → IsRefused (D.view disk.old).reads refusal)) }
{
    let first = 29 + found.front.length;
    let checkpoint = read_bytes(alloc, disk, found.area, 29, found.front.length as usize)?;
    let read = read_records(alloc, disk, found.area, first)?;
    let buffer = new_buffer(alloc)?;
    let journal = Journal {
        area: found.area,
        epoch: found.front.epoch,
        end: read.gate + 1,
        since_checkpoint: read.records.len() as u64,
        clean: true,
        shut: found.shut,
        turning: false,
        buffer,
    };
    let replay = Replay {
        checkpoint: Bytes::from_vec(checkpoint),
        records: Payloads::from_vec(read.records),
        places: Places::from_vec(read.places),
    };
    Ok((journal, replay))
}

impl Journal {
    /// Opens the journal of a disk, after a sync of all areas, and gives its checkpoint and its records.
    pub fn open<D: Disk>(alloc: Global, disk: &mut D) -> Result<(Journal, Replay), JournalRefusal>
        ensures opened { IfOk result (λ p. (D.view disk.old).tells ≡ true → IsOpened (D.view disk.old).reads (line p.0) p.1) }

        // Each image then has what was read.
        ensures settled { IfOk result (λ p. (D.view disk.old).tells ≡ true → (D.view disk.old).honest ≡ true
            → IsSettled (D.view disk.new) (line p.0) p.1.checkpoint p.1.records) }

        ensures durable { OnOk result ((D.view disk.old).tells ≡ true → (D.view disk.old).honest ≡ true
            → (c : Image) → (D.view disk.new).may_leave c → (a : Area) (i : ℕ) → c a i ≡ (D.view disk.new).reads a i) }

        ensures measured { IfOk result (λ p. IsMeasured (line p.0) p.1) }
        ensures refused { IfErr result (Refuses (D.view disk.old) (D.view disk.new)
            (λ refusal. (D.view disk.old).tells ≡ true → IsRefused (D.view disk.old).reads refusal)) }
        ensures ran { Ran Everywhere (D.view disk.old) (D.view disk.new) }
    {
        sync_all(disk)?;
        let found = locate(disk)?;
        follow(alloc, disk, &found)
    }
}
