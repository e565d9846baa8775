// Reading the records of an area.
ghost use Rattle.std.specs.Prelude.{◌≡◌, ◌≢◌, ◌+◌, ◌-◌, ◌≤◌, ◌^◌, true, IfOk, IfErr};
ghost use Rattle.ebs_world.specs.Image.{Spells, Everywhere};
ghost use Rattle.ebs_world.specs.View.{Ran};
ghost use Rattle.ebs_journal.specs.Format.{entries};
ghost use Rattle.ebs_journal.specs.inner.Reading.{IsSized, Refuses, IsRecordsRefusal};

use crate::reading::{read_ahead, read_entry};
use crate::refusal::JournalRefusal;
use ebs_model::Bytes;
use ebs_world::{Area, Disk};
use std::alloc::Global;

/// Records that were read, the place of each one's gate, and the place of the gate behind them.
#[derive(Drop)]
pub(crate) struct Records {
    pub(crate) records: Vec<Bytes>,
    pub(crate) places: Vec<u64>,
    pub(crate) gate: u64,
}

/// All records from a gate on, up to the first gate that isn't open.
pub(crate) fn read_records<D: Disk>(
    alloc: Global,
    disk: &mut D,
    area: Area,
    first: u64,
) -> Result<Records, JournalRefusal>
    requires { first ≤ 2 ^ 62 - 2 ^ 21 }
    ensures sized { IfOk result (λ read. IsSized first read.records.items read.places.items read.gate) }
    ensures spelled { IfOk result (λ read. (D.view disk.old).tells ≡ true → Spells ((D.view disk.old).reads area) first (entries read.records.items)) }
    ensures shut { IfOk result (λ read. (D.view disk.old).tells ≡ true → (D.view disk.old).reads area read.gate ≢ 1) }
    ensures ran { Ran Everywhere (D.view disk.old) (D.view disk.new) }
    ensures refused { IfErr result (Refuses (D.view disk.old) (D.view disk.new)
        (λ refusal. (D.view disk.old).tells ≡ true → IsRecordsRefusal ((D.view disk.old).reads area) first refusal)) }
{
    let mut records = Vec::new(alloc);
    let mut places = Vec::new(alloc);
    let mut gate = first;
    let mut ahead = read_ahead(disk, area, gate)?;
    while ahead.gate == 1 {
        let (payload, next) = read_entry(alloc, disk, area, gate, ahead.length)?;
        places.push(gate)?;
        gate += 5 + u64::from(ahead.length);
        records.push(Bytes::from_vec(payload))?;
        ahead = next;
    }
    Ok(Records {
        records,
        places,
        gate,
    })
}
