// Blocks that are written to a slot of their own.
ghost use Rattle.std.specs.Prelude.{◌≡◌, ◌≤◌, ◌+◌, ℕ, List, true, Some, IfOk, OnOk, OnErr, IsErrOf};
ghost use Rattle.std.specs.FinMap as map;
ghost use Rattle.sha2.specs.Sha256.{sha256};
ghost use Rattle.ebs_model.specs.Quotas.{Rose};
ghost use Rattle.ebs_world.specs.View.{Leaves, Ran};
ghost use Rattle.ebs_slots.specs.inner.Slots.{IsNext, staged};
ghost use Rattle.ebs_slots.specs.inner.Standing.{AllStand, EachIn, Lies, RanOffOne, with_block};
ghost use Rattle.ebs_slots.specs.Slots.{OffSlot};

use crate::choosing::{Chosen, choose, give_back};
use crate::lease::Lease;
use crate::place::{is_slot, start_of};
use crate::prepared::Prepared;
use crate::refusal::StageRefusal;
use crate::slots::Slots;
use crate::spare_map::SpareMap;
use ebs_world::{Disk, write_durably};
use std::alloc::AllocError;

impl Slots {
    /// Writes a block durably into a slot that no key and no lease has, which is then under lease: one below the top where there
    /// is one, and else the one at the top. Of those below the top it mostly is the one that was given up last. A write that failed
    /// may leave any bytes in its slot.
    pub fn stage<D: Disk>(&mut self, disk: &mut D, block: &Prepared) -> Result<Lease, StageRefusal>
        ensures next { IfOk result (λ lease. IsNext self.old lease.slot) }
        ensures digest { IfOk result (λ lease. lease.digest ≡ sha256 block.now) }
        ensures ok { IfOk result (λ lease. self.new ≡ staged self.old lease.slot lease.digest) }
        ensures leased { IfOk result (λ lease. map.get self.new.leases lease.slot ≡ Some lease.digest) }
        ensures err { OnErr result (self.new ≡ self.old) }
        ensures block { IfOk result (λ lease. Lies (D.view disk.new) self.old.area lease.slot block.now) }

        // The blocks that stood still stand, at each moment of the call and after it.
        ensures stand { IfOk result (λ lease. (bytes : ℕ → List ℕ) → AllStand (D.view disk.old) self.old bytes
            → AllStand (D.view disk.new) self.new (with_block bytes lease.slot block.now)) }
        ensures err_stand { OnErr result ((bytes : ℕ → List ℕ) → AllStand (D.view disk.old) self.old bytes → AllStand (D.view disk.new) self.new bytes) }
        ensures moments { (D.view disk.old).tells ≡ true → (D.view disk.old).honest ≡ true → (bytes : ℕ → List ℕ) → AllStand (D.view disk.old) self.old bytes
            → Leaves (D.view disk.old) (D.view disk.new) (λ c. EachIn c self.old bytes) }

        // Nothing is written but in that one slot.
        ensures ran { IfOk result (λ lease. Ran (OffSlot self.old.area lease.slot) (D.view disk.old) (D.view disk.new)) }
        ensures err_ran { OnErr result (RanOffOne self.old (D.view disk.old) (D.view disk.new)) }

        ensures cause { IsErrOf result StageRefusal.DiskFailed → Rose (D.view disk.old).faults (D.view disk.new).faults }
        ensures still { IsErrOf result StageRefusal.Memory → disk.new ≡ disk.old }
    {
        let digest = block.digest;
        let Ok(()) = make_room(
            &mut self.keys,
            &mut self.owners,
            &mut self.counts,
            &mut self.leases,
            &mut self.freed,
        ) else {
            return Err(StageRefusal::Memory);
        };
        let Chosen { slot, low } = choose(
            &mut self.freed,
            &self.owners,
            &self.leases,
            self.low,
            self.top,
        );
        self.low = low;
        if !is_slot(self.area, slot) {
            return Err(StageRefusal::Memory);
        }
        let Ok(()) = write_durably(disk, self.area, start_of(self.area, slot), &block.bytes) else {
            self.low = give_back(&mut self.freed, low, slot);
            return Err(StageRefusal::DiskFailed);
        };
        self.leases.insert(slot, digest);
        self.top = self.top.max(slot + 1);
        Ok(Lease { slot, digest })
    }
}

// Makes the room for one lease more, for its key, and for the return of its slot.
fn make_room(
    keys: &mut SpareMap<u64>,
    owners: &mut SpareMap<u64>,
    counts: &mut SpareMap<u64>,
    leases: &mut SpareMap<[u8; 32]>,
    freed: &mut Vec<u64>,
) -> Result<(), AllocError>
    ensures keys { (keys.new.entries ≡ keys.old.entries) × (keys.old.spare ≤ keys.new.spare) }
    ensures owners { (owners.new.entries ≡ owners.old.entries) × (owners.old.spare ≤ owners.new.spare) }
    ensures counts { (counts.new.entries ≡ counts.old.entries) × (counts.old.spare ≤ counts.new.spare) }
    ensures leases { leases.new.entries ≡ leases.old.entries }
    ensures freed { freed.new.items ≡ freed.old.items }
    ensures room { OnOk result ((map.len leases.old.entries + 1 ≤ keys.new.spare) × (map.len leases.old.entries + 1 ≤ owners.new.spare)
        × (map.len leases.old.entries + 1 ≤ counts.new.spare) × (1 ≤ leases.new.spare)) }
{
    let more = leases.len() + 1;
    keys.reserve(more)?;
    owners.reserve(more)?;
    counts.reserve(more)?;
    leases.reserve(1)?;
    freed.reserve(keys.len() + more)
}
