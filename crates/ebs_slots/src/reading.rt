// Blocks that are read.
ghost use Rattle.std.specs.Prelude.{◌≡◌, ◌≢◌, ℕ, List, true, length, IsSome, Some, IfOk, OnOk, IsErrOf};
ghost use Rattle.std.specs.FinMap as map;
ghost use Rattle.sha2.specs.Sha256.{sha256};
ghost use Rattle.ebs_model.specs.Quotas.{Rose};
ghost use Rattle.ebs_world.specs.View.{IsCaused, Ran};
ghost use Rattle.ebs_world.specs.Image.{Everywhere, Spells};
ghost use Rattle.ebs_slots.specs.inner.Slots.{IsSlot};
ghost use Rattle.ebs_slots.specs.Slots.{start_of, IsBlock};
ghost use Rattle.ebs_slots.specs.inner.Standing.{IsRead};
ghost use Rattle.ebs_slots.specs.inner.Refusals.{IfDamaged, Gives};

use crate::place::start_of;
use crate::prepared::Prepared;
use crate::refusal::{ReadRefusal, StageRefusal};
use crate::slots::Slots;
use ebs_model::Bytes;
use ebs_world::{Area, Disk, Failed};
use sha2::{Digest, Sha256};
use std::alloc::{AllocError, Global};

fn new_room(alloc: Global) -> Result<Vec<u8>, AllocError>
    ensures { IfOk result (λ room. length room.items ≡ 524288) }
{
    vec![in alloc; 0u8; 524288]
}

fn read_slot<D: Disk>(disk: &mut D, area: Area, slot: u64, room: &mut Vec<u8>) -> Result<(), Failed>
    requires fits { IsSlot area slot }
    requires size { length room.old.items ≡ 524288 }
    ensures bytes { OnOk result ((D.view disk.old).tells ≡ true → Spells ((D.view disk.old).reads area) (start_of area slot) room.new.items) }
    ensures size { length room.new.items ≡ 524288 }
    ensures ran { Ran Everywhere (D.view disk.old) (D.view disk.new) }
    ensures cause { IsCaused (D.view disk.old) (D.view disk.new) result }
{
    disk.read(area, start_of(area, slot), room)
}

impl Slots {
    /// Reads the bytes of a key's slot, whatever they are, and hashes nothing.
    pub fn load<D: Disk>(&self, disk: &mut D, key: u64) -> Result<Bytes, StageRefusal>
        requires { IsSome (map.get self.now.keys key) }
        ensures read { IfOk result (IsRead (D.view disk.old) self.now key) }

        // What stands is what comes.
        ensures exact { (slot : ℕ) (bytes : List ℕ) → map.get self.now.keys key ≡ Some slot → (D.view disk.old).tells ≡ true
            → IsBlock (D.view disk.old).reads self.now.area slot bytes → IfOk result (λ given. given ≡ bytes) }

        ensures ran { Ran Everywhere (D.view disk.old) (D.view disk.new) }
        ensures cause { IsErrOf result StageRefusal.DiskFailed → Rose (D.view disk.old).faults (D.view disk.new).faults }
        ensures still { IsErrOf result StageRefusal.Memory → disk.new ≡ disk.old }
    {
        let slot = self.slot_of(key).unwrap();
        let Ok(mut room) = new_room(self.alloc) else {
            return Err(StageRefusal::Memory);
        };
        let Ok(()) = read_slot(disk, self.area, slot, &mut room) else {
            return Err(StageRefusal::DiskFailed);
        };
        Ok(Bytes::from_vec(room))
    }

    /// Reads the block of a key, whose digest is given.
    pub fn read<D: Disk>(
        &self,
        disk: &mut D,
        key: u64,
        digest: [u8; 32],
    ) -> Result<Bytes, ReadRefusal>
        requires { IsSome (map.get self.now.keys key) }
        ensures read { IfOk result (IsRead (D.view disk.old) self.now key) }
        ensures digest { IfOk result (λ bytes. sha256 bytes ≡ digest) }
        ensures damaged { IfDamaged result (λ stored found. (stored ≡ digest) × (found ≢ stored)
            × ((bytes : List ℕ) × IsRead (D.view disk.old) self.now key bytes × (found ≡ sha256 bytes))) }

        // What stands is what is judged and handed out.
        ensures exact { (slot : ℕ) (bytes : List ℕ) → map.get self.now.keys key ≡ Some slot → (D.view disk.old).tells ≡ true
            → IsBlock (D.view disk.old).reads self.now.area slot bytes → Gives result digest bytes }

        ensures ran { Ran Everywhere (D.view disk.old) (D.view disk.new) }
        ensures cause { IsErrOf result ReadRefusal.DiskFailed → Rose (D.view disk.old).faults (D.view disk.new).faults }
        ensures still { IsErrOf result ReadRefusal.Memory → disk.new ≡ disk.old }
    {
        let bytes = match self.load(disk, key) {
            Ok(bytes) => bytes,
            Err(StageRefusal::DiskFailed) => return Err(ReadRefusal::DiskFailed),
            Err(StageRefusal::Memory) => return Err(ReadRefusal::Memory),
        };
        let found = Sha256::digest(bytes.as_slice());
        if found != digest {
            return Err(ReadRefusal::Damaged {
                stored: digest,
                found,
            });
        }
        Ok(bytes)
    }

    /// Reads the bytes of a key's slot, whatever they are, and hashes them.
    pub fn fetch<D: Disk>(&self, disk: &mut D, key: u64) -> Result<Prepared, StageRefusal>
        requires { IsSome (map.get self.now.keys key) }
        ensures read { IfOk result (λ block. IsRead (D.view disk.old) self.now key block) }

        // What stands is what comes.
        ensures exact { (slot : ℕ) (bytes : List ℕ) → map.get self.now.keys key ≡ Some slot → (D.view disk.old).tells ≡ true
            → IsBlock (D.view disk.old).reads self.now.area slot bytes → IfOk result (λ block. block ≡ bytes) }

        ensures ran { Ran Everywhere (D.view disk.old) (D.view disk.new) }
        ensures cause { IsErrOf result StageRefusal.DiskFailed → Rose (D.view disk.old).faults (D.view disk.new).faults }
        ensures still { IsErrOf result StageRefusal.Memory → disk.new ≡ disk.old }
    {
        let bytes = self.load(disk, key)?.into_vec();
        let digest = Sha256::digest(&bytes);
        Ok(Prepared { bytes, digest })
    }
}
