// The arrays that are played on, with a slot for each block that is kept.
ghost use Rattle.std.specs.Prelude.{◌≡◌, ◌<◌, ◌^◌, true, None};
ghost use Rattle.std.specs.FinMap as map;
ghost use Rattle.ebs_slots.specs.inner.Slots.{IsFree};

use ebs_collect::{Progress, blocks_stay};
use ebs_holds::{Holder, Holdings};
use ebs_model::Block;
use ebs_slots::Slots;
use ebs_world::Area;
use std::alloc::{AllocError, Global};
use std::marker::Model;

/// No more blocks than this are put.
const MOST_BLOCKS: u64 = 1 << 42;

/// The arrays of snapshots and volumes, and a slot for each block that a node keeps, as a store has them.
#[derive(Drop)]
pub struct Played {
    holdings: Holdings,
    slots: Slots,
    // the next block's stamp, and its slot
    stamps: u64,
}

impl Model for Played {
    ghost use Rattle.std.specs.Prelude.{ℕ};
    ghost use Rattle.std.specs.FinMap as map;
    ghost use Rattle.ebs_holds.specs.Holds.{nodes_in};
    ghost use Rattle.ebs_collect.specs.Slices.{IsCounted};

    ghost Value = { ℕ };

    ghost view = { λ p. map.len p.slots.keys };

    ghost invariant = { λ p. IsCounted p.slots (nodes_in p.holdings) };
}

impl Played {
    pub fn new(alloc: Global) -> Self {
        Played {
            holdings: Holdings::new(alloc),
            slots: Slots::new(alloc, Area::Blocks),
            stamps: 0,
        }
    }

    pub fn holdings(&self) -> &Holdings {
        &self.holdings
    }

    /// How many slots there are.
    pub fn used(&self) -> u64 {
        self.slots.used()
    }

    /// How many blocks wait to be looked at.
    pub fn waiting(&self) -> u64 {
        self.holdings.waiting()
    }

    pub fn begin(&mut self, holder: &Holder, source: &Option<Holder>) -> Result<(), AllocError> {
        blocks_stay();
        self.holdings.prepare(holder)?;
        self.holdings.reserve_nodes(1)?;
        self.holdings.begin(holder, source);
        Ok(())
    }

    /// Puts a block with this number at the index.
    pub fn put(&mut self, holder: &Holder, index: u32, number: u32) -> Result<(), AllocError> {
        blocks_stay();
        let replaced = self.holdings.replaced(holder, u64::from(index));
        self.holdings.reserve_put(holder)?;
        let stamp = self.stamps;
        if !can_place(&self.slots, stamp) {
            return Err(AllocError);
        }
        self.slots.place(stamp, stamp)?;
        self.stamps = stamp + 1;
        self.holdings.put(holder, index, numbered(stamp, number));
        if let Some(old) = replaced {
            self.slots.release(old);
        }
        Ok(())
    }

    pub fn seal(&mut self, holder: &Holder) {
        blocks_stay();
        self.holdings.seal(holder);
    }

    pub fn drop_array(&mut self, holder: &Holder) {
        blocks_stay();
        self.holdings.drop_array(holder);
    }

    /// Looks at so many of the blocks that wait.
    pub fn collect(&mut self, work: u32) -> Progress {
        self.holdings.collect(&mut self.slots, work)
    }
}

// Whether the stamp is new and can have the slot of its number.
fn can_place(slots: &Slots, stamp: u64) -> bool
    ensures small { result ≡ true → stamp < 2 ^ 42 }
    ensures new { result ≡ true → map.get slots.now.keys stamp ≡ None }
    ensures free { result ≡ true → IsFree slots.now stamp }
{
    stamp < MOST_BLOCKS && slots.slot_of(stamp).is_none() && slots.is_free(stamp)
}

// A block whose digest begins with the number.
fn numbered(stamp: u64, number: u32) -> Block
    ensures { result.stamp ≡ stamp }
{
    let mut digest = [0u8; 32];
    digest[..4].copy_from_slice(&number.to_be_bytes());
    Block { stamp, digest }
}

/// The number that its digest begins with.
pub fn number_of(block: &Block) -> u32 {
    let mut number = [0u8; 4];
    number.copy_from_slice(&block.digest[..4]);
    u32::from_be_bytes(number)
}
