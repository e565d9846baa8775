// Blocks by index.
ghost use Rattle.std.specs.Prelude.{◌≡◌, ◌++◌, List, ℕ, refl, flat_map};
ghost use Rattle.std.specs.Option.{option_copied};
ghost use Rattle.std.specs.FinMap as map;
ghost use Rattle.sha2.specs.Hashers.{Holds256};
ghost use Rattle.sha2.specs.Sha256.{sha256};
ghost use Rattle.ebs_tables.specs.Full.{full};
ghost use Rattle.ebs_model.specs.inner.Digests.{kept_digest};

use ebs_tables::{ExactClone, Numbered, NumberedSlots};
use sha2::{Digest, Sha256};

/// A block as a row keeps it: the number of the accepted write that made it, and the SHA-256 of its bytes
/// (EBS direct APIs reference, PutSnapshotBlock). Two blocks are the same where their stamps are equal.
#[derive(Clone, Copy, Debug, PartialEq, Eq)]
pub struct Block {
    pub stamp: u64,
    pub digest: [u8; 32],
}

impl ExactClone for Block {
    ghost same = { λ x y e. e };
}

/// Blocks by index, and indexes that are ready for one. An index that has none was never written.
pub type Array = NumberedSlots<Block>;

/// A set of indexes.
pub type Indexes = Numbered<()>;

/// A set of indexes, and indexes that are ready to be in it.
pub type IndexSlots = NumberedSlots<()>;

/// The LINEAR checksum of the blocks at these indexes: the SHA-256 of their digests, joined in ascending index
/// (EBS direct APIs reference, CompleteSnapshot).
pub fn linear_checksum(put: &IndexSlots, array: &Array) -> [u8; 32]
    ensures { result ≡ sha256 (flat_map (λ index. kept_digest (map.get (full array.now) index)) (map.keys (full put.now))) }
{
    let mut hasher = Sha256::new();
    for (index, _) in put.from(0) {
        add_digest(&mut hasher, array.get(*index));
    }
    hasher.finalize()
}

fn add_digest(hasher: &mut Sha256, block: Option<&Block>)
    ensures { (fed : List ℕ) → Holds256 hasher.old fed → Holds256 hasher.new (fed ++ kept_digest (option_copied block.entry)) }
{
    if let Some(block) = block {
        hasher.update(&block.digest);
    }
}
