// The checksum of an upload's blocks.
ghost use Rattle.std.specs.Prelude.{◌≡◌, ◌++◌, List, ℕ};
ghost use Rattle.std.specs.FinMap as map;
ghost use Rattle.sha2.specs.Hashers.{Holds256};
ghost use Rattle.ebs_tables.specs.Full.{full};
ghost use Rattle.ebs_model.specs.Arrays.{linear};
ghost use Rattle.ebs_model.specs.Kept.{same};
ghost use Rattle.ebs_model.specs.inner.Digests.{kept_digest};
ghost use Rattle.ebs_lineage.specs.Lines.{array};
ghost use Rattle.ebs_kept.specs.inner.Shown.{kept_array};

use ebs_lineage::{Lineage, NodeId};
use ebs_model::{Block, IndexSlots};
use sha2::{Digest, Sha256};

/// The LINEAR checksum of the node's blocks at these indexes: the SHA-256 of their digests, joined in ascending index
/// (EBS direct APIs reference, CompleteSnapshot).
pub fn linear_of(lineage: &Lineage, node: NodeId, put: &IndexSlots) -> [u8; 32]
    ensures { result ≡ linear same (kept_array (array lineage.now.table.nodes node.number)) (map.keys (full put.now)) }
{
    let mut hasher = Sha256::new();
    for (index, _) in put.from(0) {
        add_digest(&mut hasher, &lineage.find(node, *index));
    }
    hasher.finalize()
}

fn add_digest(hasher: &mut Sha256, block: &Option<Block>)
    ensures { (fed : List ℕ) → Holds256 hasher.old fed → Holds256 hasher.new (fed ++ kept_digest block.now) }
{
    if let Some(block) = block {
        hasher.update(&block.digest);
    }
}
