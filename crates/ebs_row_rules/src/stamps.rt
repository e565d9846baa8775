// Blocks of one stamp have one digest.
ghost use Rattle.std.specs.Prelude.{ℕ, ◌≡◌, IfOk};
ghost use Rattle.std.specs.List.{list_all};
ghost use Rattle.std.specs.FinMap as maps;
ghost use Rattle.ebs_row_rules.specs.Stamps as stamps;
ghost use Rattle.ebs_row_rules.specs.inner.Stamps as kept;

use ebs_model::Block;
use ebs_tables::Stamped;
use std::alloc::{AllocError, Global};

/// A digest of each stamp.
fn digests(alloc: Global, blocks: &[Block]) -> Result<Stamped<[u8; 32]>, AllocError>
    ensures { IfOk result (λ found. (n : ℕ) → kept.IsDigestOf blocks.now n (maps.get found n)) }
{
    let mut found = Stamped::new(alloc);
    for block in blocks {
        found.insert(block.stamp, block.digest)?;
    }
    Ok(found)
}

fn has_digest(found: &Stamped<[u8; 32]>, block: &Block) -> bool
    ensures { result ≡ kept.has_digest found.now block.now }
{
    match found.get(block.stamp) {
        Some(digest) => *digest == block.digest,
        None => false,
    }
}

fn have_digests(found: &Stamped<[u8; 32]>, blocks: &[Block]) -> bool
    ensures { result ≡ list_all (kept.has_digest found.now) blocks.now }
{
    blocks.iter().all(|block| has_digest(found, block))
}

/// Whether blocks of one stamp have one digest.
pub(crate) fn have_one_digest(alloc: Global, blocks: &[Block]) -> Result<bool, AllocError>
    ensures { IfOk result (λ have. have ≡ stamps.have_one_digest blocks.now) }
{
    let found = digests(alloc, blocks)?;
    Ok(have_digests(&found, blocks))
}
