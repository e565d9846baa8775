// Whether all lists can be counted.
ghost use Rattle.std.specs.Prelude.{◌≡◌, ◌<◌, ◌^◌, true};
ghost use Rattle.ebs_point_rules.specs.Values.{HasShortLists};
ghost use Rattle.ebs_point.specs.Short.{HasShortBlocks, HasShortRows};

use ebs_checkpoints::Checkpoint;

/// Whether no list of the checkpoint has 2^32 members or more, so that each is counted in 32 bits.
pub fn has_short_lists(point: &Checkpoint) -> bool
    ensures short { result ≡ true → HasShortLists point.now }
    ensures long { HasShortLists point.now → result ≡ true }
{
    are_short_rows(point) && are_short_blocks(point)
}

fn are_short_rows(point: &Checkpoint) -> bool
    ensures short { result ≡ true → HasShortRows point.now }
    ensures long { HasShortRows point.now → result ≡ true }
{
    is_short(point.accounts.len())
        && is_short(point.snapshots.len())
        && is_short(point.volumes.len())
        && is_short(point.rules.len())
        && is_short(point.policies.len())
}

fn are_short_blocks(point: &Checkpoint) -> bool
    ensures short { result ≡ true → HasShortBlocks point.now }
    ensures long { HasShortBlocks point.now → result ≡ true }
{
    is_short(point.nodes.len()) && is_short(point.standard.len()) && is_short(point.archive.len())
}

fn is_short(len: usize) -> bool
    ensures short { result ≡ true → len < 2 ^ 32 }
    ensures long { len < 2 ^ 32 → result ≡ true }
{
    len < 1 << 32
}
