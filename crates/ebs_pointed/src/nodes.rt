// The numbers of nodes.
ghost use Rattle.std.specs.Prelude.{◌≡◌};
ghost use Rattle.ebs_pointed.specs.Nodes as nodes;

use ebs_holds::{Holder, Holdings};

/// The number of the holder's node, where it has one.
pub(crate) fn number_in(holdings: &Holdings, holder: &Holder) -> Option<u64>
    ensures { result ≡ nodes.number_in holdings.now holder.now }
{
    let node = holdings.node(holder)?;
    Some(node.number)
}

/// And otherwise a number that no node has yet.
pub(crate) fn number_or(holdings: &Holdings, holder: &Holder) -> u64
    ensures { result ≡ nodes.number_or holdings.now holder.now }
{
    match number_in(holdings, holder) {
        Some(number) => number,
        None => holdings.lineage().made(),
    }
}
