// Nodes from which no held one is reached any more.
ghost use Rattle.std.specs.Prelude.{◌≡◌, ℕ, ◌≤◌, ◌⊎◌, IsSome, None, true, false};
ghost use Rattle.std.specs.FinMap as map;
ghost use Rattle.ebs_lineage.specs.Lines.{AreLines, IsHeld};
ghost use Rattle.ebs_lineage.specs.Kin.{AreKin, AreListed, first_of};
ghost use Rattle.ebs_lineage.specs.Linked.{IsRelisted, IsWantedOr};

use crate::judge::is_held;
use crate::kin::Kin;
use crate::nodes::Nodes;

/// Whether somebody holds the node, or one of its children is listed.
pub fn leads_on(nodes: &Nodes, kin: &Kin, node: u64) -> bool
    ensures yes { result ≡ true → IsHeld nodes.now.nodes node ⊎ IsSome (first_of kin.now.links node) }
    ensures held { result ≡ false → IsHeld nodes.now.nodes node → ⊥ }
    ensures none { result ≡ false → first_of kin.now.links node ≡ None }
{
    is_held(nodes, node) || kin.first_kid(node).is_some()
}

/// A node that nobody holds any more is left out of its parent's children where no held one is reached from it, and so is its parent
/// then, and so on.
pub fn leave(nodes: &Nodes, kin: &mut Kin, made: u64, node: u64)
    requires lines { AreLines nodes.now.nodes made }
    requires kin { AreListed (IsWantedOr nodes.now.nodes node) kin.old.links }
    requires there { (n : ℕ) → IsSome (map.get nodes.now.nodes n) → IsSome (map.get kin.old.links n) }
    ensures kin { AreKin nodes.now.nodes kin.new.links }
    ensures kept { IsRelisted kin.old.links kin.new.links }
    ensures spare { kin.old.spare ≤ kin.new.spare }
{
    let mut at = node;
    while !leads_on(nodes, kin, at) {
        let Some(parent) = nodes.parent(at) else {
            return;
        };
        kin.unlink(parent, at);
        at = parent;
    }
}
