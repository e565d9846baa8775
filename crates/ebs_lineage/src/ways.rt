// Ways down from a node that nobody holds.
ghost use Rattle.std.specs.Prelude.{◌≤◌, IfSome, IfNone};
ghost use Rattle.ebs_lineage.specs.Lines.{AreLines};
ghost use Rattle.ebs_lineage.specs.Kin.{AreKin};
ghost use Rattle.ebs_lineage.specs.Ways.{IsWay, IsWayDown, IsEnd, AreWays, IsNoted};

use crate::kin::Kin;
use crate::nodes::Nodes;

/// A node further down the only way: the one that was noted, or the only child that is listed. There is none from a node that is held.
fn next_down(nodes: &Nodes, kin: &Kin, made: u64, number: u64) -> Option<u64>
    requires lines { AreLines nodes.now.nodes made }
    requires kin { AreKin nodes.now.nodes kin.now.links }
    requires ways { AreWays nodes.now.nodes kin.now.links }
    ensures way { IfSome result (λ d. IsWayDown nodes.now.nodes number d) }
    ensures end { IfNone result (IsEnd nodes.now.nodes number) }
{
    let here = nodes.get(number)?;
    if here.is_held {
        return None;
    }
    if let Some(below) = kin.below(number) {
        return Some(below);
    }
    let kid = kin.first_kid(number)?;
    if kin.next_kid(kid).is_some() {
        return None;
    }
    Some(kid)
}

/// The end of the only way down. Each second node that is passed is led to the one that comes two further on, so that a way that is
/// walked often gets short.
pub fn way_end(nodes: &Nodes, kin: &mut Kin, made: u64, node: u64) -> u64
    requires lines { AreLines nodes.now.nodes made }
    requires kin { AreKin nodes.now.nodes kin.old.links }
    requires ways { AreWays nodes.now.nodes kin.old.links }
    ensures way { IsWay nodes.now.nodes node result }
    ensures end { IsEnd nodes.now.nodes result }
    ensures ways { AreWays nodes.now.nodes kin.new.links }
    ensures noted { IsNoted kin.old.links kin.new.links }
    ensures spare { kin.old.spare ≤ kin.new.spare }
{
    let mut at = node;
    while let Some(next) = next_down(nodes, kin, made, at) {
        let Some(far) = next_down(nodes, kin, made, next) else {
            return next;
        };
        kin.set_below(at, far);
        at = far;
    }
    at
}
