// What the state of a snapshot lets it have.
ghost use Rattle.std.specs.Prelude.{◌≡◌, true};
ghost use Rattle.ebs_node_rules.specs.inner.Nodes.{nodes_ascend};
ghost use Rattle.ebs_node_rules.specs.States as states;

use crate::nodes::{is_closed, is_open, node_of};
use ebs_checkpoints::{Checkpoint, NodeRow, SnapPoint};
use ebs_model::{Moment, RowStatus, Tier};

/// Whether each snapshot has only what its state lets it have.
pub fn states_fit(point: &Checkpoint) -> bool
    requires { nodes_ascend point.now.nodes ≡ true }
    ensures { result ≡ states.fit_states point.now }
{
    let nodes = point.nodes.as_slice();
    let now = point.clock;
    point
        .snapshots
        .as_slice()
        .iter()
        .all(|snapshot| fits_state(now, nodes, snapshot))
}

/// What the upload has come to at the moment.
fn status_of(snapshot: &SnapPoint, now: Moment) -> RowStatus
    ensures { result ≡ states.status_of snapshot.now now.second }
{
    if snapshot.completed {
        return RowStatus::Completed;
    }
    let end = u128::from(snapshot.last.second) + 60 * u128::from(snapshot.timeout);
    if end <= u128::from(now.second) {
        RowStatus::Failed
    } else {
        RowStatus::Pending
    }
}

fn has_node_by(status: RowStatus, nodes: &[NodeRow], snapshot: &SnapPoint) -> bool
    requires { nodes_ascend nodes.now ≡ true }
    ensures { result ≡ states.has_node_by status nodes.now snapshot.now }
{
    let node = node_of(nodes, snapshot.node);
    match status {
        RowStatus::Pending => is_open(node),
        RowStatus::Failed => snapshot.node.is_none(),
        RowStatus::Completed => snapshot.copies.len() > 0 || is_closed(node),
    }
}

fn is_ahead(end: Option<Moment>, now: Moment) -> bool
    ensures { result ≡ states.is_ahead end now.second }
{
    match end {
        Some(end) => now.second < end.second,
        None => true,
    }
}

fn is_plain(snapshot: &SnapPoint) -> bool
    ensures { result ≡ states.is_plain snapshot.now }
{
    snapshot.completed
        || snapshot.bin_end.is_none() && snapshot.copies.len() == 0 && is_standard(snapshot.tier)
}

pub fn is_standard(tier: Tier) -> bool
    ensures { result ≡ states.is_standard tier }
{
    match tier {
        Tier::Standard => true,
        Tier::Archived | Tier::Temporary { .. } => false,
    }
}

fn is_upload_or_done(snapshot: &SnapPoint) -> bool
    ensures { result ≡ states.is_upload_or_done snapshot.now }
{
    snapshot.completed || snapshot.volume.is_none()
}

fn has_puts_by(status: RowStatus, snapshot: &SnapPoint) -> bool
    ensures { result ≡ states.has_puts_by status snapshot.now }
{
    match status {
        RowStatus::Pending => true,
        RowStatus::Completed | RowStatus::Failed => snapshot.put.len() == 0,
    }
}

fn fits_state(now: Moment, nodes: &[NodeRow], snapshot: &SnapPoint) -> bool
    requires { nodes_ascend nodes.now ≡ true }
    ensures { result ≡ states.fits_state now.second nodes.now snapshot.now }
{
    let status = status_of(snapshot, now);
    has_node_by(status, nodes, snapshot)
        && is_ahead(snapshot.bin_end, now)
        && is_plain(snapshot)
        && is_upload_or_done(snapshot)
        && has_puts_by(status, snapshot)
}
