// Lists in strictly ascending key.
ghost use Rattle.std.specs.Prelude.{◌≡◌};
ghost use Rattle.std.specs.List.{list_all};
ghost use Rattle.ebs_row_rules.specs.Order as order;

use ebs_checkpoints::{
    AccountRow, Checkpoint, CopyRow, EntryRow, NodeRow, SlotRow, SnapPoint, TokenPoint, VolPoint,
};
use ebs_model::{Account, Policy, PolicyKey, Rule, RuleKey, SnapKey, Text, VolKey};

/// What stands in a list by its key.
pub(crate) trait Keyed {
    type Key: Ord;

    ghost key: { Self → Self.Key };

    fn key(&self) -> &Self::Key
        ensures { result.now ≡ key self.now };
}

impl Keyed for u32 {
    type Key = u32;

    ghost key = { λ n. n };

    fn key(&self) -> &u32 {
        self
    }
}

impl Keyed for Account {
    type Key = Account;

    ghost key = { λ n. n };

    fn key(&self) -> &Account {
        self
    }
}

impl Keyed for AccountRow {
    type Key = Account;

    ghost key = { λ row. row.account };

    fn key(&self) -> &Account {
        &self.account
    }
}

impl Keyed for TokenPoint {
    type Key = Text;

    ghost key = { λ token. token.text };

    fn key(&self) -> &Text {
        &self.text
    }
}

impl Keyed for SnapPoint {
    type Key = SnapKey;

    ghost key = { λ row. row.key };

    fn key(&self) -> &SnapKey {
        &self.key
    }
}

impl Keyed for CopyRow {
    type Key = u32;

    ghost key = { λ copy. copy.index };

    fn key(&self) -> &u32 {
        &self.index
    }
}

impl Keyed for VolPoint {
    type Key = VolKey;

    ghost key = { λ point. point.row.key };

    fn key(&self) -> &VolKey {
        &self.row.key
    }
}

impl Keyed for Rule {
    type Key = RuleKey;

    ghost key = { λ rule. rule.key };

    fn key(&self) -> &RuleKey {
        &self.key
    }
}

impl Keyed for Policy {
    type Key = PolicyKey;

    ghost key = { λ policy. policy.key };

    fn key(&self) -> &PolicyKey {
        &self.key
    }
}

impl Keyed for NodeRow {
    type Key = u64;

    ghost key = { λ node. node.number };

    fn key(&self) -> &u64 {
        &self.number
    }
}

impl Keyed for EntryRow {
    type Key = u32;

    ghost key = { λ entry. entry.index };

    fn key(&self) -> &u32 {
        &self.index
    }
}

impl Keyed for SlotRow {
    type Key = u64;

    ghost key = { λ row. row.key };

    fn key(&self) -> &u64 {
        &self.key
    }
}

/// Whether each row's key is below the next row's.
fn ascends<T: Keyed>(rows: &[T]) -> bool
    ensures { result ≡ order.ascends T.Key.cmp T.key rows.now }
{
    rows.is_sorted_by(|row, next| row.key().cmp(next.key()).is_lt())
}

fn has_ordered_tokens(account: &AccountRow) -> bool
    ensures { result ≡ order.has_ordered_tokens account.now }
{
    ascends(account.tokens.as_slice())
}

fn has_ordered_parts(row: &SnapPoint) -> bool
    ensures { result ≡ order.has_ordered_parts row.now }
{
    ascends(row.put.as_slice()) && ascends(row.shared.as_slice()) && ascends(row.copies.as_slice())
}

fn has_ordered_entries(node: &NodeRow) -> bool
    ensures { result ≡ order.has_ordered_entries node.now }
{
    ascends(node.entries.as_slice())
}

fn has_ordered_rows(point: &Checkpoint) -> bool
    ensures { result ≡ order.has_ordered_rows point.now }
{
    ascends(point.accounts.as_slice())
        && ascends(point.snapshots.as_slice())
        && ascends(point.volumes.as_slice())
        && ascends(point.rules.as_slice())
        && ascends(point.policies.as_slice())
}

fn has_ordered_blocks(point: &Checkpoint) -> bool
    ensures { result ≡ order.has_ordered_blocks point.now }
{
    ascends(point.nodes.as_slice())
        && ascends(point.standard.as_slice())
        && ascends(point.archive.as_slice())
}

fn have_ordered_tokens(accounts: &[AccountRow]) -> bool
    ensures { result ≡ list_all order.has_ordered_tokens accounts.now }
{
    accounts.iter().all(|account| has_ordered_tokens(account))
}

fn have_ordered_parts(rows: &[SnapPoint]) -> bool
    ensures { result ≡ list_all order.has_ordered_parts rows.now }
{
    rows.iter().all(|row| has_ordered_parts(row))
}

fn have_ordered_entries(nodes: &[NodeRow]) -> bool
    ensures { result ≡ list_all order.has_ordered_entries nodes.now }
{
    nodes.iter().all(|node| has_ordered_entries(node))
}

fn has_ordered_members(point: &Checkpoint) -> bool
    ensures { result ≡ order.has_ordered_members point.now }
{
    have_ordered_tokens(point.accounts.as_slice())
        && have_ordered_parts(point.snapshots.as_slice())
        && have_ordered_entries(point.nodes.as_slice())
}

/// Whether every list that has an order is strictly ascending.
pub fn is_ordered(point: &Checkpoint) -> bool
    ensures { result ≡ order.is_ordered point.now }
{
    has_ordered_rows(point) && has_ordered_blocks(point) && has_ordered_members(point)
}
