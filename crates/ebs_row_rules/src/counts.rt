// How many rows an account has.
ghost use Rattle.std.specs.Prelude.{◌≡◌, true};
ghost use Rattle.std.specs.List.{list_all, count_by};
ghost use Rattle.ebs_row_rules.specs.Order as order;
ghost use Rattle.ebs_row_rules.specs.Counts as counts;

use crate::order::Keyed;
use ebs_checkpoints::{AccountRow, Checkpoint, SnapPoint, VolPoint};
use ebs_model::{
    Account, MOST_KEPT, MOST_OPEN, MOST_POLICIES, MOST_RULES, MOST_VOLUMES, Moment, Policy, Rule,
};

/// A row of an account. In ascending key those of one account stand side by side.
trait Owned: Keyed {
    ghost use Rattle.std.specs.Prelude.{ℕ, ◌≡◌, ◌≤◌, true};
    ghost use Rattle.std.specs.Ordering.{is_lt};

    ghost owner: { Self → ℕ };

    fn owner(&self) -> Account
        ensures { result ≡ owner self.now };

    ghost grouped: { (a b : Self) → is_lt (Self.Key.cmp (Self.Keyed.key a) (Self.Keyed.key b)) ≡ true → owner a ≤ owner b };
}

impl Owned for SnapPoint {
    ghost use Rattle.ebs_row_rules.specs.inner.Counts.{account_first};

    ghost owner = { λ row. row.key.account };

    ghost grouped = { λ a b h. account_first a.key.account b.key.account a.key.number b.key.number h };

    fn owner(&self) -> Account {
        self.key.account
    }
}

impl Owned for VolPoint {
    ghost use Rattle.ebs_row_rules.specs.inner.Counts.{account_first};

    ghost owner = { λ point. point.row.key.account };

    ghost grouped = { λ a b h. account_first a.row.key.account b.row.key.account a.row.key.number b.row.key.number h };

    fn owner(&self) -> Account {
        self.row.key.account
    }
}

impl Owned for Rule {
    ghost use Rattle.ebs_row_rules.specs.inner.Counts.{account_first};

    ghost owner = { λ rule. rule.key.account };

    ghost grouped = { λ a b h. account_first a.key.account b.key.account a.key.number b.key.number h };

    fn owner(&self) -> Account {
        self.key.account
    }
}

impl Owned for Policy {
    ghost use Rattle.ebs_row_rules.specs.inner.Counts.{account_first};

    ghost owner = { λ policy. policy.key.account };

    ghost grouped = { λ a b h. account_first a.key.account b.key.account a.key.number b.key.number h };

    fn owner(&self) -> Account {
        self.key.account
    }
}

/// The rows of the account.
fn rows_of<T: Owned>(rows: &[T], account: Account) -> &[T]
    requires { order.ascends T.Key.cmp T.key rows.now ≡ true }
    ensures { result.now ≡ counts.rows_of T.owner account rows.now }
{
    let start = rows.partition_point(|row| row.owner().number() < account.number());
    let rest = &rows[start..];
    let count = rest.partition_point(|row| row.owner().number() <= account.number());
    &rest[..count]
}

fn is_open(row: &SnapPoint, clock: Moment) -> bool
    ensures { result ≡ counts.is_open clock row.now }
{
    let end = u128::from(row.last.second) + 60 * u128::from(row.timeout);
    !row.completed && u128::from(clock.second) < end
}

fn open_uploads(rows: &[SnapPoint], clock: Moment) -> usize
    ensures { result ≡ count_by (counts.is_open clock) rows.now }
{
    rows.iter().filter(|row| is_open(row, clock)).count()
}

fn has_few_snapshots(rows: &[SnapPoint], clock: Moment) -> bool
    ensures { result ≡ counts.has_few_snapshots clock rows.now }
{
    rows.len() as u64 <= MOST_KEPT && open_uploads(rows, clock) as u64 <= MOST_OPEN
}

fn has_few_volumes(point: &Checkpoint, account: Account) -> bool
    requires { order.has_ordered_rows point.now ≡ true }
    ensures { result ≡ counts.has_few_volumes point.now account }
{
    rows_of(point.volumes.as_slice(), account).len() as u64 <= MOST_VOLUMES
}

fn has_few_rules(point: &Checkpoint, account: Account) -> bool
    requires { order.has_ordered_rows point.now ≡ true }
    ensures { result ≡ counts.has_few_rules point.now account }
{
    rows_of(point.rules.as_slice(), account).len() <= MOST_RULES
}

fn has_few_policies(point: &Checkpoint, account: Account) -> bool
    requires { order.has_ordered_rows point.now ≡ true }
    ensures { result ≡ counts.has_few_policies point.now account }
{
    rows_of(point.policies.as_slice(), account).len() <= MOST_POLICIES
}

fn is_in_quotas(point: &Checkpoint, account: Account) -> bool
    requires { order.has_ordered_rows point.now ≡ true }
    ensures { result ≡ counts.is_in_quotas point.now account }
{
    has_few_snapshots(rows_of(point.snapshots.as_slice(), account), point.clock)
        && has_few_volumes(point, account)
        && has_few_rules(point, account)
        && has_few_policies(point, account)
}

fn accounts_are_in_quotas(point: &Checkpoint, accounts: &[AccountRow]) -> bool
    requires { order.has_ordered_rows point.now ≡ true }
    ensures { result ≡ list_all (counts.has_quotas point.now) accounts.now }
{
    accounts.iter().all(|row| is_in_quotas(point, row.account))
}

/// Whether no account has more of a kind than it can have.
pub fn are_in_quotas(point: &Checkpoint) -> bool
    requires { order.is_ordered point.now ≡ true }
    ensures { result ≡ counts.are_in_quotas point.now }
{
    accounts_are_in_quotas(point, point.accounts.as_slice())
}
