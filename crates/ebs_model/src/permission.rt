// With whom a snapshot is shared.
ghost use Rattle.std.specs.Prelude.{◌≡◌, OnOk, IfOk};
ghost use Rattle.std.specs.FinMap as fin;
ghost use Rattle.std.specs.Ordering.{nat_cmp};
ghost use Rattle.ebs_tables.specs.Seen.{seen};
ghost use Rattle.ebs_model.specs.Calls.Permission as permission;

use crate::keys::Account;
use crate::tags::Accounts;
use ebs_tables::{Sequence, Table};
use std::alloc::{AllocError, Global};

/// The accounts after a change: the added are in, and the removed are out.
pub fn permitted(
    alloc: Global,
    shared: &Accounts,
    add: &Accounts,
    remove: &Accounts,
) -> Result<Accounts, AllocError>
    ensures { IfOk result (λ accounts. accounts ≡ permission.permitted shared.now add.now remove.now) }
{
    let mut set = Table::new(alloc);
    put_all(&mut set, shared.as_slice())?;
    put_all(&mut set, add.as_slice())?;
    take_all(&mut set, remove.as_slice());
    listed(alloc, &set)
}

fn put_all(set: &mut Table<Account, ()>, accounts: &[Account]) -> Result<(), AllocError>
    ensures { OnOk result (seen nat_cmp set.new ≡ permission.with_all accounts.now (seen nat_cmp set.old)) }
{
    for account in accounts {
        set.insert(*account, ())?;
    }
    Ok(())
}

fn take_all(set: &mut Table<Account, ()>, accounts: &[Account])
    ensures { seen nat_cmp set.new ≡ permission.without_all accounts.now (seen nat_cmp set.old) }
{
    for account in accounts {
        set.remove(account);
    }
}

fn listed(alloc: Global, set: &Table<Account, ()>) -> Result<Accounts, AllocError>
    ensures { IfOk result (λ accounts. accounts ≡ fin.keys (seen nat_cmp set.now)) }
{
    let mut accounts = Vec::new(alloc);
    for (account, ()) in set.iter() {
        accounts.push(*account)?;
    }
    Ok(Sequence::from_vec(accounts))
}

/// Whether everybody may read the snapshot after a change.
pub fn is_public(public: bool, add_all: bool, remove_all: bool) -> bool
    ensures { result ≡ permission.is_public public add_all remove_all }
{
    (public || add_all) && !remove_all
}
