// What no clause says of policies: that the list of them has those that were made.
ghost use Rattle.std.specs.Prelude.{IfOk};
ghost use Rattle.ebs_recovery.specs.inner.Changes.{IsRowChange};

use super::new_store;
use ebs_disk_store::Store;
use ebs_model::{
    Account, AnyKey, Ids, KeyNumber, Moment, PolicyKey, Request, Retain, Tag, Tags, Text,
};
use ebs_world::MemoryDisk;
use std::alloc::{AllocError, Global};
use std::marker::Brand;
use std::test::Fail;

const NOW: Moment = Moment { second: 1000 };

fn target_tags(alloc: Global) -> Result<Tags, AllocError> {
    let mut tags = Tags::new(alloc);
    tags.push(Tag {
        key: Text::from_string(String::from_str(alloc, "daily")?),
        value: Text::from_string(String::from_str(alloc, "yes")?),
    })?;
    Ok(tags)
}

fn policy(alloc: Global) -> Result<Request, AllocError>
    ensures { IfOk result IsRowChange }
{
    Ok(Request::CreatePolicy {
        targets: target_tags(alloc)?,
        hours: 24,
        at: 10800,
        retain: Retain::Count(1),
        add: Tags::new(alloc),
    })
}

fn create(
    store: &mut Store<Brand>,
    alloc: Global,
    disk: &mut MemoryDisk,
    account: u32,
) -> Result<(), AllocError> {
    let request = policy(alloc)?;
    drop(store.change(disk, Account::new(u64::from(account)), NOW, request));
    Ok(())
}

/// The policies of a store in which each account made one more.
fn listed(
    store: &mut Store<Brand>,
    alloc: Global,
    disk: &mut MemoryDisk,
    accounts: &[u32],
) -> Result<Ids, AllocError> {
    for account in accounts {
        create(store, alloc, disk, *account)?;
    }
    store.policies()
}

fn first_of(account: u32) -> AnyKey {
    AnyKey::Policy(PolicyKey {
        account: Account::new(u64::from(account)),
        number: KeyNumber::new(0),
    })
}

#[test]
fn policies_are_listed_by_account(rt: HostRuntime) -> Result<(), Fail> {
    let alloc = rt.alloc();
    let mut disk = MemoryDisk::new(alloc, Vec::new(alloc));
    let mut store = new_store(alloc, &mut disk).expect(&rt, "a store");
    let ids = listed(&mut store, alloc, &mut disk, &[2, 1]);
    drop(store);
    assert!(rt; ids?.as_slice() == [first_of(1), first_of(2)].as_slice());
    Ok(())
}
