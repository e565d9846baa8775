// What no clause says of calls with a client token on a disk: that a repeat writes nothing there.
ghost use Rattle.std.specs.Prelude.{IfOk};
ghost use Rattle.ebs_recovery.specs.inner.Changes.{IsRowChange};

use super::new_store;
use ebs_disk_store::Store;
use ebs_model::{
    Account, Answer, KeyNumber, Moment, Refusal, Request, SnapKey, Tags, Text, VolKey,
};
use ebs_world::{Disk, MemoryDisk};
use std::alloc::{AllocError, Global};
use std::marker::Brand;
use std::test::Fail;

/// A call of account 1, whose starts have the client token "once".
#[derive(Clone, Copy)]
enum Ask {
    Start { minutes: u32 },
    Create { size: u64 },
    Snap,
    Copy,
}

/// What is told of an answer.
#[derive(Clone, Copy, PartialEq, Eq)]
enum Outcome {
    Started,
    Conflict,
    Volume(u64),
    Snapshot,
    Other,
}

fn once(alloc: Global) -> Result<Option<Text>, AllocError> {
    Ok(Some(Text::from_string(String::from_str(alloc, "once")?)))
}

fn asked(alloc: Global, ask: Ask) -> Result<Request, AllocError>
    ensures { IfOk result IsRowChange }
{
    let account = Account::new(1);
    let tags = Tags::new(alloc);
    match ask {
        Ask::Start { minutes } => Ok(Request::StartSnapshot {
            size: 1,
            parent: None,
            description: None,
            tags,
            client_token: once(alloc)?,
            timeout: minutes,
        }),
        Ask::Create { size } => Ok(Request::CreateVolume {
            origin: None,
            size: Some(size),
            tags,
            client_token: None,
        }),
        Ask::Snap => Ok(Request::CreateSnapshot {
            key: VolKey {
                account,
                number: KeyNumber::new(0),
            },
            description: None,
            tags,
        }),
        Ask::Copy => Ok(Request::CreateVolume {
            origin: Some(SnapKey {
                account,
                number: KeyNumber::new(1),
            }),
            size: None,
            tags,
            client_token: None,
        }),
    }
}

fn outcome_of(answer: &Answer) -> Outcome {
    match answer {
        Answer::Started { .. } => Outcome::Started,
        Answer::Refused(Refusal::TokenConflict(_)) => Outcome::Conflict,
        Answer::VolumeShown { size, .. } => Outcome::Volume(*size),
        Answer::SnapshotShown { .. } => Outcome::Snapshot,
        _ => Outcome::Other,
    }
}

/// Calls one after the other, with what comes of each and whether the disk is called.
const CALLS: [(Ask, Outcome, bool); 6] = [
    (Ask::Start { minutes: 60 }, Outcome::Started, true),
    (Ask::Start { minutes: 60 }, Outcome::Started, false),
    (Ask::Start { minutes: 61 }, Outcome::Conflict, false),
    (Ask::Create { size: 2 }, Outcome::Volume(2), true),
    (Ask::Snap, Outcome::Snapshot, true),
    (Ask::Copy, Outcome::Volume(2), true),
];

/// What comes of a call, and whether the disk is called.
fn play(
    store: &mut Store<Brand>,
    alloc: Global,
    disk: &mut MemoryDisk,
    ask: Ask,
) -> Result<(Outcome, bool), AllocError> {
    let before = disk.moment();
    let request = asked(alloc, ask)?;
    let answer = store.change(disk, Account::new(1), Moment { second: 9 }, request);
    let outcome = outcome_of(&answer);
    drop(answer);
    Ok((outcome, disk.moment() > before))
}

/// Whether each call comes to what is written beside it.
fn is_played(
    store: &mut Store<Brand>,
    alloc: Global,
    disk: &mut MemoryDisk,
    calls: &[(Ask, Outcome, bool)],
) -> Result<bool, AllocError> {
    for (ask, outcome, is_called) in calls {
        if play(store, alloc, disk, *ask)? != (*outcome, *is_called) {
            return Ok(false);
        }
    }
    Ok(true)
}

#[test]
fn a_repeat_calls_no_disk(rt: HostRuntime) -> Result<(), Fail> {
    let alloc = rt.alloc();
    let mut disk = MemoryDisk::new(alloc, Vec::new(alloc));
    let mut store = new_store(alloc, &mut disk).expect(&rt, "a store");
    let is_so = is_played(&mut store, alloc, &mut disk, &CALLS);
    drop(store);
    assert!(rt; is_so?);
    Ok(())
}
