// Lifecycle policies, and their runs.
use super::*;
use ebs_model::{AnyKey, Ids, PolicyKey};

const CREATED: &str =
    "HTTP/1.1 201 Created\r\nContent-Type: application/json\r\nContent-Length: 54\r\n\r\n{\"LastRun\":1000,\"PolicyId\":\"policy-00000000010000002\"}";

const FOUND: &str =
    "HTTP/1.1 200 OK\r\nContent-Type: application/json\r\nContent-Length: 61\r\n\r\n{\"LastRun\":68719476736,\"PolicyId\":\"policy-e8d4a50ffffffffff\"}";

const RAN: &str =
    "HTTP/1.1 200 OK\r\nContent-Type: application/json\r\nContent-Length: 97\r\n\r\n{\"Deleted\":[\"snap-00000000010000000\",\"snap-00000000010000003\"],\"Made\":[\"snap-0000000001000000a\"]}";

const IDLE: &str =
    "HTTP/1.1 200 OK\r\nContent-Type: application/json\r\nContent-Length: 24\r\n\r\n{\"Deleted\":[],\"Made\":[]}";

fn created() -> Answer {
    Answer::PolicyShown {
        created: true,
        key: PolicyKey {
            account: Account::new(1),
            number: KeyNumber::new(2),
        },
        last: Moment { second: 1000 },
    }
}

fn found() -> Answer {
    Answer::PolicyShown {
        created: false,
        key: PolicyKey {
            account: last_account(),
            number: last_number(),
        },
        last: Moment {
            second: 68_719_476_736,
        },
    }
}

#[test]
fn a_policy_shows_its_last_run(rt: HostRuntime) {
    let alloc = rt.alloc();
    assert!(rt; is_told(alloc, created(), CREATED) && is_told(alloc, found(), FOUND));
}

fn ids_of(alloc: Global, numbers: &[u8]) -> Result<Ids, AllocError> {
    let mut ids = Ids::new(alloc);
    for number in numbers {
        let key = AnyKey::Snap(snap(*number));
        ids.push(key)?;
    }
    Ok(ids)
}

fn ran(alloc: Global, deleted: &[u8], made: &[u8]) -> Result<Answer, AllocError> {
    let deleted = ids_of(alloc, deleted)?;
    let made = ids_of(alloc, made)?;
    Ok(Answer::PolicyRan { deleted, made })
}

/// Whether a run that deleted and made these snapshots is told so.
fn runs_so(alloc: Global, deleted: &[u8], made: &[u8], want: &str) -> bool {
    made_so(alloc, ran(alloc, deleted, made), want)
}

#[test]
fn a_run_shows_what_it_deleted_and_what_it_made(rt: HostRuntime) {
    let alloc = rt.alloc();
    assert!(rt; runs_so(alloc, &[0, 3], &[10], RAN) && runs_so(alloc, &[], &[], IDLE));
}
