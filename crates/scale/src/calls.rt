// The calls of one account at one moment.
ghost use Rattle.std.specs.Prelude.{IfSome};
ghost use Rattle.ebs_kept.specs.inner.Requests.{HasNoBlock};

use crate::told::{Told, made_of};
use ebs_kept::{Kept, Place};
use ebs_model::{Account, Moment, Request, SnapKey, Tags, Text, VolKey, bad_member};
use std::alloc::Global;

const SIZE: u64 = 16;

const READING: Moment = Moment { second: 1000 };

const MOST_LISTED: u32 = 10000;

/// A description of 255 bytes.
const DESCRIPTION: &str =
    "snapshot of a disk image snapshot of a disk image snapshot of a disk image snapshot of a disk image snapshot of a disk image snapshot of a disk image snapshot of a disk image snapshot of a disk image snapshot of a disk image snapshot of a disk image snaps";

/// A call of the account.
#[derive(Clone, Copy)]
pub enum Call {
    /// A start of an upload of 16 GiB, with a description of 255 bytes.
    Start(Option<SnapKey>),
    /// The end of an upload with so many blocks.
    End(SnapKey, u64),
    List(SnapKey),
    Changed(SnapKey, SnapKey),
    Describe(SnapKey),
    /// A volume of 1 GiB, with the number's digits as its client token.
    Create(u64),
    Delete(VolKey),
}

fn request_of(alloc: Global, call: Call) -> Option<Request>
    ensures { IfSome result (λ request. HasNoBlock request) }
{
    match call {
        Call::Start(parent) => start_request(alloc, parent),
        Call::End(key, count) => Some(Request::CompleteSnapshot {
            key,
            count,
            checksum: None,
        }),
        Call::List(key) => Some(Request::ListSnapshotBlocks {
            key,
            page: None,
            max: MOST_LISTED,
            start: 0,
        }),
        Call::Changed(first, second) => Some(Request::ListChangedBlocks {
            first,
            second,
            page: None,
            max: MOST_LISTED,
            start: 0,
        }),
        Call::Describe(key) => Some(Request::DescribeSnapshot { key }),
        Call::Create(token) => creation(alloc, token),
        Call::Delete(key) => Some(Request::DeleteVolume { key }),
    }
}

fn start_request(alloc: Global, parent: Option<SnapKey>) -> Option<Request>
    ensures { IfSome result (λ request. HasNoBlock request) }
{
    let description = String::from_str(alloc, DESCRIPTION).ok()?;
    Some(Request::StartSnapshot {
        size: SIZE,
        parent,
        description: Some(Text::from_string(description)),
        tags: Tags::new(alloc),
        client_token: None,
        timeout: 60,
    })
}

fn creation(alloc: Global, token: u64) -> Option<Request>
    ensures { IfSome result (λ request. HasNoBlock request) }
{
    let text = format!(in alloc; "{token}").ok()?;
    Some(Request::CreateVolume {
        origin: None,
        size: Some(1),
        tags: Tags::new(alloc),
        client_token: Some(Text::from_string(text)),
    })
}

/// What is told of the answer to a call, and nothing much where there is no memory for the call.
pub fn ask(kept: &mut Kept, call: Call) -> Told {
    match request_of(kept.alloc(), call) {
        Some(request) => answered(kept, &request),
        None => Told::Other,
    }
}

// And nothing much where a member is out of its limits.
fn answered(kept: &mut Kept, request: &Request) -> Told
    requires bare { HasNoBlock request.now }
{
    let now = kept.moment_of(READING);
    if bad_member(request).is_some() {
        return Told::Other;
    }
    let answer = kept.act(owner(), now, request);
    made_of(&answer)
}

/// What is told of a put of a block.
pub fn put(kept: &mut Kept, key: &SnapKey, index: u64) -> Told {
    let now = kept.moment_of(READING);
    let answer = kept.put(owner(), now, &Place::Upload(*key), index, [7; 32]);
    made_of(&answer)
}

fn owner() -> Account {
    Account::new(1)
}
