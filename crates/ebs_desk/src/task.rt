// A call as its turn does it.
ghost use Rattle.std.specs.Prelude.{◌≡◌, length, true, false};
ghost use Rattle.ebs_world.specs.View.{Leaves};
ghost use Rattle.ebs_model.specs.Quotas.{Rose};
ghost use Rattle.ebs_recovery.specs.Made.{called};
ghost use Rattle.ebs_recovery.specs.inner.Fits.{Fits};
ghost use Rattle.ebs_disk_store.specs.inner.Told.{IfSound, at_reading, called_at};
ghost use Rattle.ebs_disk_store.specs.inner.Turned.{MayLeave, Turn};
ghost use Rattle.ebs_disk_store.specs.inner.Applied.{Applied};
ghost use Rattle.ebs_disk_store.specs.inner.Fetched.{IsFetch, answer_of};
ghost use Rattle.ebs_desk.specs.Tasks.{request_of, IsWholePut, IsPrepared, RanFor};

use ebs_disk_store::{Loaded, Promise, PutHead, Store};
use ebs_model::{Account, Answer, Bytes, Moment, Refusal, Request, bad_member};
use ebs_slots::Prepared;
use ebs_world::Disk;

/// A call, ready for its turn.
#[derive(Drop)]
pub(crate) enum Task {
    /// A put within its limits, whose block was hashed.
    Put(PutHead, Prepared),
    /// A read of a block, which is hashed behind its turn.
    Fetch(Request),
    /// Any other call.
    Call(Request),
}

fn is_whole_put(request: &Request) -> bool
    ensures yes { result ≡ true → IsWholePut request.now }
    ensures no { result ≡ false → IsWholePut request.now → ⊥ }
{
    match request {
        Request::PutSnapshotBlock { .. } | Request::WriteVolumeBlock { .. } => {
            bad_member(request).is_none()
        }
        _ => false,
    }
}

fn is_fetch(request: &Request) -> bool
    ensures yes { result ≡ true → IsFetch request.now }
    ensures no { result ≡ false → IsFetch request.now → ⊥ }
{
    match request {
        Request::GetSnapshotBlock { .. } | Request::ReadVolumeBlock { .. } => true,
        _ => false,
    }
}

// Hashes a block that has its size.
fn hash_block(head: PutHead, bytes: Bytes) -> Task
    requires { length bytes ≡ 524288 }
    ensures { result ≡ Task.Put head bytes }
{
    let Ok(block) = Prepared::new(bytes.into_vec()) else {
        unreachable!()
    };
    Task::Put(head, block)
}

// Hashes the block of a put within its limits.
fn hash_put(request: Request) -> Task
    requires { IsWholePut request }
    ensures asked { request_of result ≡ request }
    ensures prepared { IsPrepared result }
{
    match request {
        Request::PutSnapshotBlock {
            key,
            index,
            digest,
            bytes,
        } => hash_block(PutHead::Snapshot { key, index, digest }, bytes),
        Request::WriteVolumeBlock {
            key,
            index,
            digest,
            bytes,
        } => hash_block(PutHead::Volume { key, index, digest }, bytes),
        _ => unreachable!(),
    }
}

/// Makes a call ready: the block of a put within its limits is hashed, and no byte copied.
pub(crate) fn prepare(request: Request) -> Task
    ensures asked { request_of result ≡ request }
    ensures prepared { IsPrepared result }
{
    if is_whole_put(&request) {
        hash_put(request)
    } else if is_fetch(&request) {
        Task::Fetch(request)
    } else {
        Task::Call(request)
    }
}

/// Does the call of an account, as the store does it, but that a block that is read isn't hashed.
pub(crate) fn apply_task<S: Promise, D: Disk>(
    store: &mut Store<S>,
    disk: &mut D,
    account: Account,
    reading: Moment,
    task: Task,
) -> Loaded
    requires prepared { IsPrepared task }
    requires fits { Fits S.sound (D.view disk.old) store.old }
    ensures fits { Fits S.sound (D.view disk.new) store.new }
    ensures told { Applied (disk.new ≡ disk.old) (Rose (D.view disk.old).faults (D.view disk.new).faults) (D.view disk.old) store.old store.new account (at_reading store.old reading) (request_of task) (answer_of result) }
    ensures cause { answer_of result ≡ Answer.Refused Refusal.Unavailable → Rose (D.view disk.old).faults (D.view disk.new).faults }
    ensures step { IfSound S.sound (D.view disk.old) (Turn (D.view disk.old) (D.view disk.new) store.old store.new account reading (request_of task) (answer_of result)) }
    ensures moments { IfSound S.sound (D.view disk.old) (Leaves (D.view disk.old) (D.view disk.new)
        (MayLeave (answer_of result ≡ Answer.Refused Refusal.Unavailable) (D.view disk.old) (D.view disk.new) store.old store.new (called (called_at account (at_reading store.old reading) (request_of task))))) }
    ensures ran { RanFor task store.old.slots (D.view disk.old) (D.view disk.new) }
{
    match task {
        Task::Put(head, block) => {
            let answer = store.put(disk, account, reading, head, &block);
            Loaded::Answered(answer)
        }
        Task::Fetch(request) => {
            let loaded = store.load(disk, account, reading, &request);
            drop(request);
            loaded
        }
        Task::Call(request) => {
            let answer = store.apply(disk, account, reading, request);
            Loaded::Answered(answer)
        }
    }
}
