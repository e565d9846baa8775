//! The exact text of each answer.
#![tactic(auto)]

ghost use Rattle.std.specs.Prelude.{◌≡◌, ◌++◌, [], true, IfOk};
ghost use Rattle.ebs_shown.specs.inner.Members.{members_of};
ghost use Rattle.ebs_print.specs.Printed.{json_message, text_of, created_status, memory_text};
ghost use Rattle.ebs_print.specs.inner.Printed.{status_of, block_of, shows_object, shows_rows};

mod blocks;
mod frame;
mod laws;
mod objects;
mod refusals;

use crate::blocks::{block_head, block_written, zero_head, zeros};
use crate::frame::json_message;
pub use crate::laws::{answers_split, faults_are_told};
use crate::objects::{
    completed, lock, page, policy, row_list, rule_list, run, started, tier, volume,
};
use crate::refusals::refused;
use ebs_model::{Answer, Bytes};
use ebs_shown::{Object, row_object, rule_object};
use http::StatusCode;
use std::alloc::{AllocError, Global};

/// The message that tells an answer: what is printed of it, and behind that its block as it stands in the answer, if it
/// has one.
#[derive(Debug, Drop)]
pub struct Printed<'a> {
    pub text: Bytes,
    pub block: &'a [u8],
}

/// The message that tells the answer (RFC 9112, section 2.1), whose block isn't copied. It fails only for want of memory.
pub fn write_answer<'a>(alloc: Global, answer: &'a Answer) -> Result<Printed<'a>, AllocError>
    ensures { IfOk result (λ printed. printed.text ++ printed.block.now ≡ text_of answer.now) }
{
    let text = text_before_block(alloc, answer)?;
    let block = block_of(answer);
    Ok(Printed { text, block })
}

fn block_of(answer: &Answer) -> &[u8]
    ensures { result.now ≡ block_of answer.now }
{
    match answer {
        Answer::BlockRead { digest: _, bytes } => bytes.as_slice(),
        Answer::ZeroBlockRead => zeros(),
        _ => &[],
    }
}

fn text_before_block(alloc: Global, answer: &Answer) -> Result<Bytes, AllocError>
    ensures { IfOk result (λ text. text ++ block_of answer.now ≡ text_of answer.now) }
{
    match answer {
        Answer::BlockWritten { digest } => block_written(alloc, digest),
        Answer::BlockRead { digest, bytes } => block_head(alloc, digest, bytes.len()),
        Answer::ZeroBlockRead => zero_head(alloc),
        Answer::Refused(refusal) => refused(alloc, refusal),
        Answer::Memory => Bytes::from_slice(alloc, memory_answer()),
        _ => object_text(alloc, answer),
    }
}

/// The text of an answer whose body is an object and that is no refusal.
fn object_text(alloc: Global, answer: &Answer) -> Result<Bytes, AllocError>
    requires { shows_object answer.now ≡ true }
    ensures { IfOk result (λ text. text ≡ text_of answer.now) }
{
    let object = object_of(alloc, answer)?;
    json_message(status_of(answer), "", object)
}

fn status_of(answer: &Answer) -> StatusCode
    ensures { result ≡ status_of answer.now }
{
    match answer {
        Answer::Started { .. } => StatusCode::CREATED,
        Answer::Completed => StatusCode::ACCEPTED,
        Answer::SnapshotShown { created, .. } => created_status(*created),
        Answer::VolumeShown { created, .. } => created_status(*created),
        Answer::RuleShown { created, .. } => created_status(*created),
        Answer::PolicyShown { created, .. } => created_status(*created),
        _ => StatusCode::OK,
    }
}

fn created_status(created: bool) -> StatusCode
    ensures { result ≡ created_status created }
{
    if created {
        StatusCode::CREATED
    } else {
        StatusCode::OK
    }
}

fn object_of(alloc: Global, answer: &Answer) -> Result<Object, AllocError>
    requires { shows_object answer.now ≡ true }
    ensures { IfOk result (λ object. text_of answer.now ≡ json_message (status_of answer.now) [] (members_of object)) }
{
    match answer {
        Answer::Started {
            description,
            owner,
            parent,
            key,
            start,
            tags,
            size,
        } => started(alloc, description, owner, parent, key, start, tags, *size),
        Answer::Completed => completed(alloc),
        Answer::BlockList {
            entries,
            expiry,
            next,
            size,
        } => page(alloc, "Blocks", entries.as_slice(), expiry, next, *size),
        Answer::ChangedList {
            entries,
            expiry,
            next,
            size,
        } => page(
            alloc,
            "ChangedBlocks",
            entries.as_slice(),
            expiry,
            next,
            *size,
        ),
        _ => row_object_of(alloc, answer),
    }
}

/// The object of an answer that shows rows, or that a command on them is done.
fn row_object_of(alloc: Global, answer: &Answer) -> Result<Object, AllocError>
    requires { shows_rows answer.now ≡ true }
    ensures { IfOk result (λ object. text_of answer.now ≡ json_message (status_of answer.now) [] (members_of object)) }
{
    match answer {
        Answer::SnapshotShown { created: _, row } => row_object(alloc, row),
        Answer::SnapshotList { next, rows } => row_list(alloc, next, rows.as_slice()),
        Answer::Done => Ok(Object::new(alloc)),
        Answer::LockShown { lock: name, until } => lock(alloc, name, until),
        Answer::TierShown {
            restore_until,
            tier: name,
        } => tier(alloc, restore_until, *name),
        Answer::VolumeShown {
            created: _,
            size,
            origin,
            tags,
            key,
        } => volume(alloc, *size, origin, tags.as_slice(), key),
        Answer::RuleShown { created: _, row } => rule_object(alloc, row),
        Answer::RuleList { rows } => rule_list(alloc, rows.as_slice()),
        Answer::PolicyShown {
            created: _,
            key,
            last,
        } => policy(alloc, key, last),
        Answer::PolicyRan { deleted, made } => run(alloc, deleted.as_slice(), made.as_slice()),
        _ => unreachable!(),
    }
}

/// The message that tells of want of memory. It takes no memory.
pub fn memory_answer() -> &'static [u8]
    ensures { result.now ≡ memory_text }
{
    b"HTTP/1.1 507 Insufficient Storage\r\nContent-Type: application/json\r\nContent-Length: 85\r\n\r\n{\"Message\":\"out of memory\",\"Reason\":\"OUT_OF_MEMORY\",\"Type\":\"InternalServerException\"}"
}
