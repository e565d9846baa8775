// The table of refusals.
ghost use Rattle.std.specs.Prelude.{◌≡◌, ◌++◌, ℕ, codes, nat_eq, string_bytes, IfOk};
ghost use Rattle.std.specs.List.{list_any};
ghost use Rattle.std.specs.Cmp.Lexicographic.{pointwise};
ghost use Rattle.ebs_shown.specs.inner.Members.{members_of};
ghost use Rattle.ebs_shown.specs.Values.{base64_text};
ghost use Rattle.ebs_print.specs.Refusals as spec;
ghost use Rattle.ebs_print.specs.Printed.{row_text};

use crate::frame::json_message;
use ebs_model::{Bytes, FirstKey, Kind, Refusal, Text, snap_text, vol_text};
use ebs_shown::{Object, base64_text, quota_text, spent_text, state_text};
use http::StatusCode;
use std::alloc::{AllocError, Global};

pub fn refused(alloc: Global, refusal: &Refusal) -> Result<Bytes, AllocError>
    ensures { IfOk result (λ text. text ≡ row_text (spec.row_of refusal.now)) }
{
    let (status, kind, reason) = row_of(refusal);
    let message = message_of(alloc, refusal)?;
    let object = row_object(alloc, kind, reason, message.as_str())?;
    json_message(status, "", object)
}

#[tactic(auto, unfolding(crate::specs::Refusals::row_members))]
fn row_object(alloc: Global, kind: &str, reason: &str, message: &str) -> Result<Object, AllocError>
    ensures { (status : ℕ) → IfOk result (λ object. members_of object
        ≡ spec.row_members (spec.row status kind.now reason.now message.now)) }
{
    let mut object = Object::new(alloc);
    object.put_text("Type", kind)?;
    object.put_text("Reason", reason)?;
    object.put_text("Message", message)?;
    Ok(object)
}

/// What a refusal prints beside its message: the status, the type and the reason.
fn row_of(refusal: &Refusal) -> (StatusCode, &'static str, &'static str)
    ensures status { result.0 ≡ (spec.row_of refusal.now).status }
    ensures kind { result.1.now ≡ (spec.row_of refusal.now).kind }
    ensures reason { result.2.now ≡ (spec.row_of refusal.now).reason }
{
    let bad = StatusCode::BAD_REQUEST;
    let spent = StatusCode::PAYMENT_REQUIRED;
    let invalid = "ValidationException";
    let absent = "ResourceNotFoundException";
    let conflict = "ConflictException";
    let denied = "AccessDeniedException";
    let internal = "InternalServerException";
    let exceeded = "ServiceQuotaExceededException";
    match refusal {
        Refusal::BadParameter(name) => (bad, invalid, parameter_reason(name.as_str())),
        Refusal::BadSize => (bad, invalid, "INVALID_VOLUME_SIZE"),
        Refusal::BadIndex => (bad, invalid, "INVALID_BLOCK"),
        Refusal::BadBlockToken => (bad, invalid, "INVALID_BLOCK_TOKEN"),
        Refusal::BadPageToken => (bad, invalid, "INVALID_PAGE_TOKEN"),
        Refusal::WrongState(_) => (StatusCode::CONFLICT, conflict, "INVALID_STATE"),
        Refusal::Unrelated => (bad, invalid, "UNRELATED_SNAPSHOTS"),
        Refusal::Checksum { .. } => (bad, invalid, "CHECKSUM_DIFFERS"),
        Refusal::NotFound(kind) => (StatusCode::NOT_FOUND, absent, absence_reason(*kind)),
        Refusal::NotOwner => (StatusCode::FORBIDDEN, denied, "UNAUTHORIZED_ACCOUNT"),
        Refusal::TokenConflict(_) => (StatusCode::CONFLICT, conflict, "TOKEN_CONFLICT"),
        Refusal::OpenUploads => (bad, "ConcurrentLimitExceededException", "OPEN_UPLOADS"),
        Refusal::Quota { .. } => (spent, exceeded, "QUOTA"),
        Refusal::Locked(_) => (StatusCode::CONFLICT, conflict, "LOCKED"),
        Refusal::RuleLocked => (StatusCode::CONFLICT, conflict, "RULE_LOCKED"),
        Refusal::Exhausted(_) => (spent, exceeded, "EXHAUSTED"),
        Refusal::Unavailable => (StatusCode::SERVICE_UNAVAILABLE, internal, "UNAVAILABLE"),
        Refusal::Damaged { .. } => (StatusCode::INTERNAL_SERVER_ERROR, internal, "DAMAGED"),
        Refusal::NoSuchCall => (StatusCode::NOT_FOUND, invalid, "UNKNOWN_CALL"),
    }
}

fn message_of(alloc: Global, refusal: &Refusal) -> Result<String, AllocError>
    ensures { IfOk result (λ text. string_bytes text ≡ (spec.row_of refusal.now).message) }
{
    match refusal {
        Refusal::BadParameter(name) => format!(in alloc; "bad parameter: {name}"),
        Refusal::BadSize => String::from_str(alloc, "bad volume size"),
        Refusal::BadIndex => String::from_str(alloc, "bad block index"),
        Refusal::BadBlockToken => String::from_str(alloc, "bad block token"),
        Refusal::BadPageToken => String::from_str(alloc, "bad page token"),
        Refusal::WrongState(name) => format!(in alloc; "wrong state: {}", state_text(*name)),
        Refusal::Unrelated => String::from_str(alloc, "unrelated snapshots"),
        Refusal::Checksum { stated, found } => digests_message(
            alloc,
            "checksum stated ",
            stated,
            found,
        ),
        Refusal::NotFound(_) => String::from_str(alloc, "not found"),
        Refusal::NotOwner => String::from_str(alloc, "not the owner"),
        Refusal::TokenConflict(first) => conflict_message(alloc, *first),
        Refusal::OpenUploads => String::from_str(alloc, "100 uploads are open"),
        Refusal::Quota { what, number } => {
            format!(in alloc; "quota of {} is {number}", quota_text(*what))
        }
        Refusal::Locked(until) => format!(in alloc; "locked until {}", until.second),
        Refusal::RuleLocked => String::from_str(alloc, "rule is locked"),
        Refusal::Exhausted(spent) => format!(in alloc; "no more {}", spent_text(*spent)),
        Refusal::Unavailable => String::from_str(alloc, "unavailable"),
        Refusal::Damaged { stored, found } => digests_message(
            alloc,
            "damaged: stored ",
            stored,
            found,
        ),
        Refusal::NoSuchCall => String::from_str(alloc, "no such call"),
    }
}

/// A message that names two digests, the one that should be and the one that is.
fn digests_message(
    alloc: Global,
    front: &str,
    wanted: &[u8],
    found: &[u8],
) -> Result<String, AllocError>
    ensures { IfOk result (λ text. string_bytes text
        ≡ front.now ++ (base64_text wanted.now ++ (codes ", found " ++ base64_text found.now))) }
{
    let wanted = base64_text(alloc, wanted)?;
    let found = base64_text(alloc, found)?;
    format!(in alloc; "{front}{wanted}, found {found}")
}

fn conflict_message(alloc: Global, first: FirstKey) -> Result<String, AllocError>
    ensures { IfOk result (λ text. string_bytes text ≡ codes "token made " ++ spec.first_id first) }
{
    let id = first_id(alloc, first)?;
    format!(in alloc; "token made {id}")
}

/// The id of what a client token's first call made.
fn first_id(alloc: Global, first: FirstKey) -> Result<Text, AllocError>
    ensures { IfOk result (λ id. id ≡ spec.first_id first) }
{
    match first {
        FirstKey::Snap(key) => snap_text(alloc, key),
        FirstKey::Vol(key) => vol_text(alloc, key),
    }
}

fn parameter_reason(name: &str) -> &'static str
    ensures { result.now ≡ spec.parameter_reason name.now }
{
    let names = [
        "snapshotId",
        "firstSnapshotId",
        "secondSnapshotId",
        "ParentSnapshotId",
        "SnapshotId",
    ];
    if is_one_of(name, &names) {
        "INVALID_SNAPSHOT_ID"
    } else {
        "INVALID_PARAMETER_VALUE"
    }
}

fn is_one_of(name: &str, names: &[&str]) -> bool
    ensures { result ≡ list_any (λ own. pointwise nat_eq own.now name.now) names.now }
{
    names.iter().any(|own| *own == name)
}

fn absence_reason(kind: Kind) -> &'static str
    ensures { result.now ≡ spec.absence_reason kind }
{
    match kind {
        Kind::Snapshot => "SNAPSHOT_NOT_FOUND",
        Kind::Volume | Kind::Rule | Kind::Policy => "NOT_FOUND",
    }
}
