// A refusal in a few words.
use crate::shown::shown_digest;
use ebs_model::{FirstKey, Kind, QuotaName, Refusal, Spent, StateName};
use std::alloc::{AllocError, Global};

/// Its number, and what else it names.
pub fn shown_refusal(alloc: Global, refusal: &Refusal) -> Result<String, AllocError> {
    match refusal {
        Refusal::BadParameter(name) => format!(in alloc; "E1 {name}"),
        Refusal::WrongState(state) => shown_state(alloc, *state),
        Refusal::Checksum { stated, found } => shown_sums(alloc, stated, found),
        Refusal::NotFound(kind) => shown_kind(alloc, *kind),
        Refusal::TokenConflict(first) => shown_conflict(alloc, *first),
        Refusal::Quota { what, number } => shown_quota(alloc, *what, *number),
        Refusal::Locked(until) => shown_number(alloc, "E14", until.second),
        Refusal::Exhausted(spent) => shown_spent(alloc, *spent),
        _ => String::from_str(alloc, bare(refusal)),
    }
}

fn bare(refusal: &Refusal) -> &'static str {
    match refusal {
        Refusal::BadSize => "E2",
        Refusal::BadIndex => "E3",
        Refusal::BadBlockToken => "E4",
        Refusal::Unrelated => "E7",
        Refusal::NotOwner => "E10",
        Refusal::OpenUploads => "E12",
        Refusal::RuleLocked => "E15",
        _ => "another refusal",
    }
}

fn shown_number(alloc: Global, what: &str, number: u64) -> Result<String, AllocError> {
    format!(in alloc; "{what} {number}")
}

fn shown_conflict(alloc: Global, first: FirstKey) -> Result<String, AllocError> {
    match first {
        FirstKey::Snap(key) => shown_number(alloc, "E11 snapshot", u64::from(key.number.number())),
        FirstKey::Vol(key) => shown_number(alloc, "E11 volume", u64::from(key.number.number())),
    }
}

fn shown_state(alloc: Global, state: StateName) -> Result<String, AllocError> {
    format!(in alloc; "E6 {state:?}")
}

fn shown_sums(alloc: Global, stated: &[u8; 32], found: &[u8; 32]) -> Result<String, AllocError> {
    let stated = shown_digest(alloc, "E8", stated)?;
    shown_digest(alloc, stated.as_str(), found)
}

fn shown_kind(alloc: Global, kind: Kind) -> Result<String, AllocError> {
    format!(in alloc; "E9 {kind:?}")
}

fn shown_quota(alloc: Global, what: QuotaName, number: u64) -> Result<String, AllocError> {
    format!(in alloc; "E13 {what:?} {number}")
}

fn shown_spent(alloc: Global, spent: Spent) -> Result<String, AllocError> {
    format!(in alloc; "E16 {spent:?}")
}
