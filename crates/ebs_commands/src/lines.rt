// What commands print.
ghost use Rattle.std.specs.Prelude.{◌≡◌, ◌++◌, IfOk, length, codes, decimal, string_bytes};
ghost use Rattle.ebs_model.specs.Ids.{policy_id};
ghost use Rattle.ebs_commands.specs.Lines as spec;

use crate::ending::CommandEnd;
use ebs_disk_store::{Checked, Usage};
use ebs_model::{Answer, PolicyKey, Refusal, policy_text};
use std::alloc::{AllocError, Global};

/// The number that the product gives a refusal.
pub fn refusal_number(refusal: &Refusal) -> u32
    ensures { result ≡ spec.refusal_number refusal.now }
{
    match refusal {
        Refusal::BadParameter(_) => 1,
        Refusal::BadSize => 2,
        Refusal::BadIndex => 3,
        Refusal::BadBlockToken => 4,
        Refusal::BadPageToken => 5,
        Refusal::WrongState(_) => 6,
        Refusal::Unrelated => 7,
        Refusal::Checksum { .. } => 8,
        Refusal::NotFound(_) => 9,
        Refusal::NotOwner => 10,
        Refusal::TokenConflict(_) => 11,
        Refusal::OpenUploads => 12,
        Refusal::Quota { .. } => 13,
        Refusal::Locked(_) => 14,
        Refusal::RuleLocked => 15,
        Refusal::Exhausted(_) => 16,
        Refusal::Unavailable => 17,
        Refusal::Damaged { .. } => 18,
        Refusal::NoSuchCall => 19,
    }
}

fn ran_line(
    alloc: Global,
    key: PolicyKey,
    made: usize,
    deleted: usize,
) -> Result<String, AllocError>
    ensures { IfOk result (λ line. string_bytes line ≡ policy_id key ++ (codes " made " ++ (decimal made ++ (codes " deleted " ++ (decimal deleted ++ codes "\n"))))) }
{
    let id = policy_text(alloc, key)?;
    format!(in alloc; "{id} made {made} deleted {deleted}\n")
}

fn refused_line(alloc: Global, key: PolicyKey, refusal: &Refusal) -> Result<String, AllocError>
    ensures { IfOk result (λ line. string_bytes line ≡ policy_id key ++ (codes " refused E" ++ (decimal (spec.refusal_number refusal.now) ++ codes "\n"))) }
{
    let id = policy_text(alloc, key)?;
    let number = refusal_number(refusal);
    format!(in alloc; "{id} refused E{number}\n")
}

/// The line of a run that ended with this answer.
pub fn run_line(alloc: Global, key: PolicyKey, answer: &Answer) -> Result<String, AllocError>
    ensures { IfOk result (λ line. string_bytes line ≡ spec.run_line key answer.now) }
{
    match answer {
        Answer::PolicyRan { deleted, made } => ran_line(alloc, key, made.len(), deleted.len()),
        Answer::Refused(refusal) => refused_line(alloc, key, refusal),
        _ => Ok(String::new(alloc)),
    }
}

/// The line of a check.
pub fn check_line(alloc: Global, checked: Checked) -> Result<String, AllocError>
    ensures { IfOk result (λ line. string_bytes line ≡ spec.check_line checked) }
{
    let blocks = checked.blocks;
    let damaged = checked.damaged;
    format!(in alloc; "blocks {blocks} damaged {damaged}\n")
}

/// The line of a usage.
pub fn usage_line(alloc: Global, usage: Usage) -> Result<String, AllocError>
    ensures { IfOk result (λ line. string_bytes line ≡ spec.usage_line usage) }
{
    let standard = usage.standard;
    let archived = usage.archived;
    let leased = usage.leased;
    format!(in alloc; "standard {standard} archived {archived} leased {leased}\n")
}

/// The lines of a sample.
pub fn sample_lines(
    alloc: Global,
    calls: u64,
    accepted: u64,
    usage: Usage,
) -> Result<String, AllocError>
    ensures { IfOk result (λ lines. string_bytes lines ≡ spec.sample_lines calls accepted usage) }
{
    let line = usage_line(alloc, usage)?;
    format!(in alloc; "calls {calls} accepted {accepted}\n{line}")
}
