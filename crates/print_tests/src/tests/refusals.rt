// Refusals.
use super::*;
use ebs_model::{Kind, QuotaName, Spent, StateName};

const BAD_SIZE: &str =
    "HTTP/1.1 400 Bad Request\r\nContent-Type: application/json\r\nContent-Length: 89\r\n\r\n{\"Message\":\"bad volume size\",\"Reason\":\"INVALID_VOLUME_SIZE\",\"Type\":\"ValidationException\"}";

const BAD_INDEX: &str =
    "HTTP/1.1 400 Bad Request\r\nContent-Type: application/json\r\nContent-Length: 83\r\n\r\n{\"Message\":\"bad block index\",\"Reason\":\"INVALID_BLOCK\",\"Type\":\"ValidationException\"}";

const NOT_OWNER: &str =
    "HTTP/1.1 403 Forbidden\r\nContent-Type: application/json\r\nContent-Length: 90\r\n\r\n{\"Message\":\"not the owner\",\"Reason\":\"UNAUTHORIZED_ACCOUNT\",\"Type\":\"AccessDeniedException\"}";

const OPEN_UPLOADS: &str =
    "HTTP/1.1 400 Bad Request\r\nContent-Type: application/json\r\nContent-Length: 100\r\n\r\n{\"Message\":\"100 uploads are open\",\"Reason\":\"OPEN_UPLOADS\",\"Type\":\"ConcurrentLimitExceededException\"}";

const NO_MORE_CHANGES: &str =
    "HTTP/1.1 402 Payment Required\r\nContent-Type: application/json\r\nContent-Length: 89\r\n\r\n{\"Message\":\"no more changes\",\"Reason\":\"EXHAUSTED\",\"Type\":\"ServiceQuotaExceededException\"}";

const NO_MORE_TURNS: &str =
    "HTTP/1.1 402 Payment Required\r\nContent-Type: application/json\r\nContent-Length: 87\r\n\r\n{\"Message\":\"no more turns\",\"Reason\":\"EXHAUSTED\",\"Type\":\"ServiceQuotaExceededException\"}";

const NO_SUCH_CALL: &str =
    "HTTP/1.1 404 Not Found\r\nContent-Type: application/json\r\nContent-Length: 79\r\n\r\n{\"Message\":\"no such call\",\"Reason\":\"UNKNOWN_CALL\",\"Type\":\"ValidationException\"}";

#[test]
fn refusals_of_fixed_text(rt: HostRuntime) {
    let alloc = rt.alloc();
    assert!(rt;
        is_refused(alloc, Refusal::BadSize, BAD_SIZE)
            && is_refused(alloc, Refusal::BadIndex, BAD_INDEX)
            && is_refused(alloc, Refusal::NotOwner, NOT_OWNER)
            && is_refused(alloc, Refusal::OpenUploads, OPEN_UPLOADS)
            && is_refused(alloc, Refusal::NoSuchCall, NO_SUCH_CALL)
    );
    assert!(rt;
        is_refused(alloc, Refusal::Exhausted(Spent::Changes), NO_MORE_CHANGES)
            && is_refused(alloc, Refusal::Exhausted(Spent::Turns), NO_MORE_TURNS)
    );
}

// Every name that a call gives, and one that none gives.
const PARAMETERS: [(&str, &str, u32); 49] = [
    ("body", "INVALID_PARAMETER_VALUE", 97),
    ("VolumeSize", "INVALID_PARAMETER_VALUE", 103),
    ("ParentSnapshotId", "INVALID_SNAPSHOT_ID", 105),
    ("Description", "INVALID_PARAMETER_VALUE", 104),
    ("Tags", "INVALID_PARAMETER_VALUE", 97),
    ("ClientToken", "INVALID_PARAMETER_VALUE", 104),
    ("Timeout", "INVALID_PARAMETER_VALUE", 100),
    ("Encrypted", "INVALID_PARAMETER_VALUE", 102),
    ("KmsKeyArn", "INVALID_PARAMETER_VALUE", 102),
    ("snapshotId", "INVALID_SNAPSHOT_ID", 99),
    ("blockIndex", "INVALID_PARAMETER_VALUE", 103),
    ("x-amz-Data-Length", "INVALID_PARAMETER_VALUE", 110),
    ("x-amz-Checksum", "INVALID_PARAMETER_VALUE", 107),
    ("x-amz-Checksum-Algorithm", "INVALID_PARAMETER_VALUE", 117),
    ("x-amz-Progress", "INVALID_PARAMETER_VALUE", 107),
    ("x-amz-ChangedBlocksCount", "INVALID_PARAMETER_VALUE", 117),
    (
        "x-amz-Checksum-Aggregation-Method",
        "INVALID_PARAMETER_VALUE",
        126,
    ),
    ("pageToken", "INVALID_PARAMETER_VALUE", 102),
    ("maxResults", "INVALID_PARAMETER_VALUE", 103),
    ("startingBlockIndex", "INVALID_PARAMETER_VALUE", 111),
    ("firstSnapshotId", "INVALID_SNAPSHOT_ID", 104),
    ("secondSnapshotId", "INVALID_SNAPSHOT_ID", 105),
    ("blockToken", "INVALID_PARAMETER_VALUE", 103),
    ("from", "INVALID_PARAMETER_VALUE", 97),
    ("max", "INVALID_PARAMETER_VALUE", 96),
    ("Add", "INVALID_PARAMETER_VALUE", 96),
    ("Remove", "INVALID_PARAMETER_VALUE", 99),
    ("LockMode", "INVALID_PARAMETER_VALUE", 101),
    ("LockDuration", "INVALID_PARAMETER_VALUE", 105),
    ("ExpirationDate", "INVALID_PARAMETER_VALUE", 107),
    ("CoolOffPeriod", "INVALID_PARAMETER_VALUE", 106),
    ("StorageTier", "INVALID_PARAMETER_VALUE", 104),
    ("TemporaryRestoreDays", "INVALID_PARAMETER_VALUE", 113),
    ("PermanentRestore", "INVALID_PARAMETER_VALUE", 109),
    ("SnapshotId", "INVALID_SNAPSHOT_ID", 99),
    ("Size", "INVALID_PARAMETER_VALUE", 97),
    ("volumeId", "INVALID_PARAMETER_VALUE", 101),
    ("RetentionPeriod", "INVALID_PARAMETER_VALUE", 108),
    ("ResourceType", "INVALID_PARAMETER_VALUE", 105),
    ("ResourceTags", "INVALID_PARAMETER_VALUE", 105),
    ("LockConfiguration", "INVALID_PARAMETER_VALUE", 110),
    ("identifier", "INVALID_PARAMETER_VALUE", 103),
    ("TargetTags", "INVALID_PARAMETER_VALUE", 103),
    ("Schedule", "INVALID_PARAMETER_VALUE", 101),
    ("RetainRule", "INVALID_PARAMETER_VALUE", 103),
    ("TagsToAdd", "INVALID_PARAMETER_VALUE", 102),
    ("policyId", "INVALID_PARAMETER_VALUE", 101),
    ("x-ebs-account", "INVALID_PARAMETER_VALUE", 106),
    ("snapshotid", "INVALID_PARAMETER_VALUE", 103),
];

fn bad_parameter(alloc: Global, name: &str) -> Result<Answer, AllocError> {
    let name = text(alloc, name)?;
    Ok(Answer::Refused(Refusal::BadParameter(name)))
}

fn parameter_text(
    alloc: Global,
    name: &str,
    reason: &str,
    size: u32,
) -> Result<String, AllocError> {
    format!(in alloc;
        "HTTP/1.1 400 Bad Request\r\nContent-Type: application/json\r\nContent-Length: {size}\r\n\r\n{{\"Message\":\"bad parameter: {name}\",\"Reason\":\"{reason}\",\"Type\":\"ValidationException\"}}"
    )
}

/// Whether the refusal of a parameter of this name is told so.
fn is_bad(alloc: Global, name: &str, want: &str) -> bool {
    made_so(alloc, bad_parameter(alloc, name), want)
}

fn is_bad_for(alloc: Global, name: &str, reason: &str, size: u32) -> bool {
    match parameter_text(alloc, name, reason, size) {
        Ok(want) => {
            let so = is_bad(alloc, name, want.as_str());
            drop(want);
            so
        }
        Err(_) => false,
    }
}

fn parameters_so(alloc: Global, rows: &[(&str, &str, u32)]) -> bool {
    for (name, reason, size) in rows {
        if !is_bad_for(alloc, name, reason, *size) {
            return false;
        }
    }
    true
}

const BAD_SNAPSHOT_ID: &str =
    "HTTP/1.1 400 Bad Request\r\nContent-Type: application/json\r\nContent-Length: 99\r\n\r\n{\"Message\":\"bad parameter: snapshotId\",\"Reason\":\"INVALID_SNAPSHOT_ID\",\"Type\":\"ValidationException\"}";

const BAD_RETAIN_RULE: &str =
    "HTTP/1.1 400 Bad Request\r\nContent-Type: application/json\r\nContent-Length: 103\r\n\r\n{\"Message\":\"bad parameter: RetainRule\",\"Reason\":\"INVALID_PARAMETER_VALUE\",\"Type\":\"ValidationException\"}";

#[test]
fn refusals_of_a_parameter(rt: HostRuntime) {
    let alloc = rt.alloc();
    assert!(rt;
        is_bad(alloc, "snapshotId", BAD_SNAPSHOT_ID)
            && is_bad(alloc, "RetainRule", BAD_RETAIN_RULE)
            && parameters_so(alloc, &PARAMETERS)
    );
}

const STATES: [(StateName, &str); 8] = [
    (
        StateName::Pending,
        "HTTP/1.1 409 Conflict\r\nContent-Type: application/json\r\nContent-Length: 86\r\n\r\n{\"Message\":\"wrong state: pending\",\"Reason\":\"INVALID_STATE\",\"Type\":\"ConflictException\"}",
    ),
    (
        StateName::Completed,
        "HTTP/1.1 409 Conflict\r\nContent-Type: application/json\r\nContent-Length: 88\r\n\r\n{\"Message\":\"wrong state: completed\",\"Reason\":\"INVALID_STATE\",\"Type\":\"ConflictException\"}",
    ),
    (
        StateName::Error,
        "HTTP/1.1 409 Conflict\r\nContent-Type: application/json\r\nContent-Length: 84\r\n\r\n{\"Message\":\"wrong state: error\",\"Reason\":\"INVALID_STATE\",\"Type\":\"ConflictException\"}",
    ),
    (
        StateName::Archived,
        "HTTP/1.1 409 Conflict\r\nContent-Type: application/json\r\nContent-Length: 87\r\n\r\n{\"Message\":\"wrong state: archived\",\"Reason\":\"INVALID_STATE\",\"Type\":\"ConflictException\"}",
    ),
    (
        StateName::Standard,
        "HTTP/1.1 409 Conflict\r\nContent-Type: application/json\r\nContent-Length: 87\r\n\r\n{\"Message\":\"wrong state: standard\",\"Reason\":\"INVALID_STATE\",\"Type\":\"ConflictException\"}",
    ),
    (
        StateName::Temporary,
        "HTTP/1.1 409 Conflict\r\nContent-Type: application/json\r\nContent-Length: 88\r\n\r\n{\"Message\":\"wrong state: temporary\",\"Reason\":\"INVALID_STATE\",\"Type\":\"ConflictException\"}",
    ),
    (
        StateName::Unlocked,
        "HTTP/1.1 409 Conflict\r\nContent-Type: application/json\r\nContent-Length: 87\r\n\r\n{\"Message\":\"wrong state: unlocked\",\"Reason\":\"INVALID_STATE\",\"Type\":\"ConflictException\"}",
    ),
    (
        StateName::TagLevel,
        "HTTP/1.1 409 Conflict\r\nContent-Type: application/json\r\nContent-Length: 88\r\n\r\n{\"Message\":\"wrong state: tag-level\",\"Reason\":\"INVALID_STATE\",\"Type\":\"ConflictException\"}",
    ),
];

fn states_so(alloc: Global, rows: &[(StateName, &str)]) -> bool {
    for (state, want) in rows {
        if !is_refused(alloc, Refusal::WrongState(*state), want) {
            return false;
        }
    }
    true
}

#[test]
fn refusals_of_a_state(rt: HostRuntime) {
    assert!(rt; states_so(rt.alloc(), &STATES));
}

const QUOTAS: [(QuotaName, u64, &str); 7] = [
    (
        QuotaName::Snapshots,
        10000,
        "HTTP/1.1 402 Payment Required\r\nContent-Type: application/json\r\nContent-Length: 97\r\n\r\n{\"Message\":\"quota of snapshots is 10000\",\"Reason\":\"QUOTA\",\"Type\":\"ServiceQuotaExceededException\"}",
    ),
    (
        QuotaName::Volumes,
        1000,
        "HTTP/1.1 402 Payment Required\r\nContent-Type: application/json\r\nContent-Length: 94\r\n\r\n{\"Message\":\"quota of volumes is 1000\",\"Reason\":\"QUOTA\",\"Type\":\"ServiceQuotaExceededException\"}",
    ),
    (
        QuotaName::Rules,
        50,
        "HTTP/1.1 402 Payment Required\r\nContent-Type: application/json\r\nContent-Length: 90\r\n\r\n{\"Message\":\"quota of rules is 50\",\"Reason\":\"QUOTA\",\"Type\":\"ServiceQuotaExceededException\"}",
    ),
    (
        QuotaName::Policies,
        100,
        "HTTP/1.1 402 Payment Required\r\nContent-Type: application/json\r\nContent-Length: 94\r\n\r\n{\"Message\":\"quota of policies is 100\",\"Reason\":\"QUOTA\",\"Type\":\"ServiceQuotaExceededException\"}",
    ),
    (
        QuotaName::ClientTokens,
        65536,
        "HTTP/1.1 402 Payment Required\r\nContent-Type: application/json\r\nContent-Length: 101\r\n\r\n{\"Message\":\"quota of client-tokens is 65536\",\"Reason\":\"QUOTA\",\"Type\":\"ServiceQuotaExceededException\"}",
    ),
    (
        QuotaName::SharedAccounts,
        1000,
        "HTTP/1.1 402 Payment Required\r\nContent-Type: application/json\r\nContent-Length: 102\r\n\r\n{\"Message\":\"quota of shared-accounts is 1000\",\"Reason\":\"QUOTA\",\"Type\":\"ServiceQuotaExceededException\"}",
    ),
    (
        QuotaName::Ids,
        268_435_456,
        "HTTP/1.1 402 Payment Required\r\nContent-Type: application/json\r\nContent-Length: 95\r\n\r\n{\"Message\":\"quota of ids is 268435456\",\"Reason\":\"QUOTA\",\"Type\":\"ServiceQuotaExceededException\"}",
    ),
];

fn is_quota(alloc: Global, what: QuotaName, number: u64, want: &str) -> bool {
    is_refused(alloc, Refusal::Quota { what, number }, want)
}

fn quotas_so(alloc: Global, rows: &[(QuotaName, u64, &str)]) -> bool {
    for (what, number, want) in rows {
        if !is_quota(alloc, *what, *number, want) {
            return false;
        }
    }
    true
}

#[test]
fn refusals_of_a_quota(rt: HostRuntime) {
    assert!(rt; quotas_so(rt.alloc(), &QUOTAS));
}

const ABSENCES: [(Kind, &str); 4] = [
    (
        Kind::Snapshot,
        "HTTP/1.1 404 Not Found\r\nContent-Type: application/json\r\nContent-Length: 88\r\n\r\n{\"Message\":\"not found\",\"Reason\":\"SNAPSHOT_NOT_FOUND\",\"Type\":\"ResourceNotFoundException\"}",
    ),
    (
        Kind::Volume,
        "HTTP/1.1 404 Not Found\r\nContent-Type: application/json\r\nContent-Length: 79\r\n\r\n{\"Message\":\"not found\",\"Reason\":\"NOT_FOUND\",\"Type\":\"ResourceNotFoundException\"}",
    ),
    (
        Kind::Rule,
        "HTTP/1.1 404 Not Found\r\nContent-Type: application/json\r\nContent-Length: 79\r\n\r\n{\"Message\":\"not found\",\"Reason\":\"NOT_FOUND\",\"Type\":\"ResourceNotFoundException\"}",
    ),
    (
        Kind::Policy,
        "HTTP/1.1 404 Not Found\r\nContent-Type: application/json\r\nContent-Length: 79\r\n\r\n{\"Message\":\"not found\",\"Reason\":\"NOT_FOUND\",\"Type\":\"ResourceNotFoundException\"}",
    ),
];

fn absences_so(alloc: Global, rows: &[(Kind, &str)]) -> bool {
    for (kind, want) in rows {
        if !is_refused(alloc, Refusal::NotFound(*kind), want) {
            return false;
        }
    }
    true
}

#[test]
fn refusals_of_an_absent_resource(rt: HostRuntime) {
    assert!(rt; absences_so(rt.alloc(), &ABSENCES));
}
