// Rows of snapshots and volumes.
use super::*;
use ebs_model::{Accounts, LockName, Permission, RowStatus, SnapView, SnapViews, TierName};

const CREATED: &str =
    "HTTP/1.1 201 Created\r\nContent-Type: application/json\r\nContent-Length: 461\r\n\r\n{\"BinEnd\":605800,\"BlockSize\":524288,\"Description\":\"d\",\"LockState\":\"compliance-cooloff\",\"LockUntil\":4600,\"OwnerId\":\"000000000001\",\"ParentSnapshotId\":\"snap-00000000010000000\",\"Permission\":{\"Accounts\":[\"000000000002\",\"999999999999\"],\"Public\":false},\"RestoreUntil\":89200,\"SnapshotId\":\"snap-00000000010000011\",\"StartTime\":1000,\"Status\":\"completed\",\"StorageTier\":\"temporary\",\"Tags\":[{\"Key\":\"team\",\"Value\":\"web\"}],\"VolumeId\":\"vol-00000000010000002\",\"VolumeSize\":16384}";

const SNAPPED: &str =
    "HTTP/1.1 201 Created\r\nContent-Type: application/json\r\nContent-Length: 196\r\n\r\n{\"BlockSize\":524288,\"OwnerId\":\"000000000001\",\"SnapshotId\":\"snap-00000000010000000\",\"StartTime\":1000,\"Status\":\"completed\",\"StorageTier\":\"standard\",\"VolumeId\":\"vol-e8d4a50ffffffffff\",\"VolumeSize\":1}";

const BARE: &str =
    "HTTP/1.1 200 OK\r\nContent-Type: application/json\r\nContent-Length: 157\r\n\r\n{\"BlockSize\":524288,\"OwnerId\":\"000000000001\",\"SnapshotId\":\"snap-00000000010000000\",\"StartTime\":1000,\"Status\":\"error\",\"StorageTier\":\"standard\",\"VolumeSize\":1}";

const PAGE: &str =
    "HTTP/1.1 200 OK\r\nContent-Type: application/json\r\nContent-Length: 189\r\n\r\n{\"NextNumber\":17,\"Snapshots\":[{\"BlockSize\":524288,\"OwnerId\":\"000000000001\",\"SnapshotId\":\"snap-00000000010000000\",\"StartTime\":1000,\"Status\":\"error\",\"StorageTier\":\"standard\",\"VolumeSize\":1}]}";

const LAST_PAGE: &str =
    "HTTP/1.1 200 OK\r\nContent-Type: application/json\r\nContent-Length: 16\r\n\r\n{\"Snapshots\":[]}";

const DONE: &str =
    "HTTP/1.1 200 OK\r\nContent-Type: application/json\r\nContent-Length: 2\r\n\r\n{}";

pub fn at(second: u64) -> Option<Moment> {
    Some(Moment { second })
}

pub fn bare(alloc: Global) -> SnapView {
    SnapView {
        bin_end: None,
        description: None,
        lock: None,
        lock_until: None,
        owner: Account::new(1),
        parent: None,
        permission: None,
        restore_until: None,
        key: snap(0),
        start: Moment { second: 1000 },
        status: RowStatus::Failed,
        tier: TierName::Standard,
        tags: Tags::new(alloc),
        volume: None,
        size: 1,
    }
}

fn team(alloc: Global) -> Result<Tags, AllocError> {
    tags_of(alloc, &[("team", "web")])
}

fn shared(alloc: Global) -> Result<Permission, AllocError> {
    let mut accounts = Accounts::new(alloc);
    accounts.push(Account::new(2))?;
    accounts.push(last_account())?;
    Ok(Permission {
        accounts,
        public: false,
    })
}

fn second_volume() -> VolKey {
    VolKey {
        account: Account::new(1),
        number: KeyNumber::new(2),
    }
}

fn full(alloc: Global) -> Result<SnapView, AllocError> {
    let description = text(alloc, "d")?;
    let permission = shared(alloc)?;
    let tags = team(alloc)?;
    Ok(SnapView {
        bin_end: at(605_800),
        description: Some(description),
        lock: Some(LockName::CoolOff),
        lock_until: at(4600),
        owner: Account::new(1),
        parent: Some(snap(0)),
        permission: Some(permission),
        restore_until: at(89200),
        key: snap(17),
        start: Moment { second: 1000 },
        status: RowStatus::Completed,
        tier: TierName::Temporary,
        tags,
        volume: Some(second_volume()),
        size: 16384,
    })
}

fn shown(created: bool, row: SnapView) -> Answer {
    Answer::SnapshotShown { created, row }
}

fn created(alloc: Global) -> Result<Answer, AllocError> {
    let row = full(alloc)?;
    Ok(shown(true, row))
}

/// A snapshot of a volume, of an account's last number.
fn of_last_volume(alloc: Global) -> SnapView {
    let mut row = bare(alloc);
    row.status = RowStatus::Completed;
    row.volume = Some(last_volume());
    row
}

#[test]
fn rows_with_all_members_and_with_few(rt: HostRuntime) {
    let alloc = rt.alloc();
    assert!(rt;
        made_so(alloc, created(alloc), CREATED)
            && is_told(alloc, shown(false, bare(alloc)), BARE)
            && is_told(alloc, shown(true, of_last_volume(alloc)), SNAPPED)
    );
}

/// A page of this row alone.
pub fn page_of(alloc: Global, next: Option<u32>, row: SnapView) -> Result<Answer, AllocError> {
    let mut rows = SnapViews::new(alloc);
    rows.push(row)?;
    Ok(Answer::SnapshotList { next, rows })
}

fn last_page(alloc: Global) -> Answer {
    Answer::SnapshotList {
        next: None,
        rows: SnapViews::new(alloc),
    }
}

#[test]
fn pages_of_rows(rt: HostRuntime) {
    let alloc = rt.alloc();
    assert!(rt;
        made_so(alloc, page_of(alloc, Some(17), bare(alloc)), PAGE)
            && is_told(alloc, last_page(alloc), LAST_PAGE)
            && is_told(alloc, Answer::Done, DONE)
    );
}

const GOVERNANCE: &str =
    "HTTP/1.1 200 OK\r\nContent-Type: application/json\r\nContent-Length: 44\r\n\r\n{\"LockState\":\"governance\",\"LockUntil\":87400}";

const COOLING_OFF: &str =
    "HTTP/1.1 200 OK\r\nContent-Type: application/json\r\nContent-Length: 52\r\n\r\n{\"LockState\":\"compliance-cooloff\",\"LockUntil\":87400}";

const COMPLIANCE: &str =
    "HTTP/1.1 200 OK\r\nContent-Type: application/json\r\nContent-Length: 26\r\n\r\n{\"LockState\":\"compliance\"}";

const STANDARD: &str =
    "HTTP/1.1 200 OK\r\nContent-Type: application/json\r\nContent-Length: 26\r\n\r\n{\"StorageTier\":\"standard\"}";

const TEMPORARY: &str =
    "HTTP/1.1 200 OK\r\nContent-Type: application/json\r\nContent-Length: 48\r\n\r\n{\"RestoreUntil\":87400,\"StorageTier\":\"temporary\"}";

const LOCKED: &str =
    "HTTP/1.1 409 Conflict\r\nContent-Type: application/json\r\nContent-Length: 78\r\n\r\n{\"Message\":\"locked until 177401\",\"Reason\":\"LOCKED\",\"Type\":\"ConflictException\"}";

fn lock(lock: LockName, until: Option<Moment>) -> Answer {
    Answer::LockShown { lock, until }
}

fn tier(tier: TierName, restore_until: Option<Moment>) -> Answer {
    Answer::TierShown {
        restore_until,
        tier,
    }
}

fn locked() -> Refusal {
    Refusal::Locked(Moment { second: 177401 })
}

#[test]
fn locks_and_tiers(rt: HostRuntime) {
    let alloc = rt.alloc();
    assert!(rt;
        is_told(alloc, lock(LockName::Governance, at(87400)), GOVERNANCE)
            && is_told(alloc, lock(LockName::CoolOff, at(87400)), COOLING_OFF)
            && is_told(alloc, lock(LockName::Compliance, None), COMPLIANCE)
            && is_refused(alloc, locked(), LOCKED)
    );
    assert!(rt;
        is_told(alloc, tier(TierName::Standard, None), STANDARD)
            && is_told(alloc, tier(TierName::Temporary, at(87400)), TEMPORARY)
    );
}

const VOLUME: &str =
    "HTTP/1.1 201 Created\r\nContent-Type: application/json\r\nContent-Length: 125\r\n\r\n{\"Size\":16384,\"SnapshotId\":\"snap-00000000010000011\",\"Tags\":[{\"Key\":\"team\",\"Value\":\"web\"}],\"VolumeId\":\"vol-00000000010000002\"}";

const EMPTY_VOLUME: &str =
    "HTTP/1.1 200 OK\r\nContent-Type: application/json\r\nContent-Length: 45\r\n\r\n{\"Size\":1,\"VolumeId\":\"vol-00000000010000002\"}";

fn volume(created: bool, size: u64, origin: Option<SnapKey>, tags: Tags) -> Answer {
    Answer::VolumeShown {
        created,
        size,
        origin,
        tags,
        key: second_volume(),
    }
}

fn tagged_volume(alloc: Global) -> Result<Answer, AllocError> {
    let tags = team(alloc)?;
    Ok(volume(true, 16384, Some(snap(17)), tags))
}

#[test]
fn volumes_with_all_members_and_with_few(rt: HostRuntime) {
    let alloc = rt.alloc();
    assert!(rt;
        made_so(alloc, tagged_volume(alloc), VOLUME)
            && is_told(
                alloc,
                volume(false, 1, None, Tags::new(alloc)),
                EMPTY_VOLUME
            )
    );
}
