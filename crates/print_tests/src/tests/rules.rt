// Rows of Recycle Bin rules, and of what is in the bin.
use super::rows::{at, bare, page_of};
use super::*;
use ebs_model::{RuleKey, RuleLockName, RuleTag, RuleTags, RuleView, RuleViews, SnapView};

const TAGGED: &str =
    "HTTP/1.1 201 Created\r\nContent-Type: application/json\r\nContent-Length: 238\r\n\r\n{\"Description\":\"d\",\"Identifier\":\"rule-e8d4a50ffffffffff\",\"LockState\":\"unlocked\",\"ResourceTags\":[{\"ResourceTagKey\":\"team\",\"ResourceTagValue\":\"web\"},{\"ResourceTagKey\":\"z\",\"ResourceTagValue\":\"\"},{\"ResourceTagKey\":\"any\"}],\"RetentionDays\":365}";

const UNLOCKED: &str =
    "HTTP/1.1 200 OK\r\nContent-Type: application/json\r\nContent-Length: 80\r\n\r\n{\"Identifier\":\"rule-00000000010000002\",\"LockState\":\"unlocked\",\"RetentionDays\":1}";

const LOCKED: &str =
    "HTTP/1.1 201 Created\r\nContent-Type: application/json\r\nContent-Length: 96\r\n\r\n{\"Description\":\"\",\"Identifier\":\"rule-00000000010000002\",\"LockState\":\"locked\",\"RetentionDays\":30}";

const PENDING: &str =
    "HTTP/1.1 200 OK\r\nContent-Type: application/json\r\nContent-Length: 104\r\n\r\n{\"Identifier\":\"rule-00000000010000002\",\"LockEnd\":605800,\"LockState\":\"pending_unlock\",\"RetentionDays\":30}";

const NO_RULES: &str =
    "HTTP/1.1 200 OK\r\nContent-Type: application/json\r\nContent-Length: 12\r\n\r\n{\"Rules\":[]}";

const RULES: &str =
    "HTTP/1.1 200 OK\r\nContent-Type: application/json\r\nContent-Length: 197\r\n\r\n{\"Rules\":[{\"Identifier\":\"rule-00000000010000002\",\"LockState\":\"unlocked\",\"RetentionDays\":1},{\"Identifier\":\"rule-00000000010000002\",\"LockEnd\":605800,\"LockState\":\"pending_unlock\",\"RetentionDays\":30}]}";

const BIN: &str =
    "HTTP/1.1 200 OK\r\nContent-Type: application/json\r\nContent-Length: 188\r\n\r\n{\"Snapshots\":[{\"BinEnd\":87400,\"BlockSize\":524288,\"OwnerId\":\"000000000001\",\"SnapshotId\":\"snap-00000000010000000\",\"StartTime\":1000,\"Status\":\"error\",\"StorageTier\":\"standard\",\"VolumeSize\":1}]}";

fn rule(alloc: Global, lock: RuleLockName, days: u32) -> RuleView {
    RuleView {
        description: None,
        key: RuleKey {
            account: Account::new(1),
            number: KeyNumber::new(2),
        },
        lock_end: None,
        lock,
        tags: RuleTags::new(alloc),
        days,
    }
}

fn pending(alloc: Global) -> RuleView {
    let mut row = rule(alloc, RuleLockName::Pending, 30);
    row.lock_end = at(605_800);
    row
}

fn push_rule_tag(
    tags: &mut RuleTags,
    alloc: Global,
    key: &str,
    value: Option<Text>,
) -> Result<(), AllocError> {
    let key = text(alloc, key)?;
    tags.push(RuleTag { key, value })
}

fn push_valued(
    tags: &mut RuleTags,
    alloc: Global,
    key: &str,
    value: &str,
) -> Result<(), AllocError> {
    let value = text(alloc, value)?;
    push_rule_tag(tags, alloc, key, Some(value))
}

/// A tag with a value, one with an empty value, and one without any.
fn push_three(tags: &mut RuleTags, alloc: Global) -> Result<(), AllocError> {
    push_valued(tags, alloc, "team", "web")?;
    push_valued(tags, alloc, "z", "")?;
    push_rule_tag(tags, alloc, "any", None)
}

fn three_tags(alloc: Global) -> Result<RuleTags, AllocError> {
    let mut tags = RuleTags::new(alloc);
    push_three(&mut tags, alloc)?;
    Ok(tags)
}

fn last_rule() -> RuleKey {
    RuleKey {
        account: last_account(),
        number: last_number(),
    }
}

fn shown(created: bool, row: RuleView) -> Answer {
    Answer::RuleShown { created, row }
}

fn tagged(alloc: Global) -> Result<Answer, AllocError> {
    let description = text(alloc, "d")?;
    let tags = three_tags(alloc)?;
    let row = RuleView {
        description: Some(description),
        key: last_rule(),
        lock_end: None,
        lock: RuleLockName::Unlocked,
        tags,
        days: 365,
    };
    Ok(shown(true, row))
}

/// A rule under a lock, with an empty description.
fn locked(alloc: Global) -> Result<Answer, AllocError> {
    let empty = text(alloc, "")?;
    let mut row = rule(alloc, RuleLockName::Locked, 30);
    row.description = Some(empty);
    Ok(shown(true, row))
}

fn unlocked(alloc: Global) -> RuleView {
    rule(alloc, RuleLockName::Unlocked, 1)
}

#[test]
fn rules_with_tags_and_locks_and_without(rt: HostRuntime) {
    let alloc = rt.alloc();
    assert!(rt;
        made_so(alloc, tagged(alloc), TAGGED)
            && is_told(alloc, shown(false, unlocked(alloc)), UNLOCKED)
            && made_so(alloc, locked(alloc), LOCKED)
            && is_told(alloc, shown(false, pending(alloc)), PENDING)
    );
}

fn push_two(rows: &mut RuleViews, alloc: Global) -> Result<(), AllocError> {
    rows.push(unlocked(alloc))?;
    rows.push(pending(alloc))
}

fn two_rules(alloc: Global) -> Result<Answer, AllocError> {
    let mut rows = RuleViews::new(alloc);
    push_two(&mut rows, alloc)?;
    Ok(Answer::RuleList { rows })
}

fn no_rules(alloc: Global) -> Answer {
    Answer::RuleList {
        rows: RuleViews::new(alloc),
    }
}

#[test]
fn lists_of_rules(rt: HostRuntime) {
    let alloc = rt.alloc();
    assert!(rt;
        is_told(alloc, no_rules(alloc), NO_RULES) && made_so(alloc, two_rules(alloc), RULES)
    );
}

fn in_bin(alloc: Global) -> SnapView {
    let mut row = bare(alloc);
    row.bin_end = at(87400);
    row
}

#[test]
fn a_row_in_the_bin_shows_its_end(rt: HostRuntime) {
    let alloc = rt.alloc();
    assert!(rt; made_so(alloc, page_of(alloc, None, in_bin(alloc)), BIN));
}
