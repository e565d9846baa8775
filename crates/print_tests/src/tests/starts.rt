// Starts, and answers of fixed text.
use super::*;

const BARE_START: &str =
    "HTTP/1.1 201 Created\r\nContent-Type: application/json\r\nContent-Length: 134\r\n\r\n{\"BlockSize\":524288,\"OwnerId\":\"000000000001\",\"SnapshotId\":\"snap-00000000010000000\",\"StartTime\":1000,\"Status\":\"pending\",\"VolumeSize\":1}";

const FULL_START: &str =
    "HTTP/1.1 201 Created\r\nContent-Type: application/json\r\nContent-Length: 286\r\n\r\n{\"BlockSize\":524288,\"Description\":\"a \\\"b\\\"\\nc\\\\ é €\",\"OwnerId\":\"999999999999\",\"ParentSnapshotId\":\"snap-e8d4a50fff0000010\",\"SnapshotId\":\"snap-e8d4a50ffffffffff\",\"StartTime\":68719476736,\"Status\":\"pending\",\"Tags\":[{\"Key\":\"team\",\"Value\":\"web\"},{\"Key\":\"z\",\"Value\":\"\"}],\"VolumeSize\":16384}";

const EMPTY_DESCRIPTION: &str =
    "HTTP/1.1 201 Created\r\nContent-Type: application/json\r\nContent-Length: 148\r\n\r\n{\"BlockSize\":524288,\"Description\":\"\",\"OwnerId\":\"000000000001\",\"SnapshotId\":\"snap-00000000010000000\",\"StartTime\":0,\"Status\":\"pending\",\"VolumeSize\":1}";

/// A start without a parent and tags.
fn plain(alloc: Global, second: u64, description: Option<Text>) -> Answer {
    Answer::Started {
        description,
        owner: Account::new(1),
        parent: None,
        key: snap(0),
        start: Moment { second },
        tags: Tags::new(alloc),
        size: 1,
    }
}

fn last_parent() -> SnapKey {
    SnapKey {
        account: last_account(),
        number: KeyNumber::new(16),
    }
}

const TAGS: [(&str, &str); 2] = [("team", "web"), ("z", "")];

fn full(alloc: Global) -> Result<Answer, AllocError> {
    let description = text(alloc, "a \"b\"\nc\\ é €")?;
    let tags = tags_of(alloc, &TAGS)?;
    Ok(Answer::Started {
        description: Some(description),
        owner: last_account(),
        parent: Some(last_parent()),
        key: last_snap(),
        start: Moment {
            second: 68_719_476_736,
        },
        tags,
        size: 16384,
    })
}

#[test]
fn starts_with_all_options_and_with_none(rt: HostRuntime) {
    let alloc = rt.alloc();
    assert!(rt;
        is_told(alloc, plain(alloc, 1000, None), BARE_START)
            && made_so(alloc, full(alloc), FULL_START)
    );
}

/// A start at 0 with an empty description.
fn undescribed(alloc: Global) -> Result<Answer, AllocError> {
    let empty = text(alloc, "")?;
    Ok(plain(alloc, 0, Some(empty)))
}

#[test]
fn an_empty_description_is_shown(rt: HostRuntime) {
    let alloc = rt.alloc();
    assert!(rt; made_so(alloc, undescribed(alloc), EMPTY_DESCRIPTION));
}

const BLOCK_WRITTEN: &str =
    "HTTP/1.1 201 Created\r\nContent-Type: application/json\r\nContent-Length: 2\r\nx-amz-Checksum: AAECAwQFBgcICQoLDA0ODxAREhMUFRYXGBkaGxwdHh8=\r\nx-amz-Checksum-Algorithm: SHA256\r\n\r\n{}";

const COMPLETED: &str =
    "HTTP/1.1 202 Accepted\r\nContent-Type: application/json\r\nContent-Length: 22\r\n\r\n{\"Status\":\"completed\"}";

const OUT_OF_MEMORY: &str =
    "HTTP/1.1 507 Insufficient Storage\r\nContent-Type: application/json\r\nContent-Length: 85\r\n\r\n{\"Message\":\"out of memory\",\"Reason\":\"OUT_OF_MEMORY\",\"Type\":\"InternalServerException\"}";

#[test]
fn answers_of_fixed_text(rt: HostRuntime) {
    let alloc = rt.alloc();
    assert!(rt;
        is_told(alloc, Answer::BlockWritten { digest: LOW }, BLOCK_WRITTEN)
            && is_told(alloc, Answer::Completed, COMPLETED)
            && is_told(alloc, Answer::Memory, OUT_OF_MEMORY)
    );
}
