// Lists of blocks and of changed ones, and their refusals.
use super::*;
use ebs_model::{BlockEntries, BlockEntry, ChangedToken, ChangedTokens};

/// The text, or none where it is empty.
fn some_text(alloc: Global, word: &str) -> Result<Option<Text>, AllocError> {
    if word.is_empty() {
        return Ok(None);
    }
    let found = text(alloc, word)?;
    Ok(Some(found))
}

pub fn push_entry(
    entries: &mut BlockEntries,
    alloc: Global,
    index: u32,
    token: &str,
) -> Result<(), AllocError> {
    let token = text(alloc, token)?;
    entries.push(BlockEntry { index, token })
}

fn entries_of(alloc: Global, rows: &[(u32, &str)]) -> Result<BlockEntries, AllocError> {
    let mut entries = BlockEntries::new(alloc);
    for (index, token) in rows {
        push_entry(&mut entries, alloc, *index, token)?;
    }
    Ok(entries)
}

/// A page of 16384 GiB. It is the last one where the next token is empty.
pub fn page(alloc: Global, entries: BlockEntries, next: &str) -> Result<Answer, AllocError> {
    let next = some_text(alloc, next)?;
    Ok(Answer::BlockList {
        entries,
        expiry: Moment { second: 604_800 },
        next,
        size: 16384,
    })
}

fn listed(alloc: Global, rows: &[(u32, &str)], next: &str) -> Result<Answer, AllocError> {
    let entries = entries_of(alloc, rows)?;
    page(alloc, entries, next)
}

/// Whether the page of these blocks is told so.
fn lists_so(alloc: Global, rows: &[(u32, &str)], next: &str, want: &str) -> bool {
    made_so(alloc, listed(alloc, rows, next), want)
}

const TWO_BLOCKS: &str =
    "HTTP/1.1 200 OK\r\nContent-Type: application/json\r\nContent-Length: 164\r\n\r\n{\"BlockSize\":524288,\"Blocks\":[{\"BlockIndex\":0,\"BlockToken\":\"0a\"},{\"BlockIndex\":33554431,\"BlockToken\":\"1b\"}],\"ExpiryTime\":604800,\"NextToken\":\"2c\",\"VolumeSize\":16384}";

const TWO_LAST_BLOCKS: &str =
    "HTTP/1.1 200 OK\r\nContent-Type: application/json\r\nContent-Length: 147\r\n\r\n{\"BlockSize\":524288,\"Blocks\":[{\"BlockIndex\":0,\"BlockToken\":\"0a\"},{\"BlockIndex\":33554431,\"BlockToken\":\"1b\"}],\"ExpiryTime\":604800,\"VolumeSize\":16384}";

const NO_BLOCKS: &str =
    "HTTP/1.1 200 OK\r\nContent-Type: application/json\r\nContent-Length: 71\r\n\r\n{\"BlockSize\":524288,\"Blocks\":[],\"ExpiryTime\":604800,\"VolumeSize\":16384}";

const TWO: [(u32, &str); 2] = [(0, "0a"), (33_554_431, "1b")];

#[test]
fn lists_of_blocks(rt: HostRuntime) {
    let alloc = rt.alloc();
    assert!(rt;
        lists_so(alloc, &TWO, "2c", TWO_BLOCKS)
            && lists_so(alloc, &TWO, "", TWO_LAST_BLOCKS)
            && lists_so(alloc, &[], "", NO_BLOCKS)
    );
}

/// An index and its two tokens, of which an empty one isn't there.
type Change<'a> = (u32, &'a str, &'a str);

fn change_of(alloc: Global, row: Change) -> Result<ChangedToken, AllocError> {
    let (index, first, second) = row;
    let first = some_text(alloc, first)?;
    let second = some_text(alloc, second)?;
    Ok(ChangedToken {
        index,
        first,
        second,
    })
}

fn push_change(entries: &mut ChangedTokens, alloc: Global, row: Change) -> Result<(), AllocError> {
    let change = change_of(alloc, row)?;
    entries.push(change)
}

fn changes_of(alloc: Global, rows: &[Change]) -> Result<ChangedTokens, AllocError> {
    let mut entries = ChangedTokens::new(alloc);
    for row in rows {
        push_change(&mut entries, alloc, *row)?;
    }
    Ok(entries)
}

fn compared(alloc: Global, rows: &[Change], next: &str) -> Result<Answer, AllocError> {
    let next = some_text(alloc, next)?;
    let entries = changes_of(alloc, rows)?;
    Ok(Answer::ChangedList {
        entries,
        expiry: Moment {
            second: 68_719_476_735,
        },
        next,
        size: 1,
    })
}

/// Whether the page of these changes is told so.
fn compares_so(alloc: Global, rows: &[Change], next: &str, want: &str) -> bool {
    made_so(alloc, compared(alloc, rows, next), want)
}

const THREE_CHANGES: &str =
    "HTTP/1.1 200 OK\r\nContent-Type: application/json\r\nContent-Length: 240\r\n\r\n{\"BlockSize\":524288,\"ChangedBlocks\":[{\"BlockIndex\":4,\"FirstBlockToken\":\"0a\"},{\"BlockIndex\":5,\"SecondBlockToken\":\"1b\"},{\"BlockIndex\":9,\"FirstBlockToken\":\"2c\",\"SecondBlockToken\":\"3d\"}],\"ExpiryTime\":68719476735,\"NextToken\":\"4e\",\"VolumeSize\":1}";

const NO_CHANGES: &str =
    "HTTP/1.1 200 OK\r\nContent-Type: application/json\r\nContent-Length: 79\r\n\r\n{\"BlockSize\":524288,\"ChangedBlocks\":[],\"ExpiryTime\":68719476735,\"VolumeSize\":1}";

const THREE: [Change; 3] = [(4, "0a", ""), (5, "", "1b"), (9, "2c", "3d")];

#[test]
fn lists_of_changed_blocks(rt: HostRuntime) {
    let alloc = rt.alloc();
    assert!(rt;
        compares_so(alloc, &THREE, "4e", THREE_CHANGES) && compares_so(alloc, &[], "", NO_CHANGES)
    );
}

const BAD_BLOCK_TOKEN: &str =
    "HTTP/1.1 400 Bad Request\r\nContent-Type: application/json\r\nContent-Length: 89\r\n\r\n{\"Message\":\"bad block token\",\"Reason\":\"INVALID_BLOCK_TOKEN\",\"Type\":\"ValidationException\"}";

const BAD_PAGE_TOKEN: &str =
    "HTTP/1.1 400 Bad Request\r\nContent-Type: application/json\r\nContent-Length: 87\r\n\r\n{\"Message\":\"bad page token\",\"Reason\":\"INVALID_PAGE_TOKEN\",\"Type\":\"ValidationException\"}";

const UNRELATED: &str =
    "HTTP/1.1 400 Bad Request\r\nContent-Type: application/json\r\nContent-Length: 93\r\n\r\n{\"Message\":\"unrelated snapshots\",\"Reason\":\"UNRELATED_SNAPSHOTS\",\"Type\":\"ValidationException\"}";

#[test]
fn refusals_of_lists(rt: HostRuntime) {
    let alloc = rt.alloc();
    assert!(rt;
        is_refused(alloc, Refusal::BadBlockToken, BAD_BLOCK_TOKEN)
            && is_refused(alloc, Refusal::BadPageToken, BAD_PAGE_TOKEN)
            && is_refused(alloc, Refusal::Unrelated, UNRELATED)
    );
}
