// Long pages, by their size, their front and their end.
use super::lists::{page, push_entry};
use super::*;
use ebs_model::BlockEntries;

const FRONT_OF_1000: &str =
    "HTTP/1.1 200 OK\r\nContent-Type: application/json\r\nContent-Length: 36977\r\n\r\n{\"BlockSize\":524288,\"Blocks\":[{\"BlockIndex\":0,\"BlockToken\":\"0a\"},";

const END_OF_1000: &str =
    ",{\"BlockIndex\":999,\"BlockToken\":\"0a\"}],\"ExpiryTime\":604800,\"NextToken\":\"2c\",\"VolumeSize\":16384}";

const FRONT_OF_10000: &str =
    "HTTP/1.1 200 OK\r\nContent-Type: application/json\r\nContent-Length: 378977\r\n\r\n{\"BlockSize\":524288,\"Blocks\":[{\"BlockIndex\":0,\"BlockToken\":\"0a\"},";

const END_OF_10000: &str =
    ",{\"BlockIndex\":9999,\"BlockToken\":\"0a\"}],\"ExpiryTime\":604800,\"NextToken\":\"2c\",\"VolumeSize\":16384}";

/// The blocks below `count`.
fn entries_below(alloc: Global, count: u32) -> Result<BlockEntries, AllocError> {
    let mut entries = BlockEntries::new(alloc);
    for index in 0..count {
        push_entry(&mut entries, alloc, index, "0a")?;
    }
    Ok(entries)
}

fn page_of(alloc: Global, count: u32) -> Result<Answer, AllocError> {
    let entries = entries_below(alloc, count)?;
    page(alloc, entries, "2c")
}

fn has_ends(text: &[u8], front: &str, end: &str) -> bool {
    text.starts_with(front.as_bytes()) && text.ends_with(end.as_bytes())
}

/// The size of a page, its front and its end.
#[derive(Clone, Copy)]
struct Wanted<'a> {
    size: usize,
    front: &'a str,
    end: &'a str,
}

fn tells_ends(alloc: Global, page: &Answer, want: Wanted) -> bool {
    match printed(alloc, page) {
        Ok(told) => {
            let text = told.text.as_slice();
            let so = text.len() == want.size && has_ends(text, want.front, want.end);
            drop(told);
            so
        }
        Err(_) => false,
    }
}

/// Whether the page of so many blocks is told so.
fn is_page(alloc: Global, count: u32, want: Wanted) -> bool {
    match page_of(alloc, count) {
        Ok(page) => {
            let so = tells_ends(alloc, &page, want);
            drop(page);
            so
        }
        Err(_) => false,
    }
}

const OF_1000: Wanted = Wanted {
    size: 37051,
    front: FRONT_OF_1000,
    end: END_OF_1000,
};

const OF_10000: Wanted = Wanted {
    size: 379_052,
    front: FRONT_OF_10000,
    end: END_OF_10000,
};

#[test]
fn pages_of_1000_and_of_10000_blocks(rt: HostRuntime) {
    let alloc = rt.alloc();
    assert!(rt; is_page(alloc, 1000, OF_1000) && is_page(alloc, 10000, OF_10000));
}
