// Whole tokens against digests made outside the program (FIPS 180-4), and tokens turned wrong.
ghost use Rattle.std.specs.Prelude.{◌<◌, ◌^◌};

use super::helpers::{at, same, snap_key};
use ebs_model::{Moment, SnapKey, Text};
use ebs_tokens::*;
use std::alloc::{AllocError, Global};
use std::process::Abort;
use std::test::Fail;

const SECRET: [u8; 32] = [0; 32];

const BLOCK: &str =
    "01000000000000000100000000000000070000000000093e68359d1f6924808de8ebc80f373bc60d4b0ecf900163d529c04f85a626d821f34c";

const LAST_DIGIT_CHANGED: &str =
    "01000000000000000100000000000000070000000000093e68359d1f6924808de8ebc80f373bc60d4b0ecf900163d529c04f85a626d821f34d";

const IN_UPPER_CASE: &str =
    "01000000000000000100000000000000070000000000093E68359D1F6924808DE8EBC80F373BC60D4B0ECF900163D529C04F85A626D821F34C";

const WITHOUT_THE_LAST_DIGIT: &str =
    "01000000000000000100000000000000070000000000093e68359d1f6924808de8ebc80f373bc60d4b0ecf900163d529c04f85a626d821f34";

const CHANGED_PAGE: &str =
    "030000000000000001000000000000000000000001000000010000006400000000000011f86f252883129ec49d22ed68e1d8e0a108669534670509f024313f382f728f183d";

const LISTED_PAGE: &str =
    "020000000000000001000000000000000000000001000000000000006400000000000011f8465dcae97869803b77e2befc6acd1687024bdb873051070b55f9858beec9de69";

const BLOCK_EXPIRY: Moment = Moment { second: 605800 };

const PAGE_EXPIRY: Moment = Moment { second: 4600 };

fn page(changed: bool, second: u32) -> PageField
    requires { second < 2 ^ 28 }
{
    PageField {
        changed,
        first: snap_key(0),
        second: snap_key(second),
        index: 100,
        expiry: PAGE_EXPIRY,
    }
}

fn assert_token(rt: &impl Abort, token: Text, wanted: &str, length: usize) {
    same(rt, (token.as_str(), token.len()), (wanted, length));
    drop(token);
}

fn assert_page_tokens(
    rt: &impl Abort,
    alloc: Global,
    rows: &[(PageField, &str)],
) -> Result<(), AllocError> {
    for (page, wanted) in rows {
        assert_token(rt, page_token(alloc, &SECRET, page)?, wanted, 138);
    }
    Ok(())
}

#[test]
fn whole_tokens(rt: HostRuntime) -> Result<(), Fail> {
    let token = block_token(rt.alloc(), &SECRET, &snap_key(0), 7, BLOCK_EXPIRY)?;
    assert_token(&rt, token, BLOCK, 114);
    let rows = [(page(true, 1), CHANGED_PAGE), (page(false, 0), LISTED_PAGE)];
    Ok(assert_page_tokens(&rt, rt.alloc(), &rows)?)
}

/// A text, an index, a second, and whether it is a token of the block there and then.
const GOOD: [(&str, u64, u64, bool); 9] = [
    (BLOCK, 7, 605799, true),
    (BLOCK, 7, 605800, false),
    (BLOCK, 8, 605799, false),
    (BLOCK, 7 + (1 << 32), 605799, false),
    (LAST_DIGIT_CHANGED, 7, 605799, false),
    (IN_UPPER_CASE, 7, 605799, false),
    (WITHOUT_THE_LAST_DIGIT, 7, 605799, false),
    (CHANGED_PAGE, 7, 1000, false),
    ("", 7, 1000, false),
];

fn assert_block_tokens(rt: &impl Abort, rows: &[(&str, u64, u64, bool)]) {
    for (text, index, second, good) in rows {
        let found = is_block_token(&SECRET, &snap_key(0), *index, at(*second), text.as_bytes());
        same(
            rt,
            (*text, *index, *second, found),
            (*text, *index, *second, *good),
        );
    }
}

#[test]
fn block_tokens_are_good_until_their_expiry(rt: HostRuntime) {
    assert_block_tokens(&rt, &GOOD);
    let (first, second) = (snap_key(0), snap_key(1));
    let of_another_secret = is_block_token(&[1; 32], &first, 7, at(1000), BLOCK.as_bytes());
    let of_another_key = is_block_token(&SECRET, &second, 7, at(1000), BLOCK.as_bytes());
    same(&rt, of_another_secret, false);
    same(&rt, of_another_key, false);
}

/// A text, whether it is of a page of changes, the second snapshot, a second, and where the page starts.
type Start = (&'static str, bool, SnapKey, u64, Option<u32>);

fn assert_starts(rt: &impl Abort, rows: &[Start]) {
    for (text, changed, key, second, start) in rows {
        let found = page_start(
            &SECRET,
            *changed,
            &snap_key(0),
            key,
            at(*second),
            text.as_bytes(),
        );
        same(rt, (*text, *second, found), (*text, *second, *start));
    }
}

#[test]
fn pages_begin_where_their_tokens_say(rt: HostRuntime) {
    let rows = [
        (CHANGED_PAGE, true, snap_key(1), 4599, Some(100)),
        (CHANGED_PAGE, true, snap_key(1), 4600, None),
        (CHANGED_PAGE, false, snap_key(1), 4599, None),
        (CHANGED_PAGE, true, snap_key(0), 4599, None),
        (LISTED_PAGE, false, snap_key(0), 4599, Some(100)),
        (LISTED_PAGE, true, snap_key(0), 4599, None),
        (BLOCK, false, snap_key(0), 4599, None),
    ];
    assert_starts(&rt, &rows);
}

fn assert_pages(rt: &impl Abort, rows: &[(&str, Option<PageField>)]) {
    for (text, wanted) in rows {
        let found = read_page_token(&SECRET, text.as_bytes());
        same(rt, (*text, found), (*text, *wanted));
    }
}

#[test]
fn tokens_are_read_back(rt: HostRuntime) {
    let field = BlockField {
        key: snap_key(0),
        index: 7,
        expiry: BLOCK_EXPIRY,
    };
    same(
        &rt,
        read_block_token(&SECRET, BLOCK.as_bytes()),
        Some(field),
    );
    same(
        &rt,
        read_block_token(&SECRET, IN_UPPER_CASE.as_bytes()),
        None,
    );
    let pages = [
        (CHANGED_PAGE, Some(page(true, 1))),
        (LISTED_PAGE, Some(page(false, 0))),
        (BLOCK, None),
    ];
    assert_pages(&rt, &pages);
}
