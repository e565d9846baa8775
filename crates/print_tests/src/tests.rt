// Whole texts, written out from the format.
use ebs_model::{
    Account, Answer, Bytes, KeyNumber, Moment, Refusal, SnapKey, Tag, Tags, Text, VolKey,
};
use ebs_print::{Printed, write_answer};
use ebs_shown::base64_text;
use std::alloc::{AllocError, Global};

mod blocks;
mod faults;
mod lists;
mod pages;
mod policies;
mod refusals;
mod rows;
mod rules;
mod starts;

// 0x00 to 0x1f, 0xe0 to 0xff, and their Base64.
const LOW: [u8; 32] =
    *b"\x00\x01\x02\x03\x04\x05\x06\x07\x08\x09\x0a\x0b\x0c\x0d\x0e\x0f\x10\x11\x12\x13\x14\x15\x16\x17\x18\x19\x1a\x1b\x1c\x1d\x1e\x1f";

const HIGH: [u8; 32] =
    *b"\xe0\xe1\xe2\xe3\xe4\xe5\xe6\xe7\xe8\xe9\xea\xeb\xec\xed\xee\xef\xf0\xf1\xf2\xf3\xf4\xf5\xf6\xf7\xf8\xf9\xfa\xfb\xfc\xfd\xfe\xff";

fn text(alloc: Global, text: &str) -> Result<Text, AllocError> {
    let string = String::from_str(alloc, text)?;
    Ok(Text::from_string(string))
}

fn tag(alloc: Global, key: &str, value: &str) -> Result<Tag, AllocError> {
    let key = text(alloc, key)?;
    let value = text(alloc, value)?;
    Ok(Tag { key, value })
}

fn push_tag(tags: &mut Tags, alloc: Global, key: &str, value: &str) -> Result<(), AllocError> {
    let tag = tag(alloc, key, value)?;
    tags.push(tag)
}

fn tags_of(alloc: Global, pairs: &[(&str, &str)]) -> Result<Tags, AllocError> {
    let mut tags = Tags::new(alloc);
    for (key, value) in pairs {
        push_tag(&mut tags, alloc, key, value)?;
    }
    Ok(tags)
}

/// A snapshot of account 1.
fn snap(number: u8) -> SnapKey {
    SnapKey {
        account: Account::new(1),
        number: KeyNumber::new(u32::from(number)),
    }
}

/// The last account, and its last snapshot and volume.
fn last_account() -> Account {
    Account::new(999_999_999_999)
}

fn last_number() -> KeyNumber {
    KeyNumber::new(0xfff_ffff)
}

fn last_snap() -> SnapKey {
    SnapKey {
        account: last_account(),
        number: last_number(),
    }
}

fn last_volume() -> VolKey {
    VolKey {
        account: last_account(),
        number: last_number(),
    }
}

// Without a contract, so that no proof of a test takes the text apart.
fn printed<'a>(alloc: Global, answer: &'a Answer) -> Result<Printed<'a>, AllocError> {
    write_answer(alloc, answer)
}

fn is_text(told: &Printed, want: &str) -> bool {
    told.text.as_slice() == want.as_bytes() && told.block.is_empty()
}

fn tells(alloc: Global, answer: &Answer, want: &str) -> bool {
    match printed(alloc, answer) {
        Ok(told) => {
            let so = is_text(&told, want);
            drop(told);
            so
        }
        Err(_) => false,
    }
}

/// Whether this text, and no block, is told of the answer, which ends here.
fn is_told(alloc: Global, answer: Answer, want: &str) -> bool {
    let so = tells(alloc, &answer, want);
    drop(answer);
    so
}

/// The same of an answer that took memory to make.
fn made_so(alloc: Global, made: Result<Answer, AllocError>, want: &str) -> bool {
    match made {
        Ok(answer) => is_told(alloc, answer, want),
        Err(_) => false,
    }
}

fn is_refused(alloc: Global, refusal: Refusal, want: &str) -> bool {
    is_told(alloc, Answer::Refused(refusal), want)
}

/// 48 bytes whose six-bit groups are 0 to 63.
const GROUPS: &[u8] =
    b"\x00\x10\x83\x10\x51\x87\x20\x92\x8b\x30\xd3\x8f\x41\x14\x93\x51\x55\x97\x61\x96\x9b\x71\xd7\x9f\x82\x18\xa3\x92\x59\xa7\xa2\x9a\xab\xb2\xdb\xaf\xc3\x1c\xb3\xd3\x5d\xb7\xe3\x9e\xbb\xf3\xdf\xbf";

fn has_digits(alloc: Global, bytes: &[u8], want: &str) -> bool {
    match base64_text(alloc, bytes) {
        Ok(text) => {
            let so = text.as_str() == want;
            drop(text);
            so
        }
        Err(_) => false,
    }
}

#[test]
fn the_64_digits(rt: HostRuntime) {
    let want = "ABCDEFGHIJKLMNOPQRSTUVWXYZabcdefghijklmnopqrstuvwxyz0123456789+/";
    assert!(rt; has_digits(rt.alloc(), GROUPS, want));
}
