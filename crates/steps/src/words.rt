// The words of a call.
ghost use Rattle.std.specs.Prelude.{◌<◌, ◌^◌};

use ebs_model::{
    Account, Accounts, KeyNumber, PolicyKey, RuleKey, RuleTag, RuleTags, SnapKey, Tag, Tags, Text,
    VolKey,
};
use hex::FromHex;
use std::alloc::Global;
use std::ops::Range;

/// Words in a row, and words with a name: `1.0 7 sum=..`
#[derive(Clone, Copy)]
pub struct Words<'a> {
    text: &'a str,
}

impl<'a> Words<'a> {
    pub fn new(text: &'a str) -> Self {
        Words { text }
    }

    pub fn text(self) -> &'a str {
        self.text
    }

    /// The word at a place.
    pub fn at(self, place: usize) -> Option<&'a str> {
        self.text.split(" ").nth(place)
    }

    /// The word with the name.
    pub fn named(self, name: &str) -> Option<&'a str> {
        for word in self.text.split(" ") {
            if let Some((key, value)) = word.split_once("=") {
                if key == name {
                    return Some(value);
                }
            }
        }
        None
    }
}

pub fn long(words: Words<'_>, place: usize) -> Option<u64> {
    long_of(words.at(place)?)
}

pub fn short(words: Words<'_>, place: usize) -> Option<u32> {
    short_of(words.at(place)?)
}

pub fn long_of(text: &str) -> Option<u64> {
    text.parse().ok()
}

pub fn short_of(text: &str) -> Option<u32> {
    text.parse().ok()
}

/// A number that may be left out. Nothing where it is none.
pub fn given_long(words: Words<'_>, name: &str) -> Option<Option<u64>> {
    match words.named(name) {
        Some(text) => Some(Some(long_of(text)?)),
        None => Some(None),
    }
}

pub fn given_short(words: Words<'_>, name: &str) -> Option<Option<u32>> {
    match words.named(name) {
        Some(text) => Some(Some(short_of(text)?)),
        None => Some(None),
    }
}

pub fn given_text(alloc: Global, words: Words<'_>, name: &str) -> Option<Option<Text>> {
    match words.named(name) {
        Some(text) => Some(Some(text_of(alloc, text)?)),
        None => Some(None),
    }
}

pub fn given_digest(words: Words<'_>, name: &str) -> Option<Option<[u8; 32]>> {
    match words.named(name) {
        Some(text) => Some(Some(<[u8; 32] as FromHex>::from_hex(text.as_bytes()).ok()?)),
        None => Some(None),
    }
}

pub fn given_snap(words: Words<'_>, name: &str) -> Option<Option<SnapKey>> {
    match words.named(name) {
        Some(text) => Some(Some(snap_of(text)?)),
        None => Some(None),
    }
}

pub fn snap(words: Words<'_>, place: usize) -> Option<SnapKey> {
    snap_of(words.at(place)?)
}

pub fn volume(words: Words<'_>, place: usize) -> Option<VolKey> {
    let key = snap(words, place)?;
    Some(VolKey {
        account: key.account,
        number: key.number,
    })
}

pub fn rule(words: Words<'_>, place: usize) -> Option<RuleKey> {
    let key = snap(words, place)?;
    Some(RuleKey {
        account: key.account,
        number: key.number,
    })
}

pub fn policy(words: Words<'_>, place: usize) -> Option<PolicyKey> {
    let key = snap(words, place)?;
    Some(PolicyKey {
        account: key.account,
        number: key.number,
    })
}

fn snap_of(text: &str) -> Option<SnapKey> {
    let (account, number) = text.split_once(".")?;
    Some(SnapKey {
        account: account_of(account)?,
        number: number_of(number)?,
    })
}

pub fn account_of(text: &str) -> Option<Account> {
    account(long_of(text)?)
}

fn account(number: u64) -> Option<Account> {
    if number >= 1_000_000_000_000 {
        return None;
    }
    Some(Account::new(number))
}

fn number_of(text: &str) -> Option<KeyNumber> {
    let number = short_of(text)?;
    if number >= 1 << 28 {
        return None;
    }
    Some(KeyNumber::new(number))
}

fn text_of(alloc: Global, text: &str) -> Option<Text> {
    Some(Text::from_string(String::from_str(alloc, text).ok()?))
}

/// Accounts by number, and from one to another: `add=2,100-199`
pub fn accounts(alloc: Global, words: Words<'_>, name: &str) -> Option<Accounts> {
    let mut accounts = Accounts::new(alloc);
    add_accounts(&mut accounts, items(words, name))?;
    Some(accounts)
}

fn add_accounts(accounts: &mut Accounts, text: &str) -> Option<()> {
    for item in text.split(",") {
        add_owners(accounts, numbers(item)?)?;
    }
    Some(())
}

fn add_owners(accounts: &mut Accounts, numbers: Range<u64>) -> Option<()> {
    for number in numbers {
        accounts.push(account(number)?).ok()?;
    }
    Some(())
}

/// Tags whose keys are these numbers.
pub fn tags(alloc: Global, words: Words<'_>, name: &str) -> Option<Tags> {
    let mut tags = Vec::new(alloc);
    add_tags(alloc, &mut tags, items(words, name))?;
    Some(Tags::from_vec(tags))
}

fn add_tags(alloc: Global, tags: &mut Vec<Tag>, text: &str) -> Option<()> {
    for item in text.split(",") {
        add_numbered(alloc, tags, numbers(item)?)?;
    }
    Some(())
}

fn add_numbered(alloc: Global, tags: &mut Vec<Tag>, numbers: Range<u64>) -> Option<()> {
    for number in numbers {
        tags.push(numbered(alloc, number)?).ok()?;
    }
    Some(())
}

fn numbered(alloc: Global, number: u64) -> Option<Tag> {
    let key = Text::from_string(number.to_string(alloc).ok()?);
    let value = text_of(alloc, "0")?;
    Some(Tag { key, value })
}

/// Resource tags of a rule, with a value or without one: `tags=1:0,2`
pub fn rule_tags(alloc: Global, words: Words<'_>) -> Option<RuleTags> {
    let mut tags = Vec::new(alloc);
    add_rule_tags(alloc, &mut tags, items(words, "tags"))?;
    Some(RuleTags::from_vec(tags))
}

fn add_rule_tags(alloc: Global, tags: &mut Vec<RuleTag>, text: &str) -> Option<()> {
    for item in text.split(",") {
        add_rule_tag(alloc, tags, item)?;
    }
    Some(())
}

fn add_rule_tag(alloc: Global, tags: &mut Vec<RuleTag>, item: &str) -> Option<()> {
    if item.is_empty() {
        return Some(());
    }
    tags.push(rule_tag(alloc, item)?).ok()
}

fn rule_tag(alloc: Global, item: &str) -> Option<RuleTag> {
    match item.split_once(":") {
        Some((key, value)) => Some(RuleTag {
            value: Some(text_of(alloc, value)?),
            key: text_of(alloc, key)?,
        }),
        None => Some(RuleTag {
            key: text_of(alloc, item)?,
            value: None,
        }),
    }
}

fn items<'a>(words: Words<'a>, name: &str) -> &'a str {
    words.named(name).unwrap_or("")
}

fn numbers(item: &str) -> Option<Range<u64>> {
    if item.is_empty() {
        return Some(0..0);
    }
    let (first, last) = item.split_once("-").unwrap_or((item, item));
    Some(long_of(first)?..long_of(last)?.saturating_add(1))
}
