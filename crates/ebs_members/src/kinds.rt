// The kinds of members.
ghost use Rattle.std.specs.Prelude.{◌≡◌, ◌≤◌, List, [], ℕ, Option, Some, IfOk, length};
ghost use Rattle.std.specs.Option.{option_map, option_copied};
ghost use Rattle.serde_json.specs.View.{view, items_view};
ghost use Rattle.ebs_model.specs.Limits.{are_tags};
ghost use Rattle.ebs_members.specs.Sources.{Given};
ghost use Rattle.ebs_members.specs.inner.Sources.{seen};
ghost use Rattle.ebs_model.specs.Calls.Permission as model;
ghost use Rattle.ebs_members.specs.Kinds as kind;
ghost use Rattle.ebs_members.specs.inner.Kinds as inner_kind;

use crate::source::{Found, member};
use base64::engine::general_purpose::STANDARD;
use ebs_model::{
    Account, Accounts, LockMode, SnapKey, Tag, Tags, Term, Text, VolKey, are_tags, is_client_token,
    is_cool_off, is_restore, is_term, permitted, read_account, read_number, read_snap, read_vol,
};
use serde_json::Value;
use std::alloc::{AllocError, Global};

/// A kind of member, by what it reads. No memory is taken.
pub trait Kind: Drop {
    type Value: Drop;

    ghost reads: { Self → Given → Option Self.Value };

    fn read(&self, found: &Found) -> Option<Self::Value>
        ensures { result ≡ reads self.now (seen found.now) };
}

/// A kind of member whose value takes memory.
pub trait OwnedKind: Drop {
    type Value: Drop;

    ghost reads: { Self → Given → Option Self.Value };

    fn read(&self, alloc: Global, found: &Found) -> Result<Option<Self::Value>, AllocError>
        ensures { IfOk result (λ value. value ≡ reads self.now (seen found.now)) };
}

/// The id of a snapshot.
#[derive(Drop)]
pub struct Snapshot;

impl Kind for Snapshot {
    type Value = SnapKey;

    ghost reads = { λ _. kind.snapshot };

    fn read(&self, found: &Found) -> Option<SnapKey> {
        found.text().and_then(|text| read_snap(text))
    }
}

/// The id of a volume.
#[derive(Drop)]
pub struct Volume;

impl Kind for Volume {
    type Value = VolKey;

    ghost reads = { λ _. kind.volume };

    fn read(&self, found: &Found) -> Option<VolKey> {
        found.text().and_then(|text| read_vol(text))
    }
}

/// A number in a text.
#[derive(Drop)]
pub struct Index;

impl Kind for Index {
    type Value = u64;

    ghost reads = { λ _. kind.index };

    fn read(&self, found: &Found) -> Option<u64> {
        found.text().and_then(|text| read_number(text))
    }
}

/// A number.
#[derive(Drop)]
pub struct Number;

impl Kind for Number {
    type Value = u64;

    ghost reads = { λ _. kind.number };

    fn read(&self, found: &Found) -> Option<u64> {
        found.number()
    }
}

/// A number from the first to the second.
#[derive(Drop)]
pub struct Within(pub u32, pub u32);

impl Kind for Within {
    type Value = u32;

    ghost reads = { λ it. kind.number_within it.0 it.1 };

    fn read(&self, found: &Found) -> Option<u32> {
        match found.number() {
            Some(n) if u64::from(self.0) <= n && n <= u64::from(self.1) => Some(n as u32),
            _ => None,
        }
    }
}

/// A number of days or hours that something may last.
#[derive(Drop)]
pub enum Spell {
    LockDays,
    CoolHours(LockMode),
    RestoreDays,
}

impl Kind for Spell {
    type Value = u32;

    ghost reads = { kind.spell };

    fn read(&self, found: &Found) -> Option<u32> {
        match found.number() {
            Some(n) if n <= u64::from(u32::MAX) && may_last(self, n as u32) => Some(n as u32),
            _ => None,
        }
    }
}

fn may_last(spell: &Spell, n: u32) -> bool
    ensures { result ≡ kind.may_last spell.now n }
{
    match spell {
        Spell::LockDays => is_term(Term::Days(n)),
        Spell::CoolHours(mode) => is_cool_off(*mode, Some(n)),
        Spell::RestoreDays => is_restore(Some(n)),
    }
}

/// The text `governance` or `compliance`.
#[derive(Drop)]
pub struct Mode;

impl Kind for Mode {
    type Value = LockMode;

    ghost reads = { λ _. kind.lock_mode };

    fn read(&self, found: &Found) -> Option<LockMode> {
        if is_text("governance", found) {
            return Some(LockMode::Governance);
        }
        is_text("compliance", found).then_some(LockMode::Compliance)
    }
}

/// `true` or `false`.
#[derive(Drop)]
pub struct Flag;

impl Kind for Flag {
    type Value = bool;

    ghost reads = { λ _. kind.bool_in };

    fn read(&self, found: &Found) -> Option<bool> {
        found.json().and_then(Value::as_bool)
    }
}

/// A member that says nothing more than that it is good.
#[derive(Drop)]
pub enum Check {
    Exactly(&'static str),
    OnlyFalse,
    Absent,
}

impl Kind for Check {
    type Value = ();

    ghost reads = { inner_kind.check };

    fn read(&self, found: &Found) -> Option<()> {
        match self {
            Check::Exactly(text) => is_text(text, found).then_some(()),
            Check::OnlyFalse => is_false(found).then_some(()),
            Check::Absent => None,
        }
    }
}

fn is_text(expected: &str, found: &Found) -> bool
    ensures { result ≡ kind.is_text expected.now (kind.text_in (seen found.now)) }
{
    found.text() == Some(expected.as_bytes())
}

fn is_false(found: &Found) -> bool
    ensures { result ≡ kind.is_false (kind.bool_in (seen found.now)) }
{
    Flag.read(found) == Some(false)
}

/// The Base64 of 32 bytes.
#[derive(Drop)]
pub struct Digest;

impl Kind for Digest {
    type Value = [u8; 32];

    ghost reads = { λ _. kind.digest };

    fn read(&self, found: &Found) -> Option<[u8; 32]> {
        found.text().and_then(|text| digest_of(text))
    }
}

// 32 bytes have 44 digits.
#[tactic(auto, using(crate::proofs::Digests::long_text))]
fn digest_of(text: &[u8]) -> Option<[u8; 32]>
    ensures { result ≡ kind.digest_of text.now }
{
    if text.len() > 44 {
        return None;
    }
    short_digest(text)
}

fn short_digest(text: &[u8]) -> Option<[u8; 32]>
    requires { length text.now ≤ 44 }
    ensures { result ≡ kind.digest_of text.now }
{
    let mut bytes = [0u8; 33];
    match STANDARD.decode_slice_unchecked(text, &mut bytes) {
        Ok(size) => bytes[..size].try_into().ok(),
        Err(_) => None,
    }
}

/// A text.
#[derive(Drop)]
pub enum Words {
    Any,
    Description,
    Token,
}

impl OwnedKind for Words {
    type Value = Text;

    ghost reads = { inner_kind.words };

    fn read(&self, alloc: Global, found: &Found) -> Result<Option<Text>, AllocError> {
        match found.utf8() {
            Some(text) if fits(self, text.as_bytes()) => Ok(Some(copy(alloc, text)?)),
            _ => Ok(None),
        }
    }
}

/// A text of the same bytes.
pub fn copy(alloc: Global, text: &str) -> Result<Text, AllocError>
    ensures { IfOk result (λ copy. copy ≡ text.now) }
{
    Ok(Text::from_string(String::from_str(alloc, text)?))
}

fn fits(words: &Words, text: &[u8]) -> bool
    ensures { result ≡ inner_kind.fits words.now text.now }
{
    match words {
        Words::Any => true,
        Words::Description => text.len() <= 255,
        Words::Token => is_client_token(text),
    }
}

/// An array of tags within their limits.
#[derive(Drop)]
pub struct TagList;

impl OwnedKind for TagList {
    type Value = Tags;

    ghost reads = { λ _. kind.tags };

    fn read(&self, alloc: Global, found: &Found) -> Result<Option<Tags>, AllocError> {
        match found.json().and_then(Value::as_array) {
            Some(items) => tags_from(alloc, items.as_slice()),
            None => Ok(None),
        }
    }
}

fn tags_from(alloc: Global, items: &[Value]) -> Result<Option<Tags>, AllocError>
    ensures { IfOk result (λ found. found ≡ kind.keep_if are_tags (kind.all_of kind.tag_of (items_view items.now))) }
{
    match all_tags(alloc, items)? {
        Some(tags) if are_tags(tags.as_slice()) => Ok(Some(Tags::from_vec(tags))),
        _ => Ok(None),
    }
}

pub fn all_tags(alloc: Global, items: &[Value]) -> Result<Option<Vec<Tag>>, AllocError>
    ensures { IfOk result (λ found. option_map (λ tags. tags.items) found ≡ kind.all_of kind.tag_of (items_view items.now)) }
{
    let mut tags = Vec::new(alloc);
    for item in items {
        match tag_of(alloc, item)? {
            Some(tag) => tags.push(tag)?,
            None => return Ok(None),
        }
    }
    Ok(Some(tags))
}

fn tag_of(alloc: Global, item: &Value) -> Result<Option<Tag>, AllocError>
    ensures { IfOk result (λ tag. tag ≡ kind.tag_of (view item.now)) }
{
    match (text_at(alloc, "Key", item)?, text_at(alloc, "Value", item)?) {
        (Some(key), Some(value)) => Ok(Some(Tag { key, value })),
        _ => Ok(None),
    }
}

pub fn text_at(alloc: Global, name: &str, item: &Value) -> Result<Option<Text>, AllocError>
    ensures { IfOk result (λ text. text ≡ kind.text_at name.now (view item.now)) }
{
    match member(item, name).and_then(Value::as_str) {
        Some(text) => Ok(Some(copy(alloc, text)?)),
        None => Ok(None),
    }
}

/// Who is named: these accounts, or everybody.
#[derive(Drop)]
pub struct Named {
    pub accounts: Accounts,
    pub all: bool,
}

/// An array of at most 1000 accounts, or the text `all`.
#[derive(Drop)]
pub struct AccountList;

impl OwnedKind for AccountList {
    type Value = Named;

    ghost reads = { λ _. kind.named };

    fn read(&self, alloc: Global, found: &Found) -> Result<Option<Named>, AllocError> {
        match found.json().and_then(Value::as_array) {
            Some(items) => named_accounts(alloc, items.as_slice()),
            None => Ok(named_all(alloc, is_text("all", found))),
        }
    }
}

fn named_all(alloc: Global, is_all: bool) -> Option<Named>
    ensures { result ≡ kind.named_all is_all }
{
    let accounts = Accounts::new(alloc);
    is_all.then_some(Named {
        accounts,
        all: true,
    })
}

fn named_accounts(alloc: Global, items: &[Value]) -> Result<Option<Named>, AllocError>
    ensures { IfOk result (λ named. named ≡ kind.named_accounts (items_view items.now)) }
{
    match all_accounts(alloc, items)? {
        Some(accounts) if accounts.len() <= 1000 => Ok(Some(Named {
            accounts: ascending(alloc, Accounts::from_vec(accounts))?,
            all: false,
        })),
        _ => Ok(None),
    }
}

/// The accounts ascending, and each once.
fn ascending(alloc: Global, accounts: Accounts) -> Result<Accounts, AllocError>
    ensures { IfOk result (λ once. once ≡ model.permitted accounts [] []) }
{
    let none = Accounts::new(alloc);
    permitted(alloc, &accounts, &none, &none)
}

fn all_accounts(alloc: Global, items: &[Value]) -> Result<Option<Vec<Account>>, AllocError>
    ensures { IfOk result (λ found. option_map (λ accounts. accounts.items) found ≡ kind.all_of kind.account_in (items_view items.now)) }
{
    let mut accounts = Vec::new(alloc);
    for item in items {
        match account_in(item) {
            Some(account) => accounts.push(account)?,
            None => return Ok(None),
        }
    }
    Ok(Some(accounts))
}

fn account_in(item: &Value) -> Option<Account>
    ensures { result ≡ kind.account_in (view item.now) }
{
    item.as_str().and_then(|text| read_account(text.as_bytes()))
}
