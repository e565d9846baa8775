// Where members stand, and what is found there.
ghost use Rattle.std.specs.Prelude.{◌≡◌, Some, IfOk, IfErr, OnOk, OnErr, codes};
ghost use Rattle.std.specs.Option.{option_map, option_and_then, option_copied};
ghost use Rattle.std.specs.Str.{is_utf8};
ghost use Rattle.serde_json.specs.View.{view, items_view};
ghost use Rattle.serde_json.specs.Find.{as_str, as_bool, as_array};
ghost use Rattle.ebs_members.specs.inner.Outcome.{Misses, RanOut};
ghost use Rattle.ebs_members.specs.Sources.{need, header, given_text, path_bytes, query_of, pairs_of, query_value, decoded};
ghost use Rattle.ebs_members.specs.inner.Memory.{IsGiven};
ghost use Rattle.ebs_members.specs.Sources as source;
ghost use Rattle.ebs_members.specs.inner.Sources.{found, seen};
ghost use Rattle.ebs_members.specs.Kinds.{text_in, json_in, any_text, keep_if, number};

use crate::captures::Captures;
use crate::members::{Read, Wrong};
use ebs_http::Headers;
use ebs_model::{Text, read_number};
use form_urlencoded::{decode, raw_pairs};
use serde_json::Value;
use std::alloc::{AllocError, Global};
use std::str::from_utf8;

/// Where members stand: in a path, as its router captured them; among the pairs of a query, the header fields, or in a JSON object.
#[derive(Clone, Copy)]
pub enum Source<'a> {
    Path(Captures<'a>),
    Query(&'a [(Text, Text)]),
    Fields(&'a Headers),
    Body(&'a Value),
}

/// What is found of a member.
#[derive(Clone, Copy)]
pub enum Found<'a> {
    Text(&'a [u8]),
    Json(&'a Value),
}

impl<'a> Source<'a> {
    /// The member of this name.
    pub fn find(&self, name: &str) -> Option<Found<'a>>
        ensures { option_map seen result ≡ found self.now name.now }
    {
        match self {
            Source::Path(captures) => captures.get(name).map(|text| Found::Text(text.as_bytes())),
            Source::Query(pairs) => query_value(name, pairs).map(|text| Found::Text(text)),
            Source::Fields(fields) => header(fields, name).map(|text| Found::Text(text)),
            Source::Body(body) => member(body, name).map(|value| Found::Json(value)),
        }
    }
}

impl<'a> Found<'a> {
    pub fn text(&self) -> Option<&[u8]>
        ensures { option_copied result ≡ text_in (seen self.now) }
    {
        match self {
            Found::Text(text) => Some(text),
            Found::Json(value) => value.as_str().map(str::as_bytes),
        }
    }

    /// The text, if it is in UTF-8.
    pub fn utf8(&self) -> Option<&str>
        ensures { option_copied result ≡ any_text (seen self.now) }
    {
        self.text().and_then(|text| utf8_only(text))
    }

    pub fn number(&self) -> Option<u64>
        ensures { result ≡ number (seen self.now) }
    {
        match self {
            Found::Text(text) => read_number(text),
            Found::Json(value) => value.as_u64(),
        }
    }

    pub fn json(&self) -> Option<&Value>
        ensures { option_map (λ value. view value.now) result ≡ json_in (seen self.now) }
    {
        match self {
            Found::Json(value) => Some(value),
            Found::Text(_) => None,
        }
    }
}

pub fn utf8_only(text: &[u8]) -> Option<&str>
    ensures { option_copied result ≡ keep_if is_utf8 (Some text.now) }
{
    match from_utf8(text) {
        Ok(text) => Some(text),
        Err(_) => None,
    }
}

/// The path of a target, and what follows the first `?` (RFC 9112, section 3.2.1).
pub fn path_and_query(target: &[u8]) -> (&[u8], &[u8])
    ensures path { result.0.now ≡ path_bytes target.now }
    ensures query { result.1.now ≡ query_of target.now }
{
    match target.iter().position(|&byte| byte == b'?') {
        Some(place) => (&target[..place], &target[place + 1..]),
        None => (target, &[]),
    }
}

/// The pairs of a query, decoded (URL Standard, section 5.1).
#[tactic(auto, using(crate::proofs::Queries::no_pairs))]
pub fn pairs(alloc: Global, query: &[u8]) -> Result<Vec<(Text, Text)>, AllocError>
    ensures value { IfOk result (λ pairs. pairs.items ≡ pairs_of query.now) }
    ensures memory { OnErr result (IsGiven query.now) }
{
    if query.is_empty() {
        return Ok(Vec::new(alloc));
    }
    some_pairs(alloc, query)
}

fn some_pairs(alloc: Global, query: &[u8]) -> Result<Vec<(Text, Text)>, AllocError>
    ensures { IfOk result (λ pairs. pairs.items ≡ pairs_of query.now) }
{
    let mut pairs = Vec::new(alloc);
    for (name, value) in raw_pairs(query) {
        pairs.push((decoded(alloc, name)?, decoded(alloc, value)?))?;
    }
    Ok(pairs)
}

fn decoded(alloc: Global, text: &[u8]) -> Result<Text, AllocError>
    ensures { IfOk result (λ plain. plain ≡ decoded text.now) }
{
    let text = decode(alloc, text)?;
    Ok(Text::from_string(text.into_owned(alloc)?))
}

/// The value of the first pair of this name.
fn query_value<'a>(name: &str, pairs: &'a [(Text, Text)]) -> Option<&'a [u8]>
    ensures { option_copied result ≡ query_value name.now pairs.now }
{
    let pair = pairs.iter().find(|pair| pair.0.as_str() == name);
    pair.map(|pair| pair.1.as_bytes())
}

/// The value of the first field of this name.
pub fn header<'a>(fields: &'a Headers, name: &str) -> Option<&'a [u8]>
    ensures { option_copied result ≡ header name.now fields.now }
{
    fields.find(name).map(|field| field.value.as_slice())
}

/// The member of this name, unless it is null.
pub fn member<'a>(body: &'a Value, name: &str) -> Option<&'a Value>
    ensures { option_map (λ v. view v.now) result ≡ source.member name.now (view body.now) }
{
    body.get(name).filter(|value| !value.is_null())
}

/// The object that a body is.
#[tactic(auto, using(crate::proofs::Queries::no_body))]
pub fn object<'n>(alloc: Global, bytes: &[u8]) -> Read<'n, Value>
    ensures ok { IfOk result (λ value. source.body_of bytes.now ≡ Some (view value)) }
    ensures err { IfErr result (λ e. Misses (need (codes "body") (source.body_of bytes.now)) e) }
    ensures given { OnOk result (IsGiven bytes.now) }
    ensures memory { IfErr result (λ e. RanOut e → IsGiven bytes.now) }
{
    if bytes.is_empty() {
        return Err(Wrong::Member("body"));
    }
    some_object(alloc, bytes)
}

fn some_object<'n>(alloc: Global, bytes: &[u8]) -> Read<'n, Value>
    ensures ok { IfOk result (λ value. source.body_of bytes.now ≡ Some (view value)) }
    ensures err { IfErr result (λ e. Misses (need (codes "body") (source.body_of bytes.now)) e) }
{
    match json(alloc, bytes)? {
        Some(value) if value.is_object() => Ok(value),
        _ => Err(Wrong::Member("body")),
    }
}

fn json(alloc: Global, bytes: &[u8]) -> Result<Option<Value>, AllocError>
    ensures { IfOk result (λ value. option_map view value ≡ source.json_of bytes.now) }
{
    match Value::from_slice(alloc, bytes) {
        Ok(value) => Ok(Some(value)),
        Err(error) if error.is_memory() => Err(AllocError),
        Err(_) => Ok(None),
    }
}
