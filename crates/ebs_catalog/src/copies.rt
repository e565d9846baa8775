// Copies of what a request has.
ghost use Rattle.std.specs.Prelude.{◌≡◌, IfOk};
ghost use Rattle.ebs_model.specs.declared.request.Request.TheVariants as ask;

use ebs_model::{
    Account, Accounts, Request, Retain, SnapKey, Tags, Text, TokenKey, VolKey, copy_tags,
};
use ebs_tables::Sequence;
use std::alloc::{AllocError, Global};

/// The same text once more, where there is one.
pub(crate) fn copy_text(text: &Option<Text>) -> Result<Option<Text>, AllocError>
    ensures { IfOk result (λ copy. copy ≡ text.now) }
{
    match text {
        None => Ok(None),
        Some(text) => {
            let copy = text.copy()?;
            Ok(Some(copy))
        }
    }
}

/// The same accounts once more.
pub(crate) fn copy_accounts(alloc: Global, accounts: &Accounts) -> Result<Accounts, AllocError>
    ensures { IfOk result (λ copy. copy ≡ accounts.now) }
{
    let mut copies = Vec::new(alloc);
    for account in accounts.as_slice() {
        copies.push(*account)?;
    }
    Ok(Sequence::from_vec(copies))
}

/// The key of an account's client token, with a text of its own.
pub(crate) fn token_key(account: Account, text: &Text) -> Result<TokenKey, AllocError>
    ensures { IfOk result (λ key. key ≡ record { account = account; text = text.now }) }
{
    Ok(TokenKey {
        account,
        text: text.copy()?,
    })
}

/// A start with these parameters, of texts and tags of its own.
pub(crate) fn start_request(
    alloc: Global,
    size: u64,
    parent: &Option<SnapKey>,
    description: &Option<Text>,
    tags: &Tags,
    token: &Option<Text>,
    timeout: u32,
) -> Result<Request, AllocError>
    ensures { IfOk result (λ request. request ≡ ask.StartSnapshot size parent.now description.now tags.now token.now timeout) }
{
    let description = copy_text(description)?;
    let tags = copy_tags(alloc, tags)?;
    let client_token = copy_text(token)?;
    Ok(Request::StartSnapshot {
        size,
        parent: *parent,
        description,
        tags,
        client_token,
        timeout,
    })
}

/// A creation of a volume with these parameters, of texts and tags of its own.
pub(crate) fn create_request(
    alloc: Global,
    origin: &Option<SnapKey>,
    size: Option<u64>,
    tags: &Tags,
    token: &Option<Text>,
) -> Result<Request, AllocError>
    ensures { IfOk result (λ request. request ≡ ask.CreateVolume origin.now size tags.now token.now) }
{
    let tags = copy_tags(alloc, tags)?;
    let client_token = copy_text(token)?;
    Ok(Request::CreateVolume {
        origin: *origin,
        size,
        tags,
        client_token,
    })
}

/// A creation of a policy with these parameters, of tags of its own.
pub(crate) fn policy_request(
    alloc: Global,
    targets: &Tags,
    hours: u32,
    at: u32,
    retain: Retain,
    add: &Tags,
) -> Result<Request, AllocError>
    ensures { IfOk result (λ request. request ≡ ask.CreatePolicy targets.now hours at retain add.now) }
{
    let targets = copy_tags(alloc, targets)?;
    let add = copy_tags(alloc, add)?;
    Ok(Request::CreatePolicy {
        targets,
        hours,
        at,
        retain,
        add,
    })
}

/// A snapshot of the volume with these parameters, of texts and tags of its own.
pub(crate) fn snapshot_request(
    alloc: Global,
    volume: &VolKey,
    description: &Option<Text>,
    tags: &Tags,
) -> Result<Request, AllocError>
    ensures { IfOk result (λ request. request ≡ ask.CreateSnapshot volume.now description.now tags.now) }
{
    let description = copy_text(description)?;
    let tags = copy_tags(alloc, tags)?;
    Ok(Request::CreateSnapshot {
        key: *volume,
        description,
        tags,
    })
}
