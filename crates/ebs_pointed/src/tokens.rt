// Client tokens with the calls that used them first.
ghost use Rattle.std.specs.Prelude.{◌≡◌, IfOk};
ghost use Rattle.ebs_point_rules.specs.Values.{HasMembers, HasTokenValues};
ghost use Rattle.ebs_pointed.specs.Accounts as accounts;
ghost use Rattle.ebs_pointed.specs.Accounts.{IsFirst};

use crate::copies::copy_text;
use crate::fields::{check_key_given, check_tags, check_text, check_text_given};
use ebs_checkpoints::TokenPoint;
use ebs_model::{Request, TokenKey, TokenRow, copy_tags};
use ebs_records::{AcceptedCall, Record};
use std::alloc::{AllocError, Global};

/// The token with the record of its first call, which names no slot.
pub(crate) fn token_of(
    alloc: Global,
    key: &TokenKey,
    row: &TokenRow,
) -> Result<TokenPoint, AllocError>
    requires { IsFirst row.now.first }
    ensures point { IfOk result (λ point. point ≡ accounts.token_of (key.now, row.now)) }
    ensures values { IfOk result (λ point. HasTokenValues point) }
{
    let text = key.text.copy()?;
    let request = copy_first(alloc, &row.first)?;
    check_text(&text);
    check_members(&request);
    let _account = key.account.number();
    let _number = row.number.number();
    let call = AcceptedCall {
        at: row.at,
        account: key.account,
        request,
        slot: None,
    };
    Ok(TokenPoint {
        text,
        at: row.at,
        first: Record::Accepted(call),
        number: row.number,
    })
}

fn copy_first(alloc: Global, request: &Request) -> Result<Request, AllocError>
    requires { IsFirst request.now }
    ensures { IfOk result (λ copy. copy ≡ request.now) }
{
    match request {
        Request::StartSnapshot {
            size,
            parent,
            description,
            tags,
            client_token,
            timeout,
        } => Ok(Request::StartSnapshot {
            size: *size,
            parent: *parent,
            description: copy_text(description)?,
            tags: copy_tags(alloc, tags)?,
            client_token: copy_text(client_token)?,
            timeout: *timeout,
        }),
        Request::CreateVolume {
            origin,
            size,
            tags,
            client_token,
        } => Ok(Request::CreateVolume {
            origin: *origin,
            size: *size,
            tags: copy_tags(alloc, tags)?,
            client_token: copy_text(client_token)?,
        }),
        _ => unreachable!(),
    }
}

fn check_members(request: &Request)
    requires { IsFirst request.now }
    ensures { HasMembers request.now }
{
    match request {
        Request::StartSnapshot {
            parent,
            description,
            tags,
            client_token,
            ..
        } => {
            check_key_given(parent);
            check_text_given(description);
            check_tags(tags.as_slice());
            check_text_given(client_token);
        }
        Request::CreateVolume {
            origin,
            tags,
            client_token,
            ..
        } => {
            check_key_given(origin);
            check_tags(tags.as_slice());
            check_text_given(client_token);
        }
        _ => unreachable!(),
    }
}
