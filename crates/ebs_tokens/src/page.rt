// The token of the page of a list.
ghost use Rattle.std.specs.Prelude.{◌≡◌, ◌≢◌, IfOk, IfSome, IfNone};
ghost use Rattle.ebs_model.specs.Tokens.{page_start};
ghost use Rattle.ebs_tokens.specs.Fields.{IsPageField, text_of_page};
ghost use Rattle.ebs_tokens.specs.declared.page.PageField.{PageField};

use crate::frame::page_frame;
use crate::seal::{is_sealed, sealed};
use crate::stated::{bytes_of, key_at, u32_at, u64_at};
use ebs_model::{Moment, SnapKey, Text};
use std::alloc::{AllocError, Global};

/// What a page token names: the list of a snapshot's blocks, with both keys the snapshot's, or the
/// list of the blocks that changed between two; and the index at which the page begins.
#[derive(Clone, Copy, Debug, PartialEq, Eq)]
pub struct PageField {
    pub changed: bool,
    pub first: SnapKey,
    pub second: SnapKey,
    pub index: u32,
    pub expiry: Moment,
}

/// The token of a page: 138 lower-case hexadecimal digits.
pub fn page_token(alloc: Global, secret: &[u8; 32], page: &PageField) -> Result<Text, AllocError>
    ensures { IfOk result (λ text. text ≡ text_of_page secret.now page.now) }
{
    let frame = page_frame(
        page.changed,
        &page.first,
        &page.second,
        page.index,
        page.expiry,
    );
    sealed(alloc, secret, &frame)
}

/// The index at which the page begins, where the text is the token of a page of this list for an
/// expiry that isn't reached.
pub fn page_start(
    secret: &[u8; 32],
    changed: bool,
    first: &SnapKey,
    second: &SnapKey,
    now: Moment,
    text: &[u8],
) -> Option<u32>
    ensures { result ≡ page_start secret.now changed first.now second.now now.second text.now }
{
    let bytes = bytes_of::<69>(text)?;
    let index = u32_at(&bytes, 25);
    let expiry = Moment {
        second: u64_at(&bytes, 29),
    };
    let frame = page_frame(changed, first, second, index, expiry);
    if now.second < expiry.second && is_sealed(secret, &frame, text) {
        Some(index)
    } else {
        None
    }
}

/// The page that the text is a token of, whether its expiry is reached or not.
pub fn read_page_token(secret: &[u8; 32], text: &[u8]) -> Option<PageField>
    ensures some { IfSome result (λ field. IsPageField field × (text.now ≡ text_of_page secret.now field)) }
    ensures none { IfNone result ((field : PageField) → IsPageField field → text.now ≢ text_of_page secret.now field) }
{
    let bytes = bytes_of::<69>(text)?;
    let changed = bytes[0] == 3;
    let first = key_at(&bytes, 1)?;
    let second = key_at(&bytes, 13)?;
    let index = u32_at(&bytes, 25);
    let expiry = Moment {
        second: u64_at(&bytes, 29),
    };
    let frame = page_frame(changed, &first, &second, index, expiry);
    if is_sealed(secret, &frame, text) {
        Some(PageField {
            changed,
            first,
            second,
            index,
            expiry,
        })
    } else {
        None
    }
}
