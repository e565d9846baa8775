// The pages of the two lists of blocks, with their tokens.
ghost use Rattle.std.specs.Prelude.{◌≡◌, ◌≤◌, ◌^◌, map, IfOk};
ghost use Rattle.std.specs.Option.{option_map};
ghost use Rattle.ebs_model.specs.Tokens.{block_text};
ghost use Rattle.ebs_model.specs.Lists.{from_index, page_of, next_of};
ghost use Rattle.ebs_model.specs.Calls.List as lists;
ghost use Rattle.ebs_lineage.specs.Lines.{array};
ghost use Rattle.ebs_kept.specs.inner.Shown.{kept_array};
ghost use Rattle.ebs_kept.specs.inner.Changes.{change, listed_change};

use crate::kept::Kept;
use ebs_lineage::{Lineage, NodeId};
use ebs_listing::{
    ChangedEntries, ChangedEntry, ChangedPage, Entries, Page, PageEntry, list_blocks, list_changed,
};
use ebs_model::{
    Answer, Block, BlockEntries, BlockEntry, ChangedToken, ChangedTokens, Failure, Moment, ReadRow,
    Refusal, SnapKey, Text,
};
use ebs_tokens::{PageField, block_token, page_start, page_token};
use std::alloc::{AllocError, Global};

// In seconds.
const BLOCK_LIFE: u64 = 604_800;

const PAGE_LIFE: u64 = 3600;

impl Kept {
    ghost use Rattle.std.specs.Prelude.{◌≡◌, ◌≤◌, ◌^◌};
    ghost use Rattle.ebs_model.specs.Machine.{advance, array_of};
    ghost use Rattle.ebs_model.specs.Calls.List as lists;
    ghost use Rattle.ebs_model.specs.inner.Follows.{Agrees};
    ghost use Rattle.ebs_catalog.specs.Wants.{OnMemory, IsAccepted};

    /// A page of the blocks of a snapshot.
    pub(crate) fn list_blocks(
        &self,
        now: Moment,
        row: ReadRow,
        key: &SnapKey,
        page: &Option<Text>,
        max: u32,
        start: u64,
    ) -> Result<Answer, Failure>
        requires later { self.now.machine.clock.second ≤ now.second }
        requires early { now.second ≤ 2 ^ 36 }
        ensures answers { Agrees result (lists.read_list self.now.machine.secret key.now now.second row.size (array_of (advance self.now.machine now) key.now) page.now max start) }
        ensures memory { OnMemory result (IsAccepted (lists.read_list self.now.machine.secret key.now now.second row.size (array_of (advance self.now.machine now) key.now) page.now max start)) }
    {
        let index = match begins(self.secret(), false, key, key, now, page, start) {
            Ok(index) => index,
            Err(refusal) => return Err(Failure::Refused(refusal)),
        };
        let side = Side {
            key,
            node: self.node_at(key, now),
        };
        match listed(
            self.alloc(),
            self.secret(),
            self.holdings.lineage(),
            &side,
            now,
            row.size,
            max,
            index,
        ) {
            Ok(answer) => Ok(answer),
            Err(_) => Err(Failure::Memory),
        }
    }

    /// A page of the blocks that differ between two snapshots of one line.
    pub(crate) fn list_changed(
        &self,
        now: Moment,
        row: ReadRow,
        first: &SnapKey,
        second: &SnapKey,
        page: &Option<Text>,
        max: u32,
        start: u64,
    ) -> Result<Answer, Failure>
        requires later { self.now.machine.clock.second ≤ now.second }
        requires early { now.second ≤ 2 ^ 36 }
        ensures answers { Agrees result (lists.read_changes self.now.machine.secret first.now second.now now.second row.size row.related (array_of (advance self.now.machine now) first.now) (array_of (advance self.now.machine now) second.now) page.now max start) }
        ensures memory { OnMemory result (IsAccepted (lists.read_changes self.now.machine.secret first.now second.now now.second row.size row.related (array_of (advance self.now.machine now) first.now) (array_of (advance self.now.machine now) second.now) page.now max start)) }
    {
        let index = match begins(self.secret(), true, first, second, now, page, start) {
            Ok(index) => index,
            Err(refusal) => return Err(Failure::Refused(refusal)),
        };
        if !row.related {
            return Err(Failure::Refused(Refusal::Unrelated));
        }
        let first_side = Side {
            key: first,
            node: self.node_at(first, now),
        };
        let second_side = Side {
            key: second,
            node: self.node_at(second, now),
        };
        match compared(
            self.alloc(),
            self.secret(),
            self.holdings.lineage(),
            &first_side,
            &second_side,
            now,
            row.size,
            max,
            index,
        ) {
            Ok(answer) => Ok(answer),
            Err(_) => Err(Failure::Memory),
        }
    }
}

// Where the page begins: as its token says, or at the given index without one.
fn begins(
    secret: &[u8; 32],
    changed: bool,
    first: &SnapKey,
    second: &SnapKey,
    now: Moment,
    page: &Option<Text>,
    start: u64,
) -> Result<u64, Refusal>
    ensures { result ≡ lists.begins secret.now changed first.now second.now now.second page.now start }
{
    let Some(token) = page else {
        return Ok(start);
    };
    match page_start(secret, changed, first, second, now, token.as_bytes()) {
        Some(index) => Ok(u64::from(index)),
        None => Err(Refusal::BadPageToken),
    }
}

fn after(now: Moment, life: u64) -> Moment
    requires early { now.second ≤ 2 ^ 36 }
    requires short { life ≤ 2 ^ 36 }
    ensures { result ≡ lists.after now.second life }
{
    Moment {
        second: now.second + life,
    }
}

/// A snapshot that is listed, or one of two that are compared, and the node of its blocks.
#[derive(Drop)]
struct Side<'a> {
    key: &'a SnapKey,
    node: NodeId,
}

fn listed(
    alloc: Global,
    secret: &[u8; 32],
    lineage: &Lineage,
    side: &Side<'_>,
    now: Moment,
    size: u32,
    max: u32,
    index: u64,
) -> Result<Answer, AllocError>
    requires early { now.second ≤ 2 ^ 36 }
    ensures { IfOk result (λ answer. answer ≡ lists.block_list secret.now side.now.key.now now.second size (kept_array (array lineage.now.table.nodes side.now.node.number)) max index) }
{
    let page = page_of(alloc, lineage, side.node, index, max)?;
    let expiry = after(now, BLOCK_LIFE);
    let entries = block_entries(alloc, secret, side.key, expiry, page.entries.as_slice())?;
    let next = next_page(alloc, secret, false, side.key, side.key, now, page.next)?;
    Ok(Answer::BlockList {
        entries,
        expiry,
        next,
        size: u64::from(size),
    })
}

// The page of a node's blocks that begins at the index. Nothing stands at 2^32 or above it.
fn page_of(
    alloc: Global,
    lineage: &Lineage,
    node: NodeId,
    index: u64,
    max: u32,
) -> Result<Page, AllocError>
    ensures entries { IfOk result (λ page. map (λ e. e.index) page.entries ≡ map (λ e. e.0) (page_of max (from_index (kept_array (array lineage.now.table.nodes node.number)) index))) }
    ensures next { IfOk result (λ page. page.next ≡ next_of (λ e. e.0) max (from_index (kept_array (array lineage.now.table.nodes node.number)) index)) }
{
    lineage.keeps_small();
    match u32::try_from(index) {
        Ok(index) => list_blocks(alloc, lineage, node, index, max),
        Err(_) => Ok(Page {
            entries: Entries::new(alloc),
            next: None,
        }),
    }
}

// The same of what differs between two nodes.
fn changes_of(
    alloc: Global,
    lineage: &Lineage,
    first: NodeId,
    second: NodeId,
    index: u64,
    max: u32,
) -> Result<ChangedPage, AllocError>
    ensures entries { IfOk result (λ page. map listed_change page.entries ≡ map change (page_of max (lists.differences (kept_array (array lineage.now.table.nodes first.number)) (kept_array (array lineage.now.table.nodes second.number)) index))) }
    ensures next { IfOk result (λ page. page.next ≡ next_of (λ p. p.index) max (lists.differences (kept_array (array lineage.now.table.nodes first.number)) (kept_array (array lineage.now.table.nodes second.number)) index)) }
{
    lineage.keeps_small();
    match u32::try_from(index) {
        Ok(index) => list_changed(alloc, lineage, first, second, index, max),
        Err(_) => Ok(ChangedPage {
            entries: ChangedEntries::new(alloc),
            next: None,
        }),
    }
}

fn block_entries(
    alloc: Global,
    secret: &[u8; 32],
    key: &SnapKey,
    expiry: Moment,
    page: &[PageEntry],
) -> Result<BlockEntries, AllocError>
    ensures { IfOk result (λ entries. entries ≡ map (λ e. record { index = e.index; token = block_text secret.now key.now e.index expiry.second }) page.now) }
{
    let mut entries = Vec::new(alloc);
    for entry in page {
        let token = block_token(alloc, secret, key, entry.index, expiry)?;
        entries.push(BlockEntry {
            index: entry.index,
            token,
        })?;
    }
    Ok(BlockEntries::from_vec(entries))
}

fn compared(
    alloc: Global,
    secret: &[u8; 32],
    lineage: &Lineage,
    first: &Side<'_>,
    second: &Side<'_>,
    now: Moment,
    size: u32,
    max: u32,
    index: u64,
) -> Result<Answer, AllocError>
    requires early { now.second ≤ 2 ^ 36 }
    ensures { IfOk result (λ answer. answer ≡ lists.change_list secret.now first.now.key.now second.now.key.now now.second size (kept_array (array lineage.now.table.nodes first.now.node.number)) (kept_array (array lineage.now.table.nodes second.now.node.number)) max index) }
{
    let page = changes_of(alloc, lineage, first.node, second.node, index, max)?;
    let expiry = after(now, BLOCK_LIFE);
    let changes = page.entries.as_slice();
    let entries = changed_tokens(alloc, secret, first.key, second.key, expiry, changes)?;
    let next = next_page(alloc, secret, true, first.key, second.key, now, page.next)?;
    Ok(Answer::ChangedList {
        entries,
        expiry,
        next,
        size: u64::from(size),
    })
}

fn changed_tokens(
    alloc: Global,
    secret: &[u8; 32],
    first: &SnapKey,
    second: &SnapKey,
    expiry: Moment,
    page: &[ChangedEntry],
) -> Result<ChangedTokens, AllocError>
    ensures { IfOk result (λ entries. entries ≡ map (λ e. record {
      index = e.index;
      first = option_map (λ b. block_text secret.now first.now e.index expiry.second) e.first;
      second = option_map (λ b. block_text secret.now second.now e.index expiry.second) e.second;
    }) page.now) }
{
    let mut entries = Vec::new(alloc);
    for entry in page {
        entries.push(ChangedToken {
            index: entry.index,
            first: token_of(alloc, secret, first, entry.index, expiry, &entry.first)?,
            second: token_of(alloc, secret, second, entry.index, expiry, &entry.second)?,
        })?;
    }
    Ok(ChangedTokens::from_vec(entries))
}

// The token of the block, where there is one.
fn token_of(
    alloc: Global,
    secret: &[u8; 32],
    key: &SnapKey,
    index: u32,
    expiry: Moment,
    block: &Option<Block>,
) -> Result<Option<Text>, AllocError>
    ensures { IfOk result (λ token. token ≡ option_map (λ b. block_text secret.now key.now index expiry.second) block.now) }
{
    match block {
        None => Ok(None),
        Some(_) => {
            let token = block_token(alloc, secret, key, index, expiry)?;
            Ok(Some(token))
        }
    }
}

// The token of the page that follows, where one does.
fn next_page(
    alloc: Global,
    secret: &[u8; 32],
    changed: bool,
    first: &SnapKey,
    second: &SnapKey,
    now: Moment,
    next: Option<u32>,
) -> Result<Option<Text>, AllocError>
    requires { now.second ≤ 2 ^ 36 }
    ensures { IfOk result (λ token. token ≡ lists.next_page secret.now changed first.now second.now now.second next) }
{
    let Some(index) = next else {
        return Ok(None);
    };
    let page = PageField {
        changed,
        first: *first,
        second: *second,
        index,
        expiry: after(now, PAGE_LIFE),
    };
    let token = page_token(alloc, secret, &page)?;
    Ok(Some(token))
}
