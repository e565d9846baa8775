// The members of each call, in the order in which they are tried.
ghost use Rattle.std.specs.Prelude.{◌≡◌, None, true, codes, length, IfOk, IfErr};
ghost use Rattle.ebs_model.specs.Quotas.{block_size};
ghost use Rattle.ebs_model.specs.Limits.{bad_member, bad_rows, is_term};
ghost use Rattle.ebs_members.specs.inner.Outcome.{Reads, IsExact, RanOut};
ghost use Rattle.ebs_members.specs.inner.Memory.{IsGiven, IsThere};
ghost use Rattle.ebs_rest.specs.inner.Memory.{HasSnapshot, HasBlock};
ghost use Rattle.ebs_members.specs.inner.Sources.{found};
ghost use Rattle.ebs_members.specs.Sources.{in_query, pairs_of, required};
ghost use Rattle.ebs_members.specs.Kinds as kind;
ghost use Rattle.ebs_rest.specs.Calls as calls;

use ebs_members::{
    AccountList, Check, Digest, Flag, Index, Mode, Named, Number, Read, Snapshot, Source, Spell,
    TagList, Within, Words, Wrong, object, pairs,
};
use ebs_model::{
    Accounts, BLOCK_BYTES, Bytes, MOST_IDS, Moment, Request, SnapKey, Tags, Term, Text, bad_member,
};
use std::alloc::Global;

// The entries or rows of a page, where the caller says nothing.
pub const PAGE_SIZE: u32 = 1000;

/// The snapshot that a path names.
pub fn snapshot<'n>(path: &Source) -> Read<'n, SnapKey>
    ensures value { Reads (calls.snapshot (found path.now)) result }
    ensures exact { IsExact result }
{
    path.required("snapshotId", Snapshot)
}

pub fn start<'n>(alloc: Global, bytes: &[u8]) -> Read<'n, Request>
    ensures value { Reads (calls.start bytes.now) result }
    ensures memory { IfErr result (λ e. RanOut e → IsGiven bytes.now) }
    ensures limits { IfOk result (λ request. bad_member request ≡ None) }
{
    let body = object(alloc, bytes)?;
    start_of(alloc, &Source::Body(&body))
}

fn start_of<'n>(alloc: Global, body: &Source) -> Read<'n, Request>
    ensures value { Reads (calls.start_of (found body.now)) result }
    ensures limits { IfOk result (λ request. bad_member request ≡ None) }
{
    let size = body.required("VolumeSize", Number)?;
    let parent = body.optional("ParentSnapshotId", Snapshot)?;
    let description = body.optional_owned(alloc, "Description", Words::Description)?;
    let tags = body.optional_owned(alloc, "Tags", TagList)?;
    let client_token = body.optional_owned(alloc, "ClientToken", Words::Token)?;
    let timeout = body.optional("Timeout", Within(10, 4320))?;
    body.optional("Encrypted", Check::OnlyFalse)?;
    body.optional("KmsKeyArn", Check::Absent)?;
    Ok(Request::StartSnapshot {
        size,
        parent,
        description,
        tags: tags.unwrap_or(Tags::new(alloc)),
        client_token,
        timeout: timeout.unwrap_or(60),
    })
}

/// The digest that comes with a block, whose bytes are the body.
pub fn block_digest<'n>(fields: &Source, body: &Bytes) -> Read<'n, [u8; 32]>
    ensures value { Reads (calls.block_digest (found fields.now) body.now) result }
    ensures exact { IsExact result }
    ensures size { IfOk result (λ digest. length body.now ≡ block_size) }
{
    fields.required("x-amz-Data-Length", Check::Exactly("524288"))?;
    let digest = fields.required("x-amz-Checksum", Digest)?;
    fields.required("x-amz-Checksum-Algorithm", Check::Exactly("SHA256"))?;
    fields.optional("x-amz-Progress", Within(0, 100))?;
    if body.len() != BLOCK_BYTES {
        return Err(Wrong::Member("body"));
    }
    Ok(digest)
}

/// The request, which takes the body as it is.
pub fn put_block<'n>(path: &Source, fields: &Source, bytes: Bytes) -> Read<'n, Request>
    ensures value { Reads (calls.put_block (found path.now) (found fields.now) bytes) result }
    ensures exact { IsExact result }
    ensures limits { IfOk result (λ request. bad_member request ≡ None) }
{
    let key = snapshot(path)?;
    let index = path.required("blockIndex", Index)?;
    let digest = block_digest(fields, &bytes)?;
    Ok(Request::PutSnapshotBlock {
        key,
        index,
        digest,
        bytes,
    })
}

pub fn complete<'n>(path: &Source, fields: &Source) -> Read<'n, Request>
    ensures value { Reads (calls.complete (found path.now) (found fields.now)) result }
    ensures exact { IsExact result }
    ensures limits { IfOk result (λ request. bad_member request ≡ None) }
{
    let key = snapshot(path)?;
    let count = fields.required("x-amz-ChangedBlocksCount", Index)?;
    let checksum = fields.optional("x-amz-Checksum", Digest)?;
    stated(fields, &checksum)?;
    Ok(Request::CompleteSnapshot {
        key,
        count,
        checksum,
    })
}

fn stated<'n>(fields: &Source, checksum: &Option<[u8; 32]>) -> Read<'n, ()>
    ensures value { Reads (calls.stated (found fields.now) checksum.now) result }
    ensures exact { IsExact result }
{
    match checksum {
        Some(_) => checksum_named(fields),
        None => Ok(()),
    }
}

/// With a checksum, its algorithm and method are the only ones there are.
fn checksum_named<'n>(fields: &Source) -> Read<'n, ()>
    ensures value { Reads (calls.checksum_named (found fields.now)) result }
    ensures exact { IsExact result }
{
    fields.optional("x-amz-Checksum-Algorithm", Check::Exactly("SHA256"))?;
    fields.optional(
        "x-amz-Checksum-Aggregation-Method",
        Check::Exactly("LINEAR"),
    )?;
    Ok(())
}

pub fn list_blocks<'n>(alloc: Global, path: &Source, query: &[u8]) -> Read<'n, Request>
    ensures value { Reads (calls.list_blocks (found path.now) (in_query (pairs_of query.now))) result }
    ensures memory { IfErr result (λ e. RanOut e → HasSnapshot (found path.now) × IsGiven query.now) }
    ensures limits { IfOk result (λ request. bad_member request ≡ None) }
{
    let key = snapshot(path)?;
    let pairs = pairs(alloc, query)?;
    page_of(alloc, key, &Source::Query(pairs.as_slice()))
}

fn page_of<'n>(alloc: Global, key: SnapKey, query: &Source) -> Read<'n, Request>
    ensures value { Reads (calls.page_of key (found query.now)) result }
    ensures memory { IfErr result (λ e. RanOut e → IsThere (found query.now (codes "pageToken"))) }
    ensures limits { IfOk result (λ request. bad_member request ≡ None) }
{
    let page = query.optional_owned(alloc, "pageToken", Words::Any)?;
    let max = query.optional("maxResults", Within(100, 10000))?;
    let start = query.optional("startingBlockIndex", Index)?;
    Ok(Request::ListSnapshotBlocks {
        key,
        page,
        max: max.unwrap_or(PAGE_SIZE),
        start: start.unwrap_or(0),
    })
}

pub fn list_changed<'n>(alloc: Global, path: &Source, query: &[u8]) -> Read<'n, Request>
    ensures value { Reads (calls.list_changed (found path.now) (in_query (pairs_of query.now))) result }
    ensures memory { IfErr result (λ e. RanOut e → IsGiven query.now) }
    ensures limits { IfOk result (λ request. bad_member request ≡ None) }
{
    let pairs = pairs(alloc, query)?;
    changed_of(alloc, path, &Source::Query(pairs.as_slice()))
}

fn changed_of<'n>(alloc: Global, path: &Source, query: &Source) -> Read<'n, Request>
    ensures value { Reads (calls.list_changed (found path.now) (found query.now)) result }
    ensures memory { IfErr result (λ e. RanOut e → IsThere (found query.now (codes "pageToken"))) }
    ensures limits { IfOk result (λ request. bad_member request ≡ None) }
{
    let first = query.required("firstSnapshotId", Snapshot)?;
    let second = path.required("secondSnapshotId", Snapshot)?;
    let page = query.optional_owned(alloc, "pageToken", Words::Any)?;
    let max = query.optional("maxResults", Within(100, 10000))?;
    let start = query.optional("startingBlockIndex", Index)?;
    Ok(Request::ListChangedBlocks {
        first,
        second,
        page,
        max: max.unwrap_or(PAGE_SIZE),
        start: start.unwrap_or(0),
    })
}

pub fn get_block<'n>(alloc: Global, path: &Source, query: &[u8]) -> Read<'n, Request>
    ensures value { Reads (calls.get_block (found path.now) (in_query (pairs_of query.now))) result }
    ensures memory { IfErr result (λ e. RanOut e → HasBlock (found path.now) × IsGiven query.now) }
    ensures limits { IfOk result (λ request. bad_member request ≡ None) }
{
    let key = snapshot(path)?;
    let index = path.required("blockIndex", Index)?;
    let token = block_token(alloc, query)?;
    Ok(Request::GetSnapshotBlock { key, index, token })
}

fn block_token<'n>(alloc: Global, query: &[u8]) -> Read<'n, Text>
    ensures value { Reads (required (in_query (pairs_of query.now)) (codes "blockToken") kind.any_text) result }
    ensures memory { IfErr result (λ e. RanOut e → IsGiven query.now) }
{
    let pairs = pairs(alloc, query)?;
    Source::Query(pairs.as_slice()).required_owned(alloc, "blockToken", Words::Any)
}

pub fn describe_all<'n>(alloc: Global, query: &[u8]) -> Read<'n, Request>
    ensures value { Reads (calls.describe_all (in_query (pairs_of query.now))) result }
    ensures memory { IfErr result (λ e. RanOut e → IsGiven query.now) }
    ensures limits { IfOk result (λ request. bad_member request ≡ None) }
{
    let (from, max) = rows_asked(alloc, query)?;
    Ok(Request::DescribeSnapshots { from, max })
}

/// The first of the rows that are asked for, and how many at most.
pub fn rows_asked<'n>(alloc: Global, query: &[u8]) -> Read<'n, (u32, u32)>
    ensures value { Reads (calls.rows_asked (in_query (pairs_of query.now))) result }
    ensures memory { IfErr result (λ e. RanOut e → IsGiven query.now) }
    ensures limits { IfOk result (λ rows. bad_rows rows.0 rows.1 ≡ None) }
{
    let pairs = pairs(alloc, query)?;
    let query = Source::Query(pairs.as_slice());
    let from = query.optional("from", Within(0, MOST_IDS - 1))?;
    let max = query.optional("max", Within(1, 1000))?;
    Ok((from.unwrap_or(0), max.unwrap_or(PAGE_SIZE)))
}

pub fn modify_permission<'n>(alloc: Global, path: &Source, bytes: &[u8]) -> Read<'n, Request>
    ensures value { Reads (calls.modify_permission (found path.now) bytes.now) result }
    ensures memory { IfErr result (λ e. RanOut e → HasSnapshot (found path.now) × IsGiven bytes.now) }
    ensures limits { IfOk result (λ request. bad_member request ≡ None) }
{
    let key = snapshot(path)?;
    let body = object(alloc, bytes)?;
    permission_of(alloc, key, &Source::Body(&body))
}

fn permission_of<'n>(alloc: Global, key: SnapKey, body: &Source) -> Read<'n, Request>
    ensures value { Reads (calls.permission_of key (found body.now)) result }
    ensures limits { IfOk result (λ request. bad_member request ≡ None) }
{
    let add = body.optional_owned(alloc, "Add", AccountList)?;
    let remove = body.optional_owned(alloc, "Remove", AccountList)?;
    permission(
        key,
        add.unwrap_or(nobody(alloc)),
        remove.unwrap_or(nobody(alloc)),
    )
}

fn nobody(alloc: Global) -> Named
    ensures { result ≡ kind.nobody }
{
    let accounts = Accounts::new(alloc);
    Named {
        accounts,
        all: false,
    }
}

/// The request, if it is within its limits.
fn permission<'n>(key: SnapKey, add: Named, remove: Named) -> Read<'n, Request>
    ensures value { Reads (calls.limited (calls.permission key add remove)) result }
    ensures exact { IsExact result }
    ensures limits { IfOk result (λ request. bad_member request ≡ None) }
{
    let request = Request::ModifyPermission {
        key,
        add: add.accounts,
        add_all: add.all,
        remove: remove.accounts,
        remove_all: remove.all,
    };
    match bad_member(&request) {
        Some(name) => Err(Wrong::Member(name)),
        None => Ok(request),
    }
}

pub fn lock<'n>(alloc: Global, path: &Source, bytes: &[u8]) -> Read<'n, Request>
    ensures value { Reads (calls.lock (found path.now) bytes.now) result }
    ensures memory { IfErr result (λ e. RanOut e → HasSnapshot (found path.now) × IsGiven bytes.now) }
    ensures limits { IfOk result (λ request. bad_member request ≡ None) }
{
    let key = snapshot(path)?;
    let body = object(alloc, bytes)?;
    lock_of(key, &Source::Body(&body))
}

fn lock_of<'n>(key: SnapKey, body: &Source) -> Read<'n, Request>
    ensures value { Reads (calls.lock_of key (found body.now)) result }
    ensures exact { IsExact result }
    ensures limits { IfOk result (λ request. bad_member request ≡ None) }
{
    let mode = body.required("LockMode", Mode)?;
    let term = term_of(body)?;
    let cool_hours = body.optional("CoolOffPeriod", Spell::CoolHours(mode))?;
    Ok(Request::LockSnapshot {
        key,
        mode,
        term,
        cool_hours,
    })
}

fn term_of<'n>(body: &Source) -> Read<'n, Term>
    ensures value { Reads (calls.term_of (found body.now)) result }
    ensures exact { IsExact result }
    ensures limits { IfOk result (λ term. is_term term ≡ true) }
{
    let days = body.optional("LockDuration", Spell::LockDays)?;
    let date = body.optional("ExpirationDate", Number)?;
    match (days, date) {
        (Some(days), None) => Ok(Term::Days(days)),
        (None, Some(second)) => Ok(Term::Date(Moment { second })),
        (Some(_), Some(_)) => Err(Wrong::Member("ExpirationDate")),
        (None, None) => Err(Wrong::Member("LockDuration")),
    }
}

pub fn archive<'n>(alloc: Global, path: &Source, bytes: &[u8]) -> Read<'n, Request>
    ensures value { Reads (calls.archive (found path.now) bytes.now) result }
    ensures memory { IfErr result (λ e. RanOut e → HasSnapshot (found path.now) × IsGiven bytes.now) }
    ensures limits { IfOk result (λ request. bad_member request ≡ None) }
{
    let key = snapshot(path)?;
    let body = object(alloc, bytes)?;
    Source::Body(&body).required("StorageTier", Check::Exactly("archive"))?;
    Ok(Request::ArchiveSnapshot { key })
}

pub fn restore<'n>(alloc: Global, path: &Source, bytes: &[u8]) -> Read<'n, Request>
    ensures value { Reads (calls.restore (found path.now) bytes.now) result }
    ensures memory { IfErr result (λ e. RanOut e → HasSnapshot (found path.now) × IsGiven bytes.now) }
    ensures limits { IfOk result (λ request. bad_member request ≡ None) }
{
    let key = snapshot(path)?;
    let body = object(alloc, bytes)?;
    restore_of(key, &Source::Body(&body))
}

fn restore_of<'n>(key: SnapKey, body: &Source) -> Read<'n, Request>
    ensures value { Reads (calls.restore_of key (found body.now)) result }
    ensures exact { IsExact result }
    ensures limits { IfOk result (λ request. bad_member request ≡ None) }
{
    let days = body.optional("TemporaryRestoreDays", Spell::RestoreDays)?;
    let for_good = body.optional("PermanentRestore", Flag)?;
    match (days, for_good.unwrap_or(false)) {
        (None, false) => Err(Wrong::Member("TemporaryRestoreDays")),
        (Some(_), true) => Err(Wrong::Member("PermanentRestore")),
        (days, _) => Ok(Request::RestoreTier { key, days }),
    }
}
