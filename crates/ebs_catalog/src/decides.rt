// What rows decide of a request.
ghost use Rattle.std.specs.Prelude.{◌≡◌, ◌<◌, ◌≤◌, ◌^◌, ◌∷◌, [], ◌⊎◌, IfOk};
ghost use Rattle.std.specs.FinMap as map;
ghost use Rattle.std.specs.declared.result.Result.TheVariants.{Ok};
ghost use Rattle.ebs_model.specs.declared.answer.Answer.TheVariants as answer;
ghost use Rattle.ebs_model.specs.declared.change.Decision.TheVariants as decision;
ghost use Rattle.ebs_model.specs.Time.{rested_row};
ghost use Rattle.ebs_model.specs.Decisions.{alters, makes};
ghost use Rattle.ebs_model.specs.Calls.List.{is_same_line};
ghost use Rattle.ebs_model.specs.inner.Follows.{Agrees};
ghost use Rattle.ebs_model.specs.Calls.Start as starts;
ghost use Rattle.ebs_catalog.specs.Held.{whole};
ghost use Rattle.ebs_catalog.specs.Wants.{OnMemory};

use crate::catalog::Catalog;
use crate::copies::{copy_text, start_request};
use crate::rows::KeptRow;
use ebs_model::{
    Account, Accounts, Answer, AnyKey, Bytes, Change, Decision, Failure, Ids, KeyNumber, Kind,
    Line, MOST_IDS, MOST_KEPT, MOST_OPEN, MOST_TOKENS, Moment, QuotaName, ReadRow, Refusal,
    Request, RowStatus, SnapKey, Tags, Text, blocks_of, check_base, check_open, check_ready,
    copy_tags, status_at,
};
use std::alloc::{AllocError, Global};

impl Catalog {
    ghost use Rattle.std.specs.Prelude.{◌&&◌, nat_le};
    ghost use Rattle.ebs_model.specs.declared.answer.Refusal.TheVariants as refusal;
    ghost use Rattle.ebs_model.specs.declared.answer.QuotaName.TheVariants as quota_name;
    ghost use Rattle.ebs_model.specs.Quotas.{most_tokens};
    ghost use Rattle.ebs_model.specs.Refuse.{refuse_if};
    ghost use Rattle.ebs_model.specs.inner.Rows.{aged};
    ghost use Rattle.ebs_model.specs.Rows.{token_count};
    ghost use Rattle.ebs_model.specs.Decide.{decide};
    ghost use Rattle.ebs_model.specs.Calls.Start.{fresh_start, least_size, has_token};
    ghost use Rattle.ebs_model.specs.Calls.Put.{decide_put};
    ghost use Rattle.ebs_model.specs.Calls.Complete.{decide_complete};
    ghost use Rattle.ebs_model.specs.Calls.List.{decide_list, decide_compare};
    ghost use Rattle.ebs_model.specs.Calls.Get.{decide_get};
    ghost use Rattle.ebs_catalog.specs.Held.{rows_in};
    ghost use Rattle.ebs_catalog.specs.Decided.{IsRowCall, IsLaterCall};
    ghost use Rattle.ebs_catalog.specs.Starts.{next_upload};
    ghost use Rattle.ebs_catalog.specs.Wants.{OnMemory, MayWant, IsSettled, NamesMember};

    /// What the rows decide of the request at the moment. The request has passed the tests on itself. A put's bytes
    /// aren't looked at, and its change has none.
    pub fn decide(
        &self,
        account: Account,
        at: Moment,
        request: &Request,
    ) -> Result<Decision, Failure>
        requires later { self.now.latest ≤ at.second }
        requires moment { at.second ≤ 2 ^ 36 }
        ensures decided { Agrees result (decide (aged at.second (rows_in self.now)) at account request.now) }
        ensures memory { OnMemory result (MayWant request.now (decide (aged at.second (rows_in self.now)) at account request.now)) }
    {
        match request {
            Request::StartSnapshot {
                size,
                parent,
                description,
                tags,
                client_token,
                timeout,
            } => self.decide_start(
                account,
                at,
                *size,
                parent,
                description,
                tags,
                client_token,
                *timeout,
            ),
            Request::PutSnapshotBlock {
                key,
                index,
                digest,
                ..
            } => lifted(self.decide_put(account, at, key, *index, digest)),
            Request::CompleteSnapshot {
                key,
                count,
                checksum,
            } => self.decide_complete(account, at, key, *count, checksum),
            Request::ListSnapshotBlocks { key, .. } => lifted(self.decide_read(account, at, key)),
            Request::ListChangedBlocks { first, second, .. } => {
                lifted(self.decide_compare(account, at, first, second))
            }
            Request::GetSnapshotBlock { key, .. } => lifted(self.decide_read(account, at, key)),
            _ => self.decide_row_call(account, at, request),
        }
    }

    /// What they decide of a call on rows of snapshots, on the Recycle Bin, on volumes or on policies.
    fn decide_row_call(
        &self,
        account: Account,
        at: Moment,
        request: &Request,
    ) -> Result<Decision, Failure>
        requires moment { at.second ≤ 2 ^ 36 }
        requires call { IsRowCall request.now }
        ensures decided { Agrees result (decide (aged at.second (rows_in self.now)) at account request.now) }
        ensures memory { OnMemory result (MayWant request.now (decide (aged at.second (rows_in self.now)) at account request.now)) }
    {
        match request {
            Request::DescribeSnapshot { key } => self.decide_describe(account, at, key),
            Request::DescribeSnapshots { from, max } => {
                self.decide_rows(false, account, at, *from, *max)
            }
            Request::DeleteSnapshot { key } => self.decide_delete(account, at, key),
            Request::ModifyPermission {
                key,
                add,
                add_all,
                remove,
                remove_all,
            } => self.decide_permission(account, at, key, add, *add_all, remove, *remove_all),
            Request::LockSnapshot {
                key,
                mode,
                term,
                cool_hours,
            } => self.lock(account, at, key, *mode, *term, *cool_hours),
            Request::UnlockSnapshot { key } => self.unlock(account, at, key),
            Request::ArchiveSnapshot { key } => self.decide_archive(account, at, key),
            Request::RestoreTier { key, days } => self.decide_restore(account, at, key, *days),
            _ => self.decide_bin_call(account, at, request),
        }
    }

    /// What they decide of a call on the Recycle Bin, on volumes or on policies.
    fn decide_bin_call(
        &self,
        account: Account,
        at: Moment,
        request: &Request,
    ) -> Result<Decision, Failure>
        requires moment { at.second ≤ 2 ^ 36 }
        requires call { IsLaterCall request.now }
        ensures decided { Agrees result (decide (aged at.second (rows_in self.now)) at account request.now) }
        ensures memory { OnMemory result (MayWant request.now (decide (aged at.second (rows_in self.now)) at account request.now)) }
    {
        match request {
            Request::ListBin { from, max } => self.decide_rows(true, account, at, *from, *max),
            Request::RestoreFromBin { key } => self.decide_recover(account, at, key),
            Request::GetRule { key } => self.decide_get_rule(account, at, key),
            Request::ListRules => self.decide_list_rules(account, at),
            Request::CreateRule { .. } => self.decide_command(account, at, request),
            Request::UpdateRule { .. } => self.decide_command(account, at, request),
            Request::DeleteRule { .. } => self.decide_command(account, at, request),
            Request::LockRule { .. } => self.decide_command(account, at, request),
            Request::UnlockRule { .. } => self.decide_command(account, at, request),
            Request::CreatePolicy { .. } => self.decide_policy_call(account, at, request),
            Request::GetPolicy { .. } => self.decide_policy_call(account, at, request),
            Request::DeletePolicy { .. } => self.decide_policy_call(account, at, request),
            Request::RunPolicy { .. } => self.decide_policy_call(account, at, request),
            _ => self.decide_volume_call(account, at, request),
        }
    }

    /// The least size in GiB of what begins from a snapshot.
    pub(crate) fn least_size(
        &self,
        account: Account,
        at: Moment,
        parent: &Option<SnapKey>,
    ) -> Result<u32, Refusal>
        ensures { result ≡ least_size (aged at.second (rows_in self.now)) account at.second parent.now }
    {
        let Some(parent) = parent else {
            return Ok(0);
        };
        let Some(kept) = self.row_at(parent, at) else {
            return Err(Refusal::NotFound(Kind::Snapshot));
        };
        check_base(&kept.row, account, parent, at)?;
        Ok(kept.row.size)
    }

    /// The key of the upload, where the account may start it.
    fn next_upload(
        &self,
        account: Account,
        at: Moment,
        size: u64,
        parent: &Option<SnapKey>,
        token: &Option<Text>,
    ) -> Result<SnapKey, Refusal>
        requires { self.now.latest ≤ at.second }
        ensures { result ≡ next_upload (aged at.second (rows_in self.now)) at account size parent.now token.now }
    {
        let number = self.own_of(account).next_snap;
        let least = self.least_size(account, at, parent)?;
        if size < u64::from(least) {
            return Err(Refusal::BadSize);
        }
        if self.count_open(account, at) >= MOST_OPEN {
            return Err(Refusal::OpenUploads);
        }
        if self.is_full(account, at) {
            return Err(quota(QuotaName::Snapshots, MOST_KEPT));
        }
        self.check_tokens(account, token)?;
        if number >= MOST_IDS {
            return Err(quota(QuotaName::Ids, u64::from(MOST_IDS)));
        }
        Ok(SnapKey {
            account,
            number: KeyNumber::new(number),
        })
    }

    /// Whether the account may use one more client token, where there is one.
    pub(crate) fn check_tokens(&self, account: Account, token: &Option<Text>) -> Result<(), Refusal>
        ensures { result ≡ refuse_if (has_token token.now && nat_le most_tokens (token_count (rows_in self.now) account)) (refusal.Quota quota_name.ClientTokens most_tokens) }
    {
        if has_token(token) && self.tokens_of(account) >= MOST_TOKENS {
            return Err(quota(QuotaName::ClientTokens, MOST_TOKENS));
        }
        Ok(())
    }

    /// Whether a start that repeats no other is accepted.
    pub(crate) fn fresh_start(
        &self,
        account: Account,
        at: Moment,
        size: u64,
        parent: &Option<SnapKey>,
        description: &Option<Text>,
        tags: &Tags,
        token: &Option<Text>,
        timeout: u32,
    ) -> Result<Decision, Failure>
        requires { self.now.latest ≤ at.second }
        ensures decided { Agrees result (fresh_start (aged at.second (rows_in self.now)) at account size parent.now description.now tags.now token.now timeout) }
        ensures memory { OnMemory result (IsSettled (fresh_start (aged at.second (rows_in self.now)) at account size parent.now description.now tags.now token.now timeout)) }
    {
        match self.next_upload(account, at, size, parent, token) {
            Ok(key) => {
                let alloc = self.alloc();
                let made = one_id(alloc, AnyKey::Snap(key))?;
                let answer = started(alloc, account, at, &key, size, parent, description, tags)?;
                match start_request(alloc, size, parent, description, tags, token, timeout) {
                    Ok(request) => {
                        let change = self.change(account, at, request, made);
                        Ok(Decision::Change(change, answer))
                    }
                    Err(_) => {
                        drop(answer);
                        Err(Failure::Memory)
                    }
                }
            }
            Err(refusal) => Err(Failure::Refused(refusal)),
        }
    }

    /// A change that ends nothing.
    pub(crate) fn change(&self, account: Account, at: Moment, request: Request, made: Ids) -> Change
        ensures { result ≡ makes account at request made }
    {
        let alloc = self.alloc();
        Change {
            account,
            at,
            request,
            made,
            sources: Ids::new(alloc),
            ended: Ids::new(alloc),
            released: Ids::new(alloc),
            shared: Accounts::new(alloc),
        }
    }

    /// Whether the put is accepted.
    fn decide_put(
        &self,
        account: Account,
        at: Moment,
        key: &SnapKey,
        index: u64,
        digest: &[u8; 32],
    ) -> Result<Decision, Refusal>
        ensures { result ≡ decide_put (aged at.second (rows_in self.now)) at account key.now index digest.now }
    {
        let Some(kept) = self.row_at(key, at) else {
            return Err(Refusal::NotFound(Kind::Snapshot));
        };
        check_open(&kept.row, account, key, at)?;
        if index >= blocks_of(kept.row.size) {
            return Err(Refusal::BadIndex);
        }
        let alloc = self.alloc();
        let request = Request::PutSnapshotBlock {
            key: *key,
            index,
            digest: *digest,
            bytes: Bytes::new(alloc),
        };
        let change = self.change(account, at, request, Ids::new(alloc));
        Ok(Decision::Change(change, Answer::BlockWritten { digest: *digest }))
    }

    /// Whether the upload is completed.
    fn decide_complete(
        &self,
        account: Account,
        at: Moment,
        key: &SnapKey,
        count: u64,
        checksum: &Option<[u8; 32]>,
    ) -> Result<Decision, Failure>
        ensures decided { Agrees result (decide_complete (aged at.second (rows_in self.now)) at account key.now count checksum.now) }
        ensures memory { OnMemory result (NamesMember (decide_complete (aged at.second (rows_in self.now)) at account key.now count checksum.now)) }
    {
        let Some(kept) = self.row_at(key, at) else {
            return Err(Failure::Refused(Refusal::NotFound(Kind::Snapshot)));
        };
        if let Err(refusal) = check_open(&kept.row, account, key, at) {
            return Err(Failure::Refused(refusal));
        }
        if put_count(kept, at) as u64 != count {
            return Err(bad_parameter(self.alloc(), "x-amz-ChangedBlocksCount"));
        }
        let request = Request::CompleteSnapshot {
            key: *key,
            count,
            checksum: *checksum,
        };
        let change = self.change(account, at, request, Ids::new(self.alloc()));
        Ok(Decision::Change(change, Answer::Completed))
    }

    /// Whether the snapshot's blocks may be read.
    fn decide_read(&self, account: Account, at: Moment, key: &SnapKey) -> Result<Decision, Refusal>
        ensures { result ≡ decide_get (aged at.second (rows_in self.now)) at account key.now }
    {
        let Some(kept) = self.row_at(key, at) else {
            return Err(Refusal::NotFound(Kind::Snapshot));
        };
        check_ready(&kept.row, account, key, at)?;
        Ok(Decision::Read(ReadRow {
            size: kept.row.size,
            related: true,
        }))
    }

    /// Whether the two snapshots' blocks may be read.
    fn decide_compare(
        &self,
        account: Account,
        at: Moment,
        first: &SnapKey,
        second: &SnapKey,
    ) -> Result<Decision, Refusal>
        ensures { result ≡ decide_compare (aged at.second (rows_in self.now)) at account first.now second.now }
    {
        let Some(one) = self.row_at(first, at) else {
            return Err(Refusal::NotFound(Kind::Snapshot));
        };
        check_ready(&one.row, account, first, at)?;
        let Some(other) = self.row_at(second, at) else {
            return Err(Refusal::NotFound(Kind::Snapshot));
        };
        check_ready(&other.row, account, second, at)?;
        Ok(Decision::Read(ReadRow {
            size: other.row.size,
            related: are_one_line(&one.row.line, &other.row.line),
        }))
    }
}

fn are_one_line(one: &Line, other: &Line) -> bool
    ensures { result ≡ is_same_line one.now other.now }
{
    one == other
}

/// How many indexes are put in the upload at the moment.
fn put_count(kept: &KeptRow, at: Moment) -> usize
    ensures { result ≡ map.len (rested_row at.second (whole kept.now)).put }
{
    match status_at(&kept.row, at) {
        RowStatus::Failed => 0,
        _ => kept.put.len(),
    }
}

pub(crate) fn lifted(decided: Result<Decision, Refusal>) -> Result<Decision, Failure>
    ensures decided { Agrees result decided }
    ensures memory { OnMemory result ⊥ }
{
    match decided {
        Ok(decision) => Ok(decision),
        Err(refusal) => Err(Failure::Refused(refusal)),
    }
}

fn has_token(token: &Option<Text>) -> bool
    ensures { result ≡ starts.has_token token.now }
{
    match token {
        Some(_) => true,
        None => false,
    }
}

pub(crate) fn quota(what: QuotaName, number: u64) -> Refusal
    ensures { result ≡ Refusal.Quota what number }
{
    Refusal::Quota { what, number }
}

// The refusal of the member with this name, or want of memory.
pub(crate) fn bad_parameter(alloc: Global, name: &str) -> Failure
    ensures { (result ≡ Failure.Refused (Refusal.BadParameter name.now)) ⊎ (result ≡ Failure.Memory) }
{
    match String::from_str(alloc, name) {
        Ok(name) => Failure::Refused(Refusal::BadParameter(Text::from_string(name))),
        Err(_) => Failure::Memory,
    }
}

pub(crate) fn one_id(alloc: Global, key: AnyKey) -> Result<Ids, AllocError>
    ensures { IfOk result (λ made. made ≡ key ∷ []) }
{
    let mut made = Ids::new(alloc);
    made.push(key)?;
    Ok(made)
}

pub(crate) fn started(
    alloc: Global,
    account: Account,
    at: Moment,
    key: &SnapKey,
    size: u64,
    parent: &Option<SnapKey>,
    description: &Option<Text>,
    tags: &Tags,
) -> Result<Answer, AllocError>
    ensures { IfOk result (λ given. given ≡ answer.Started description.now account parent.now key.now at tags.now size) }
{
    let description = copy_text(description)?;
    let tags = copy_tags(alloc, tags)?;
    Ok(Answer::Started {
        description,
        owner: account,
        parent: *parent,
        key: *key,
        start: at,
        tags,
        size,
    })
}
