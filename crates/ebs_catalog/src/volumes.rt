// CreateVolume, DescribeVolume and DeleteVolume.
ghost use Rattle.std.specs.Prelude.{◌≡◌, IfOk};
ghost use Rattle.ebs_model.specs.declared.answer.Answer.TheVariants as answer;
ghost use Rattle.ebs_model.specs.Calls.Volume as volumes;
ghost use Rattle.ebs_model.specs.inner.Follows.{Agrees};
ghost use Rattle.ebs_catalog.specs.Wants.{OnMemory, IsSettled};

use crate::catalog::Catalog;
use crate::changes::narrow;
use crate::copies::create_request;
use crate::decides::{lifted, one_id, quota};
use crate::repeats::{are_same_tags, first_key, is_same_parent};
use crate::rows::NewToken;
use ebs_model::{
    Account, Answer, AnyKey, Decision, Failure, Ids, KeyNumber, Kind, MOST_IDS, MOST_VOLUMES,
    Moment, QuotaName, Refusal, Request, SnapKey, Tags, Text, TokenRow, VolKey, VolRow, copy_tags,
};
use std::alloc::{AllocError, Global};

impl Catalog {
    ghost use Rattle.std.specs.Prelude.{◌≡◌, true, unwrap_or};
    ghost use Rattle.std.specs.Option.{option_copied};
    ghost use Rattle.ebs_model.specs.declared.answer.Refusal.TheVariants as refusal;
    ghost use Rattle.ebs_model.specs.declared.answer.Kind.TheVariants as kind;
    ghost use Rattle.ebs_model.specs.Limits.{is_size};
    ghost use Rattle.ebs_model.specs.Refuse.{some_or};
    ghost use Rattle.ebs_model.specs.inner.Rows.{aged};
    ghost use Rattle.ebs_model.specs.Rows.{the_volume};
    ghost use Rattle.ebs_model.specs.Decide.{decide};
    ghost use Rattle.ebs_model.specs.Calls.Volume.{decide_create, fresh_create, decide_volume, decide_drop, commit_create};
    ghost use Rattle.ebs_model.specs.declared.request.Request.TheVariants as ask;
    ghost use Rattle.ebs_catalog.specs.Held.{rows_in, stale, CoversVolume, CoversToken, volume_token_by};
    ghost use Rattle.ebs_catalog.specs.Decided.{IsVolumeCall, IsVolumeSize};
    ghost use Rattle.ebs_catalog.specs.Volumes.{next_created};
    ghost use Rattle.ebs_catalog.specs.Wants.{OnMemory, MayWant, IsSettled};

    /// What the rows decide of a call on volumes.
    pub(crate) fn decide_volume_call(
        &self,
        account: Account,
        at: Moment,
        request: &Request,
    ) -> Result<Decision, Failure>
        requires call { IsVolumeCall request.now }
        ensures decided { Agrees result (decide (aged at.second (rows_in self.now)) at account request.now) }
        ensures memory { OnMemory result (MayWant request.now (decide (aged at.second (rows_in self.now)) at account request.now)) }
    {
        match request {
            Request::CreateVolume {
                origin,
                size,
                tags,
                client_token,
            } => self.decide_create(account, at, origin, *size, tags, client_token),
            Request::CreateSnapshot {
                key,
                description,
                tags,
            } => self.decide_snap(account, at, key, description, tags),
            Request::WriteVolumeBlock {
                key,
                index,
                digest,
                ..
            } => lifted(self.decide_write(account, at, key, *index, digest)),
            Request::ReadVolumeBlock { key, .. } => lifted(self.decide_fetch(account, key)),
            Request::DescribeVolume { key } => self.decide_volume(account, key),
            Request::DeleteVolume { key } => lifted(self.decide_drop(account, at, key)),
            _ => unreachable!(),
        }
    }

    /// Whether the volume is created. Where the call's client token was used before, that decides.
    fn decide_create(
        &self,
        account: Account,
        at: Moment,
        origin: &Option<SnapKey>,
        size: Option<u64>,
        tags: &Tags,
        token: &Option<Text>,
    ) -> Result<Decision, Failure>
        ensures decided { Agrees result (decide_create (aged at.second (rows_in self.now)) at account origin.now size tags.now token.now) }
        ensures memory { OnMemory result (IsSettled (decide_create (aged at.second (rows_in self.now)) at account origin.now size tags.now token.now)) }
    {
        match self.first_use(account, token) {
            Some(row) => repeat_create(self.alloc(), account, origin, size, tags, row),
            None => self.fresh_create(account, at, origin, size, tags, token),
        }
    }

    /// The key of the volume and its size in GiB, where the account may create it.
    fn next_created(
        &self,
        account: Account,
        at: Moment,
        origin: &Option<SnapKey>,
        size: Option<u64>,
        token: &Option<Text>,
    ) -> Result<(VolKey, u64), Refusal>
        ensures { result ≡ next_created (aged at.second (rows_in self.now)) at account origin.now size token.now }
    {
        let number = self.own_of(account).next_vol;
        let least = u64::from(self.least_size(account, at, origin)?);
        let wanted = size.unwrap_or(least);
        if wanted < least {
            return Err(Refusal::BadSize);
        }
        if self.volumes_of(account) >= MOST_VOLUMES {
            return Err(quota(QuotaName::Volumes, MOST_VOLUMES));
        }
        self.check_tokens(account, token)?;
        if number >= MOST_IDS {
            return Err(quota(QuotaName::Ids, u64::from(MOST_IDS)));
        }
        let key = VolKey {
            account,
            number: KeyNumber::new(number),
        };
        Ok((key, wanted))
    }

    /// Whether a creation that repeats no other is accepted. The change has the size that the volume gets.
    fn fresh_create(
        &self,
        account: Account,
        at: Moment,
        origin: &Option<SnapKey>,
        size: Option<u64>,
        tags: &Tags,
        token: &Option<Text>,
    ) -> Result<Decision, Failure>
        ensures decided { Agrees result (fresh_create (aged at.second (rows_in self.now)) at account origin.now size tags.now token.now) }
        ensures memory { OnMemory result (IsSettled (fresh_create (aged at.second (rows_in self.now)) at account origin.now size tags.now token.now)) }
    {
        match self.next_created(account, at, origin, size, token) {
            Ok((key, wanted)) => {
                let alloc = self.alloc();
                let made = one_id(alloc, AnyKey::Vol(key))?;
                let answer = shown(alloc, true, wanted, origin, tags, &key)?;
                match create_request(alloc, origin, Some(wanted), tags, token) {
                    Ok(request) => {
                        let change = self.change(account, at, request, made);
                        Ok(Decision::Change(change, answer))
                    }
                    Err(_) => {
                        drop(answer);
                        Err(Failure::Memory)
                    }
                }
            }
            Err(refusal) => Err(Failure::Refused(refusal)),
        }
    }

    /// The account's volume with this key.
    pub(crate) fn the_volume(&self, account: Account, key: &VolKey) -> Option<&VolRow>
        ensures { some_or (option_copied result) (refusal.NotFound kind.Volume) ≡ the_volume (rows_in self.now) account key.now }
    {
        if account != key.account {
            return None;
        }
        self.volume_at(key)
    }

    /// The volume's row, where it is the account's.
    fn decide_volume(&self, account: Account, key: &VolKey) -> Result<Decision, Failure>
        ensures decided { Agrees result (decide_volume (rows_in self.now) account key.now) }
        ensures memory { OnMemory result (IsSettled (decide_volume (rows_in self.now) account key.now)) }
    {
        let Some(row) = self.the_volume(account, key) else {
            return Err(Failure::Refused(Refusal::NotFound(Kind::Volume)));
        };
        let size = u64::from(row.size);
        let answer = shown(self.alloc(), false, size, &row.origin, &row.tags, key)?;
        Ok(Decision::View(answer))
    }

    /// Whether the volume is taken out.
    fn decide_drop(&self, account: Account, at: Moment, key: &VolKey) -> Result<Decision, Refusal>
        ensures { result ≡ decide_drop (rows_in self.now) at account key.now }
    {
        let Some(_row) = self.the_volume(account, key) else {
            return Err(Refusal::NotFound(Kind::Volume));
        };
        let request = Request::DeleteVolume { key: *key };
        let change = self.change(account, at, request, Ids::new(self.alloc()));
        Ok(Decision::Change(change, Answer::Done))
    }

    /// Adds a volume that is made, which takes no memory.
    pub(crate) fn add_volume(
        &mut self,
        at: Moment,
        made: &Option<VolKey>,
        origin: Option<SnapKey>,
        size: Option<u64>,
        tags: Tags,
        client_token: Option<Text>,
        token: Option<NewToken>,
    )
        requires room { CoversVolume self.old made.now }
        requires kept { CoversToken self.old.tokens token }
        requires token { token ≡ volume_token_by made.now (ask.CreateVolume origin size tags client_token) client_token }
        requires size { IsVolumeSize (aged at.second (rows_in self.old)) origin (unwrap_or size 0) }
        ensures rows { aged at.second (rows_in self.new) ≡ commit_create (aged at.second (rows_in self.old)) at made.now origin size tags client_token }
        ensures stale { stale self.new at.second ≡ stale self.old at.second }
        ensures latest { self.new.latest ≡ self.old.latest }
    {
        let _given = client_token;
        match made {
            Some(key) => {
                let size = self.volume_size(at, &origin, size);
                self.commit_create(at, key, origin, size, tags, token);
            }
            None => {}
        }
    }

    /// A new volume's size as rows keep it.
    fn volume_size(&self, at: Moment, origin: &Option<SnapKey>, size: Option<u64>) -> u32
        requires { IsVolumeSize (aged at.second (rows_in self.now)) origin.now (unwrap_or size 0) }
        ensures value { result ≡ unwrap_or size 0 }
        ensures sound { is_size result ≡ true }
    {
        let _ = at;
        let size = size.unwrap_or(0);
        match origin {
            Some(origin) => {
                self.limits(origin);
                narrow(size)
            }
            None => narrow(size),
        }
    }
}

/// The answer of the first call to the same call, and a conflict to another one.
fn repeat_create(
    alloc: Global,
    account: Account,
    origin: &Option<SnapKey>,
    size: Option<u64>,
    tags: &Tags,
    row: &TokenRow,
) -> Result<Decision, Failure>
    ensures decided { Agrees result (volumes.repeat_create account origin.now size tags.now row.now) }
    ensures memory { OnMemory result (IsSettled (volumes.repeat_create account origin.now size tags.now row.now)) }
{
    if !is_same_create(&row.first, origin, size, tags) {
        let key = first_key(account, row);
        return Err(Failure::Refused(Refusal::TokenConflict(key)));
    }
    let key = VolKey {
        account,
        number: row.number,
    };
    let answer = shown(alloc, true, made_size(&row.first), origin, tags, &key)?;
    Ok(Decision::Kept(answer))
}

fn is_same_create(first: &Request, origin: &Option<SnapKey>, size: Option<u64>, tags: &Tags) -> bool
    ensures { result ≡ volumes.is_same_create first.now origin.now size tags.now }
{
    match first {
        Request::CreateVolume {
            origin: first_origin,
            size: first_size,
            tags: first_tags,
            client_token: _client_token,
        } => {
            is_same_parent(first_origin, origin)
                && is_same_size(*first_size, size)
                && are_same_tags(first_tags.as_slice(), tags.as_slice())
        }
        _ => false,
    }
}

/// An absent size counts as the size that was made.
fn is_same_size(first: Option<u64>, size: Option<u64>) -> bool
    ensures { result ≡ volumes.is_same_size first size }
{
    match (first, size) {
        (_, None) => true,
        (None, Some(_)) => false,
        (Some(first), Some(size)) => first == size,
    }
}

/// The size of the volume that a call made.
fn made_size(first: &Request) -> u64
    ensures { result ≡ volumes.made_size first.now }
{
    match first {
        Request::CreateVolume { size, .. } => size.unwrap_or(0),
        _ => 0,
    }
}

/// A volume as it is shown.
fn shown(
    alloc: Global,
    created: bool,
    size: u64,
    origin: &Option<SnapKey>,
    tags: &Tags,
    key: &VolKey,
) -> Result<Answer, AllocError>
    ensures { IfOk result (λ given. given ≡ answer.VolumeShown created size origin.now tags.now key.now) }
{
    let tags = copy_tags(alloc, tags)?;
    Ok(Answer::VolumeShown {
        created,
        size,
        origin: *origin,
        tags,
        key: *key,
    })
}
