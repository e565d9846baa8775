// What rows and the blocks' digests decide of a request.
ghost use Rattle.std.specs.Prelude.{◌≡◌};
ghost use Rattle.ebs_model.specs.Step as steps;
ghost use Rattle.ebs_records.specs.Fields.{IsAccount, IsKey, IsVolume, IsRule, IsMoment, IsLong, IsPolicyKey, IsTerm, IsOptional, IsDigest};
ghost use Rattle.ebs_records.specs.States.{IsRetain};
ghost use Rattle.std.specs.List.{AllByRecursion};
ghost use Rattle.std.specs.Str.{IsUtf8};
ghost use Rattle.ebs_disk_store.specs.inner.Calls.{HasFields, HasTexts, HasRuleTexts, ruling_of};
ghost use Rattle.ebs_recovery.specs.inner.Changes.{IsRowChange};
ghost use Rattle.ebs_disk_store.specs.inner.Calls as calls;

use crate::heads::{check_digest, check_size};
use crate::store::{Promise, Store};
use ebs_model::{
    Account, Answer, Change, Decision, Failure, Moment, PolicyKey, Refusal, Request, Retain,
    RuleKey, RuleTag, RuleTags, SnapKey, Spent, Tag, Term, Text, VolKey, is_size, is_size_given,
};

/// What becomes of a request that isn't refused.
#[derive(Debug, Drop)]
pub(crate) enum Ruling {
    /// This change is made, and this is answered.
    Change(Change, Answer),
    /// Nothing changes.
    Answer(Answer),
}

impl<S: Promise> Store<S> {
    ghost use Rattle.std.specs.Prelude.{◌≡◌, ◌≤◌, ◌^◌, None};
    ghost use Rattle.ebs_model.specs.Limits.{bad_member};
    ghost use Rattle.ebs_model.specs.Machine.{advance};
    ghost use Rattle.ebs_model.specs.Kept.{same};
    ghost use Rattle.ebs_model.specs.Step.{refuse_linear};
    ghost use Rattle.ebs_recovery.specs.inner.Changes.{IsRowChange};
    ghost use Rattle.ebs_disk_store.specs.inner.Calls.{Rules};

    /// What the kept form does for the request at the moment.
    pub(crate) fn rule(
        &self,
        account: Account,
        now: Moment,
        request: &Request,
    ) -> Result<Ruling, Failure>
        requires later { self.now.recorded.clock.second ≤ now.second }
        requires early { now.second ≤ 2 ^ 36 }
        requires within { bad_member request.now ≡ None }
        requires change { IsRowChange request.now }
        ensures { Rules (advance self.now.recorded now) account request.now result }
    {
        if let Err(refusal) = check_image(request) {
            return Err(Failure::Refused(refusal));
        }
        let decision = match self.kept.decide(account, now, request) {
            Ok(decision) => decision,
            Err(Failure::Refused(refusal)) => return Err(Failure::Refused(refusal)),
            Err(Failure::Memory) => return Err(self.kept.undecided(account, now, request)),
        };
        let tested = self.check_linear(now, request);
        let spent = self.kept.is_spent();
        ruling_of(decision, tested, spent)
    }

    // The checksum that is stated at the end of an upload is that of its blocks.
    fn check_linear(&self, now: Moment, request: &Request) -> Result<(), Refusal>
        requires { self.now.recorded.clock.second ≤ now.second }
        ensures { result ≡ refuse_linear same (advance self.now.recorded now) request.now }
    {
        match request {
            Request::CompleteSnapshot { key, checksum, .. } => match checksum {
                Some(stated) => check_digest(*stated, self.kept.checksum(key, now)),
                None => Ok(()),
            },
            _ => Ok(()),
        }
    }
}

// The size of a snapshot that is started, or of a volume.
fn check_image(request: &Request) -> Result<(), Refusal>
    ensures { result ≡ steps.refuse_size request.now }
{
    match request {
        Request::StartSnapshot { size, .. } if !is_size(*size) => Err(Refusal::BadSize),
        Request::CreateVolume { size, .. } if !is_size_given(*size) => Err(Refusal::BadSize),
        _ => Ok(()),
    }
}

pub(crate) fn ruling_of(
    decision: Decision,
    tested: Result<(), Refusal>,
    spent: bool,
) -> Result<Ruling, Failure>
    ensures { result ≡ ruling_of decision tested spent }
{
    match decision {
        Decision::Change(change, answer) => {
            if let Err(refusal) = tested {
                drop(change);
                drop(answer);
                return Err(Failure::Refused(refusal));
            }
            if spent {
                drop(change);
                drop(answer);
                return Err(Failure::Refused(Refusal::Exhausted(Spent::Changes)));
            }
            Ok(Ruling::Change(change, answer))
        }
        Decision::Kept(answer) => Ok(Ruling::Answer(answer)),
        Decision::View(answer) => Ok(Ruling::Answer(answer)),
        Decision::Read(_) => Err(Failure::Refused(Refusal::BadIndex)),
    }
}

/// The request that a change of it is recorded by: a creation has the size that is made.
pub(crate) fn own_request(request: Request, made: &Request) -> Request
    ensures { result ≡ calls.with_size (calls.size_of made.now) request }
{
    match request {
        Request::CreateVolume {
            origin,
            size: _size,
            tags,
            client_token,
        } => Request::CreateVolume {
            origin,
            size: size_of(made),
            tags,
            client_token,
        },
        request => request,
    }
}

fn size_of(request: &Request) -> Option<u64>
    ensures { result ≡ calls.size_of request.now }
{
    match request {
        Request::CreateVolume { size, .. } => *size,
        _ => None,
    }
}

/// Reads the fields of a request, which have their widths, and whose texts are in UTF-8.
pub(crate) fn check_fields(request: &Request)
    requires { IsRowChange request.now }
    ensures { HasFields request.now }
{
    match request {
        Request::StartSnapshot {
            size,
            parent,
            description,
            tags,
            client_token,
            timeout,
        } => {
            let (_size, _timeout) = (*size, *timeout);
            check_parent(parent);
            check_text_given(description);
            check_tags(tags.as_slice());
            check_text_given(client_token);
        }
        Request::CompleteSnapshot {
            key,
            count: _,
            checksum,
        } => {
            check_key(key);
            check_checksum(checksum);
        }
        Request::DeleteSnapshot { key } => check_key(key),
        Request::ModifyPermission {
            key,
            add,
            add_all: _,
            remove,
            remove_all: _,
        } => {
            check_key(key);
            check_accounts(add.as_slice());
            check_accounts(remove.as_slice());
        }
        Request::LockSnapshot {
            key,
            mode: _,
            term,
            cool_hours: _,
        } => {
            check_key(key);
            check_term(term);
        }
        Request::UnlockSnapshot { key } => check_key(key),
        Request::ArchiveSnapshot { key } => check_key(key),
        Request::RestoreTier { key, days: _ } => check_key(key),
        Request::CreateVolume {
            origin,
            size,
            tags,
            client_token,
        } => {
            check_parent(origin);
            check_size_given(size);
            check_tags(tags.as_slice());
            check_text_given(client_token);
        }
        Request::CreateSnapshot {
            key,
            description,
            tags,
        } => {
            check_volume(key);
            check_text_given(description);
            check_tags(tags.as_slice());
        }
        Request::DeleteVolume { key } => check_volume(key),
        Request::CreateRule {
            days: _,
            tags,
            description,
            delay: _,
        } => {
            check_rule_tags(tags.as_slice());
            check_text_given(description);
        }
        Request::UpdateRule {
            key,
            days: _,
            tags,
            description,
        } => {
            check_rule(key);
            check_new_tags(tags);
            check_text_given(description);
        }
        Request::DeleteRule { key } => check_rule(key),
        Request::LockRule { key, delay: _ } => check_rule(key),
        Request::UnlockRule { key } => check_rule(key),
        Request::RestoreFromBin { key } => check_key(key),
        Request::CreatePolicy {
            targets,
            hours,
            at,
            retain,
            add,
        } => {
            let (_hours, _at) = (*hours, *at);
            check_tags(targets.as_slice());
            check_retain(retain);
            check_tags(add.as_slice());
        }
        Request::DeletePolicy { key } => check_policy(key),
        Request::RunPolicy { key } => check_policy(key),
        _ => unreachable!(),
    }
}

pub(crate) fn check_key(key: &SnapKey)
    ensures { IsKey key.now }
{
    let _account = key.account.number();
    let _number = key.number.number();
}

pub(crate) fn check_volume(key: &VolKey)
    ensures { IsVolume key.now }
{
    let _account = key.account.number();
    let _number = key.number.number();
}

fn check_rule(key: &RuleKey)
    ensures { IsRule key.now }
{
    let _account = key.account.number();
    let _number = key.number.number();
}

fn check_policy(key: &PolicyKey)
    ensures { IsPolicyKey key.now }
{
    let _account = key.account.number();
    let _number = key.number.number();
}

fn check_accounts(accounts: &[Account])
    ensures { AllByRecursion IsAccount accounts.now }
{
    match accounts {
        [] => {}
        [account, accounts @ ..] => {
            let _number = account.number();
            check_accounts(accounts);
        }
    }
}

fn check_parent(parent: &Option<SnapKey>)
    ensures { IsOptional IsKey parent.now }
{
    match parent {
        Some(key) => check_key(key),
        None => {}
    }
}

fn check_size_given(given: &Option<u64>)
    ensures { IsOptional IsLong given.now }
{
    match given {
        Some(size) => {
            let _size = *size;
        }
        None => {}
    }
}

fn check_checksum(checksum: &Option<[u8; 32]>)
    ensures { IsOptional IsDigest checksum.now }
{
    match checksum {
        Some(digest) => check_size(*digest),
        None => {}
    }
}

fn check_term(term: &Term)
    ensures { IsTerm term.now }
{
    match term {
        Term::Days(days) => {
            let _days = *days;
        }
        Term::Date(date) => check_moment(*date),
    }
}

fn check_retain(retain: &Retain)
    ensures { IsRetain retain.now }
{
    match retain {
        Retain::Count(number)
        | Retain::Days(number)
        | Retain::Weeks(number)
        | Retain::Months(number)
        | Retain::Years(number) => {
            let _number = *number;
        }
    }
}

fn check_moment(at: Moment)
    ensures { IsMoment at }
{
    let _second = at.second;
}

fn check_text_given(given: &Option<Text>)
    ensures { IsOptional IsUtf8 given.now }
{
    match given {
        Some(text) => check_text(text),
        None => {}
    }
}

fn check_tags(tags: &[Tag])
    ensures { AllByRecursion HasTexts tags.now }
{
    match tags {
        [] => {}
        [tag, tags @ ..] => {
            check_text(&tag.key);
            check_text(&tag.value);
            check_tags(tags);
        }
    }
}

fn check_new_tags(tags: &Option<RuleTags>)
    ensures { IsOptional (AllByRecursion HasRuleTexts) tags.now }
{
    match tags {
        Some(tags) => check_rule_tags(tags.as_slice()),
        None => {}
    }
}

fn check_rule_tags(tags: &[RuleTag])
    ensures { AllByRecursion HasRuleTexts tags.now }
{
    match tags {
        [] => {}
        [tag, tags @ ..] => {
            check_text(&tag.key);
            check_text_given(&tag.value);
            check_rule_tags(tags);
        }
    }
}

fn check_text(text: &Text)
    ensures { IsUtf8 text.now }
{
    let _bytes = text.as_str().as_bytes();
}
