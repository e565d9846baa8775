// CreatePolicy, GetPolicy and DeletePolicy, and room for what becomes of policies.
ghost use Rattle.std.specs.Prelude.{◌≡◌};
ghost use Rattle.ebs_model.specs.inner.Follows.{Agrees};
ghost use Rattle.ebs_catalog.specs.PolicyCalls as calls;

use crate::catalog::Catalog;
use crate::copies::policy_request;
use crate::decides::{lifted, one_id, quota};
use crate::rooms::Room;
use crate::rows::SnapRows;
use ebs_model::{
    Account, Answer, AnyKey, Change, Decision, Failure, Ids, KeyNumber, Kind, MOST_IDS,
    MOST_POLICIES, Moment, Policy, PolicyKey, QuotaName, Refusal, Request, Retain, Tags,
};
use std::alloc::AllocError;

impl Catalog {
    ghost use Rattle.std.specs.Prelude.{◌≡◌, ◌≤◌, ◌^◌, ℕ, true, false, not, Some, IfOk};
    ghost use Rattle.std.specs.Option.{option_copied};
    ghost use Rattle.std.specs.List.{filter};
    ghost use Rattle.ebs_model.specs.declared.answer.Refusal.TheVariants as refusal;
    ghost use Rattle.ebs_model.specs.declared.answer.Kind.TheVariants as kind;
    ghost use Rattle.ebs_model.specs.Refuse.{some_or};
    ghost use Rattle.std.specs.declared.option.Option.{Option};
    ghost use Rattle.ebs_model.specs.declared.keys.SnapKey.{SnapKey};
    ghost use Rattle.ebs_model.specs.declared.keys.VolKey.{VolKey};
    ghost use Rattle.ebs_model.specs.declared.keys.PolicyKey.{PolicyKey};
    ghost use Rattle.ebs_model.specs.declared.policy.Policy.{Policy};
    ghost use Rattle.ebs_policies.specs.Table.{IsSound};
    ghost use Rattle.ebs_model.specs.Limits.{is_schedule, is_retain};
    ghost use Rattle.ebs_model.specs.inner.Rows.{aged};
    ghost use Rattle.ebs_model.specs.Rows.{the_policy};
    ghost use Rattle.ebs_model.specs.Decide.{decide, commit, commit_by};
    ghost use Rattle.ebs_model.specs.Calls.Policy.{decide_policy, decide_get_policy, decide_drop_policy, new_policy, with_new_policy};
    ghost use Rattle.ebs_catalog.specs.Held.{rows_in, stale, is_about, IsDecided};
    ghost use Rattle.ebs_catalog.specs.Decided.{IsPolicyCall, PassedTable, PassedPolicies};
    ghost use Rattle.ebs_catalog.specs.PolicyCalls.{is_policy_change, is_run, rows_of_run};
    ghost use Rattle.ebs_catalog.specs.Rooms.{IsReady, CoversPolicy, CoversTable, CoversPolicies, FreePolicies};
    ghost use Rattle.ebs_catalog.specs.Wants.{OnMemory, MayWant, IsSettled};

    /// What the rows decide of a call on policies.
    pub(crate) fn decide_policy_call(
        &self,
        account: Account,
        at: Moment,
        request: &Request,
    ) -> Result<Decision, Failure>
        requires moment { at.second ≤ 2 ^ 36 }
        requires call { IsPolicyCall request.now }
        ensures decided { Agrees result (decide (aged at.second (rows_in self.now)) at account request.now) }
        ensures memory { OnMemory result (MayWant request.now (decide (aged at.second (rows_in self.now)) at account request.now)) }
    {
        match request {
            Request::CreatePolicy {
                targets,
                hours,
                at: time,
                retain,
                add,
            } => self.decide_policy(account, at, targets, *hours, *time, *retain, add),
            Request::GetPolicy { key } => lifted(self.decide_get_policy(account, key)),
            Request::DeletePolicy { key } => lifted(self.decide_drop_policy(account, at, key)),
            Request::RunPolicy { key } => self.decide_run(account, at, key),
            _ => unreachable!(),
        }
    }

    /// Whether the policy is created. It gets the account's next number.
    fn decide_policy(
        &self,
        account: Account,
        at: Moment,
        targets: &Tags,
        hours: u32,
        time: u32,
        retain: Retain,
        add: &Tags,
    ) -> Result<Decision, Failure>
        ensures decided { Agrees result (decide_policy (rows_in self.now) at account targets.now hours time retain add.now) }
        ensures memory { OnMemory result (IsSettled (decide_policy (rows_in self.now) at account targets.now hours time retain add.now)) }
    {
        let number = self.own_of(account).next_policy;
        if self.policies_of(account) >= MOST_POLICIES as u64 {
            return Err(Failure::Refused(quota(QuotaName::Policies, MOST_POLICIES as u64)));
        }
        if number >= MOST_IDS {
            return Err(Failure::Refused(quota(QuotaName::Ids, u64::from(MOST_IDS))));
        }
        let key = PolicyKey {
            account,
            number: KeyNumber::new(number),
        };
        let request = policy_request(self.alloc(), targets, hours, time, retain, add)?;
        let made = one_id(self.alloc(), AnyKey::Policy(key))?;
        let change = self.change(account, at, request, made);
        Ok(Decision::Change(change, shown(true, &key, at)))
    }

    /// The account's policy with this key.
    pub(crate) fn the_policy(&self, account: Account, key: &PolicyKey) -> Option<&Policy>
        ensures value { some_or (option_copied result) (refusal.NotFound kind.Policy) ≡ the_policy (rows_in self.now) account key.now }
        ensures sound { (p : Policy) → option_copied result ≡ Some p → IsSound key.now p }
    {
        if account != key.account {
            return None;
        }
        self.policy_at(key)
    }

    /// The policy's last run, where it is the account's.
    fn decide_get_policy(&self, account: Account, key: &PolicyKey) -> Result<Decision, Refusal>
        ensures { result ≡ decide_get_policy (rows_in self.now) account key.now }
    {
        let Some(policy) = self.the_policy(account, key) else {
            return Err(Refusal::NotFound(Kind::Policy));
        };
        Ok(Decision::View(shown(false, key, policy.last)))
    }

    /// Whether the policy is taken out.
    fn decide_drop_policy(
        &self,
        account: Account,
        at: Moment,
        key: &PolicyKey,
    ) -> Result<Decision, Refusal>
        ensures { result ≡ decide_drop_policy (rows_in self.now) at account key.now }
    {
        let Some(_policy) = self.the_policy(account, key) else {
            return Err(Refusal::NotFound(Kind::Policy));
        };
        let request = Request::DeletePolicy { key: *key };
        let change = self.change(account, at, request, Ids::new(self.alloc()));
        Ok(Decision::Change(change, Answer::Done))
    }

    /// Makes room for a change of policies, and gives the rows that a run makes.
    pub(crate) fn prepare_policies(
        &mut self,
        change: &Change,
    ) -> Result<Option<SnapRows>, AllocError>
        requires call { is_policy_change change.now.request ≡ true }
        ensures rows { rows_in self.new ≡ rows_in self.old }
        ensures stale { (now : ℕ) → stale self.new now ≡ stale self.old now }
        ensures latest { self.new.latest ≡ self.old.latest }
        ensures tokens { self.new.tokens ≡ self.old.tokens }
        ensures books { self.new.books ≡ self.old.books }
        ensures room { IfOk result (λ run. CoversPolicies self.new change.now.made change.now.ended change.now.request × (run ≡ rows_of_run (rows_in self.new) change.now.at change.now.made change.now.sources change.now.request)) }
    {
        match &change.request {
            Request::CreatePolicy { .. } => {
                self.prepare_made_policy(&made_policy(&change.made))?;
                Ok(None)
            }
            Request::RunPolicy { key } => {
                let rows = self.prepare_run(key, change)?;
                Ok(Some(rows))
            }
            _ => Ok(None),
        }
    }

    /// Makes room for a policy that is made.
    fn prepare_made_policy(&mut self, made: &Option<PolicyKey>) -> Result<(), AllocError>
        ensures rows { rows_in self.new ≡ rows_in self.old }
        ensures stale { (now : ℕ) → stale self.new now ≡ stale self.old now }
        ensures latest { self.new.latest ≡ self.old.latest }
        ensures tokens { self.new.tokens ≡ self.old.tokens }
        ensures books { self.new.books ≡ self.old.books }
        ensures room { IfOk result (λ done. CoversPolicy self.new made.now) }
    {
        match made {
            Some(key) => self.prepare_policy(key),
            None => Ok(()),
        }
    }

    /// Takes back the room for a change of policies.
    pub(crate) fn release_policies(&mut self, change: &Change)
        ensures rows { rows_in self.new ≡ rows_in self.old }
        ensures stale { (now : ℕ) → stale self.new now ≡ stale self.old now }
        ensures latest { self.new.latest ≡ self.old.latest }
        ensures tokens { self.new.tokens ≡ self.old.tokens }
        ensures books { self.new.books ≡ self.old.books }
        ensures free { FreePolicies self.new change.now.made change.now.ended change.now.request }
    {
        match &change.request {
            Request::CreatePolicy { .. } => {
                if let Some(key) = made_policy(&change.made) {
                    self.release_policy(&key);
                }
            }
            Request::RunPolicy { .. } => self.release_run(&change.made, &change.ended),
            _ => {}
        }
    }

    /// Makes the change of policies, in the room for it.
    pub(crate) fn commit_policies(&mut self, change: Change, room: Room)
        requires later { self.old.latest ≤ change.at.second }
        requires room { IsReady self.old change room }
        requires decided { IsDecided (aged change.at.second (rows_in self.old)) change }
        requires moment { change.at.second ≤ 2 ^ 36 }
        requires call { is_policy_change change.request ≡ true }
        ensures rows { aged change.at.second (rows_in self.new) ≡ commit (aged change.at.second (rows_in self.old)) change }
        ensures stale { stale self.new change.at.second ≡ filter (λ key. not (is_about change key)) (stale self.old change.at.second) }
        ensures latest { self.new.latest ≡ self.old.latest }
    {
        if is_run(&change.request) {
            self.commit_run(change, room);
        } else {
            self.commit_table(change);
        }
    }

    /// A creation or a deletion of a policy.
    fn commit_table(&mut self, change: Change)
        requires room { CoversPolicies self.old change.made change.ended change.request }
        requires decided { PassedPolicies (aged change.at.second (rows_in self.old)) change change.request }
        requires call { is_policy_change change.request ≡ true }
        requires table { is_run change.request ≡ false }
        ensures rows { aged change.at.second (rows_in self.new) ≡ commit (aged change.at.second (rows_in self.old)) change }
        ensures stale { (now : ℕ) → stale self.new now ≡ stale self.old now }
        ensures latest { self.new.latest ≡ self.old.latest }
    {
        let Change {
            account,
            at,
            request,
            made,
            sources: _sources,
            ended: _ended,
            released: _released,
            shared: _shared,
        } = change;
        let policy = made_policy(&made);
        self.commit_in_table(account, at, &policy, request);
    }

    fn commit_in_table(
        &mut self,
        account: Account,
        at: Moment,
        made: &Option<PolicyKey>,
        request: Request,
    )
        requires room { CoversTable self.old made.now request }
        requires decided { PassedTable (rows_in self.old) account made.now request }
        requires call { is_policy_change request ≡ true }
        requires table { is_run request ≡ false }
        ensures rows { (snap : Option SnapKey) (volume : Option VolKey) → rows_in self.new ≡ commit_by (rows_in self.old) at account snap volume request }
        ensures stale { (now : ℕ) → stale self.new now ≡ stale self.old now }
        ensures latest { self.new.latest ≡ self.old.latest }
    {
        let _ = account;
        match request {
            Request::CreatePolicy {
                targets,
                hours,
                at: time,
                retain,
                add,
            } => self.add_policy(at, made, targets, hours, time, retain, add),
            Request::DeletePolicy { key } => self.drop_policy(&key),
            _none => {}
        }
    }

    /// Adds a policy that is made.
    fn add_policy(
        &mut self,
        at: Moment,
        made: &Option<PolicyKey>,
        targets: Tags,
        hours: u32,
        time: u32,
        retain: Retain,
        add: Tags,
    )
        requires room { CoversPolicy self.old made.now }
        requires schedule { is_schedule hours time ≡ true }
        requires retain { is_retain retain ≡ true }
        ensures rows { (key : PolicyKey) → made.now ≡ Some key → rows_in self.new ≡ with_new_policy (rows_in self.old) key (new_policy at key targets hours time retain add) }
        ensures stale { (now : ℕ) → stale self.new now ≡ stale self.old now }
        ensures latest { self.new.latest ≡ self.old.latest }
    {
        if let Some(key) = made {
            self.commit_policy(Policy {
                key: *key,
                targets,
                hours,
                at: time,
                retain,
                add,
                last: at,
            });
        }
    }
}

/// Whether the request creates, deletes or runs a policy.
pub(crate) fn is_policy_change(request: &Request) -> bool
    ensures { result ≡ calls.is_policy_change request.now }
{
    match request {
        Request::CreatePolicy { .. } => true,
        Request::DeletePolicy { .. } => true,
        Request::RunPolicy { .. } => true,
        _ => false,
    }
}

fn is_run(request: &Request) -> bool
    ensures { result ≡ calls.is_run request.now }
{
    match request {
        Request::RunPolicy { .. } => true,
        _ => false,
    }
}

/// A policy as it is shown.
fn shown(created: bool, key: &PolicyKey, last: Moment) -> Answer
    ensures { result ≡ Answer.PolicyShown created key.now last }
{
    Answer::PolicyShown {
        created,
        key: *key,
        last,
    }
}

/// The first policy that is made.
fn made_policy(made: &Ids) -> Option<PolicyKey>
    ensures { result ≡ calls.made_policy made.now }
{
    match made.as_slice() {
        [AnyKey::Policy(key), ..] => Some(*key),
        _ => None,
    }
}
