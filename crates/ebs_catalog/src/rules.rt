// Recycle Bin rules: what rows decide of a call on them, and what becomes of them.
ghost use Rattle.std.specs.Prelude.{◌≡◌, ◌≤◌, ◌^◌, IfOk, map, true};
ghost use Rattle.ebs_model.specs.declared.answer.Answer.TheVariants as answer;
ghost use Rattle.ebs_model.specs.Rules as rules;
ghost use Rattle.ebs_model.specs.Calls.Rule as calls;
ghost use Rattle.ebs_bin.specs.Agrees as bin;
ghost use Rattle.ebs_bin.specs.Books.{book};
ghost use Rattle.ebs_catalog.specs.Rooms as rooms;
ghost use Rattle.ebs_catalog.specs.Commands as commands;

use crate::catalog::Catalog;
use crate::copies::copy_text;
use crate::decides::{one_id, quota};
use crate::rooms::RuleRoom;
use ebs_bin::{RuleFailure, Rules, copy_rule_tags};
use ebs_model::{
    Account, Answer, AnyKey, Change, Decision, Failure, Ids, Kind, MOST_IDS, MOST_RULES, Moment,
    QuotaName, Refusal, Request, Rule, RuleChange, RuleKey, RuleRefusal, RuleTags, RuleView,
    RuleViews, StateName, rule_lock_at, rule_lock_end, rule_lock_name,
};
use ebs_tables::{Filled, Sequence};
use std::alloc::{AllocError, Global};

impl Catalog {
    ghost use Rattle.std.specs.Prelude.{ℕ, OnErr};
    ghost use Rattle.std.specs.FinMap as map;
    ghost use Rattle.ebs_model.specs.inner.Rows.{aged};
    ghost use Rattle.ebs_model.specs.Rows.{book_of};
    ghost use Rattle.ebs_model.specs.inner.Follows.{Agrees};
    ghost use Rattle.ebs_model.specs.RuleCommands.{committed, committed_by};
    ghost use Rattle.ebs_model.specs.inner.Rules.{HasDays};
    ghost use Rattle.ebs_model.specs.Calls.Rule.{decide_get_rule, decide_list_rules};
    ghost use Rattle.ebs_catalog.specs.Held.{rows_in};
    ghost use Rattle.ebs_catalog.specs.Rooms.{HasRuleRoom, HasShelf, IsRuleFree, ruled_in};
    ghost use Rattle.ebs_catalog.specs.Commands.{is_command, command_decided};
    ghost use Rattle.ebs_catalog.specs.Wants.{OnMemory, IsSettled};

    /// Whether the command on the account's rules is accepted.
    pub(crate) fn decide_command(
        &self,
        account: Account,
        at: Moment,
        request: &Request,
    ) -> Result<Decision, Failure>
        requires moment { at.second ≤ 2 ^ 36 }
        requires call { is_command request.now ≡ true }
        ensures decided { Agrees result (command_decided (aged at.second (rows_in self.now)) at account request.now) }
        ensures memory { OnMemory result (IsSettled (command_decided (aged at.second (rows_in self.now)) at account request.now)) }
    {
        match self.rule_change(account, at, request) {
            Ok(made) => {
                let alloc = self.alloc();
                let copy = copy_command(alloc, request)?;
                let ids = made_by(alloc, request, &made)?;
                let answer = rule_answer(alloc, is_creation(request), at, &made)?;
                let change = self.change(account, at, copy, ids);
                Ok(Decision::Change(change, answer))
            }
            Err(RuleFailure::Refused(refusal)) => Err(Failure::Refused(rule_refusal(refusal))),
            Err(RuleFailure::Memory) => Err(Failure::Memory),
        }
    }

    /// What the command makes of the account's rules. No other request is one.
    fn rule_change(
        &self,
        account: Account,
        at: Moment,
        request: &Request,
    ) -> Result<RuleChange, RuleFailure>
        requires { at.second ≤ 2 ^ 36 }
        ensures { bin.Agrees result (ruled_in self.now account at.second request.now) }
    {
        let none = Rules::new(self.alloc(), account, 0);
        ruled(self.rules_or(account, &none), at, request)
    }

    /// The account's rule with this key.
    pub(crate) fn decide_get_rule(
        &self,
        account: Account,
        at: Moment,
        key: &RuleKey,
    ) -> Result<Decision, Failure>
        ensures decided { Agrees result (decide_get_rule (rows_in self.now) at account key.now) }
        ensures memory { OnMemory result (IsSettled (decide_get_rule (rows_in self.now) at account key.now)) }
    {
        let none = Rules::new(self.alloc(), account, 0);
        let Some(rule) = self.rules_or(account, &none).find(key) else {
            return Err(Failure::Refused(Refusal::NotFound(Kind::Rule)));
        };
        let row = rule_view(self.alloc(), at, rule)?;
        Ok(Decision::View(Answer::RuleShown {
            created: false,
            row,
        }))
    }

    /// All rules of the account.
    pub(crate) fn decide_list_rules(
        &self,
        account: Account,
        at: Moment,
    ) -> Result<Decision, Failure>
        ensures decided { Agrees result (decide_list_rules (rows_in self.now) at account) }
        ensures memory { OnMemory result (IsSettled (decide_list_rules (rows_in self.now) at account)) }
    {
        let none = Rules::new(self.alloc(), account, 0);
        let rules = self.rules_or(account, &none).all();
        let rows = views_of(self.alloc(), at, rules)?;
        Ok(Decision::View(Answer::RuleList { rows }))
    }

    /// Makes room for what a command makes of the account's rules.
    pub(crate) fn prepare_rules(&mut self, change: &Change) -> Result<Option<RuleRoom>, AllocError>
        requires { change.now.at.second ≤ 2 ^ 36 }
        ensures rest { self.new ≡ record self.old { books = self.new.books } }
        ensures rows { rows_in self.new ≡ rows_in self.old }
        ensures room { IfOk result (λ room. HasRuleRoom self.new change.now.account (ruled_in self.new change.now.account change.now.at.second change.now.request) room) }
        ensures err { OnErr result (self.new.books ≡ self.old.books) }
    {
        match self.rule_change(change.account, change.at, &change.request) {
            Ok(made) => {
                let room = self.prepare_shelf(change.account, made)?;
                Ok(Some(room))
            }
            Err(RuleFailure::Refused(_)) => Ok(None),
            Err(RuleFailure::Memory) => Err(AllocError),
        }
    }

    /// Makes the change of the account's rules, in the room for it.
    pub(crate) fn commit_rules(
        &mut self,
        account: Account,
        at: Moment,
        request: &Request,
        rules: Option<RuleRoom>,
    )
        requires room { HasRuleRoom self.old account (ruled_in self.old account at.second request.now) rules }
        requires taken { bin.IsTaken (ruled_in self.old account at.second request.now) }
        requires days { HasDays (committed_by (book_of (rows_in self.old) account) (ruled_in self.old account at.second request.now)) }
        ensures rows { rows_in self.new ≡ record (rows_in self.old) { books = map.insert (rows_in self.old).books account (committed_by (book_of (rows_in self.old) account) (ruled_in self.old account at.second request.now)) } }
        ensures rest { self.new ≡ record self.old { books = self.new.books } }
    {
        let _ = at;
        let _ = request;
        if let Some(room) = rules {
            self.commit_shelf(account, room);
        }
    }
}

/// Whether the request is a command on rules.
pub(crate) fn is_command(request: &Request) -> bool
    ensures { result ≡ commands.is_command request.now }
{
    match request {
        Request::CreateRule { .. } => true,
        Request::UpdateRule { .. } => true,
        Request::DeleteRule { .. } => true,
        Request::LockRule { .. } => true,
        Request::UnlockRule { .. } => true,
        _ => false,
    }
}

fn is_creation(request: &Request) -> bool
    ensures { result ≡ commands.is_creation request.now }
{
    match request {
        Request::CreateRule { .. } => true,
        _ => false,
    }
}

/// What the command makes of the rules.
fn ruled(rules: &Rules, at: Moment, request: &Request) -> Result<RuleChange, RuleFailure>
    requires { at.second ≤ 2 ^ 36 }
    ensures { bin.Agrees result (rooms.ruled rules.now.account (book rules.now) at.second request.now) }
{
    match request {
        Request::CreateRule {
            days,
            tags,
            description,
            delay,
        } => rules.decide_create(*days, tags, description, *delay),
        Request::UpdateRule {
            key,
            days,
            tags,
            description,
        } => rules.decide_update(key, *days, tags, description, at),
        Request::DeleteRule { key } => rules.decide_delete(key, at),
        Request::LockRule { key, delay } => rules.decide_lock(key, *delay, at),
        Request::UnlockRule { key } => rules.decide_unlock(key, at),
        _ => Err(RuleFailure::Refused(RuleRefusal::NotFound)),
    }
}

/// The same command once more.
fn copy_command(alloc: Global, request: &Request) -> Result<Request, AllocError>
    requires { commands.is_command request.now ≡ true }
    ensures { IfOk result (λ copy. copy ≡ request.now) }
{
    match request {
        Request::CreateRule {
            days,
            tags,
            description,
            delay,
        } => Ok(Request::CreateRule {
            days: *days,
            tags: copy_rule_tags(alloc, tags)?,
            description: copy_text(description)?,
            delay: *delay,
        }),
        Request::UpdateRule {
            key,
            days,
            tags,
            description,
        } => Ok(Request::UpdateRule {
            key: *key,
            days: *days,
            tags: copy_given_tags(alloc, tags)?,
            description: copy_text(description)?,
        }),
        Request::DeleteRule { key } => Ok(Request::DeleteRule { key: *key }),
        Request::LockRule { key, delay } => Ok(Request::LockRule {
            key: *key,
            delay: *delay,
        }),
        Request::UnlockRule { key } => Ok(Request::UnlockRule { key: *key }),
        _ => unreachable!(),
    }
}

fn copy_given_tags(alloc: Global, tags: &Option<RuleTags>) -> Result<Option<RuleTags>, AllocError>
    ensures { IfOk result (λ copy. copy ≡ tags.now) }
{
    match tags {
        None => Ok(None),
        Some(tags) => {
            let copy = copy_rule_tags(alloc, tags)?;
            Ok(Some(copy))
        }
    }
}

/// What a creation makes; the other commands make nothing.
fn made_by(alloc: Global, request: &Request, change: &RuleChange) -> Result<Ids, AllocError>
    ensures { IfOk result (λ made. made ≡ commands.made_by request.now change.now) }
{
    if !is_creation(request) {
        return Ok(Ids::new(alloc));
    }
    match change {
        RuleChange::Put(rule) => one_id(alloc, AnyKey::Rule(rule.key)),
        RuleChange::Remove(_) => Ok(Ids::new(alloc)),
    }
}

/// A rule that was put is shown.
fn rule_answer(
    alloc: Global,
    created: bool,
    at: Moment,
    change: &RuleChange,
) -> Result<Answer, AllocError>
    ensures { IfOk result (λ given. given ≡ calls.rule_answer created at.second change.now) }
{
    match change {
        RuleChange::Put(rule) => {
            let row = rule_view(alloc, at, rule)?;
            Ok(Answer::RuleShown { created, row })
        }
        RuleChange::Remove(_) => Ok(Answer::Done),
    }
}

/// The rule as it is shown at the moment.
fn rule_view(alloc: Global, at: Moment, rule: &Rule) -> Result<RuleView, AllocError>
    ensures { IfOk result (λ view. view ≡ rules.rule_view at.second rule.now) }
{
    let description = copy_text(&rule.description)?;
    let tags = copy_rule_tags(alloc, &rule.tags)?;
    let lock = rule_lock_at(rule.lock, at);
    Ok(RuleView {
        description,
        key: rule.key,
        lock_end: rule_lock_end(lock),
        lock: rule_lock_name(lock),
        tags,
        days: rule.days,
    })
}

/// The rules as they are shown at the moment.
fn views_of(
    alloc: Global,
    at: Moment,
    found: Filled<'_, u32, Rule>,
) -> Result<RuleViews, AllocError>
    ensures { IfOk result (λ views. views ≡ map (λ e. rules.rule_view at.second e.1) found.entry) }
{
    let mut views = Vec::new(alloc);
    for (_, rule) in found {
        views.push(rule_view(alloc, at, rule)?)?;
    }
    Ok(Sequence::from_vec(views))
}

fn rule_refusal(refusal: RuleRefusal) -> Refusal
    ensures { result ≡ calls.rule_refusal refusal }
{
    match refusal {
        RuleRefusal::NotFound => Refusal::NotFound(Kind::Rule),
        RuleRefusal::TagLevel => Refusal::WrongState(StateName::TagLevel),
        RuleRefusal::Unlocked => Refusal::WrongState(StateName::Unlocked),
        RuleRefusal::Locked => Refusal::RuleLocked,
        RuleRefusal::TooMany => quota(QuotaName::Rules, MOST_RULES as u64),
        RuleRefusal::NoNumber => quota(QuotaName::Ids, u64::from(MOST_IDS)),
    }
}
