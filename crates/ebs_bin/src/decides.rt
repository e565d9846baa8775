// What the rules decide of a command.
ghost use Rattle.std.specs.Prelude.{◌≡◌, unwrap_or, IfOk};
ghost use Rattle.ebs_model.specs.RuleCommands as commands;

use crate::failure::RuleFailure;
use crate::rules::Rules;
use ebs_model::{
    KeyNumber, MOST_IDS, MOST_RULES, Moment, Rule, RuleChange, RuleCommand, RuleKey, RuleLock,
    RuleRefusal, RuleTag, RuleTags, Text, bin_end, rule_lock_at,
};
use ebs_tables::Sequence;
use std::alloc::{AllocError, Global};

impl Rules {
    ghost use Rattle.std.specs.Prelude.{◌≤◌, ◌^◌};
    ghost use Rattle.ebs_bin.specs.Books.{book};
    ghost use Rattle.ebs_model.specs.RuleCommands.{create, update, delete, lock_rule, unlock_rule, decide};
    ghost use Rattle.ebs_bin.specs.Agrees.{Agrees};

    /// What the command changes, or why it is refused.
    pub fn decide(&self, command: &RuleCommand, now: Moment) -> Result<RuleChange, RuleFailure>
        requires { now.second ≤ 2 ^ 36 }
        ensures { Agrees result (decide self.now.account (book self.now) command.now now.second) }
    {
        match command {
            RuleCommand::Create {
                days,
                tags,
                description,
                delay,
            } => self.decide_create(*days, tags, description, *delay),
            RuleCommand::Update {
                key,
                days,
                tags,
                description,
            } => self.decide_update(key, *days, tags, description, now),
            RuleCommand::Delete { key } => self.decide_delete(key, now),
            RuleCommand::Lock { key, delay } => self.decide_lock(key, *delay, now),
            RuleCommand::Unlock { key } => self.decide_unlock(key, now),
        }
    }

    /// A new rule under the next number, locked where a delay is given.
    pub fn decide_create(
        &self,
        days: u32,
        tags: &RuleTags,
        description: &Option<Text>,
        delay: Option<u32>,
    ) -> Result<RuleChange, RuleFailure>
        ensures { Agrees result (create self.now.account (book self.now) days tags.now description.now delay) }
    {
        if self.len() >= MOST_RULES {
            return Err(RuleFailure::Refused(RuleRefusal::TooMany));
        }
        let number = self.next_number();
        if number >= MOST_IDS {
            return Err(RuleFailure::Refused(RuleRefusal::NoNumber));
        }
        let tags = copy_rule_tags(self.alloc(), tags)?;
        let description = copy_text(description)?;
        Ok(RuleChange::Put(Rule {
            key: RuleKey {
                account: self.account(),
                number: KeyNumber::new(number),
            },
            days,
            tags,
            description,
            lock: first_lock(delay),
        }))
    }

    /// The given fields are new. What is in the bin stays there as it is.
    pub fn decide_update(
        &self,
        key: &RuleKey,
        days: Option<u32>,
        tags: &Option<RuleTags>,
        description: &Option<Text>,
        now: Moment,
    ) -> Result<RuleChange, RuleFailure>
        ensures { Agrees result (update self.now.account (book self.now) key.now days tags.now description.now now.second) }
    {
        let Some(rule) = self.find(key) else {
            return Err(RuleFailure::Refused(RuleRefusal::NotFound));
        };
        let RuleLock::Unlocked = rule_lock_at(rule.lock, now) else {
            return Err(RuleFailure::Refused(RuleRefusal::Locked));
        };
        let updated = updated(self.alloc(), key, rule, days, tags, description)?;
        Ok(RuleChange::Put(updated))
    }

    /// The rule is taken out. Its number isn't given again.
    pub fn decide_delete(&self, key: &RuleKey, now: Moment) -> Result<RuleChange, RuleFailure>
        ensures { Agrees result (delete self.now.account (book self.now) key.now now.second) }
    {
        let Some(rule) = self.find(key) else {
            return Err(RuleFailure::Refused(RuleRefusal::NotFound));
        };
        match rule_lock_at(rule.lock, now) {
            RuleLock::Unlocked => Ok(RuleChange::Remove(*key)),
            _ => Err(RuleFailure::Refused(RuleRefusal::Locked)),
        }
    }

    /// Locks a rule of the whole account, also one that waits for its unlock.
    pub fn decide_lock(
        &self,
        key: &RuleKey,
        delay: u32,
        now: Moment,
    ) -> Result<RuleChange, RuleFailure>
        ensures { Agrees result (lock_rule self.now.account (book self.now) key.now delay now.second) }
    {
        let Some(rule) = self.find(key) else {
            return Err(RuleFailure::Refused(RuleRefusal::NotFound));
        };
        if rule.tags.len() != 0 {
            return Err(RuleFailure::Refused(RuleRefusal::TagLevel));
        }
        if let RuleLock::Locked { .. } = rule_lock_at(rule.lock, now) {
            return Err(RuleFailure::Refused(RuleRefusal::Locked));
        }
        let locked = with_lock(self.alloc(), key, rule, RuleLock::Locked { delay })?;
        Ok(RuleChange::Put(locked))
    }

    /// The rule waits for its unlock until its delay has passed.
    pub fn decide_unlock(&self, key: &RuleKey, now: Moment) -> Result<RuleChange, RuleFailure>
        requires { now.second ≤ 2 ^ 36 }
        ensures { Agrees result (unlock_rule self.now.account (book self.now) key.now now.second) }
    {
        let Some(rule) = self.find(key) else {
            return Err(RuleFailure::Refused(RuleRefusal::NotFound));
        };
        match rule_lock_at(rule.lock, now) {
            RuleLock::Unlocked => Err(RuleFailure::Refused(RuleRefusal::Unlocked)),
            RuleLock::Pending { .. } => Err(RuleFailure::Refused(RuleRefusal::Locked)),
            RuleLock::Locked { delay } => {
                let end = bin_end(now, delay);
                let waiting = with_lock(self.alloc(), key, rule, RuleLock::Pending { end })?;
                Ok(RuleChange::Put(waiting))
            }
        }
    }
}

fn first_lock(delay: Option<u32>) -> RuleLock
    ensures { result ≡ commands.first_lock delay }
{
    match delay {
        None => RuleLock::Unlocked,
        Some(delay) => RuleLock::Locked { delay },
    }
}

fn updated(
    alloc: Global,
    key: &RuleKey,
    rule: &Rule,
    days: Option<u32>,
    tags: &Option<RuleTags>,
    description: &Option<Text>,
) -> Result<Rule, AllocError>
    ensures { IfOk result (λ new. new ≡ commands.updated key.now rule.now days tags.now description.now) }
{
    let tags = copy_rule_tags(alloc, given_or(tags, &rule.tags))?;
    let description = match description {
        None => copy_text(&rule.description)?,
        Some(_) => copy_text(description)?,
    };
    Ok(Rule {
        key: *key,
        days: days.unwrap_or(rule.days),
        tags,
        description,
        lock: rule.lock,
    })
}

fn given_or<'a>(given: &'a Option<RuleTags>, old: &'a RuleTags) -> &'a RuleTags
    ensures { result.now ≡ unwrap_or given.now old.now }
{
    match given {
        None => old,
        Some(new) => new,
    }
}

/// The rule under another lock.
fn with_lock(alloc: Global, key: &RuleKey, rule: &Rule, lock: RuleLock) -> Result<Rule, AllocError>
    ensures { IfOk result (λ new. new ≡ record rule.now { key = key.now; lock = lock }) }
{
    let tags = copy_rule_tags(alloc, &rule.tags)?;
    let description = copy_text(&rule.description)?;
    Ok(Rule {
        key: *key,
        days: rule.days,
        tags,
        description,
        lock,
    })
}

/// The same resource tags once more.
pub fn copy_rule_tags(alloc: Global, tags: &RuleTags) -> Result<RuleTags, AllocError>
    ensures { IfOk result (λ copy. copy ≡ tags.now) }
{
    let mut copies = Vec::new(alloc);
    for tag in tags.as_slice() {
        let key = tag.key.copy()?;
        let value = copy_text(&tag.value)?;
        copies.push(RuleTag { key, value })?;
    }
    Ok(Sequence::from_vec(copies))
}

/// The same text once more, where there is one.
fn copy_text(text: &Option<Text>) -> Result<Option<Text>, AllocError>
    ensures { IfOk result (λ copy. copy ≡ text.now) }
{
    match text {
        None => Ok(None),
        Some(text) => {
            let copy = text.copy()?;
            Ok(Some(copy))
        }
    }
}
