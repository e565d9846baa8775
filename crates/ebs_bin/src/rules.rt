// The rules of one account.
use crate::retention::longest;
use ebs_model::{Account, Rule, RuleChange, RuleKey, Tags};
use ebs_tables::{Filled, NumberedSlots};
use std::alloc::{AllocError, Global};
use std::marker::Model;

/// The rules of one account by number, the number of its next one, and room for what a change adds.
#[derive(Debug, Drop)]
pub struct Rules {
    alloc: Global,
    account: Account,
    slots: NumberedSlots<Rule>,
    next: u32,
}

impl Model for Rules {
    ghost use Rattle.ebs_bin.specs.Books.{Shelf, shelf_code};

    ghost Value = { Shelf };

    ghost coded = { shelf_code };

    ghost view = { λ r. record { account = r.account; slots = r.slots; next = r.next } };
}

impl Rules {
    ghost use Rattle.std.specs.Prelude.{◌≡◌, ◌≤◌, ◌^◌, true, slice_get, OnOk, OnErr};
    ghost use Rattle.std.specs.FinMap as map;
    ghost use Rattle.std.specs.Option.{option_copied};
    ghost use Rattle.ebs_model.specs.declared.rules.RuleChange.{RuleChange};
    ghost use Rattle.ebs_model.specs.declared.rules.RuleChange.TheVariants.{Put, Remove};
    ghost use Rattle.ebs_model.specs.Rules.{no_rules, find, retention};
    ghost use Rattle.ebs_model.specs.inner.Rules.{rules_from};
    ghost use Rattle.ebs_model.specs.RuleCommands.{committed};
    ghost use Rattle.ebs_bin.specs.Books.{book, HasRoom, IsNumberFree};

    /// None yet. The first one has this number.
    pub fn new(alloc: Global, account: Account, first: u32) -> Self
        requires { first ≤ 2 ^ 28 }
        ensures account { result.account ≡ account }
        ensures rules { book result ≡ no_rules first }
    {
        Rules {
            alloc,
            account,
            slots: NumberedSlots::new(alloc),
            next: first,
        }
    }

    pub(crate) fn alloc(&self) -> Global {
        self.alloc
    }

    pub fn account(&self) -> Account
        ensures { result ≡ self.now.account }
    {
        self.account
    }

    /// How many there are.
    pub fn len(&self) -> usize
        ensures { result ≡ map.len (book self.now).rules }
    {
        self.slots.len()
    }

    /// The number of the next one.
    pub fn next_number(&self) -> u32
        ensures { result ≡ self.now.next }
    {
        self.next
    }

    /// The account's rule with this key.
    pub fn find(&self, key: &RuleKey) -> Option<&Rule>
        ensures { option_copied result ≡ find self.now.account (book self.now) key.now }
    {
        if key.account == self.account {
            self.slots.get(key.number.number())
        } else {
            None
        }
    }

    /// The rule with the least number at or above it.
    pub fn next_rule(&self, number: u32) -> Option<&Rule>
        ensures { option_copied result ≡ slice_get (rules_from (book self.now) number) 0 }
    {
        match self.slots.from(number).next() {
            Some((_, rule)) => Some(rule),
            None => None,
        }
    }

    /// All of them, in ascending number.
    pub fn all(&self) -> Filled<'_, u32, Rule>
        ensures { result ≡ map.entries (book self.now).rules }
    {
        self.slots.from(0)
    }

    /// How many days a snapshot with these tags stays in the bin, where any rule matches it.
    pub fn retention_for(&self, tags: &Tags) -> Option<u32>
        ensures { result ≡ retention (book self.now) tags.now }
    {
        longest(self.slots.from(0), tags)
    }

    /// Makes room for the change. The rules stay.
    pub fn prepare(&mut self, change: &RuleChange) -> Result<(), AllocError>
        ensures rules { book self.new ≡ book self.old }
        ensures account { self.new.account ≡ self.old.account }
        ensures room { OnOk result (HasRoom self.new change.now) }
        ensures others { (other : RuleChange) → HasRoom self.old other → HasRoom self.new other }
        ensures err { OnErr result (self.new ≡ self.old) }
    {
        match change {
            RuleChange::Put(rule) => self.slots.prepare(rule.key.number.number()),
            RuleChange::Remove(_) => Ok(()),
        }
    }

    /// Takes back room that was made for nothing. The rules stay.
    pub fn release(&mut self, change: &RuleChange)
        ensures rules { book self.new ≡ book self.old }
        ensures account { self.new.account ≡ self.old.account }
        ensures free { IsNumberFree self.new change.now }
    {
        if let RuleChange::Put(rule) = change {
            self.slots.release(rule.key.number.number());
        }
    }

    /// Puts a rule or takes one out, for which there is room.
    pub fn commit(&mut self, change: RuleChange)
        requires { HasRoom self.old change }
        ensures rules { book self.new ≡ committed (book self.old) change }
        ensures account { self.new.account ≡ self.old.account }
    {
        match change {
            RuleChange::Put(rule) => self.put(rule),
            RuleChange::Remove(key) => self.remove(key),
        }
    }

    fn put(&mut self, rule: Rule)
        requires { map.contains_key self.old.slots rule.key.number ≡ true }
        ensures rules { book self.new ≡ committed (book self.old) (Put rule) }
        ensures account { self.new.account ≡ self.old.account }
    {
        let key = rule.key;
        let number = key.number.number();
        self.next = self.next.max(number + 1);
        let kept = rule;
        self.slots.fill(number, kept);
    }

    fn remove(&mut self, key: RuleKey)
        ensures rules { book self.new ≡ committed (book self.old) (Remove key) }
        ensures account { self.new.account ≡ self.old.account }
    {
        let number = key.number.number();
        self.slots.take(number);
        self.slots.release(number);
    }
}
