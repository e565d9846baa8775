// Policies by key.
ghost use Rattle.std.specs.Prelude.{◌≡◌, ◌+◌, ◌<◌, ◌^◌, ◌==◌, length, map as list_map, IfOk, IfSome};
ghost use Rattle.ebs_model.specs.declared.keys.AnyKey.TheVariants as any;
ghost use Rattle.std.specs.List.{count_by};

use ebs_model::{Account, AnyKey, Ids, KeyNumber, Moment, Policy, PolicyKey};
use ebs_tables::{Filled, Slots};
use std::alloc::{AllocError, Global};
use std::marker::Model;

/// The policies of all accounts, and keys that are ready for one.
#[derive(Debug, Drop)]
pub struct Policies {
    slots: Slots<PolicyKey, Policy>,
}

impl Model for Policies {
    ghost use Rattle.ebs_policies.specs.Table.{Places, places_code};

    ghost Value = { Places };

    ghost coded = { places_code };

    ghost use Rattle.ebs_tables.specs.Full.{slots_of, held};
    ghost use Rattle.ebs_model.specs.Keys.{policy_cmp};
    ghost use Rattle.ebs_policies.specs.Table.{AreSound};

    ghost view = { λ p. slots_of policy_cmp p.slots };

    ghost invariant = { λ p. AreSound (held policy_cmp p.slots) };
}

impl Policies {
    ghost use Rattle.std.specs.Prelude.{◌≡◌, ◌==◌, true, map as list_map, Some, IfOk, OnOk, OnErr};
    ghost use Rattle.ebs_model.specs.declared.keys.AnyKey.TheVariants as any;
    ghost use Rattle.std.specs.FinMap as map;
    ghost use Rattle.std.specs.List.{count_by};
    ghost use Rattle.std.specs.Option.{option_copied};
    ghost use Rattle.ebs_tables.specs.Full.{full};
    ghost use Rattle.ebs_model.specs.declared.keys.PolicyKey.{PolicyKey};
    ghost use Rattle.ebs_model.specs.declared.policy.Policy.{Policy};
    ghost use Rattle.ebs_policies.specs.Table.{IsSound, with_last};

    pub fn new(alloc: Global) -> Self
        ensures slots { result ≡ map.empty }
        ensures policies { full result ≡ map.empty }
    {
        Policies {
            slots: Slots::new(alloc),
        }
    }

    /// The policy with this key. It stands at its key, and its schedule and its retention are within their limits.
    pub fn get(&self, key: &PolicyKey) -> Option<&Policy>
        ensures value { option_copied result ≡ map.get (full self.now) key.now }
        ensures sound { (p : Policy) → map.get (full self.now) key.now ≡ Some p → IsSound key.now p }
    {
        self.slots.get(key)
    }

    /// How many the account has: a walk over its policies alone.
    pub fn count(&self, account: Account) -> u64
        ensures { result ≡ count_by (λ (e : PolicyKey × Policy). account == e.0.account) (map.entries (full self.now)) }
    {
        let start = first_of(account);
        match next_account(account) {
            Some(next) => count_of(self.slots.until(&start, &first_of(next)), account),
            None => count_of(self.slots.from(&start), account),
        }
    }

    /// All of them, in ascending account and then number.
    pub fn all(&self) -> Filled<'_, PolicyKey, Policy>
        ensures { result ≡ map.entries (full self.now) }
    {
        self.slots.from(&first_of(Account::new(0)))
    }

    /// Their keys, in ascending account and then number.
    pub fn ids(&self, alloc: Global) -> Result<Ids, AllocError>
        ensures { IfOk result (λ ids. ids ≡ list_map (λ (e : PolicyKey × Policy). any.Policy e.0) (map.entries (full self.now))) }
    {
        ids_of(alloc, self.all())
    }

    /// Makes room for a policy. The policies stay.
    pub fn prepare(&mut self, key: &PolicyKey) -> Result<(), AllocError>
        ensures policies { full self.new ≡ full self.old }
        ensures room { OnOk result (map.contains_key self.new key.now ≡ true) }
        ensures err { OnErr result (self.new ≡ self.old) }
    {
        self.slots.prepare(*key)
    }

    /// Takes back room that was made for nothing. The policies stay.
    pub fn release(&mut self, key: &PolicyKey)
        ensures policies { full self.new ≡ full self.old }
        ensures free { map.contains_key self.new key.now ≡ map.contains_key (full self.new) key.now }
    {
        self.slots.release(key);
    }

    /// Puts a policy at its key, for which there is room.
    pub fn create(&mut self, policy: Policy)
        requires room { map.contains_key self.old policy.key ≡ true }
        requires sound { IsSound policy.key policy }
        ensures { full self.new ≡ map.insert (full self.old) policy.key policy }
    {
        let key = policy.key;
        let kept = policy;
        self.slots.fill(key, kept);
    }

    /// Takes the policy out.
    pub fn delete(&mut self, key: &PolicyKey)
        ensures { full self.new ≡ map.remove (full self.old) key.now }
    {
        let _gone = self.slots.remove(key);
    }

    /// The policy ran at the moment.
    pub fn set_last(&mut self, key: &PolicyKey, at: Moment)
        ensures { full self.new ≡ with_last (full self.old) key.now at (map.get (full self.old) key.now) }
    {
        let Some(mut policy) = self.slots.take(*key) else {
            return;
        };
        policy.last = at;
        self.slots.fill(*key, policy);
    }
}

fn count_of(policies: Filled<'_, PolicyKey, Policy>, account: Account) -> u64
    requires { length policies < 2 ^ 63 }
    ensures { result ≡ count_by (λ e. account == e.0.account) policies.entry }
{
    let mut count = 0;
    for (key, _) in policies {
        if account == key.account {
            count += 1;
        }
    }
    count
}

fn ids_of(alloc: Global, policies: Filled<'_, PolicyKey, Policy>) -> Result<Ids, AllocError>
    ensures { IfOk result (λ ids. ids ≡ list_map (λ e. any.Policy e.0) policies.entry) }
{
    let mut ids = Ids::new(alloc);
    for (key, _) in policies {
        ids.push(AnyKey::Policy(*key))?;
    }
    Ok(ids)
}

fn first_of(account: Account) -> PolicyKey
    ensures { result ≡ record { account = account; number = 0 } }
{
    PolicyKey {
        account,
        number: KeyNumber::new(0),
    }
}

fn next_account(account: Account) -> Option<Account>
    ensures { IfSome result (λ next. next ≡ account + 1) }
{
    let number = account.number();
    if number < 999_999_999_999 {
        Some(Account::new(number + 1))
    } else {
        None
    }
}
