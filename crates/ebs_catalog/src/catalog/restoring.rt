// One row at a time is put back as it was, for a catalog that is made of what was written of another.
ghost use Rattle.std.specs.Prelude.{◌≡◌};
ghost use Rattle.ebs_catalog.specs.Restores as restores;

use super::{Catalog, more};
use crate::copies::token_key;
use crate::rows::{AccountRow, KeptRow};
use ebs_bin::Rules;
use ebs_model::{Account, IndexSlots, Own, Policy, SnapRow, TokenKey, TokenRow, VolRow};
use std::alloc::AllocError;

impl Catalog {
    ghost use Rattle.std.specs.Prelude.{◌≡◌, ℕ, true, OnOk, OnErr};
    ghost use Rattle.std.specs.FinMap as map;
    ghost use Rattle.ebs_tables.specs.Full.{full};
    ghost use Rattle.ebs_model.specs.Limits.{is_size};
    ghost use Rattle.ebs_model.specs.Rows.{own_of};
    ghost use Rattle.ebs_model.specs.inner.Rules.{HasDays};
    ghost use Rattle.ebs_bin.specs.Books.{book};
    ghost use Rattle.ebs_policies.specs.Table.{IsSound};
    ghost use Rattle.ebs_catalog.specs.Decided.{HasLimits};
    ghost use Rattle.ebs_catalog.specs.Held.{rows_in};
    ghost use Rattle.ebs_catalog.specs.Restores.{can_end, with_wait};
    ghost use Rattle.ebs_catalog.specs.Sound.{rows_at, tokens_at, volumes_at};

    /// The account's next numbers. An account is restored before its snapshots, volumes and client tokens.
    pub fn restore_account(&mut self, account: Account, own: Own) -> Result<(), AllocError>
        ensures rows { OnOk result (rows_in self.new ≡ record (rows_in self.old) { own = map.insert (rows_in self.old).own account own }) }
        ensures err { OnErr result (rows_in self.new ≡ rows_in self.old) }
        ensures waits { full self.new.waits ≡ full self.old.waits }
        ensures latest { self.new.latest ≡ self.old.latest }
    {
        self.owns.prepare(account)?;
        self.fill_own(account, own);
        Ok(())
    }

    /// A snapshot's row with the indexes that were put in its upload. What time can end waits for time, whatever the clock.
    pub fn restore_snapshot(&mut self, row: SnapRow, put: IndexSlots) -> Result<(), AllocError>
        requires owner { map.contains_key (rows_in self.old).own row.key.account ≡ true }
        requires limits { HasLimits row }
        ensures rows { OnOk result (rows_in self.new ≡ record (rows_in self.old) { snaps = map.insert (rows_in self.old).snaps row.key (record row { put = full put }) }) }
        ensures waits { OnOk result (full self.new.waits ≡ with_wait (full self.old.waits) row) }
        ensures err { OnErr result (rows_in self.new ≡ rows_in self.old) }
        ensures still { OnErr result (full self.new.waits ≡ full self.old.waits) }
        ensures latest { self.new.latest ≡ self.old.latest }
    {
        self.snaps.prepare(row.key)?;
        self.begin_wait(&row)?;
        self.fill_snapshot(row, put);
        Ok(())
    }

    /// A volume's row.
    pub fn restore_volume(&mut self, row: VolRow) -> Result<(), AllocError>
        requires owner { map.contains_key (rows_in self.old).own row.key.account ≡ true }
        requires size { is_size row.size ≡ true }
        ensures rows { OnOk result (rows_in self.new ≡ record (rows_in self.old) { vols = map.insert (rows_in self.old).vols row.key row }) }
        ensures err { OnErr result (rows_in self.new ≡ rows_in self.old) }
        ensures waits { full self.new.waits ≡ full self.old.waits }
        ensures latest { self.new.latest ≡ self.old.latest }
    {
        self.vols.prepare(row.key)?;
        self.fill_volume(row);
        Ok(())
    }

    /// What an account's client token was used for.
    pub fn restore_token(&mut self, key: TokenKey, row: TokenRow) -> Result<(), AllocError>
        requires owner { map.contains_key (rows_in self.old).own key.account ≡ true }
        ensures rows { OnOk result (rows_in self.new ≡ record (rows_in self.old) { tokens = map.insert (rows_in self.old).tokens key row }) }
        ensures err { OnErr result (rows_in self.new ≡ rows_in self.old) }
        ensures waits { full self.new.waits ≡ full self.old.waits }
        ensures latest { self.new.latest ≡ self.old.latest }
    {
        let copy = token_key(key.account, &key.text)?;
        self.tokens.prepare(copy)?;
        self.fill_token(key, row);
        Ok(())
    }

    /// A policy, whose account may have been restored or not.
    pub fn restore_policy(&mut self, policy: Policy) -> Result<(), AllocError>
        requires sound { IsSound policy.key policy }
        ensures rows { OnOk result (rows_in self.new ≡ record (rows_in self.old) { policies = map.insert (rows_in self.old).policies policy.key policy }) }
        ensures err { OnErr result (rows_in self.new ≡ rows_in self.old) }
        ensures waits { full self.new.waits ≡ full self.old.waits }
        ensures latest { self.new.latest ≡ self.old.latest }
    {
        self.policies.prepare(&policy.key)?;
        self.policies.create(policy);
        Ok(())
    }

    /// All rules of an account, in the place of those that it had.
    pub fn restore_rules(&mut self, rules: Rules) -> Result<(), AllocError>
        requires days { HasDays (book rules) }
        ensures rows { OnOk result (rows_in self.new ≡ record (rows_in self.old) { books = map.insert (rows_in self.old).books rules.account (book rules) }) }
        ensures err { OnErr result (rows_in self.new ≡ rows_in self.old) }
        ensures waits { full self.new.waits ≡ full self.old.waits }
        ensures latest { self.new.latest ≡ self.old.latest }
    {
        let account = rules.account();
        self.books.prepare(account)?;
        self.books.fill(account, rules);
        Ok(())
    }

    // What is kept of the account: nothing where it isn't there.
    fn account_row(&self, account: Account) -> AccountRow
        ensures own { result.own ≡ own_of (rows_in self.now) account }
        ensures rows { result.rows ≡ rows_at (map.get (full self.now.owns) account) }
        ensures volumes { result.volumes ≡ volumes_at (map.get (full self.now.owns) account) }
        ensures tokens { result.tokens ≡ tokens_at (map.get (full self.now.owns) account) }
    {
        AccountRow {
            own: self.own_of(account),
            rows: self.rows_of(account),
            volumes: self.volumes_of(account),
            tokens: self.tokens_of(account),
        }
    }

    // Writes the account's next numbers, which takes no memory.
    fn fill_own(&mut self, account: Account, own: Own)
        requires room { map.contains_key self.old.owns account ≡ true }
        ensures rows { rows_in self.new ≡ record (rows_in self.old) { own = map.insert (rows_in self.old).own account own } }
        ensures waits { self.new.waits ≡ self.old.waits }
        ensures latest { self.new.latest ≡ self.old.latest }
    {
        let mut found = self.account_row(account);
        found.own = own;
        self.owns.fill(account, found);
    }

    // A row that time can end begins to wait for it.
    fn begin_wait(&mut self, row: &SnapRow) -> Result<(), AllocError>
        ensures rows { rows_in self.new ≡ rows_in self.old }
        ensures snaps { self.new.snaps ≡ self.old.snaps }
        ensures latest { self.new.latest ≡ self.old.latest }
        ensures waits { OnOk result (full self.new.waits ≡ with_wait (full self.old.waits) row.now) }
        ensures err { OnErr result (full self.new.waits ≡ full self.old.waits) }
    {
        if !can_end(row) {
            return Ok(());
        }
        self.waits.prepare(row.key)?;
        self.waits.fill(row.key, ());
        Ok(())
    }

    // Writes a snapshot's row, which takes no memory.
    fn fill_snapshot(&mut self, row: SnapRow, put: IndexSlots)
        requires room { map.contains_key self.old.snaps row.key ≡ true }
        requires owner { map.contains_key (rows_in self.old).own row.key.account ≡ true }
        requires limits { HasLimits row }
        requires waits { can_end row ≡ true → map.contains_key (full self.old.waits) row.key ≡ true }
        ensures rows { rows_in self.new ≡ record (rows_in self.old) { snaps = map.insert (rows_in self.old).snaps row.key (record row { put = full put }) } }
        ensures waits { self.new.waits ≡ self.old.waits }
        ensures latest { self.new.latest ≡ self.old.latest }
    {
        let key = row.key;
        let added = row;
        let mut account = self.account_row(key.account);
        account.rows = self.rows_with(&key);
        self.snaps.fill(key, KeptRow { row: added, put });
        self.owns.fill(key.account, account);
    }

    // Writes a volume's row, which takes no memory.
    fn fill_volume(&mut self, row: VolRow)
        requires room { map.contains_key self.old.vols row.key ≡ true }
        requires owner { map.contains_key (rows_in self.old).own row.key.account ≡ true }
        requires size { is_size row.size ≡ true }
        ensures rows { rows_in self.new ≡ record (rows_in self.old) { vols = map.insert (rows_in self.old).vols row.key row } }
        ensures waits { self.new.waits ≡ self.old.waits }
        ensures latest { self.new.latest ≡ self.old.latest }
    {
        let key = row.key;
        let added = row;
        let known = self.vols.contains(&key);
        let _most = self.vols.ready_len();
        let mut account = self.account_row(key.account);
        account.volumes = more(account.volumes, known);
        self.vols.fill(key, added);
        self.owns.fill(key.account, account);
    }

    // Writes a client token, which takes no memory.
    fn fill_token(&mut self, key: TokenKey, row: TokenRow)
        requires room { map.contains_key self.old.tokens key ≡ true }
        requires owner { map.contains_key (rows_in self.old).own key.account ≡ true }
        ensures rows { rows_in self.new ≡ record (rows_in self.old) { tokens = map.insert (rows_in self.old).tokens key row } }
        ensures waits { self.new.waits ≡ self.old.waits }
        ensures latest { self.new.latest ≡ self.old.latest }
    {
        let number = key.account;
        let known = self.tokens.contains(&key);
        let _most = self.tokens.ready_len();
        let mut account = self.account_row(number);
        account.tokens = more(account.tokens, known);
        self.tokens.fill(key, row);
        self.owns.fill(number, account);
    }
}

/// Whether time can end the row.
fn can_end(row: &SnapRow) -> bool
    ensures { result ≡ restores.can_end row.now }
{
    !row.completed || row.bin_end.is_some()
}
