// Rows by key, with the account first.
ghost use Rattle.std.specs.Prelude.{◌≡◌, ◌+◌, ◌<◌, ◌≤◌, ◌^◌, if◌then◌else◌, Some, IfSome};
ghost use Rattle.ebs_model.specs.Calls.Start.{started_row};
ghost use Rattle.ebs_model.specs.Rows as rows;
ghost use Rattle.ebs_catalog.specs.Held as held;
ghost use Rattle.ebs_catalog.specs.Rooms as rooms;
ghost use Rattle.ebs_catalog.specs.Sound.{rows_at, volumes_at, IsOneLess, IsVolumeLess};
ghost use Rattle.ebs_tables.specs.Full as slots;
ghost use Rattle.std.specs.FinMap as map;
ghost use Rattle.std.specs.Ordering.{nat_cmp};
ghost use Rattle.ebs_model.specs.Keys.{token_cmp};
ghost use Rattle.ebs_catalog.specs.Starts.{with_new};
ghost use Rattle.std.specs.Prelude.{[]};

mod restoring;
mod showing;

use crate::alterations::{Alteration, lock_after, tier_after};
use crate::counts::{count_kept, count_open};
use crate::rooms::RuleRoom;
use crate::rows::{AccountRow, KeptRow, NewToken};
use crate::snapped::snapped_row;
use ebs_bin::Rules;
use ebs_model::{
    Account, Accounts, Ids, IndexSlots, Indexes, KeyNumber, Line, LockState, MOST_IDS, MOST_KEPT,
    Moment, Own, Policy, PolicyKey, RowStatus, RuleChange, SnapKey, SnapRow, Tags, Text, Tier,
    TokenKey, TokenRow, VolKey, VolRow, bin_end, is_public, status_at, stays,
};
use ebs_policies::Policies;
use ebs_tables::{Filled, Slots};
use std::alloc::{AllocError, Global};
use std::marker::Model;

/// The snapshots and volumes of all accounts, their client tokens, rules and policies, and room for what a change adds.
#[derive(Debug, Drop)]
pub struct Catalog {
    alloc: Global,
    snaps: Slots<SnapKey, KeptRow>,
    owns: Slots<Account, AccountRow>,
    tokens: Slots<TokenKey, TokenRow>,
    vols: Slots<VolKey, VolRow>,
    books: Slots<Account, Rules>,
    waits: Slots<SnapKey, ()>,
    policies: Policies,
    latest: Moment,
}

impl Model for Catalog {
    ghost use Rattle.ebs_catalog.specs.Held.{Held, held_code};

    ghost Value = { Held };

    ghost coded = { held_code };

    ghost use Rattle.ebs_catalog.specs.Shown.{shown};
    ghost use Rattle.ebs_tables.specs.Full.{held};
    ghost use Rattle.ebs_model.specs.Keys.{snap_cmp, vol_cmp, token_cmp};
    ghost use Rattle.std.specs.Ordering.{nat_cmp};
    ghost use Rattle.ebs_catalog.specs.Sound.{IsSound, AreCounted, AreAwaited, AreUsed, AreVolumes, AreSoundVolumes, AreBooks};

    ghost view = { λ c. shown c };

    ghost invariant = { λ c. (IsSound (held snap_cmp c.snaps) × (AreCounted (held snap_cmp c.snaps) (held nat_cmp c.owns) × AreAwaited (held snap_cmp c.snaps) (held snap_cmp c.waits) c.latest.second)) × (AreUsed (held token_cmp c.tokens) (held nat_cmp c.owns) × (AreVolumes (held vol_cmp c.vols) (held nat_cmp c.owns) × (AreSoundVolumes (held vol_cmp c.vols) × AreBooks (held nat_cmp c.books)))) };
}

impl Catalog {
    ghost use Rattle.std.specs.Prelude.{◌≡◌, ◌+◌, ◌<◌, ◌≤◌, ◌^◌, if◌then◌else◌, ℕ, Bool, List, [], length, true, false, Some, IfSome, IfOk, not, nat_le, OnOk, OnErr, slice_get};
    ghost use Rattle.std.specs.Map.{lookup};
    ghost use Rattle.ebs_catalog.specs.Tokens.{is_token};
    ghost use Rattle.std.specs.Option.{option_map, option_copied};
    ghost use Rattle.std.specs.List.{filter};
    ghost use Rattle.std.specs.FinMap as map;
    ghost use Rattle.ebs_tables.specs.Full.{full};
    ghost use Rattle.ebs_model.specs.declared.keys.SnapKey.{SnapKey};
    ghost use Rattle.ebs_model.specs.declared.rows.SnapRow.{SnapRow};
    ghost use Rattle.ebs_model.specs.declared.rows.VolRow.{VolRow};
    ghost use Rattle.ebs_catalog.specs.Decided.{HasLimits};
    ghost use Rattle.ebs_catalog.specs.Sound.{IsSoundVolume, AreSoundVolumes, rows_at, tokens_at, volumes_at};
    ghost use Rattle.ebs_model.specs.Quotas.{most_kept};
    ghost use Rattle.ebs_model.specs.Limits.{is_size, is_timeout};
    ghost use Rattle.ebs_model.specs.Time.{rested_row, status_at, is_pending};
    ghost use Rattle.ebs_model.specs.inner.Rows.{no_rows, aged};
    ghost use Rattle.ebs_model.specs.Rows.{own_of, book_of, kept_count, open_count, token_count, volume_count, policy_count, is_key, with_row};
    ghost use Rattle.ebs_catalog.specs.Shows.{is_listed, shared_row};
    ghost use Rattle.ebs_model.specs.Calls.Start.{line_of, with_upload, started_row};
    ghost use Rattle.ebs_model.specs.Calls.Put.{commit_put};
    ghost use Rattle.ebs_model.specs.Calls.Complete.{commit_complete};
    ghost use Rattle.ebs_model.specs.Rules.{no_rules};
    ghost use Rattle.ebs_model.specs.inner.Rules.{HasDays, KeepsDays};
    ghost use Rattle.ebs_model.specs.RuleCommands.{committed};
    ghost use Rattle.ebs_model.specs.Calls.Bin.{recovered};
    ghost use Rattle.ebs_bin.specs.Books.{book};
    ghost use Rattle.ebs_catalog.specs.Rooms.{HasShelf, IsRuleFree, CoversPolicy, FreePolicy};
    ghost use Rattle.ebs_catalog.specs.Bins.{removed, days_at, binned_row};
    ghost use Rattle.ebs_model.specs.Calls.Volume.{volume_line, with_volume, commit_drop};
    ghost use Rattle.ebs_model.specs.Calls.Disk.{with_snapped};
    ghost use Rattle.ebs_model.specs.declared.policy.Policy.{Policy};
    ghost use Rattle.ebs_model.specs.declared.keys.PolicyKey.{PolicyKey};
    ghost use Rattle.ebs_model.specs.declared.keys.AnyKey.TheVariants as any;
    ghost use Rattle.std.specs.Prelude.{map as list_map};
    ghost use Rattle.ebs_model.specs.Calls.Policy.{with_new_policy, commit_drop_policy};
    ghost use Rattle.ebs_policies.specs.Table.{IsSound, with_last};
    ghost use Rattle.ebs_model.specs.Calls.Run.{freed};
    ghost use Rattle.ebs_catalog.specs.Runs.{is_own_target, IsNew};
    ghost use Rattle.ebs_catalog.specs.Alters.{altered_row};
    ghost use Rattle.ebs_catalog.specs.Held.{rows_in, whole, is_ended, stale, HasNoPut, CoversStart, CoversSnap, CoversVolume, CoversToken, CoversIndex, HasIndex, FreeStart, FreeSnap, FreeVolume, FreeToken, FreeIndex};
    ghost use Rattle.ebs_catalog.specs.Starts.{with_new, IsOf, is_new};

    pub fn new(alloc: Global) -> Self
        ensures rows { rows_in result ≡ no_rows }
        ensures stale { (now : ℕ) → stale result now ≡ [] }
        ensures latest { result.latest ≡ 0 }
    {
        Catalog {
            alloc,
            snaps: Slots::new(alloc),
            owns: Slots::new(alloc),
            tokens: Slots::new(alloc),
            vols: Slots::new(alloc),
            books: Slots::new(alloc),
            waits: Slots::new(alloc),
            policies: Policies::new(alloc),
            latest: Moment { second: 0 },
        }
    }

    /// Whether no change, and no row that was given up, was later than the moment.
    pub fn is_reached_by(&self, at: Moment) -> bool
        ensures test { result ≡ nat_le self.now.latest at.second }
        ensures later { result ≡ true → self.now.latest ≤ at.second }
    {
        self.latest.second <= at.second
    }

    /// The moment is reached. The rows stay.
    pub(crate) fn reach(&mut self, at: Moment)
        requires { self.old.latest ≤ at.second }
        ensures { self.new ≡ record self.old { latest = at.second } }
    {
        self.latest = at;
    }

    pub(crate) fn alloc(&self) -> Global {
        self.alloc
    }

    /// The row at the moment, but for the put set of a failed upload.
    pub(crate) fn row_at(&self, key: &SnapKey, at: Moment) -> Option<&KeptRow>
        ensures { option_map (λ kept. rested_row at.second (whole kept.now)) result ≡ map.get (aged at.second (rows_in self.now)).snaps key.now }
    {
        match self.snaps.get(key) {
            Some(kept) if stays(&kept.row, at) => Some(kept),
            _ => None,
        }
    }

    /// The indexes that were put in the row's upload, as they are kept, and those that are ready.
    pub fn put(&self, key: &SnapKey) -> Option<&IndexSlots>
        ensures { option_map full (option_copied result) ≡ option_map (λ row. row.put) (map.get (rows_in self.now).snaps key.now) }
    {
        match self.snaps.get(key) {
            Some(kept) => Some(&kept.put),
            None => None,
        }
    }

    pub(crate) fn own_of(&self, account: Account) -> Own
        ensures { result ≡ own_of (rows_in self.now) account }
    {
        match self.owns.get(&account) {
            Some(found) => found.own,
            None => no_own(),
        }
    }

    /// How many of the account's snapshots time leaves at the moment: a walk over the account's rows alone.
    pub(crate) fn count_kept(&self, account: Account, at: Moment) -> u64
        ensures { result ≡ kept_count (aged at.second (rows_in self.now)) account }
    {
        let start = first_of(account);
        match next_account(account) {
            Some(next) => count_kept(self.snaps.until(&start, &first_of(next)), account, at),
            None => count_kept(self.snaps.from(&start), account, at),
        }
    }

    /// Whether the account has as many snapshots as it can keep. Rows are walked only where as many stand in the table.
    pub(crate) fn is_full(&self, account: Account, at: Moment) -> bool
        ensures { result ≡ nat_le most_kept (kept_count (aged at.second (rows_in self.now)) account) }
    {
        let _ = &self.alloc;
        if self.rows_of(account) < MOST_KEPT {
            return false;
        }
        self.count_kept(account, at) >= MOST_KEPT
    }

    /// How many of the account's uploads are open at the moment: a walk over those of its uploads that wait for time.
    pub(crate) fn count_open(&self, account: Account, at: Moment) -> u64
        requires { self.now.latest ≤ at.second }
        ensures { result ≡ open_count (aged at.second (rows_in self.now)) account at.second }
    {
        let start = first_of(account);
        match next_account(account) {
            Some(next) => {
                let waiting = self.waits.until(&start, &first_of(next));
                count_open(waiting, &self.snaps, account, at)
            }
            None => count_open(self.waits.from(&start), &self.snaps, account, at),
        }
    }

    /// The account's rows from the number on, in ascending number.
    pub(crate) fn rows_from(&self, account: Account, from: u32) -> Filled<'_, SnapKey, KeptRow>
        ensures { (bin : Bool) (now : ℕ) → filter (is_listed bin account now from) result ≡ filter (is_listed bin account now from) (map.entries (full self.now.snaps)) }
    {
        let start = key_from(account, from);
        match next_account(account) {
            Some(next) => self.snaps.until(&start, &first_of(next)),
            None => self.snaps.from(&start),
        }
    }

    /// Makes room for a new upload. The rows stay.
    pub fn prepare_start(&mut self, key: &SnapKey) -> Result<(), AllocError>
        ensures rows { rows_in self.new ≡ rows_in self.old }
        ensures stale { (now : ℕ) → stale self.new now ≡ stale self.old now }
        ensures latest { self.new.latest ≡ self.old.latest }
        ensures tokens { self.new.tokens ≡ self.old.tokens }
        ensures books { self.new.books ≡ self.old.books }
        ensures room { OnOk result (CoversStart self.new (Some key.now)) }
    {
        self.snaps.prepare(*key)?;
        self.owns.prepare(key.account)?;
        self.waits.prepare(*key)
    }

    /// Makes room for a new snapshot of a volume. The rows stay.
    pub(crate) fn prepare_snap(&mut self, key: &SnapKey) -> Result<(), AllocError>
        ensures rows { rows_in self.new ≡ rows_in self.old }
        ensures stale { (now : ℕ) → stale self.new now ≡ stale self.old now }
        ensures latest { self.new.latest ≡ self.old.latest }
        ensures tokens { self.new.tokens ≡ self.old.tokens }
        ensures books { self.new.books ≡ self.old.books }
        ensures room { OnOk result (CoversSnap self.new (Some key.now)) }
        ensures others { (other : SnapKey) → CoversSnap self.old (Some other) → CoversSnap self.new (Some other) }
    {
        self.snaps.prepare(*key)?;
        self.owns.prepare(key.account)
    }

    /// Takes back the room for a new snapshot of a volume.
    pub(crate) fn release_snap(&mut self, key: &SnapKey)
        ensures rows { rows_in self.new ≡ rows_in self.old }
        ensures stale { (now : ℕ) → stale self.new now ≡ stale self.old now }
        ensures latest { self.new.latest ≡ self.old.latest }
        ensures tokens { self.new.tokens ≡ self.old.tokens }
        ensures books { self.new.books ≡ self.old.books }
        ensures free { FreeSnap self.new (Some key.now) }
        ensures others { (other : SnapKey) → FreeSnap self.old (Some other) → FreeSnap self.new (Some other) }
    {
        self.snaps.release(key);
        self.owns.release(&key.account);
    }

    /// Makes room for a new volume. The rows stay.
    pub(crate) fn prepare_volume(&mut self, key: &VolKey) -> Result<(), AllocError>
        ensures rows { rows_in self.new ≡ rows_in self.old }
        ensures stale { (now : ℕ) → stale self.new now ≡ stale self.old now }
        ensures latest { self.new.latest ≡ self.old.latest }
        ensures tokens { self.new.tokens ≡ self.old.tokens }
        ensures books { self.new.books ≡ self.old.books }
        ensures room { OnOk result (CoversVolume self.new (Some key.now)) }
    {
        self.vols.prepare(*key)?;
        self.owns.prepare(key.account)
    }

    /// Takes back the room for a new volume.
    pub(crate) fn release_volume(&mut self, key: &VolKey)
        ensures rows { rows_in self.new ≡ rows_in self.old }
        ensures stale { (now : ℕ) → stale self.new now ≡ stale self.old now }
        ensures latest { self.new.latest ≡ self.old.latest }
        ensures tokens { self.new.tokens ≡ self.old.tokens }
        ensures books { self.new.books ≡ self.old.books }
        ensures free { FreeVolume self.new (Some key.now) }
    {
        self.vols.release(key);
        self.owns.release(&key.account);
    }

    /// The volume's row. It stands at its key, and its size is one that an image can have.
    pub fn volume_at(&self, key: &VolKey) -> Option<&VolRow>
        ensures row { option_copied result ≡ map.get (rows_in self.now).vols key.now }
        ensures sound { (row : VolRow) → map.get (rows_in self.now).vols key.now ≡ Some row → IsSoundVolume key.now row }
    {
        self.vols.get(key)
    }

    /// The account's volumes, in ascending number.
    pub(crate) fn volumes_from(&self, account: Account) -> Filled<'_, VolKey, VolRow>
        ensures fits { length result < 2 ^ 63 }
        ensures values { (p : Policy) → filter (is_own_target account p) result ≡ filter (is_own_target account p) (map.entries (rows_in self.now).vols) }
    {
        let start = first_volume(account);
        match next_account(account) {
            Some(next) => self.vols.until(&start, &first_volume(next)),
            None => self.vols.from(&start),
        }
    }

    /// How many volumes the account has.
    pub(crate) fn volumes_of(&self, account: Account) -> u64
        ensures kept { result ≡ volumes_at (map.get (full self.now.owns) account) }
        ensures value { result ≡ volume_count (rows_in self.now) account }
    {
        let _ = &self.vols;
        match self.owns.get(&account) {
            Some(found) => found.volumes,
            None => 0,
        }
    }

    /// Makes room for a client token. The rows stay.
    pub(crate) fn prepare_token(&mut self, key: TokenKey) -> Result<(), AllocError>
        ensures rest { self.new ≡ record self.old { tokens = self.new.tokens } }
        ensures tokens { full self.new.tokens ≡ full self.old.tokens }
        ensures room { OnOk result (map.contains_key self.new.tokens key ≡ true) }
        ensures err { OnErr result (self.new.tokens ≡ self.old.tokens) }
    {
        self.tokens.prepare(key)
    }

    /// Takes back the room for a client token.
    pub(crate) fn release_token(&mut self, token: &Option<NewToken>)
        ensures rest { self.new ≡ record self.old { tokens = self.new.tokens } }
        ensures tokens { full self.new.tokens ≡ full self.old.tokens }
        ensures free { FreeToken self.new.tokens token.now }
    {
        if let Some(token) = token {
            self.tokens.release(&token.key);
        }
    }

    /// What the client token was used for.
    pub(crate) fn use_of(&self, key: &TokenKey) -> Option<&TokenRow>
        ensures { option_copied result ≡ map.get (rows_in self.now).tokens key.now }
    {
        self.tokens.get(key)
    }

    /// The account's client tokens, with what they were used for.
    pub(crate) fn tokens_from(&self, account: Account) -> Filled<'_, TokenKey, TokenRow>
        ensures { (text : List ℕ) → lookup (is_token account text) result ≡ map.get (rows_in self.now).tokens (record { account = account; text = text }) }
    {
        let start = first_token(self.alloc, account);
        match next_account(account) {
            Some(next) => self.tokens.until(&start, &first_token(self.alloc, next)),
            None => self.tokens.from(&start),
        }
    }

    /// How many client tokens the account has used.
    pub(crate) fn tokens_of(&self, account: Account) -> u64
        ensures kept { result ≡ tokens_at (map.get (full self.now.owns) account) }
        ensures value { result ≡ token_count (rows_in self.now) account }
    {
        let _ = &self.tokens;
        match self.owns.get(&account) {
            Some(found) => found.tokens,
            None => 0,
        }
    }

    /// Whether the client token would be one more.
    fn is_new(&self, token: &Option<NewToken>) -> bool
        ensures { result ≡ is_new (full self.now.tokens) token.now }
    {
        match token {
            Some(token) => !self.tokens.contains(&token.key),
            None => false,
        }
    }

    /// Makes room for an index in the row's put set. The rows stay.
    pub(crate) fn prepare_put(&mut self, key: &SnapKey, index: u32) -> Result<(), AllocError>
        ensures rows { rows_in self.new ≡ rows_in self.old }
        ensures stale { (now : ℕ) → stale self.new now ≡ stale self.old now }
        ensures latest { self.new.latest ≡ self.old.latest }
        ensures tokens { self.new.tokens ≡ self.old.tokens }
        ensures books { self.new.books ≡ self.old.books }
        ensures room { OnOk result (CoversIndex (map.get (full self.new.snaps) key.now) index) }
    {
        let Some(mut kept) = self.snaps.take(*key) else {
            return Ok(());
        };
        let done = kept.put.prepare(index);
        self.snaps.fill(*key, kept);
        done
    }

    /// Takes back the room for a new upload.
    pub(crate) fn release_start(&mut self, key: &SnapKey)
        ensures rows { rows_in self.new ≡ rows_in self.old }
        ensures stale { (now : ℕ) → stale self.new now ≡ stale self.old now }
        ensures latest { self.new.latest ≡ self.old.latest }
        ensures tokens { self.new.tokens ≡ self.old.tokens }
        ensures books { self.new.books ≡ self.old.books }
        ensures free { FreeStart self.new (Some key.now) }
    {
        self.snaps.release(key);
        self.owns.release(&key.account);
        self.waits.release(key);
    }

    /// Takes back the room for an index.
    pub(crate) fn release_put(&mut self, key: &SnapKey, index: u32)
        ensures rows { rows_in self.new ≡ rows_in self.old }
        ensures stale { (now : ℕ) → stale self.new now ≡ stale self.old now }
        ensures latest { self.new.latest ≡ self.old.latest }
        ensures tokens { self.new.tokens ≡ self.old.tokens }
        ensures books { self.new.books ≡ self.old.books }
        ensures free { FreeIndex (map.get (full self.new.snaps) key.now) index }
    {
        let Some(mut kept) = self.snaps.take(*key) else {
            return;
        };
        kept.put.release(index);
        self.snaps.fill(*key, kept);
    }

    /// The line of a new upload.
    fn line_of(&self, key: &SnapKey, parent: &Option<SnapKey>, at: Moment) -> Line
        ensures { result ≡ line_of (aged at.second (rows_in self.now)).snaps key.now parent.now }
    {
        if let Some(parent) = parent {
            if let Some(kept) = self.row_at(parent, at) {
                return kept.row.line;
            }
        }
        Line {
            of_volume: false,
            account: key.account,
            number: key.number,
        }
    }

    /// Adds the upload and its client token, which takes no memory.
    pub fn commit_start(
        &mut self,
        at: Moment,
        key: &SnapKey,
        size: u32,
        parent: Option<SnapKey>,
        description: Option<Text>,
        tags: Tags,
        timeout: u32,
        token: Option<NewToken>,
    )
        requires room { CoversStart self.old (Some key.now) }
        requires kept { CoversToken self.old.tokens token }
        requires owner { IsOf key.now.account token }
        requires size { is_size size ≡ true }
        requires timeout { is_timeout timeout ≡ true }
        requires moment { at.second ≤ 2 ^ 36 }
        ensures rows { rows_in self.new ≡ record (with_upload (rows_in self.old) key.now (started_row at key.now size parent (line_of (aged at.second (rows_in self.old)).snaps key.now parent) description tags timeout)) { tokens = with_new (rows_in self.old).tokens at key.now.number token } }
        ensures waits { full self.new.waits ≡ map.insert (full self.old.waits) key.now tt }
        ensures latest { self.new.latest ≡ self.old.latest }
    {
        let line = self.line_of(key, &parent, at);
        let own = self.own_after(key);
        let rows = self.rows_with(key);
        let again = !self.is_new(&token);
        let _most_tokens = self.tokens.ready_len();
        let tokens = more(self.tokens_of(key.account), again);
        let volumes = self.volumes_of(key.account);
        let row = upload_row(
            self.alloc,
            at,
            key,
            size,
            parent,
            line,
            description,
            tags,
            timeout,
        );
        let put = IndexSlots::new(self.alloc);
        self.snaps.fill(*key, KeptRow { row, put });
        let account = AccountRow {
            own,
            rows,
            volumes,
            tokens,
        };
        self.owns.fill(key.account, account);
        self.waits.fill(*key, ());
        keep_token(&mut self.tokens, at, key.number, token);
    }

    /// Adds the snapshot of a volume, where there is one, which takes no memory.
    pub(crate) fn commit_snap(
        &mut self,
        at: Moment,
        key: &SnapKey,
        volume: &VolKey,
        description: Option<Text>,
        tags: Tags,
    )
        requires room { CoversSnap self.old (Some key.now) }
        requires moment { at.second ≤ 2 ^ 36 }
        ensures rows { rows_in self.new ≡ with_snapped (rows_in self.old) at key.now volume.now description tags (map.get (rows_in self.old).vols volume.now) }
        ensures waits { full self.new.waits ≡ full self.old.waits }
        ensures latest { self.new.latest ≡ self.old.latest }
    {
        let Some(found) = self.volume_at(volume) else {
            return;
        };
        let row = snapped_row(self.alloc, at, key, volume, found, description, tags);
        self.add_row(row);
    }

    /// Adds the row of a new snapshot, which takes no memory. It is completed, so time never ends it.
    pub(crate) fn add_row(&mut self, row: SnapRow)
        requires room { CoversSnap self.old (Some row.key) }
        requires new { IsNew row }
        ensures rows { rows_in self.new ≡ with_upload (rows_in self.old) row.key row }
        ensures waits { self.new.waits ≡ self.old.waits }
        ensures latest { self.new.latest ≡ self.old.latest }
        ensures others { (other : SnapKey) → CoversSnap self.old (Some other) → CoversSnap self.new (Some other) }
    {
        let key = row.key;
        let added = row;
        let own = self.own_after(&key);
        let rows = self.rows_with(&key);
        let volumes = self.volumes_of(key.account);
        let tokens = self.tokens_of(key.account);
        let put = IndexSlots::new(self.alloc);
        self.snaps.fill(key, KeptRow { row: added, put });
        let account = AccountRow {
            own,
            rows,
            volumes,
            tokens,
        };
        self.owns.fill(key.account, account);
    }

    /// Takes the policy from the snapshot, where it is there.
    pub(crate) fn free(&mut self, key: &SnapKey)
        ensures rows { rows_in self.new ≡ with_row (rows_in self.old) key.now freed }
        ensures waits { self.new.waits ≡ self.old.waits }
        ensures latest { self.new.latest ≡ self.old.latest }
    {
        let Some(mut kept) = self.snaps.take(*key) else {
            return;
        };
        kept.row.policy = None;
        self.snaps.fill(*key, kept);
    }

    /// The line of a new volume.
    fn volume_line(&self, key: &VolKey, origin: &Option<SnapKey>, at: Moment) -> Line
        ensures { result ≡ volume_line (aged at.second (rows_in self.now)).snaps key.now origin.now }
    {
        if let Some(origin) = origin {
            if let Some(kept) = self.row_at(origin, at) {
                return kept.row.line;
            }
        }
        Line {
            of_volume: true,
            account: key.account,
            number: key.number,
        }
    }

    /// Adds the volume and its client token, which takes no memory.
    pub(crate) fn commit_create(
        &mut self,
        at: Moment,
        key: &VolKey,
        origin: Option<SnapKey>,
        size: u32,
        tags: Tags,
        token: Option<NewToken>,
    )
        requires room { CoversVolume self.old (Some key.now) }
        requires kept { CoversToken self.old.tokens token }
        requires owner { IsOf key.now.account token }
        requires size { is_size size ≡ true }
        ensures rows { rows_in self.new ≡ record (with_volume (rows_in self.old) key.now (record { key = key.now; size = size; line = volume_line (aged at.second (rows_in self.old)).snaps key.now origin; origin = origin; tags = tags })) { tokens = with_new (rows_in self.old).tokens at key.now.number token } }
        ensures stale { (now : ℕ) → stale self.new now ≡ stale self.old now }
        ensures latest { self.new.latest ≡ self.old.latest }
    {
        let line = self.volume_line(key, &origin, at);
        let mut own = self.own_of(key.account);
        own.next_vol = key.number.number() + 1;
        let known = self.vols.contains(key);
        let _most = self.vols.ready_len();
        let volumes = more(self.volumes_of(key.account), known);
        let again = !self.is_new(&token);
        let _most_tokens = self.tokens.ready_len();
        let tokens = more(self.tokens_of(key.account), again);
        let rows = self.rows_of(key.account);
        let row = VolRow {
            key: *key,
            size,
            line,
            origin,
            tags,
        };
        self.vols.fill(*key, row);
        let account = AccountRow {
            own,
            rows,
            volumes,
            tokens,
        };
        self.owns.fill(key.account, account);
        keep_token(&mut self.tokens, at, key.number, token);
    }

    /// Takes the volume out, which takes no memory.
    pub(crate) fn commit_drop(&mut self, key: &VolKey)
        ensures rows { rows_in self.new ≡ commit_drop (rows_in self.old) key.now }
        ensures stale { (now : ℕ) → stale self.new now ≡ stale self.old now }
        ensures latest { self.new.latest ≡ self.old.latest }
    {
        let Some(_gone) = self.vols.remove(key) else {
            return;
        };
        one_volume_less(&mut self.owns, key.account);
    }

    /// The policy with this key. It stands at its key, and its schedule and its retention are within their limits.
    pub fn policy_at(&self, key: &PolicyKey) -> Option<&Policy>
        ensures value { option_copied result ≡ map.get (rows_in self.now).policies key.now }
        ensures sound { (p : Policy) → map.get (rows_in self.now).policies key.now ≡ Some p → IsSound key.now p }
    {
        self.policies.get(key)
    }

    /// All policies, in ascending account and then number.
    pub fn policies(&self) -> Result<Ids, AllocError>
        ensures { IfOk result (λ ids. ids ≡ list_map (λ (e : PolicyKey × Policy). any.Policy e.0) (map.entries (rows_in self.now).policies)) }
    {
        self.policies.ids(self.alloc)
    }

    /// How many policies the account has.
    pub(crate) fn policies_of(&self, account: Account) -> u64
        ensures { result ≡ policy_count (rows_in self.now) account }
    {
        self.policies.count(account)
    }

    /// Makes room for a new policy. The rows stay.
    pub(crate) fn prepare_policy(&mut self, key: &PolicyKey) -> Result<(), AllocError>
        ensures rows { rows_in self.new ≡ rows_in self.old }
        ensures stale { (now : ℕ) → stale self.new now ≡ stale self.old now }
        ensures latest { self.new.latest ≡ self.old.latest }
        ensures tokens { self.new.tokens ≡ self.old.tokens }
        ensures books { self.new.books ≡ self.old.books }
        ensures room { OnOk result (CoversPolicy self.new (Some key.now)) }
    {
        self.policies.prepare(key)?;
        self.owns.prepare(key.account)
    }

    /// Takes back the room for a new policy.
    pub(crate) fn release_policy(&mut self, key: &PolicyKey)
        ensures rows { rows_in self.new ≡ rows_in self.old }
        ensures stale { (now : ℕ) → stale self.new now ≡ stale self.old now }
        ensures latest { self.new.latest ≡ self.old.latest }
        ensures tokens { self.new.tokens ≡ self.old.tokens }
        ensures books { self.new.books ≡ self.old.books }
        ensures free { FreePolicy self.new (Some key.now) }
    {
        self.policies.release(key);
        self.owns.release(&key.account);
    }

    /// Adds the policy, which takes no memory.
    pub(crate) fn commit_policy(&mut self, policy: Policy)
        requires room { CoversPolicy self.old (Some policy.key) }
        requires sound { IsSound policy.key policy }
        ensures rows { rows_in self.new ≡ with_new_policy (rows_in self.old) policy.key policy }
        ensures stale { (now : ℕ) → stale self.new now ≡ stale self.old now }
        ensures latest { self.new.latest ≡ self.old.latest }
    {
        let key = policy.key;
        let kept = policy;
        let mut own = self.own_of(key.account);
        own.next_policy = key.number.number() + 1;
        let rows = self.rows_of(key.account);
        let volumes = self.volumes_of(key.account);
        let tokens = self.tokens_of(key.account);
        let account = AccountRow {
            own,
            rows,
            volumes,
            tokens,
        };
        self.owns.fill(key.account, account);
        self.policies.create(kept);
    }

    /// Takes the policy out. Its snapshots stay.
    pub(crate) fn drop_policy(&mut self, key: &PolicyKey)
        ensures rows { rows_in self.new ≡ commit_drop_policy (rows_in self.old) key.now }
        ensures stale { (now : ℕ) → stale self.new now ≡ stale self.old now }
        ensures latest { self.new.latest ≡ self.old.latest }
    {
        self.policies.delete(key);
    }

    /// The policy ran at the moment.
    pub(crate) fn set_last(&mut self, key: &PolicyKey, at: Moment)
        ensures rows { rows_in self.new ≡ record (rows_in self.old) { policies = with_last (rows_in self.old).policies key.now at (map.get (rows_in self.old).policies key.now) } }
        ensures stale { (now : ℕ) → stale self.new now ≡ stale self.old now }
        ensures latest { self.new.latest ≡ self.old.latest }
    {
        self.policies.set_last(key, at);
    }

    /// How many rows of the account stand in the table, those that time has ended among them.
    fn rows_of(&self, account: Account) -> u64
        ensures { result ≡ rows_at (map.get (full self.now.owns) account) }
    {
        match self.owns.get(&account) {
            Some(found) => found.rows,
            None => 0,
        }
    }

    /// What the account has once the snapshot is made.
    fn own_after(&self, key: &SnapKey) -> Own
        ensures { result ≡ record (own_of (rows_in self.now) key.now.account) { next_snap = key.now.number + 1 } }
    {
        let mut own = self.own_of(key.account);
        own.next_snap = key.number.number() + 1;
        own
    }

    /// How many rows of the account stand in the table with the snapshot's.
    fn rows_with(&self, key: &SnapKey) -> u64
        ensures { result ≡ (if map.contains_key (full self.now.snaps) key.now then rows_at (map.get (full self.now.owns) key.now.account) else rows_at (map.get (full self.now.owns) key.now.account) + 1) }
    {
        let known = self.snaps.contains(key);
        let _most = self.snaps.ready_len();
        more(self.rows_of(key.account), known)
    }

    /// Marks the index as put, which takes no memory.
    pub(crate) fn commit_put(&mut self, at: Moment, key: &SnapKey, index: u32)
        requires room { HasIndex (map.get (full self.old.snaps) key.now) index }
        requires waits { map.contains_key (full self.old.waits) key.now ≡ true }
        ensures rows { rows_in self.new ≡ commit_put (rows_in self.old) at key.now index }
        ensures waits { full self.new.waits ≡ full self.old.waits }
        ensures latest { self.new.latest ≡ self.old.latest }
    {
        let Some(mut kept) = self.snaps.take(*key) else {
            return;
        };
        kept.put.fill(index, ());
        kept.row.last = at;
        self.snaps.fill(*key, kept);
    }

    /// Marks the upload as completed.
    pub(crate) fn commit_complete(&mut self, key: &SnapKey)
        ensures rows { rows_in self.new ≡ commit_complete (rows_in self.old) key.now }
        ensures waits { full self.new.waits ≡ map.remove (full self.old.waits) key.now }
        ensures latest { self.new.latest ≡ self.old.latest }
    {
        self.waits.remove(key);
        let Some(mut kept) = self.snaps.take(*key) else {
            return;
        };
        kept.row.completed = true;
        kept.put = IndexSlots::new(self.alloc);
        self.snaps.fill(*key, kept);
    }

    /// Shares the snapshot with these accounts, which takes no memory.
    pub(crate) fn commit_permission(
        &mut self,
        key: &SnapKey,
        shared: Accounts,
        add_all: bool,
        remove_all: bool,
    )
        ensures rows { rows_in self.new ≡ with_row (rows_in self.old) key.now (shared_row shared add_all remove_all) }
        ensures waits { full self.new.waits ≡ full self.old.waits }
        ensures latest { self.new.latest ≡ self.old.latest }
    {
        let Some(mut kept) = self.snaps.take(*key) else {
            return;
        };
        kept.row.shared = shared;
        kept.row.public = is_public(kept.row.public, add_all, remove_all);
        self.snaps.fill(*key, kept);
    }

    /// Changes the snapshot's lock or tier, which takes no memory.
    pub(crate) fn commit_alteration(&mut self, at: Moment, key: &SnapKey, alteration: Alteration)
        requires moment { at.second ≤ 2 ^ 36 }
        ensures rows { rows_in self.new ≡ with_row (rows_in self.old) key.now (altered_row at alteration) }
        ensures waits { full self.new.waits ≡ full self.old.waits }
        ensures latest { self.new.latest ≡ self.old.latest }
    {
        let Some(mut kept) = self.snaps.take(*key) else {
            return;
        };
        kept.row.lock = lock_after(kept.row.lock, alteration, at);
        kept.row.tier = tier_after(kept.row.tier, alteration, at);
        self.snaps.fill(*key, kept);
    }

    /// Takes the snapshot out, which takes no memory.
    pub(crate) fn remove(&mut self, key: &SnapKey)
        ensures rows { rows_in self.new ≡ removed (rows_in self.old) key.now }
        ensures waits { full self.new.waits ≡ map.remove (full self.old.waits) key.now }
        ensures latest { self.new.latest ≡ self.old.latest }
        ensures others { (other : SnapKey) → is_key other key.now ≡ false → map.contains_key self.old.waits other ≡ true → map.contains_key self.new.waits other ≡ true }
    {
        self.waits.remove(key);
        let Some(_gone) = self.snaps.remove(key) else {
            return;
        };
        one_row_less(&mut self.owns, key.account);
    }

    /// Makes a deleted snapshot ready to wait for the end of its stay in the bin. The rows stay.
    pub(crate) fn prepare_wait(&mut self, key: &SnapKey) -> Result<(), AllocError>
        ensures rows { rows_in self.new ≡ rows_in self.old }
        ensures stale { (now : ℕ) → stale self.new now ≡ stale self.old now }
        ensures latest { self.new.latest ≡ self.old.latest }
        ensures tokens { self.new.tokens ≡ self.old.tokens }
        ensures books { self.new.books ≡ self.old.books }
        ensures room { OnOk result (map.contains_key self.new.waits key.now ≡ true) }
        ensures rest { self.new ≡ record self.old { waits = self.new.waits } }
        ensures others { (other : SnapKey) → map.contains_key self.old.waits other ≡ true → map.contains_key self.new.waits other ≡ true }
    {
        self.waits.prepare(*key)
    }

    /// Takes back the room for a deleted snapshot.
    pub(crate) fn release_wait(&mut self, key: &SnapKey)
        ensures rows { rows_in self.new ≡ rows_in self.old }
        ensures stale { (now : ℕ) → stale self.new now ≡ stale self.old now }
        ensures latest { self.new.latest ≡ self.old.latest }
        ensures tokens { self.new.tokens ≡ self.old.tokens }
        ensures books { self.new.books ≡ self.old.books }
        ensures free { map.contains_key self.new.waits key.now ≡ map.contains_key (full self.new.waits) key.now }
        ensures rest { self.new ≡ record self.old { waits = self.new.waits } }
        ensures others { (other : SnapKey) → map.contains_key self.old.waits other ≡ map.contains_key (full self.old.waits) other → map.contains_key self.new.waits other ≡ map.contains_key (full self.new.waits) other }
    {
        self.waits.release(key);
    }

    /// How many days the snapshot stays in the bin once it is deleted.
    pub(crate) fn days_in_bin(&self, key: &SnapKey) -> Option<u32>
        ensures value { result ≡ days_at (rows_in self.now) key.now (map.get (rows_in self.now).snaps key.now) }
        ensures lasts { IfSome result (λ days. 1 ≤ days) }
    {
        let Some(kept) = self.snaps.get(key) else {
            return None;
        };
        if !kept.row.completed {
            return None;
        }
        let none = Rules::new(self.alloc, key.account, 0);
        self.rules_or(key.account, &none)
            .retention_for(&kept.row.tags)
    }

    /// Puts the completed snapshot into the bin for so many days, which takes no memory.
    pub(crate) fn put_in_bin(&mut self, at: Moment, key: &SnapKey, days: u32)
        requires moment { at.second ≤ 2 ^ 36 }
        requires room { map.contains_key self.old.waits key.now ≡ true }
        requires completed { (row : SnapRow) → map.get (rows_in self.old).snaps key.now ≡ Some row → row.completed ≡ true }
        ensures rows { rows_in self.new ≡ with_row (rows_in self.old) key.now (binned_row at days) }
        ensures waits { full self.new.waits ≡ map.insert (full self.old.waits) key.now tt }
        ensures latest { self.new.latest ≡ self.old.latest }
        ensures others { (other : SnapKey) → map.contains_key self.old.waits other ≡ true → map.contains_key self.new.waits other ≡ true }
    {
        self.waits.fill(*key, ());
        let Some(mut kept) = self.snaps.take(*key) else {
            return;
        };
        kept.row.bin_end = Some(bin_end(at, days));
        self.snaps.fill(*key, kept);
    }

    /// Takes the completed snapshot from the bin.
    pub(crate) fn take_from_bin(&mut self, key: &SnapKey)
        requires completed { (row : SnapRow) → map.get (rows_in self.old).snaps key.now ≡ Some row → row.completed ≡ true }
        ensures rows { rows_in self.new ≡ with_row (rows_in self.old) key.now recovered }
        ensures waits { full self.new.waits ≡ map.remove (full self.old.waits) key.now }
        ensures latest { self.new.latest ≡ self.old.latest }
    {
        self.waits.remove(key);
        let Some(mut kept) = self.snaps.take(*key) else {
            return;
        };
        kept.row.bin_end = None;
        self.snaps.fill(*key, kept);
    }

    /// Each rule keeps what it matches for a day at least.
    pub fn keeps_days(&self)
        ensures { KeepsDays (rows_in self.now).books }
    {
        let _ = &self.books;
    }

    /// The account's rules, or none of its own.
    pub(crate) fn rules_or<'a>(&'a self, account: Account, none: &'a Rules) -> &'a Rules
        requires owner { none.now.account ≡ account }
        requires none { book none.now ≡ no_rules 0 }
        ensures owner { result.now.account ≡ account }
        ensures rules { book result.now ≡ book_of (rows_in self.now) account }
    {
        match self.books.get(&account) {
            Some(rules) => rules,
            None => none,
        }
    }

    /// Makes room for the change of the account's rules.
    pub(crate) fn prepare_shelf(
        &mut self,
        account: Account,
        change: RuleChange,
    ) -> Result<RuleRoom, AllocError>
        ensures rest { self.new ≡ record self.old { books = self.new.books } }
        ensures rows { rows_in self.new ≡ rows_in self.old }
        ensures room { IfOk result (λ room. (room.change ≡ change) × HasShelf self.new account room) }
        ensures err { OnErr result (self.new.books ≡ self.old.books) }
    {
        let Some(mut rules) = self.books.take(account) else {
            return self.prepare_fresh(account, change);
        };
        let done = rules.prepare(&change);
        self.books.fill(account, rules);
        done?;
        Ok(RuleRoom {
            change,
            fresh: None,
        })
    }

    /// Makes room for the first rules of an account.
    fn prepare_fresh(
        &mut self,
        account: Account,
        change: RuleChange,
    ) -> Result<RuleRoom, AllocError>
        requires { map.get (full self.old.books) account ≡ None }
        ensures rest { self.new ≡ record self.old { books = self.new.books } }
        ensures rows { rows_in self.new ≡ rows_in self.old }
        ensures room { IfOk result (λ room. (room.change ≡ change) × HasShelf self.new account room) }
        ensures err { OnErr result (self.new.books ≡ self.old.books) }
    {
        let mut rules = Rules::new(self.alloc, account, 0);
        rules.prepare(&change)?;
        self.books.prepare(account)?;
        Ok(RuleRoom {
            change,
            fresh: Some(rules),
        })
    }

    /// Takes back the room for a change of the account's rules.
    pub(crate) fn release_rules(&mut self, account: Account, rules: &Option<RuleRoom>)
        ensures rest { self.new ≡ record self.old { books = self.new.books } }
        ensures rows { rows_in self.new ≡ rows_in self.old }
        ensures free { IsRuleFree self.new.books account rules.now }
    {
        let Some(room) = rules else {
            return;
        };
        let Some(mut kept) = self.books.take(account) else {
            self.books.release(&account);
            return;
        };
        kept.release(&room.change);
        self.books.fill(account, kept);
    }

    /// Changes the account's rules, which takes no memory.
    pub(crate) fn commit_shelf(&mut self, account: Account, room: RuleRoom)
        requires room { HasShelf self.old account room }
        requires days { HasDays (committed (book_of (rows_in self.old) account) room.change) }
        ensures rows { rows_in self.new ≡ record (rows_in self.old) { books = map.insert (rows_in self.old).books account (committed (book_of (rows_in self.old) account) room.change) } }
        ensures rest { self.new ≡ record self.old { books = self.new.books } }
    {
        let RuleRoom { change, fresh } = room;
        let taken = self.books.take(account);
        let Some(mut rules) = kept_or(taken, fresh) else {
            return;
        };
        rules.commit(change);
        self.books.fill(account, rules);
    }

    /// A row's size is one that an image can have, it was started at a moment of the store, an upload has a timeout, and what is
    /// in the bin is completed.
    pub(crate) fn limits(&self, key: &SnapKey)
        ensures { (row : SnapRow) → map.get (rows_in self.now).snaps key.now ≡ Some row → HasLimits row }
    {
        let _known = self.snaps.contains(key);
    }

    /// Each volume stands at its key, and its size is one that an image can have.
    pub(crate) fn volume_limits(&self)
        ensures { AreSoundVolumes (rows_in self.now).vols }
    {
        let _ = &self.alloc;
    }

    /// Each row was started at a moment of the store.
    pub(crate) fn starts(&self)
        ensures { (key : SnapKey) (row : SnapRow) → map.get (rows_in self.now).snaps key ≡ Some row → row.start.second ≤ 2 ^ 36 }
    {
        let _ = &self.alloc;
    }

    /// An upload that is open at the moment waits for time.
    pub(crate) fn awaits(&self, key: &SnapKey, at: Moment)
        requires { self.now.latest ≤ at.second }
        ensures { (row : SnapRow) → map.get (rows_in self.now).snaps key.now ≡ Some row → is_pending (status_at row at.second) ≡ true → map.contains_key (full self.now.waits) key.now ≡ true }
    {
        let _known = self.snaps.contains(key);
    }

    fn is_ended(&self, key: &SnapKey, now: Moment) -> bool
        ensures { result ≡ is_ended now.second (map.get (rows_in self.now).snaps key.now) }
    {
        match self.snaps.get(key) {
            Some(kept) => is_row_ended(kept, now),
            None => false,
        }
    }

    /// The least snapshot that time has ended by the moment, or whose upload it failed, and that isn't given up.
    pub fn next_ended(&self, now: Moment) -> Option<SnapKey>
        ensures { result ≡ slice_get (stale self.now now.second) 0 }
    {
        for (key, _) in self.waits.from(&first_of(Account::new(0))) {
            if self.is_ended(key, now) {
                return Some(*key);
            }
        }
        None
    }

    /// Gives up what time has ended: the row, or the put set of a failed upload.
    pub fn end(&mut self, key: &SnapKey, now: Moment)
        requires later { self.old.latest ≤ now.second }
        requires next { slice_get (stale self.old now.second) 0 ≡ Some key.now }
        ensures rows { aged now.second (rows_in self.new) ≡ aged now.second (rows_in self.old) }
        ensures stale { (moment : ℕ) → stale self.new moment ≡ filter (λ other. not (is_key other key.now)) (stale self.old moment) }
        ensures gone { HasNoPut (map.get (rows_in self.new).snaps key.now) }
        ensures latest { self.new.latest ≡ now.second }
    {
        self.latest = now;
        self.waits.remove(key);
        let Some(mut kept) = self.snaps.take(*key) else {
            return;
        };
        if stays(&kept.row, now) {
            kept.put = IndexSlots::new(self.alloc);
            self.snaps.fill(*key, kept);
        } else {
            self.snaps.release(key);
            one_row_less(&mut self.owns, key.account);
        }
    }
}

/// Whether time has ended the row, or failed its upload.
fn is_row_ended(kept: &KeptRow, now: Moment) -> bool
    ensures { result ≡ held.is_ended now.second (Some (held.whole kept.now)) }
{
    !stays(&kept.row, now) || status_at(&kept.row, now) == RowStatus::Failed
}

/// The account's rules, or the ones that were made for it.
fn kept_or(kept: Option<Rules>, fresh: Option<Rules>) -> Option<Rules>
    ensures { result ≡ rooms.kept_or kept fresh }
{
    match kept {
        Some(rules) => Some(rules),
        None => fresh,
    }
}

/// One more, or the same.
fn more(rows: u64, known: bool) -> u64
    requires { rows < 2 ^ 63 }
    ensures { result ≡ (if known then rows else rows + 1) }
{
    if known { rows } else { rows + 1 }
}

/// Keeps what the client token was used for, which takes no memory.
fn keep_token(
    tokens: &mut Slots<TokenKey, TokenRow>,
    at: Moment,
    number: KeyNumber,
    token: Option<NewToken>,
)
    requires { held.CoversToken (slots.slots_of token_cmp tokens.old) token }
    ensures { slots.held token_cmp tokens.new ≡ with_new (slots.held token_cmp tokens.old) at number token }
{
    if let Some(NewToken { key, first }) = token {
        tokens.fill(key, TokenRow { at, first, number });
    }
}

/// Takes one off the number of the account's rows.
fn one_row_less(owns: &mut Slots<Account, AccountRow>, account: Account)
    requires { 1 ≤ rows_at (map.get (slots.held nat_cmp owns.old) account) }
    ensures { IsOneLess (slots.held nat_cmp owns.old) (slots.held nat_cmp owns.new) account }
{
    let Some(mut found) = owns.take(account) else {
        return;
    };
    found.rows -= 1;
    owns.fill(account, found);
}

/// Takes one off the number of the account's volumes.
fn one_volume_less(owns: &mut Slots<Account, AccountRow>, account: Account)
    requires { 1 ≤ volumes_at (map.get (slots.held nat_cmp owns.old) account) }
    ensures { IsVolumeLess (slots.held nat_cmp owns.old) (slots.held nat_cmp owns.new) account }
{
    let Some(mut found) = owns.take(account) else {
        return;
    };
    found.volumes -= 1;
    owns.fill(account, found);
}

fn no_own() -> Own
    ensures { result ≡ rows.no_own }
{
    Own {
        next_snap: 0,
        next_vol: 0,
        next_policy: 0,
    }
}

fn first_of(account: Account) -> SnapKey
    ensures { result ≡ record { account = account; number = 0 } }
{
    SnapKey {
        account,
        number: KeyNumber::new(0),
    }
}

fn first_volume(account: Account) -> VolKey
    ensures { result ≡ record { account = account; number = 0 } }
{
    VolKey {
        account,
        number: KeyNumber::new(0),
    }
}

/// The key below the account's client tokens, which takes no memory.
fn first_token(alloc: Global, account: Account) -> TokenKey
    ensures { result ≡ record { account = account; text = [] } }
{
    TokenKey {
        account,
        text: Text::from_string(String::new(alloc)),
    }
}

/// The account's key of the number, or of the last one that a key can have.
fn key_from(account: Account, from: u32) -> SnapKey
    ensures account { result.account ≡ account }
    ensures number { result.number ≤ from }
{
    SnapKey {
        account,
        number: KeyNumber::new(from.min(MOST_IDS - 1)),
    }
}

fn next_account(account: Account) -> Option<Account>
    ensures { IfSome result (λ next. next ≡ account + 1) }
{
    let number = account.number();
    if number < 999_999_999_999 {
        Some(Account::new(number + 1))
    } else {
        None
    }
}

fn upload_row(
    alloc: Global,
    at: Moment,
    key: &SnapKey,
    size: u32,
    parent: Option<SnapKey>,
    line: Line,
    description: Option<Text>,
    tags: Tags,
    timeout: u32,
) -> SnapRow
    ensures { result ≡ started_row at key.now size parent line description tags timeout }
{
    SnapRow {
        key: *key,
        size,
        line,
        parent,
        volume: None,
        policy: None,
        start: at,
        timeout,
        last: at,
        completed: false,
        put: Indexes::new(alloc),
        description,
        tags,
        shared: Accounts::new(alloc),
        public: false,
        lock: LockState::None,
        tier: Tier::Standard,
        bin_end: None,
    }
}
