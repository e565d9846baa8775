// RunPolicy: what a run makes and gives up, and what becomes of rows by it.
ghost use Rattle.std.specs.Prelude.{◌≡◌, ◌+◌, ◌++◌, ◌<◌, ◌≤◌, ◌^◌, List, map as list_map, length, nat_lt, true, false, IfOk, OnOk};
ghost use Rattle.std.specs.List.{filter, count_by};
ghost use Rattle.std.specs.List.Sorted.{IsPermutation};
ghost use Rattle.std.specs.FinMap as map;
ghost use Rattle.ebs_model.specs.declared.keys.AnyKey.TheVariants.{Snap, Vol};
ghost use Rattle.ebs_model.specs.declared.keys.SnapKey.{SnapKey};
ghost use Rattle.ebs_model.specs.declared.keys.VolKey.{VolKey};
ghost use Rattle.ebs_model.specs.declared.rows.VolRow.{VolRow};
ghost use Rattle.ebs_model.specs.Limits.{is_retain};
ghost use Rattle.ebs_model.specs.Policies as policies;
ghost use Rattle.ebs_model.specs.Retention.{is_ended, is_released};
ghost use Rattle.ebs_model.specs.Calls.Run.{new_keys, run_row};
ghost use Rattle.ebs_tables.specs.Seen.{seen};
ghost use Rattle.ebs_model.specs.Keys.{vol_cmp};
ghost use Rattle.ebs_lifecycle.specs.Retention as lifecycle;
ghost use Rattle.ebs_catalog.specs.Runs as runs;

use crate::catalog::Catalog;
use crate::decides::quota;
use crate::rooms::Room;
use crate::rows::{KeptRow, SnapRows};
use crate::shows::is_ahead;
use crate::snapped::snapped_row;
use ebs_lifecycle::{Picked, due, to_delete};
use ebs_model::{
    Account, Answer, AnyKey, Change, Decision, Failure, Ids, KeyNumber, Kind, MOST_IDS, MOST_KEPT,
    Made, Moment, Policy, PolicyKey, QuotaName, Refusal, Request, SnapKey, SnapRow, Tag, Tags,
    Tier, VolKey, VolRow, copy_tags, lock_until, stays,
};
use ebs_tables::{Filled, Sequence, Table};
use std::alloc::{AllocError, Global};

/// The snapshots that a policy made, by volume.
type Groups = Table<VolKey, Sequence<Made>>;

impl Catalog {
    ghost use Rattle.std.specs.Prelude.{◌≡◌, ◌+◌, ◌≤◌, ◌^◌, ℕ, List, length, not, true, false, Some, IfOk, OnOk};
    ghost use Rattle.std.specs.List.{filter};
    ghost use Rattle.std.specs.FinMap as map;
    ghost use Rattle.std.specs.Prelude.{map as list_map};
    ghost use Rattle.ebs_model.specs.declared.keys.AnyKey.{AnyKey};
    ghost use Rattle.ebs_model.specs.declared.keys.AnyKey.TheVariants.{Snap, Vol};
    ghost use Rattle.ebs_model.specs.declared.keys.SnapKey.{SnapKey};
    ghost use Rattle.ebs_model.specs.declared.keys.VolKey.{VolKey};
    ghost use Rattle.ebs_tables.specs.Seen.{seen};
    ghost use Rattle.ebs_tables.specs.Full.{full};
    ghost use Rattle.ebs_model.specs.Keys.{vol_cmp};
    ghost use Rattle.ebs_model.specs.inner.Follows.{Agrees};
    ghost use Rattle.ebs_model.specs.Quotas.{most_ids};
    ghost use Rattle.ebs_model.specs.inner.Rows.{aged};
    ghost use Rattle.ebs_model.specs.Decide.{commit};
    ghost use Rattle.ebs_model.specs.Policies.{of_volume, managed};
    ghost use Rattle.ebs_model.specs.Calls.Start.{next_key};
    ghost use Rattle.ebs_model.specs.Calls.Run.{due_targets, new_keys, made_rows, run_ended, run_released, run_decided, decide_run, with_freed, with_deleted};
    ghost use Rattle.std.specs.Prelude.{unwrap_or, [], ◌++◌};
    ghost use Rattle.ebs_model.specs.declared.keys.PolicyKey.{PolicyKey};
    ghost use Rattle.ebs_model.specs.declared.request.Request.TheVariants as ask;
    ghost use Rattle.ebs_policies.specs.Table.{IsSound, with_last};
    ghost use Rattle.ebs_catalog.specs.Held.{rows_in, stale, is_about, IsDecided};
    ghost use Rattle.ebs_catalog.specs.PolicyCalls as calls;
    ghost use Rattle.ebs_catalog.specs.PolicyCalls.{is_run, is_id, is_among};
    ghost use Rattle.ebs_catalog.specs.Rooms.{IsReady, CoversOne, CoversMade, CoversWait, CoversEnded, FreeOne, FreeMade, FreeWait, FreeEnded};
    ghost use Rattle.ebs_catalog.specs.Runs.{check_quotas, group, with_rows, snap_of, snaps_of, CoversRows, AreNew, AreThere, AreDistinct};
    ghost use Rattle.ebs_catalog.specs.Wants.{OnMemory, IsSettled};

    /// Whether the policy runs, and what it makes and gives up then. All that it makes is counted before anything.
    pub(crate) fn decide_run(
        &self,
        account: Account,
        at: Moment,
        key: &PolicyKey,
    ) -> Result<Decision, Failure>
        requires moment { at.second ≤ 2 ^ 36 }
        ensures decided { Agrees result (decide_run (aged at.second (rows_in self.now)) at account key.now) }
        ensures memory { OnMemory result (IsSettled (decide_run (aged at.second (rows_in self.now)) at account key.now)) }
    {
        let Some(policy) = self.the_policy(account, key) else {
            return Err(Failure::Refused(Refusal::NotFound(Kind::Policy)));
        };
        let more = self.count_due(key, policy, at);
        if let Err(refusal) = self.check_quotas(account, at, more) {
            return Err(Failure::Refused(refusal));
        }
        let decision = self.run_decided(account, at, key, policy)?;
        Ok(decision)
    }

    /// Whether so many snapshots more fit into the account's quotas.
    fn check_quotas(&self, account: Account, at: Moment, more: u64) -> Result<(), Refusal>
        ensures { result ≡ check_quotas (aged at.second (rows_in self.now)) account more }
    {
        let number = self.own_of(account).next_snap;
        if is_over(self.count_kept(account, at), more, MOST_KEPT) {
            return Err(quota(QuotaName::Snapshots, MOST_KEPT));
        }
        if is_over(u64::from(number), more, u64::from(MOST_IDS)) {
            return Err(quota(QuotaName::Ids, u64::from(MOST_IDS)));
        }
        Ok(())
    }

    /// How many snapshots the policy makes at the moment: a walk over the account's volumes alone.
    fn count_due(&self, key: &PolicyKey, policy: &Policy, at: Moment) -> u64
        requires { IsSound key.now policy.now }
        ensures { result ≡ length (due_targets (rows_in self.now) key.now policy.now at.second) }
    {
        match due(policy, policy.last, at) {
            Some(_) => count_targets(self.volumes_from(key.account), key.account, policy),
            None => 0,
        }
    }

    /// The volumes that it makes them of, in ascending id.
    fn due_sources(&self, key: &PolicyKey, policy: &Policy, at: Moment) -> Result<Ids, AllocError>
        requires { IsSound key.now policy.now }
        ensures { IfOk result (λ ids. ids ≡ list_map (λ e. Vol e.0) (due_targets (rows_in self.now) key.now policy.now at.second)) }
    {
        match due(policy, policy.last, at) {
            Some(_) => {
                let volumes = self.volumes_from(key.account);
                targets_of(self.alloc(), volumes, key.account, policy)
            }
            None => Ok(Ids::new(self.alloc())),
        }
    }

    /// What a run within its quotas does, and answers.
    fn run_decided(
        &self,
        account: Account,
        at: Moment,
        key: &PolicyKey,
        policy: &Policy,
    ) -> Result<Decision, AllocError>
        requires moment { at.second ≤ 2 ^ 36 }
        requires owner { account ≡ key.now.account }
        requires sound { IsSound key.now policy.now }
        requires numbers { (next_key (rows_in self.now) account).number + length (due_targets (rows_in self.now) key.now policy.now at.second) ≤ most_ids }
        ensures { IfOk result (λ decision. decision ≡ run_decided (aged at.second (rows_in self.now)) at account key.now policy.now) }
    {
        let alloc = self.alloc();
        let first = self.own_of(account).next_snap;
        let sources = self.due_sources(key, policy, at)?;
        let made = new_ids(alloc, account, first, sources.len() as u32)?;
        let picked = self.given_up(at, key, policy, &made, &sources)?;
        let answer = Answer::PolicyRan {
            deleted: copy_ids(alloc, &picked.ended)?,
            made: copy_ids(alloc, &made)?,
        };
        let request = Request::RunPolicy { key: *key };
        let mut change = self.change(account, at, request, made);
        change.sources = sources;
        change.ended = picked.ended;
        change.released = picked.released;
        Ok(Decision::Change(change, answer))
    }

    /// What it gives up, with what the run makes among what is counted.
    fn given_up(
        &self,
        at: Moment,
        key: &PolicyKey,
        policy: &Policy,
        made: &Ids,
        sources: &Ids,
    ) -> Result<Picked, AllocError>
        requires moment { at.second ≤ 2 ^ 36 }
        requires sound { IsSound key.now policy.now }
        requires numbers { (next_key (rows_in self.now) key.now.account).number + length (due_targets (rows_in self.now) key.now policy.now at.second) ≤ most_ids }
        requires sources { sources.now ≡ list_map (λ e. Vol e.0) (due_targets (rows_in self.now) key.now policy.now at.second) }
        requires made { made.now ≡ list_map Snap (new_keys (next_key (rows_in self.now) key.now.account) (due_targets (rows_in self.now) key.now policy.now at.second)) }
        ensures ended { IfOk result (λ picked. picked.ended ≡ list_map Snap (run_ended (aged at.second (rows_in self.now)) at key.now policy.now)) }
        ensures released { IfOk result (λ picked. picked.released ≡ list_map Snap (run_released (aged at.second (rows_in self.now)) at key.now policy.now)) }
    {
        self.starts();
        let groups = self.groups_of(at, key, policy, made, sources)?;
        picked_of(self.alloc(), policy, &groups, at)
    }

    /// All that the policy made, with what the run makes, by volume: each row and each volume is looked at once.
    fn groups_of(
        &self,
        at: Moment,
        key: &PolicyKey,
        policy: &Policy,
        made: &Ids,
        sources: &Ids,
    ) -> Result<Groups, AllocError>
        requires numbers { (next_key (rows_in self.now) key.now.account).number + length (due_targets (rows_in self.now) key.now policy.now at.second) ≤ most_ids }
        requires sources { sources.now ≡ list_map (λ e. Vol e.0) (due_targets (rows_in self.now) key.now policy.now at.second) }
        requires made { made.now ≡ list_map Snap (new_keys (next_key (rows_in self.now) key.now.account) (due_targets (rows_in self.now) key.now policy.now at.second)) }
        ensures { IfOk result (λ groups. (v : VolKey) → group (seen vol_cmp groups) v ≡ of_volume at.second (Some v) (managed (made_rows (aged at.second (rows_in self.now)) at key.now policy.now) key.now at.second)) }
    {
        let _ = policy;
        let first = self.own_of(key.account).next_snap;
        let next = first + made.len() as u32;
        let mut groups = Table::new(self.alloc());
        let before = self.rows_from(key.account, 0);
        add_rows(self.alloc(), &mut groups, before, key, 0, Some(first), at)?;
        add_new(
            self.alloc(),
            &mut groups,
            made.as_slice(),
            sources.as_slice(),
            at,
        )?;
        let after = self.rows_from(key.account, next);
        add_rows(self.alloc(), &mut groups, after, key, next, None, at)?;
        Ok(groups)
    }

    /// Makes room for a run, and gives the rows of what it makes.
    pub(crate) fn prepare_run(
        &mut self,
        key: &PolicyKey,
        change: &Change,
    ) -> Result<SnapRows, AllocError>
        ensures rows { rows_in self.new ≡ rows_in self.old }
        ensures stale { (now : ℕ) → stale self.new now ≡ stale self.old now }
        ensures latest { self.new.latest ≡ self.old.latest }
        ensures tokens { self.new.tokens ≡ self.old.tokens }
        ensures books { self.new.books ≡ self.old.books }
        ensures made { OnOk result (CoversMade self.new change.now.made) }
        ensures ended { OnOk result (CoversEnded self.new change.now.ended) }
        ensures new { IfOk result (λ rows. rows ≡ calls.made_rows (rows_in self.new) change.now.at key.now (map.get (rows_in self.new).policies key.now) change.now.made change.now.sources) }
    {
        self.prepare_made(change.made.as_slice())?;
        self.prepare_ended(change.ended.as_slice())?;
        self.new_rows(change.at, key, &change.made, &change.sources)
    }

    fn prepare_made(&mut self, made: &[AnyKey]) -> Result<(), AllocError>
        ensures rows { rows_in self.new ≡ rows_in self.old }
        ensures stale { (now : ℕ) → stale self.new now ≡ stale self.old now }
        ensures latest { self.new.latest ≡ self.old.latest }
        ensures tokens { self.new.tokens ≡ self.old.tokens }
        ensures books { self.new.books ≡ self.old.books }
        ensures room { OnOk result (CoversMade self.new made.now) }
        ensures others { (other : AnyKey) → CoversOne self.old other → CoversOne self.new other }
    {
        match made {
            [] => Ok(()),
            [id, rest @ ..] => {
                self.prepare_one(id)?;
                self.prepare_made(rest)
            }
        }
    }

    fn prepare_one(&mut self, id: &AnyKey) -> Result<(), AllocError>
        ensures rows { rows_in self.new ≡ rows_in self.old }
        ensures stale { (now : ℕ) → stale self.new now ≡ stale self.old now }
        ensures latest { self.new.latest ≡ self.old.latest }
        ensures tokens { self.new.tokens ≡ self.old.tokens }
        ensures books { self.new.books ≡ self.old.books }
        ensures room { OnOk result (CoversOne self.new id.now) }
        ensures others { (other : AnyKey) → CoversOne self.old other → CoversOne self.new other }
    {
        match id {
            AnyKey::Snap(key) => self.prepare_snap(key),
            _ => Ok(()),
        }
    }

    fn prepare_ended(&mut self, ended: &[AnyKey]) -> Result<(), AllocError>
        ensures rows { rows_in self.new ≡ rows_in self.old }
        ensures stale { (now : ℕ) → stale self.new now ≡ stale self.old now }
        ensures rest { self.new ≡ record self.old { waits = self.new.waits } }
        ensures room { OnOk result (CoversEnded self.new ended.now) }
        ensures others { (other : AnyKey) → CoversWait self.old other → CoversWait self.new other }
    {
        match ended {
            [] => Ok(()),
            [id, rest @ ..] => {
                self.prepare_wait_of(id)?;
                self.prepare_ended(rest)
            }
        }
    }

    fn prepare_wait_of(&mut self, id: &AnyKey) -> Result<(), AllocError>
        ensures rows { rows_in self.new ≡ rows_in self.old }
        ensures stale { (now : ℕ) → stale self.new now ≡ stale self.old now }
        ensures rest { self.new ≡ record self.old { waits = self.new.waits } }
        ensures room { OnOk result (CoversWait self.new id.now) }
        ensures others { (other : AnyKey) → CoversWait self.old other → CoversWait self.new other }
    {
        match id {
            AnyKey::Snap(key) => self.prepare_wait(key),
            _ => Ok(()),
        }
    }

    /// The rows of what a run makes, each of its source.
    fn new_rows(
        &self,
        at: Moment,
        key: &PolicyKey,
        made: &Ids,
        sources: &Ids,
    ) -> Result<SnapRows, AllocError>
        ensures { IfOk result (λ rows. rows ≡ calls.made_rows (rows_in self.now) at key.now (map.get (rows_in self.now).policies key.now) made.now sources.now) }
    {
        let mut rows = SnapRows::new(self.alloc());
        let Some(policy) = self.policy_at(key) else {
            return Ok(rows);
        };
        self.add_new_rows(
            &mut rows,
            at,
            key,
            policy,
            made.as_slice(),
            sources.as_slice(),
        )?;
        Ok(rows)
    }

    fn add_new_rows(
        &self,
        rows: &mut SnapRows,
        at: Moment,
        key: &PolicyKey,
        policy: &Policy,
        made: &[AnyKey],
        sources: &[AnyKey],
    ) -> Result<(), AllocError>
        ensures { OnOk result (rows.new ≡ rows.old ++ calls.rows_by (rows_in self.now) at key.now policy.now made.now sources.now) }
    {
        match sources {
            [] => Ok(()),
            [source, sources @ ..] => match made {
                [] => Ok(()),
                [id, made @ ..] => {
                    self.add_new_row(rows, at, key, policy, id, source)?;
                    self.add_new_rows(rows, at, key, policy, made, sources)
                }
            },
        }
    }

    fn add_new_row(
        &self,
        rows: &mut SnapRows,
        at: Moment,
        key: &PolicyKey,
        policy: &Policy,
        id: &AnyKey,
        source: &AnyKey,
    ) -> Result<(), AllocError>
        ensures { OnOk result (rows.new ≡ rows.old ++ calls.with_found (calls.row_by (rows_in self.now) at key.now policy.now id.now source.now) []) }
    {
        match self.new_row(at, key, policy, id, source)? {
            Some(row) => rows.push(row),
            None => Ok(()),
        }
    }

    /// The row of one of them, where its source is there.
    fn new_row(
        &self,
        at: Moment,
        key: &PolicyKey,
        policy: &Policy,
        id: &AnyKey,
        source: &AnyKey,
    ) -> Result<Option<SnapRow>, AllocError>
        ensures { IfOk result (λ row. row ≡ calls.row_by (rows_in self.now) at key.now policy.now id.now source.now) }
    {
        let (AnyKey::Snap(snap), AnyKey::Vol(volume)) = (id, source) else {
            return Ok(None);
        };
        let Some(found) = self.volume_at(volume) else {
            return Ok(None);
        };
        let row = new_run_row(self.alloc(), at, snap, key, policy, volume, found)?;
        Ok(Some(row))
    }

    /// Takes back the room for a run.
    pub(crate) fn release_run(&mut self, made: &Ids, ended: &Ids)
        ensures rows { rows_in self.new ≡ rows_in self.old }
        ensures stale { (now : ℕ) → stale self.new now ≡ stale self.old now }
        ensures latest { self.new.latest ≡ self.old.latest }
        ensures tokens { self.new.tokens ≡ self.old.tokens }
        ensures books { self.new.books ≡ self.old.books }
        ensures made { FreeMade self.new made.now }
        ensures ended { FreeEnded self.new ended.now }
    {
        self.release_made(made.as_slice());
        self.release_ended(ended.as_slice());
    }

    fn release_made(&mut self, made: &[AnyKey])
        ensures rows { rows_in self.new ≡ rows_in self.old }
        ensures stale { (now : ℕ) → stale self.new now ≡ stale self.old now }
        ensures latest { self.new.latest ≡ self.old.latest }
        ensures tokens { self.new.tokens ≡ self.old.tokens }
        ensures books { self.new.books ≡ self.old.books }
        ensures free { FreeMade self.new made.now }
        ensures others { (other : AnyKey) → FreeOne self.old other → FreeOne self.new other }
    {
        match made {
            [] => {}
            [id, rest @ ..] => {
                self.release_one(id);
                self.release_made(rest);
            }
        }
    }

    fn release_one(&mut self, id: &AnyKey)
        ensures rows { rows_in self.new ≡ rows_in self.old }
        ensures stale { (now : ℕ) → stale self.new now ≡ stale self.old now }
        ensures latest { self.new.latest ≡ self.old.latest }
        ensures tokens { self.new.tokens ≡ self.old.tokens }
        ensures books { self.new.books ≡ self.old.books }
        ensures free { FreeOne self.new id.now }
        ensures others { (other : AnyKey) → FreeOne self.old other → FreeOne self.new other }
    {
        match id {
            AnyKey::Snap(key) => self.release_snap(key),
            _ => {}
        }
    }

    fn release_ended(&mut self, ended: &[AnyKey])
        ensures rows { rows_in self.new ≡ rows_in self.old }
        ensures stale { (now : ℕ) → stale self.new now ≡ stale self.old now }
        ensures rest { self.new ≡ record self.old { waits = self.new.waits } }
        ensures free { FreeEnded self.new ended.now }
        ensures others { (other : AnyKey) → FreeWait self.old other → FreeWait self.new other }
    {
        match ended {
            [] => {}
            [id, rest @ ..] => {
                self.release_wait_of(id);
                self.release_ended(rest);
            }
        }
    }

    fn release_wait_of(&mut self, id: &AnyKey)
        ensures rows { rows_in self.new ≡ rows_in self.old }
        ensures stale { (now : ℕ) → stale self.new now ≡ stale self.old now }
        ensures rest { self.new ≡ record self.old { waits = self.new.waits } }
        ensures free { FreeWait self.new id.now }
        ensures others { (other : AnyKey) → FreeWait self.old other → FreeWait self.new other }
    {
        match id {
            AnyKey::Snap(key) => self.release_wait(key),
            _ => {}
        }
    }

    /// Makes what the run makes, and gives up what it gives up, in the room for it.
    pub(crate) fn commit_run(&mut self, change: Change, room: Room)
        requires later { self.old.latest ≤ change.at.second }
        requires room { IsReady self.old change room }
        requires decided { IsDecided (aged change.at.second (rows_in self.old)) change }
        requires moment { change.at.second ≤ 2 ^ 36 }
        requires call { is_run change.request ≡ true }
        ensures rows { aged change.at.second (rows_in self.new) ≡ commit (aged change.at.second (rows_in self.old)) change }
        ensures stale { stale self.new change.at.second ≡ filter (λ key. not (is_about change key)) (stale self.old change.at.second) }
        ensures latest { self.new.latest ≡ self.old.latest }
    {
        let Room {
            token: _token,
            rules: _rules,
            run,
        } = room;
        self.volume_limits();
        self.add_run(run);
        self.free_all(change.released.as_slice());
        self.free_all(change.ended.as_slice());
        self.delete_all(change.at, change.ended.as_slice());
        self.set_last_of(&change.request, change.at);
        drop(change);
    }

    /// Adds the rows that a run makes, where it is one.
    fn add_run(&mut self, run: Option<SnapRows>)
        requires room { CoversRows self.old (unwrap_or run []) }
        requires new { AreNew (unwrap_or run []) }
        ensures rows { rows_in self.new ≡ with_rows (rows_in self.old) (unwrap_or run []) }
        ensures waits { self.new.waits ≡ self.old.waits }
        ensures latest { self.new.latest ≡ self.old.latest }
    {
        if let Some(rows) = run {
            self.add_rows(rows);
        }
    }

    /// The policy that the request runs ran at the moment.
    fn set_last_of(&mut self, request: &Request, at: Moment)
        ensures rows { (key : PolicyKey) → request.now ≡ ask.RunPolicy key → rows_in self.new ≡ record (rows_in self.old) { policies = with_last (rows_in self.old).policies key at (map.get (rows_in self.old).policies key) } }
        ensures stale { (now : ℕ) → stale self.new now ≡ stale self.old now }
        ensures latest { self.new.latest ≡ self.old.latest }
    {
        if let Request::RunPolicy { key } = request {
            self.set_last(key, at);
        }
    }

    /// Adds the rows, which takes no memory.
    fn add_rows(&mut self, rows: SnapRows)
        requires room { CoversRows self.old rows }
        requires new { AreNew rows }
        ensures rows { rows_in self.new ≡ with_rows (rows_in self.old) rows }
        ensures waits { self.new.waits ≡ self.old.waits }
        ensures latest { self.new.latest ≡ self.old.latest }
    {
        for row in rows.into_vec() {
            self.add_row(row);
        }
    }

    /// Takes the policy from each snapshot.
    fn free_all(&mut self, keys: &[AnyKey])
        ensures rows { rows_in self.new ≡ with_freed (rows_in self.old) (snaps_of keys.now) }
        ensures waits { self.new.waits ≡ self.old.waits }
        ensures latest { self.new.latest ≡ self.old.latest }
    {
        match keys {
            [] => {}
            [id, rest @ ..] => {
                self.free_one(id);
                self.free_all(rest);
            }
        }
    }

    fn free_one(&mut self, id: &AnyKey)
        ensures rows { rows_in self.new ≡ with_freed (rows_in self.old) (snap_of id.now) }
        ensures waits { self.new.waits ≡ self.old.waits }
        ensures latest { self.new.latest ≡ self.old.latest }
    {
        match id {
            AnyKey::Snap(key) => self.free(key),
            _ => {}
        }
    }

    /// Deletes each snapshot: it goes to the bin for as long as its account's rules say, or is taken out.
    fn delete_all(&mut self, at: Moment, keys: &[AnyKey])
        requires moment { at.second ≤ 2 ^ 36 }
        requires room { CoversEnded self.old keys.now }
        requires there { AreThere (aged at.second (rows_in self.old)) (snaps_of keys.now) }
        requires distinct { AreDistinct (snaps_of keys.now) }
        ensures rows { aged at.second (rows_in self.new) ≡ with_deleted (aged at.second (rows_in self.old)) at (snaps_of keys.now) }
        ensures stale { stale self.new at.second ≡ filter (λ other. not (is_among other keys.now)) (stale self.old at.second) }
        ensures latest { self.new.latest ≡ self.old.latest }
    {
        match keys {
            [] => {}
            [id, rest @ ..] => {
                self.delete_one(at, id);
                self.delete_all(at, rest);
            }
        }
    }

    fn delete_one(&mut self, at: Moment, id: &AnyKey)
        requires moment { at.second ≤ 2 ^ 36 }
        requires room { CoversWait self.old id.now }
        requires there { AreThere (aged at.second (rows_in self.old)) (snap_of id.now) }
        ensures rows { aged at.second (rows_in self.new) ≡ with_deleted (aged at.second (rows_in self.old)) at (snap_of id.now) }
        ensures stale { stale self.new at.second ≡ filter (λ other. not (is_id other id.now)) (stale self.old at.second) }
        ensures latest { self.new.latest ≡ self.old.latest }
        ensures others { (other : SnapKey) → is_id other id.now ≡ false → map.contains_key self.old.waits other ≡ true → map.contains_key self.new.waits other ≡ true }
    {
        match id {
            AnyKey::Snap(key) => self.delete(at, key),
            AnyKey::Vol(_) => {}
            AnyKey::Rule(_) => {}
            AnyKey::Policy(_) => {}
        }
    }
}

/// Whether more than the most would be kept.
fn is_over(kept: u64, more: u64, most: u64) -> bool
    ensures { result ≡ nat_lt most (kept + more) }
{
    more > most || kept > most - more
}

fn count_targets(volumes: Filled<'_, VolKey, VolRow>, account: Account, policy: &Policy) -> u64
    requires { length volumes < 2 ^ 63 }
    ensures { result ≡ count_by (runs.is_own_target account policy.now) volumes.entry }
{
    let mut count = 0;
    for (volume, row) in volumes {
        if is_own_target(account, policy, volume, row) {
            count += 1;
        }
    }
    count
}

fn targets_of(
    alloc: Global,
    volumes: Filled<'_, VolKey, VolRow>,
    account: Account,
    policy: &Policy,
) -> Result<Ids, AllocError>
    ensures { IfOk result (λ ids. ids ≡ list_map (λ e. Vol e.0) (filter (runs.is_own_target account policy.now) volumes.entry)) }
{
    let mut ids = Ids::new(alloc);
    for (volume, row) in volumes {
        if is_own_target(account, policy, volume, row) {
            ids.push(AnyKey::Vol(*volume))?;
        }
    }
    Ok(ids)
}

fn is_own_target(account: Account, policy: &Policy, volume: &VolKey, row: &VolRow) -> bool
    ensures { result ≡ runs.is_own_target account policy.now (volume.now, row.now) }
{
    account == volume.account && is_target(policy, row)
}

/// Whether the volume has one of the target tags.
fn is_target(policy: &Policy, row: &VolRow) -> bool
    ensures { result ≡ policies.is_target policy.now row.now }
{
    policy
        .targets
        .as_slice()
        .iter()
        .any(|target| has_tag(&row.tags, target))
}

fn has_tag(tags: &Tags, target: &Tag) -> bool
    ensures { result ≡ policies.has_tag tags.now target.now }
{
    tags.as_slice().iter().any(|tag| tag == target)
}

/// So many ids of the account's, numbered one after another.
fn new_ids(alloc: Global, account: Account, first: u32, count: u32) -> Result<Ids, AllocError>
    requires { first + count ≤ 2 ^ 28 }
    ensures { IfOk result (λ ids. (volumes : List (VolKey × VolRow)) → length volumes ≡ count → ids ≡ list_map Snap (new_keys (record { account = account; number = first }) volumes)) }
{
    let mut ids = Ids::new(alloc);
    for number in first..first + count {
        let number = KeyNumber::new(number);
        ids.push(AnyKey::Snap(SnapKey { account, number }))?;
    }
    Ok(ids)
}

fn copy_ids(alloc: Global, ids: &Ids) -> Result<Ids, AllocError>
    ensures { IfOk result (λ copy. copy ≡ ids.now) }
{
    let mut copies = Vec::new(alloc);
    for id in ids.as_slice() {
        copies.push(*id)?;
    }
    Ok(Sequence::from_vec(copies))
}

/// A snapshot that a run makes of a volume.
fn new_run_row(
    alloc: Global,
    at: Moment,
    snap: &SnapKey,
    key: &PolicyKey,
    policy: &Policy,
    volume: &VolKey,
    row: &VolRow,
) -> Result<SnapRow, AllocError>
    ensures { IfOk result (λ new. new ≡ run_row at snap.now key.now policy.now (volume.now, row.now)) }
{
    let tags = copy_tags(alloc, &policy.add)?;
    let mut new = snapped_row(alloc, at, snap, volume, row, None, tags);
    new.policy = Some(*key);
    Ok(new)
}

/// Adds the rows of the policy with these numbers that time leaves out of the bin, each to its volume's group.
fn add_rows(
    alloc: Global,
    groups: &mut Groups,
    rows: Filled<'_, SnapKey, KeptRow>,
    policy: &PolicyKey,
    from: u32,
    until: Option<u32>,
    at: Moment,
) -> Result<(), AllocError>
    ensures { OnOk result ((v : VolKey) → runs.group (seen vol_cmp groups.new) v ≡ runs.added_rows policy.now from until at.second v rows.entry (runs.group (seen vol_cmp groups.old) v)) }
{
    for (key, kept) in rows {
        add_kept(alloc, groups, key, kept, policy, from, until, at)?;
    }
    Ok(())
}

/// Adds a row to its volume's group, where it counts.
fn add_kept(
    alloc: Global,
    groups: &mut Groups,
    key: &SnapKey,
    kept: &KeptRow,
    policy: &PolicyKey,
    from: u32,
    until: Option<u32>,
    at: Moment,
) -> Result<(), AllocError>
    ensures { OnOk result ((v : VolKey) → runs.group (seen vol_cmp groups.new) v ≡ runs.added_row policy.now from until at.second v (key.now, kept.now) (runs.group (seen vol_cmp groups.old) v)) }
{
    let Some(volume) = kept.row.volume else {
        return Ok(());
    };
    if is_counted(policy, from, until, at, key, kept) {
        add_made(alloc, groups, &volume, made_of(at, key, &kept.row))?;
    }
    Ok(())
}

/// Adds what a run makes, each to its source's group.
fn add_new(
    alloc: Global,
    groups: &mut Groups,
    made: &[AnyKey],
    sources: &[AnyKey],
    at: Moment,
) -> Result<(), AllocError>
    ensures { OnOk result ((v : VolKey) → runs.group (seen vol_cmp groups.new) v ≡ runs.added_new at v made.now sources.now (runs.group (seen vol_cmp groups.old) v)) }
{
    match sources {
        [] => Ok(()),
        [source, sources @ ..] => match made {
            [] => Ok(()),
            [id, made @ ..] => {
                add_one(alloc, groups, id, source, at)?;
                add_new(alloc, groups, made, sources, at)
            }
        },
    }
}

fn add_one(
    alloc: Global,
    groups: &mut Groups,
    id: &AnyKey,
    source: &AnyKey,
    at: Moment,
) -> Result<(), AllocError>
    ensures { OnOk result ((v : VolKey) → runs.group (seen vol_cmp groups.new) v ≡ runs.group (seen vol_cmp groups.old) v ++ runs.new_of at v id.now source.now) }
{
    match (id, source) {
        (AnyKey::Snap(key), AnyKey::Vol(volume)) => {
            add_made(alloc, groups, volume, new_made(at, key))
        }
        _ => Ok(()),
    }
}

/// Adds one to its volume's group.
fn add_made(
    alloc: Global,
    groups: &mut Groups,
    volume: &VolKey,
    made: Made,
) -> Result<(), AllocError>
    ensures { OnOk result (runs.IsAdded (seen vol_cmp groups.old) (seen vol_cmp groups.new) volume.now made) }
{
    let mut group = take_group(alloc, groups, volume);
    group.push(made)?;
    groups.insert(*volume, group)?;
    Ok(())
}

fn take_group(alloc: Global, groups: &mut Groups, volume: &VolKey) -> Sequence<Made>
    ensures group { result ≡ runs.group (seen vol_cmp groups.old) volume.now }
    ensures rest { seen vol_cmp groups.new ≡ map.remove (seen vol_cmp groups.old) volume.now }
{
    match groups.remove(volume) {
        Some(group) => group,
        None => Sequence::new(alloc),
    }
}

fn is_counted(
    policy: &PolicyKey,
    from: u32,
    until: Option<u32>,
    at: Moment,
    key: &SnapKey,
    kept: &KeptRow,
) -> bool
    ensures { result ≡ runs.is_counted policy.now from until at.second (key.now, kept.now) }
{
    let number = key.number.number();
    from <= number && is_until(until, number) && is_left(policy, at, key, kept)
}

fn is_until(until: Option<u32>, number: u32) -> bool
    ensures { result ≡ runs.is_until until number }
{
    match until {
        None => true,
        Some(until) => number < until,
    }
}

/// Whether the policy made it of a volume, and it is left out of the bin.
fn is_left(policy: &PolicyKey, at: Moment, key: &SnapKey, kept: &KeptRow) -> bool
    ensures { result ≡ runs.is_left policy.now at.second (key.now, kept.now) }
{
    stays(&kept.row, at)
        && policy.account == key.account
        && is_policy(policy, &kept.row.policy)
        && kept.row.volume.is_some()
        && !is_ahead(kept.row.bin_end, at)
}

fn is_policy(policy: &PolicyKey, own: &Option<PolicyKey>) -> bool
    ensures { result ≡ policies.is_policy policy.now own.now }
{
    match own {
        None => false,
        Some(own) => policy == own,
    }
}

/// What the retention rule sees of a snapshot.
fn made_of(at: Moment, key: &SnapKey, row: &SnapRow) -> Made
    ensures { result ≡ policies.made_of at.second (key.now, row.now) }
{
    Made {
        key: *key,
        start: row.start,
        locked: is_ahead(lock_until(row.lock), at),
        archived: is_archived(row.tier),
    }
}

fn is_archived(tier: Tier) -> bool
    ensures { result ≡ policies.is_archived tier }
{
    match tier {
        Tier::Standard => false,
        Tier::Archived => true,
        Tier::Temporary { .. } => true,
    }
}

/// A snapshot that is made now.
fn new_made(at: Moment, key: &SnapKey) -> Made
    ensures { result ≡ record { key = key.now; start = at; locked = false; archived = false } }
{
    Made {
        key: *key,
        start: at,
        locked: false,
        archived: false,
    }
}

/// What is given up of all groups, in ascending key.
fn picked_of(
    alloc: Global,
    policy: &Policy,
    groups: &Groups,
    at: Moment,
) -> Result<Picked, AllocError>
    requires retain { is_retain policy.now.retain ≡ true }
    requires starts { (v : VolKey) → lifecycle.AreStarted (runs.group (seen vol_cmp groups.now) v) }
    ensures ended { IfOk result (λ picked. lifecycle.AreInOrder (runs.ended_in policy.now.retain at.second (seen vol_cmp groups.now)) picked.ended) }
    ensures released { IfOk result (λ picked. lifecycle.AreInOrder (runs.released_in policy.now.retain at.second (seen vol_cmp groups.now)) picked.released) }
{
    let mut ended = Vec::new(alloc);
    let mut released = Vec::new(alloc);
    for (_, made) in groups.iter() {
        add_picked(
            alloc,
            policy,
            made.as_slice(),
            at,
            &mut ended,
            &mut released,
        )?;
    }
    Ok(Picked {
        ended: in_order(alloc, ended)?,
        released: in_order(alloc, released)?,
    })
}

/// Adds what is given up of one group.
fn add_picked(
    alloc: Global,
    policy: &Policy,
    made: &[Made],
    at: Moment,
    ended: &mut Vec<SnapKey>,
    released: &mut Vec<SnapKey>,
) -> Result<(), AllocError>
    requires retain { is_retain policy.now.retain ≡ true }
    requires starts { lifecycle.AreStarted made.now }
    ensures ended { OnOk result (IsPermutation (ended.old.items ++ lifecycle.keys_of (is_ended policy.now.retain made.now at.second) made.now) ended.new.items) }
    ensures released { OnOk result (IsPermutation (released.old.items ++ lifecycle.keys_of (is_released policy.now.retain made.now at.second) made.now) released.new.items) }
{
    let picked = to_delete(alloc, policy, made, at)?;
    add_keys(ended, picked.ended.as_slice())?;
    add_keys(released, picked.released.as_slice())?;
    Ok(())
}

fn add_keys(keys: &mut Vec<SnapKey>, ids: &[AnyKey]) -> Result<(), AllocError>
    ensures { OnOk result (keys.new.items ≡ keys.old.items ++ runs.snaps_of ids.now) }
{
    match ids {
        [] => Ok(()),
        [id, rest @ ..] => {
            add_key(keys, id)?;
            add_keys(keys, rest)
        }
    }
}

fn add_key(keys: &mut Vec<SnapKey>, id: &AnyKey) -> Result<(), AllocError>
    ensures { OnOk result (keys.new.items ≡ keys.old.items ++ runs.snap_of id.now) }
{
    match id {
        AnyKey::Snap(key) => {
            keys.push(*key)?;
            Ok(())
        }
        AnyKey::Vol(_) => Ok(()),
        AnyKey::Rule(_) => Ok(()),
        AnyKey::Policy(_) => Ok(()),
    }
}

fn in_order(alloc: Global, keys: Vec<SnapKey>) -> Result<Ids, AllocError>
    ensures { IfOk result (lifecycle.AreInOrder keys.items) }
{
    let mut keys = keys;
    keys.sort()?;
    let mut ids = Ids::new(alloc);
    for key in keys.as_slice() {
        ids.push(AnyKey::Snap(*key))?;
    }
    Ok(ids)
}
