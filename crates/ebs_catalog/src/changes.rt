// A change of the rows, whatever its call.
ghost use Rattle.std.specs.Prelude.{◌≡◌, ◌<◌, ◌^◌, Some, IfOk};
ghost use Rattle.ebs_model.specs.declared.request.Request.TheVariants as ask;
ghost use Rattle.ebs_model.specs.Decisions as decisions;
ghost use Rattle.ebs_catalog.specs.Held as held;

use crate::alterations::Alteration;
use crate::catalog::Catalog;
use crate::copies::{create_request, start_request, token_key};
use crate::policies::is_policy_change;
use crate::rooms::Room;
use crate::rows::NewToken;
use crate::rules::is_command;
use ebs_model::{
    Account, Accounts, AnyKey, Change, Ids, LockCommand, Moment, Request, SnapKey, Tags, Text,
    VolKey,
};
use std::alloc::{AllocError, Global};

impl Catalog {
    ghost use Rattle.std.specs.Prelude.{◌≡◌, ◌<◌, ◌≤◌, ◌^◌, ℕ, true, false, not, None, Some, IfOk, OnOk, OnErr};
    ghost use Rattle.std.specs.List.{filter};
    ghost use Rattle.std.specs.declared.option.Option.{Option};
    ghost use Rattle.ebs_model.specs.declared.keys.SnapKey.{SnapKey};
    ghost use Rattle.ebs_model.specs.declared.keys.VolKey.{VolKey};
    ghost use Rattle.ebs_tables.specs.Full.{full};
    ghost use Rattle.std.specs.FinMap as map;
    ghost use Rattle.ebs_model.specs.Limits.{is_size, is_timeout};
    ghost use Rattle.ebs_model.specs.inner.Rows.{aged};
    ghost use Rattle.ebs_model.specs.Rows.{is_key, with_row};
    ghost use Rattle.ebs_model.specs.Decisions.{made_snap, made_vol};
    ghost use Rattle.ebs_model.specs.Step.{is_made};
    ghost use Rattle.ebs_model.specs.Decide.{commit, commit_by};
    ghost use Rattle.ebs_model.specs.Calls.Start.{commit_start};
    ghost use Rattle.ebs_model.specs.Calls.Put.{commit_put};
    ghost use Rattle.ebs_model.specs.Calls.Complete.{commit_complete};
    ghost use Rattle.ebs_catalog.specs.Decided.{Passed, HasPlace, IsOpen, IsDone, MakesNone, IsOwned};
    ghost use Rattle.ebs_catalog.specs.Alters.{altered_row};
    ghost use Rattle.ebs_catalog.specs.Shows.{shared_row};
    ghost use Rattle.ebs_catalog.specs.Held.{rows_in, stale, is_about, is_about_by, CoversBy, CoversRows, CoversStart, CoversToken, CoversIndex, FreeBy, IsDecided, new_token_in, new_token_by};
    ghost use Rattle.ebs_catalog.specs.Rooms.{IsReady, IsFree};
    ghost use Rattle.ebs_catalog.specs.Commands.{is_command};
    ghost use Rattle.ebs_catalog.specs.PolicyCalls.{is_policy_change};
    ghost use Rattle.ebs_model.specs.declared.request.Request.TheVariants as ask;

    /// Makes room for what the change takes, and gives what it has beside the tables. What is made ready is taken back by
    /// `release`, also after want of memory.
    pub fn prepare(&mut self, change: &Change) -> Result<Room, AllocError>
        requires moment { change.now.at.second ≤ 2 ^ 36 }
        ensures rows { rows_in self.new ≡ rows_in self.old }
        ensures stale { (now : ℕ) → stale self.new now ≡ stale self.old now }
        ensures latest { self.new.latest ≡ self.old.latest }
        ensures room { IfOk result (λ room. IsReady self.new change.now room) }
        ensures err { OnErr result ((self.new.tokens ≡ self.old.tokens) × (self.new.books ≡ self.old.books)) }
    {
        if is_command(&change.request) {
            let rules = self.prepare_rules(change)?;
            return Ok(Room {
                token: None,
                rules,
                run: None,
            });
        }
        if is_policy_change(&change.request) {
            let run = self.prepare_policies(change)?;
            return Ok(Room {
                token: None,
                rules: None,
                run,
            });
        }
        let token = token_of(self.alloc(), change)?;
        self.prepare_rows(change)?;
        self.prepare_token_of(&token)?;
        Ok(Room {
            token,
            rules: None,
            run: None,
        })
    }

    /// Makes room for what the change adds, but for a client token and rules.
    fn prepare_rows(&mut self, change: &Change) -> Result<(), AllocError>
        ensures rows { rows_in self.new ≡ rows_in self.old }
        ensures stale { (now : ℕ) → stale self.new now ≡ stale self.old now }
        ensures latest { self.new.latest ≡ self.old.latest }
        ensures tokens { self.new.tokens ≡ self.old.tokens }
        ensures books { self.new.books ≡ self.old.books }
        ensures room { OnOk result (CoversRows self.new (made_snap change.now.made) (made_vol change.now.made) change.now.request) }
    {
        match &change.request {
            Request::StartSnapshot { .. } => match made_snap(&change.made) {
                Some(key) => self.prepare_start(&key),
                None => Ok(()),
            },
            Request::PutSnapshotBlock {
                key,
                index,
                digest: _,
                bytes: _,
            } => match u32::try_from(*index) {
                Ok(index) => self.prepare_put(key, index),
                Err(_) => Ok(()),
            },
            Request::CreateVolume { .. } => match made_vol(&change.made) {
                Some(key) => self.prepare_volume(&key),
                None => Ok(()),
            },
            Request::CreateSnapshot { .. } => match made_snap(&change.made) {
                Some(key) => self.prepare_snap(&key),
                None => Ok(()),
            },
            Request::DeleteSnapshot { key } => self.prepare_wait(key),
            _ => Ok(()),
        }
    }

    /// Makes room for a client token.
    fn prepare_token_of(&mut self, token: &Option<NewToken>) -> Result<(), AllocError>
        ensures rest { self.new ≡ record self.old { tokens = self.new.tokens } }
        ensures tokens { full self.new.tokens ≡ full self.old.tokens }
        ensures room { OnOk result (CoversToken self.new.tokens token.now) }
        ensures err { OnErr result (self.new.tokens ≡ self.old.tokens) }
    {
        match token {
            Some(token) => {
                let key = token_key(token.key.account, &token.key.text)?;
                self.prepare_token(key)
            }
            None => Ok(()),
        }
    }

    /// Takes back the room that `prepare` made for a change that doesn't come; where it was in want of memory, that is no
    /// room (`Room::none`). Keys that have a value stay.
    pub fn release(&mut self, change: &Change, room: &Room)
        ensures rows { rows_in self.new ≡ rows_in self.old }
        ensures stale { (now : ℕ) → stale self.new now ≡ stale self.old now }
        ensures latest { self.new.latest ≡ self.old.latest }
        ensures free { IsFree self.new change.now room.now }
    {
        self.release_token(&room.token);
        self.release_rules(change.account, &room.rules);
        if is_policy_change(&change.request) {
            self.release_policies(change);
        } else {
            self.release_rows(change);
        }
    }

    /// Takes back the room for what a change adds, but for a client token and rules.
    fn release_rows(&mut self, change: &Change)
        ensures rows { rows_in self.new ≡ rows_in self.old }
        ensures stale { (now : ℕ) → stale self.new now ≡ stale self.old now }
        ensures latest { self.new.latest ≡ self.old.latest }
        ensures tokens { self.new.tokens ≡ self.old.tokens }
        ensures books { self.new.books ≡ self.old.books }
        ensures free { FreeBy self.new (made_snap change.now.made) (made_vol change.now.made) change.now.request }
    {
        match &change.request {
            Request::StartSnapshot { .. } => {
                if let Some(key) = made_snap(&change.made) {
                    self.release_start(&key);
                }
            }
            Request::PutSnapshotBlock {
                key,
                index,
                digest: _,
                bytes: _,
            } => {
                if let Ok(index) = u32::try_from(*index) {
                    self.release_put(key, index);
                }
            }
            Request::CreateVolume { .. } => {
                if let Some(key) = made_vol(&change.made) {
                    self.release_volume(&key);
                }
            }
            Request::CreateSnapshot { .. } => {
                if let Some(key) = made_snap(&change.made) {
                    self.release_snap(&key);
                }
            }
            Request::DeleteSnapshot { key } => self.release_wait(key),
            _ => {}
        }
    }

    /// Makes the change in the room that `prepare` gave. It takes no memory.
    pub fn commit(&mut self, change: Change, room: Room)
        requires later { self.old.latest ≤ change.at.second }
        requires room { IsReady self.old change room }
        requires decided { IsDecided (aged change.at.second (rows_in self.old)) change }
        requires moment { change.at.second ≤ 2 ^ 36 }
        ensures rows { aged change.at.second (rows_in self.new) ≡ commit (aged change.at.second (rows_in self.old)) change }
        ensures stale { stale self.new change.at.second ≡ filter (λ key. not (is_about change key)) (stale self.old change.at.second) }
        ensures latest { self.new.latest ≡ change.at.second }
    {
        let at = change.at;
        self.commit_change(change, room);
        self.reach(at);
    }

    /// Makes the change. The latest moment stays.
    fn commit_change(&mut self, change: Change, room: Room)
        requires later { self.old.latest ≤ change.at.second }
        requires room { IsReady self.old change room }
        requires decided { IsDecided (aged change.at.second (rows_in self.old)) change }
        requires moment { change.at.second ≤ 2 ^ 36 }
        ensures rows { aged change.at.second (rows_in self.new) ≡ commit (aged change.at.second (rows_in self.old)) change }
        ensures stale { stale self.new change.at.second ≡ filter (λ key. not (is_about change key)) (stale self.old change.at.second) }
        ensures latest { self.new.latest ≡ self.old.latest }
    {
        if is_command(&change.request) {
            self.commit_command(change, room);
        } else if is_policy_change(&change.request) {
            self.commit_policies(change, room);
        } else {
            self.commit_others(change, room);
        }
    }

    /// A change of rules.
    fn commit_command(&mut self, change: Change, room: Room)
        requires room { IsReady self.old change room }
        requires decided { IsDecided (aged change.at.second (rows_in self.old)) change }
        requires call { is_command change.request ≡ true }
        ensures rows { aged change.at.second (rows_in self.new) ≡ commit (aged change.at.second (rows_in self.old)) change }
        ensures stale { stale self.new change.at.second ≡ filter (λ key. not (is_about change key)) (stale self.old change.at.second) }
        ensures latest { self.new.latest ≡ self.old.latest }
    {
        self.keeps_days();
        let rules = room.rules;
        self.commit_rules(change.account, change.at, &change.request, rules);
        drop(change);
    }

    /// A change of rows of snapshots or of volumes.
    fn commit_others(&mut self, change: Change, room: Room)
        requires later { self.old.latest ≤ change.at.second }
        requires room { IsReady self.old change room }
        requires decided { IsDecided (aged change.at.second (rows_in self.old)) change }
        requires moment { change.at.second ≤ 2 ^ 36 }
        requires call { is_command change.request ≡ false }
        requires policies { is_policy_change change.request ≡ false }
        ensures rows { aged change.at.second (rows_in self.new) ≡ commit (aged change.at.second (rows_in self.old)) change }
        ensures stale { stale self.new change.at.second ≡ filter (λ key. not (is_about change key)) (stale self.old change.at.second) }
        ensures latest { self.new.latest ≡ self.old.latest }
    {
        let Change {
            account,
            at,
            request,
            made,
            sources: _sources,
            ended: _ended,
            released: _released,
            shared,
        } = change;
        let Room {
            token,
            rules: _rules,
            run: _run,
        } = room;
        let snapshot = made_snap(&made);
        let volume = made_vol(&made);
        self.commit_request(account, at, &snapshot, &volume, shared, request, token);
    }

    /// A change of rows, but for rules.
    fn commit_request(
        &mut self,
        account: Account,
        at: Moment,
        made: &Option<SnapKey>,
        volume: &Option<VolKey>,
        shared: Accounts,
        request: Request,
        token: Option<NewToken>,
    )
        requires later { self.old.latest ≤ at.second }
        requires moment { at.second ≤ 2 ^ 36 }
        requires call { is_command request ≡ false }
        requires policies { is_policy_change request ≡ false }
        requires room { CoversBy self.old made.now volume.now request }
        requires token { token ≡ new_token_in made.now volume.now request }
        requires decided { Passed (aged at.second (rows_in self.old)) at account shared request }
        ensures rows { aged at.second (rows_in self.new) ≡ commit_by (aged at.second (rows_in self.old)) at account made.now volume.now request }
        ensures stale { stale self.new at.second ≡ filter (λ key. not (is_about_by made.now request key)) (stale self.old at.second) }
        ensures latest { self.new.latest ≡ self.old.latest }
    {
        match request {
            Request::StartSnapshot {
                size,
                parent,
                description,
                tags,
                client_token,
                timeout,
            } => {
                self.add_upload(
                    at,
                    made,
                    size,
                    parent,
                    description,
                    tags,
                    client_token,
                    timeout,
                    token,
                );
            }
            Request::CreateVolume {
                origin,
                size,
                tags,
                client_token,
            } => self.add_volume(at, volume, origin, size, tags, client_token, token),
            Request::CreateSnapshot {
                key,
                description,
                tags,
            } => self.add_snapshot(at, made, &key, description, tags),
            other => self.commit_rows(account, at, shared, other),
        }
    }

    /// A change that makes nothing.
    fn commit_rows(&mut self, account: Account, at: Moment, shared: Accounts, request: Request)
        requires later { self.old.latest ≤ at.second }
        requires moment { at.second ≤ 2 ^ 36 }
        requires call { MakesNone request }
        requires room { CoversRows self.old None None request }
        requires decided { Passed (aged at.second (rows_in self.old)) at account shared request }
        ensures rows { (made : Option SnapKey) (volume : Option VolKey) → aged at.second (rows_in self.new) ≡ commit_by (aged at.second (rows_in self.old)) at account made volume request }
        ensures stale { (made : Option SnapKey) → stale self.new at.second ≡ filter (λ key. not (is_about_by made request key)) (stale self.old at.second) }
        ensures latest { self.new.latest ≡ self.old.latest }
    {
        match request {
            Request::PutSnapshotBlock {
                key,
                index,
                digest: _digest,
                bytes: _bytes,
            } => self.add_index(at, &key, index),
            Request::CompleteSnapshot {
                key,
                count: _count,
                checksum: _checksum,
            } => self.complete(at, &key),
            Request::DeleteSnapshot { key } => self.delete(at, &key),
            Request::RestoreFromBin { key } => self.recover(at, &key),
            other => self.commit_owned(account, at, shared, other),
        }
    }

    /// A change of one completed row alone, of volumes, or none.
    fn commit_owned(&mut self, account: Account, at: Moment, shared: Accounts, request: Request)
        requires moment { at.second ≤ 2 ^ 36 }
        requires call { IsOwned request }
        requires decided { Passed (aged at.second (rows_in self.old)) at account shared request }
        ensures rows { (made : Option SnapKey) (volume : Option VolKey) → aged at.second (rows_in self.new) ≡ commit_by (aged at.second (rows_in self.old)) at account made volume request }
        ensures stale { (made : Option SnapKey) → stale self.new at.second ≡ filter (λ key. not (is_about_by made request key)) (stale self.old at.second) }
        ensures latest { self.new.latest ≡ self.old.latest }
    {
        match request {
            Request::ModifyPermission {
                key,
                add: _add,
                add_all,
                remove: _remove,
                remove_all,
            } => self.share(at, &key, shared, add_all, remove_all),
            Request::LockSnapshot {
                key,
                mode,
                term,
                cool_hours,
            } => {
                let command = LockCommand::Lock {
                    mode,
                    term,
                    cool_hours,
                };
                self.alter(at, &key, Alteration::Lock(command));
            }
            Request::UnlockSnapshot { key } => {
                self.alter(at, &key, Alteration::Lock(LockCommand::Unlock));
            }
            Request::ArchiveSnapshot { key } => self.alter(at, &key, Alteration::Archive),
            Request::RestoreTier { key, days } => {
                self.alter(at, &key, Alteration::Restore(days));
            }
            Request::DeleteVolume { key } => self.commit_drop(&key),
            _none => {}
        }
    }

    fn add_upload(
        &mut self,
        at: Moment,
        made: &Option<SnapKey>,
        size: u64,
        parent: Option<SnapKey>,
        description: Option<Text>,
        tags: Tags,
        client_token: Option<Text>,
        timeout: u32,
        token: Option<NewToken>,
    )
        requires room { CoversStart self.old made.now }
        requires kept { CoversToken self.old.tokens token }
        requires token { token ≡ new_token_by made.now (ask.StartSnapshot size parent description tags client_token timeout) client_token }
        requires fits { (is_size size ≡ true) × (is_timeout timeout ≡ true) }
        requires moment { at.second ≤ 2 ^ 36 }
        ensures rows { aged at.second (rows_in self.new) ≡ commit_start (aged at.second (rows_in self.old)) at made.now size parent description tags client_token timeout }
        ensures stale { stale self.new at.second ≡ filter (λ key. not (is_made key made.now)) (stale self.old at.second) }
        ensures latest { self.new.latest ≡ self.old.latest }
    {
        let _given = client_token;
        match made {
            Some(key) => {
                let size = narrow(size);
                self.commit_start(at, key, size, parent, description, tags, timeout, token);
            }
            None => {}
        }
    }

    fn add_index(&mut self, at: Moment, key: &SnapKey, index: u64)
        requires later { self.old.latest ≤ at.second }
        requires room { CoversIndex (map.get (full self.old.snaps) key.now) index }
        requires place { HasPlace (aged at.second (rows_in self.old)) at key.now index }
        ensures rows { aged at.second (rows_in self.new) ≡ commit_put (aged at.second (rows_in self.old)) at key.now index }
        ensures stale { stale self.new at.second ≡ filter (λ other. not (is_key other key.now)) (stale self.old at.second) }
        ensures latest { self.new.latest ≡ self.old.latest }
    {
        self.limits(key);
        self.awaits(key, at);
        self.commit_put(at, key, narrow(index));
    }

    fn complete(&mut self, at: Moment, key: &SnapKey)
        requires pending { IsOpen (aged at.second (rows_in self.old)) at key.now }
        ensures rows { aged at.second (rows_in self.new) ≡ commit_complete (aged at.second (rows_in self.old)) key.now }
        ensures stale { stale self.new at.second ≡ filter (λ other. not (is_key other key.now)) (stale self.old at.second) }
        ensures latest { self.new.latest ≡ self.old.latest }
    {
        self.commit_complete(key);
    }

    fn alter(&mut self, at: Moment, key: &SnapKey, alteration: Alteration)
        requires moment { at.second ≤ 2 ^ 36 }
        requires done { IsDone (aged at.second (rows_in self.old)) at key.now }
        ensures rows { aged at.second (rows_in self.new) ≡ with_row (aged at.second (rows_in self.old)) key.now (altered_row at alteration) }
        ensures stale { stale self.new at.second ≡ stale self.old at.second }
        ensures latest { self.new.latest ≡ self.old.latest }
    {
        self.commit_alteration(at, key, alteration);
    }

    fn share(
        &mut self,
        at: Moment,
        key: &SnapKey,
        shared: Accounts,
        add_all: bool,
        remove_all: bool,
    )
        requires done { IsDone (aged at.second (rows_in self.old)) at key.now }
        ensures rows { aged at.second (rows_in self.new) ≡ with_row (aged at.second (rows_in self.old)) key.now (shared_row shared add_all remove_all) }
        ensures stale { stale self.new at.second ≡ stale self.old at.second }
        ensures latest { self.new.latest ≡ self.old.latest }
    {
        self.commit_permission(key, shared, add_all, remove_all);
    }
}

pub(crate) fn narrow(number: u64) -> u32
    requires { number < 2 ^ 32 }
    ensures { result ≡ number }
{
    number as u32
}

/// The client token of the change, with the memory that keeping it takes.
fn token_of(alloc: Global, change: &Change) -> Result<Option<NewToken>, AllocError>
    ensures { IfOk result (λ token. token ≡ held.new_token change.now) }
{
    match &change.request {
        Request::StartSnapshot {
            size,
            parent,
            description,
            tags,
            client_token,
            timeout,
        } => match made_snap(&change.made) {
            Some(key) => start_token(
                alloc,
                &key,
                *size,
                parent,
                description,
                tags,
                client_token,
                *timeout,
            ),
            None => Ok(None),
        },
        Request::CreateVolume {
            origin,
            size,
            tags,
            client_token,
        } => match made_vol(&change.made) {
            Some(key) => volume_token(alloc, &key, origin, *size, tags, client_token),
            None => Ok(None),
        },
        _ => Ok(None),
    }
}

/// The client token of a start.
fn start_token(
    alloc: Global,
    key: &SnapKey,
    size: u64,
    parent: &Option<SnapKey>,
    description: &Option<Text>,
    tags: &Tags,
    client_token: &Option<Text>,
    timeout: u32,
) -> Result<Option<NewToken>, AllocError>
    ensures { IfOk result (λ token. token ≡ held.new_token_by (Some key.now) (ask.StartSnapshot size parent.now description.now tags.now client_token.now timeout) client_token.now) }
{
    let Some(text) = client_token else {
        return Ok(None);
    };
    let key = token_key(key.account, text)?;
    let first = start_request(
        alloc,
        size,
        parent,
        description,
        tags,
        client_token,
        timeout,
    )?;
    Ok(Some(NewToken { key, first }))
}

/// The client token of a creation of a volume.
fn volume_token(
    alloc: Global,
    key: &VolKey,
    origin: &Option<SnapKey>,
    size: Option<u64>,
    tags: &Tags,
    client_token: &Option<Text>,
) -> Result<Option<NewToken>, AllocError>
    ensures { IfOk result (λ token. token ≡ held.volume_token_by (Some key.now) (ask.CreateVolume origin.now size tags.now client_token.now) client_token.now) }
{
    let Some(text) = client_token else {
        return Ok(None);
    };
    let key = token_key(key.account, text)?;
    let first = create_request(alloc, origin, size, tags, client_token)?;
    Ok(Some(NewToken { key, first }))
}

/// The first snapshot that is made.
fn made_snap(made: &Ids) -> Option<SnapKey>
    ensures { result ≡ decisions.made_snap made.now }
{
    match made.as_slice() {
        [AnyKey::Snap(key), ..] => Some(*key),
        _ => None,
    }
}

/// The first volume that is made.
fn made_vol(made: &Ids) -> Option<VolKey>
    ensures { result ≡ decisions.made_vol made.now }
{
    match made.as_slice() {
        [AnyKey::Vol(key), ..] => Some(*key),
        _ => None,
    }
}
