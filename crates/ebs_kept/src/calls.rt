// The calls on the kept form.
ghost use Rattle.std.specs.Prelude.{◌≡◌, [], Some};
ghost use Rattle.ebs_model.specs.Calls.Complete as completes;
ghost use Rattle.ebs_model.specs.Step as steps;
ghost use Rattle.ebs_kept.specs.inner.Requests as requests;

use crate::kept::Kept;
use crate::place::Place;
use ebs_model::{
    Account, Answer, Block, Bytes, Change, Decision, Failure, Moment, ReadRow, Refusal, Request,
    SnapKey, Spent, Text, VolKey, blocks_of, is_size, is_size_given,
};
use ebs_tokens::is_block_token;
use std::alloc::Global;

const NO_DIGEST: [u8; 32] = [0; 32];

impl Kept {
    ghost use Rattle.std.specs.Prelude.{◌≡◌, ◌≤◌, ◌^◌, false, None, Some, Ok, IfOk};
    ghost use Rattle.std.specs.FinMap as map;
    ghost use Rattle.ebs_kept.specs.inner.Shown.{kept_block};
    ghost use Rattle.ebs_model.specs.declared.request.Request.TheVariants as ask;
    ghost use Rattle.ebs_model.specs.Limits.{bad_member};
    ghost use Rattle.std.specs.Option.{option_map};
    ghost use Rattle.ebs_model.specs.Machine.{advance, is_spent, rows_of, array_of, disk_of};
    ghost use Rattle.ebs_model.specs.Kept.{same};
    ghost use Rattle.ebs_model.specs.Decide.{decide};
    ghost use Rattle.ebs_model.specs.Step.{act, finish, read, refuse_size, refuse_linear, bytes_of};
    ghost use Rattle.ebs_model.specs.inner.Follows.{Follows, Agrees};
    ghost use Rattle.ebs_kept.specs.inner.Requests.{with_digest, write_at, ReadsNoBlock, HasNoBlock, Decides, Finds, FindsOrZeros, Settles};
    ghost use Rattle.ebs_catalog.specs.Held.{IsDecided};
    ghost use Rattle.ebs_catalog.specs.Wants.{OnMemory, IsAccepted, MayWant};
    ghost use Rattle.ebs_kept.specs.inner.Wants.{MayRunOut, is_copied_change, Tells};
    ghost use Rattle.ebs_kept.specs.inner.Counted.{ChangesCounted, PutsAsAsked};

    /// What a request does at the moment that neither brings a block nor reads one.
    pub fn act(
        &mut self,
        account: Account,
        now: Moment,
        request: &Request,
    ) -> Result<Answer, Failure>
        requires later { self.old.machine.clock.second ≤ now.second }
        requires early { now.second ≤ 2 ^ 36 }
        requires within { bad_member request.now ≡ None }
        requires bare { HasNoBlock request.now }
        ensures follows { Follows self.old.machine self.new.machine result (act same (advance self.old.machine now) account request.now) }
        ensures memory { OnMemory result (MayRunOut (act same (advance self.old.machine now) account request.now)) }
        ensures counted { ChangesCounted self.old self.new request.now }
    {
        if let Err(refusal) = check_size(request) {
            return Err(Failure::Refused(refusal));
        }
        match self.decide(account, now, request) {
            Ok(decision) => self.finish(now, request, decision, NO_DIGEST),
            Err(Failure::Refused(refusal)) => Err(Failure::Refused(refusal)),
            Err(Failure::Memory) => Err(self.undecided(account, now, request)),
        }
    }

    /// Writes a block of this digest.
    pub fn put(
        &mut self,
        account: Account,
        now: Moment,
        place: &Place,
        index: u64,
        digest: [u8; 32],
    ) -> Result<Answer, Failure>
        requires later { self.old.machine.clock.second ≤ now.second }
        requires early { now.second ≤ 2 ^ 36 }
        ensures follows { Follows self.old.machine self.new.machine result (act same (advance self.old.machine now) account (write_at place.now index digest digest)) }
        ensures memory { OnMemory result (MayRunOut (act same (advance self.old.machine now) account (write_at place.now index digest digest))) }
        ensures counted { ChangesCounted self.old self.new (write_at place.now index digest digest) }
    {
        let head = write_at(self.alloc(), place, index, digest);
        match self.decide(account, now, &head) {
            Ok(decision) => {
                let answer = self.finish(now, &head, decision, digest);
                drop(head);
                answer
            }
            Err(failure) => {
                drop(head);
                Err(failure)
            }
        }
    }

    /// The block of a completed snapshot that a token reads.
    pub fn find(
        &self,
        account: Account,
        now: Moment,
        request: &Request,
        key: &SnapKey,
        index: u64,
        token: &Text,
    ) -> Result<Block, Failure>
        requires later { self.now.machine.clock.second ≤ now.second }
        requires early { now.second ≤ 2 ^ 36 }
        requires get { request.now ≡ ask.GetSnapshotBlock key.now index token.now }
        ensures finds { Finds (advance self.now.machine now) result (act same (advance self.now.machine now) account request.now) }
        ensures there { IfOk result (λ block. map.get (array_of (advance self.now.machine now) key.now) index ≡ Some (kept_block block)) }
        ensures memory { OnMemory result ⊥ }
    {
        let decision = match self.decide(account, now, request) {
            Ok(decision) => decision,
            Err(failure) => return Err(failure),
        };
        let Decision::Read(_) = decision else {
            unreachable!()
        };
        if !is_block_token(self.secret(), key, index, now, token.as_bytes()) {
            return Err(Failure::Refused(Refusal::BadBlockToken));
        }
        match self.block_at(key, now, index) {
            Some(block) => Ok(block),
            None => Err(Failure::Refused(Refusal::BadIndex)),
        }
    }

    /// The block of a volume at an index, or None where it is all zeros.
    pub fn fetch(
        &self,
        account: Account,
        now: Moment,
        key: &VolKey,
        index: u64,
    ) -> Result<Option<Block>, Failure>
        requires later { self.now.machine.clock.second ≤ now.second }
        requires early { now.second ≤ 2 ^ 36 }
        ensures finds { FindsOrZeros (advance self.now.machine now) result (act same (advance self.now.machine now) account (ask.ReadVolumeBlock key.now index)) }
        ensures there { IfOk result (λ found. option_map kept_block found ≡ map.get (disk_of self.now.machine key.now) index) }
        ensures memory { OnMemory result ⊥ }
    {
        let request = Request::ReadVolumeBlock { key: *key, index };
        let decided = self.decide(account, now, &request);
        drop(request);
        let decision = match decided {
            Ok(decision) => decision,
            Err(failure) => return Err(failure),
        };
        let Decision::Read(row) = decision else {
            unreachable!()
        };
        self.keeps_volumes();
        if index >= blocks_of(row.size) {
            return Err(Failure::Refused(Refusal::BadIndex));
        }
        Ok(self.disk_block(key, index))
    }

    /// What is answered where the rows' decision was in want of memory for its copies: a change is still refused where changes are spent.
    pub fn undecided(&self, account: Account, now: Moment, request: &Request) -> Failure
        requires later { self.now.machine.clock.second ≤ now.second }
        requires bare { HasNoBlock request.now }
        requires sized { refuse_size request.now ≡ Ok tt }
        requires wants { MayWant request.now (decide (rows_of (advance self.now.machine now)) now account request.now) }
        ensures { Tells result (act same (advance self.now.machine now) account request.now) }
    {
        if !self.is_spent() {
            return Failure::Memory;
        }
        if self.is_copied_change(account, now, request) {
            Failure::Refused(Refusal::Exhausted(Spent::Changes))
        } else {
            Failure::Memory
        }
    }

    // Whether the request is a change where rows accept it, of those whose decision takes copies.
    fn is_copied_change(&self, account: Account, now: Moment, request: &Request) -> bool
        requires { self.now.machine.clock.second ≤ now.second }
        ensures { result ≡ is_copied_change (rows_of (advance self.now.machine now)) account request.now }
    {
        match request {
            Request::StartSnapshot { client_token, .. } => {
                self.is_first_use(account, now, client_token)
            }
            Request::CreateVolume { client_token, .. } => {
                self.is_first_use(account, now, client_token)
            }
            Request::DeleteSnapshot { .. } => true,
            Request::ModifyPermission { .. } => true,
            Request::CreateSnapshot { .. } => true,
            Request::CreateRule { .. } => true,
            Request::UpdateRule { .. } => true,
            Request::DeleteRule { .. } => true,
            Request::LockRule { .. } => true,
            Request::UnlockRule { .. } => true,
            Request::RestoreFromBin { .. } => true,
            Request::CreatePolicy { .. } => true,
            Request::RunPolicy { .. } => true,
            _ => false,
        }
    }

    // What becomes of the machine by what its rows decided.
    fn finish(
        &mut self,
        now: Moment,
        request: &Request,
        decision: Decision,
        digest: [u8; 32],
    ) -> Result<Answer, Failure>
        requires later { self.old.machine.clock.second ≤ now.second }
        requires early { now.second ≤ 2 ^ 36 }
        requires bare { ReadsNoBlock request.now }
        requires decided { Decides (rows_of (advance self.old.machine now)) now digest (bytes_of (with_digest digest request.now)) decision }
        requires asked { PutsAsAsked request.now decision }
        ensures follows { Follows self.old.machine self.new.machine result (finish same (advance self.old.machine now) (with_digest digest request.now) decision) }
        ensures memory { OnMemory result (IsAccepted (finish same (advance self.old.machine now) (with_digest digest request.now) decision)) }
        ensures counted { ChangesCounted self.old self.new request.now }
    {
        match decision {
            Decision::Change(change, answer) => {
                match self.settle(now, request, change, digest) {
                    Ok(()) => Ok(answer),
                    Err(failure) => {
                        drop(answer);
                        Err(failure)
                    }
                }
            }
            Decision::Kept(answer) => {
                self.tick(now);
                Ok(answer)
            }
            Decision::View(answer) => {
                self.tick(now);
                Ok(answer)
            }
            Decision::Read(row) => match self.read(now, request, row) {
                Ok(answer) => {
                    self.tick(now);
                    Ok(answer)
                }
                Err(failure) => Err(failure),
            },
        }
    }

    // Makes a change that the blocks allow, unless all changes are spent.
    fn settle(
        &mut self,
        now: Moment,
        request: &Request,
        change: Change,
        digest: [u8; 32],
    ) -> Result<(), Failure>
        requires later { self.old.machine.clock.second ≤ now.second }
        requires early { now.second ≤ 2 ^ 36 }
        requires at { change.at ≡ now }
        requires decided { IsDecided (rows_of (advance self.old.machine now)) change }
        ensures settles { Settles self.old.machine self.new.machine (advance self.old.machine now) digest request.now change result }
        ensures memory { OnMemory result ((refuse_linear same (advance self.old.machine now) request.now ≡ Ok tt) × (is_spent (advance self.old.machine now) ≡ false)) }
        ensures counted { ChangesCounted self.old self.new change.request }
    {
        if let Err(refusal) = self.check_linear(now, request) {
            drop(change);
            return Err(Failure::Refused(refusal));
        }
        if self.is_spent() {
            drop(change);
            return Err(Failure::Refused(Refusal::Exhausted(Spent::Changes)));
        }
        match self.change(now, change, digest) {
            Ok(()) => Ok(()),
            Err(_) => Err(Failure::Memory),
        }
    }

    // The checksum of an upload's end, where one is stated, is that of its blocks.
    fn check_linear(&self, now: Moment, request: &Request) -> Result<(), Refusal>
        requires { self.now.machine.clock.second ≤ now.second }
        ensures { result ≡ refuse_linear same (advance self.now.machine now) request.now }
    {
        match request {
            Request::CompleteSnapshot { key, checksum, .. } => match checksum {
                Some(stated) => check_checksum(*stated, self.checksum(key, now)),
                None => Ok(()),
            },
            _ => Ok(()),
        }
    }

    /// What the lists of blocks answer, of a row that was decided at the moment.
    pub fn read(&self, now: Moment, request: &Request, row: ReadRow) -> Result<Answer, Failure>
        requires later { self.now.machine.clock.second ≤ now.second }
        requires early { now.second ≤ 2 ^ 36 }
        requires bare { ReadsNoBlock request.now }
        ensures answers { Agrees result (read same (advance self.now.machine now) request.now row) }
        ensures memory { OnMemory result (IsAccepted (read same (advance self.now.machine now) request.now row)) }
    {
        match request {
            Request::ListSnapshotBlocks {
                key,
                page,
                max,
                start,
            } => self.list_blocks(now, row, key, page, *max, *start),
            Request::ListChangedBlocks {
                first,
                second,
                page,
                max,
                start,
            } => self.list_changed(now, row, first, second, page, *max, *start),
            _ => Err(Failure::Refused(Refusal::BadIndex)),
        }
    }
}

// A block that is written, without its bytes.
fn write_at(alloc: Global, place: &Place, index: u64, digest: [u8; 32]) -> Request
    ensures { result ≡ requests.write_at place.now index digest [] }
{
    let bytes = Bytes::from_vec(Vec::new(alloc));
    match place {
        Place::Upload(key) => Request::PutSnapshotBlock {
            key: *key,
            index,
            digest,
            bytes,
        },
        Place::Volume(key) => Request::WriteVolumeBlock {
            key: *key,
            index,
            digest,
            bytes,
        },
    }
}

fn check_size(request: &Request) -> Result<(), Refusal>
    ensures { result ≡ steps.refuse_size request.now }
{
    match request {
        Request::StartSnapshot { size, .. } if !is_size(*size) => Err(Refusal::BadSize),
        Request::CreateVolume { size, .. } if !is_size_given(*size) => Err(Refusal::BadSize),
        _ => Ok(()),
    }
}

fn check_checksum(stated: [u8; 32], found: [u8; 32]) -> Result<(), Refusal>
    ensures { result ≡ completes.refuse_checksum (Some stated) found }
{
    if stated == found {
        Ok(())
    } else {
        Err(Refusal::Checksum { stated, found })
    }
}
