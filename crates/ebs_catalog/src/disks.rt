// CreateSnapshot, WriteVolumeBlock and ReadVolumeBlock.
ghost use Rattle.std.specs.Prelude.{◌≡◌};
ghost use Rattle.ebs_model.specs.inner.Follows.{Agrees};

use crate::catalog::Catalog;
use crate::copies::snapshot_request;
use crate::decides::{one_id, quota};
use crate::snapped::snapped_view;
use ebs_model::{
    Account, Answer, AnyKey, Bytes, Decision, Failure, Ids, KeyNumber, Kind, MOST_IDS, MOST_KEPT,
    Moment, QuotaName, ReadRow, Refusal, Request, SnapKey, Tags, Text, VolKey, blocks_of,
};

impl Catalog {
    ghost use Rattle.std.specs.Prelude.{◌≡◌, ◌≤◌, ◌^◌, not, Some};
    ghost use Rattle.std.specs.List.{filter};
    ghost use Rattle.ebs_model.specs.inner.Rows.{aged};
    ghost use Rattle.ebs_model.specs.Step.{is_made};
    ghost use Rattle.ebs_model.specs.Calls.Disk.{decide_snap, decide_write, decide_fetch, commit_snap};
    ghost use Rattle.ebs_catalog.specs.Held.{rows_in, stale, CoversSnap};
    ghost use Rattle.ebs_catalog.specs.Decided.{IsVolume};
    ghost use Rattle.ebs_catalog.specs.Wants.{OnMemory, IsSettled};

    /// Whether a snapshot of the volume is made.
    pub(crate) fn decide_snap(
        &self,
        account: Account,
        at: Moment,
        volume: &VolKey,
        description: &Option<Text>,
        tags: &Tags,
    ) -> Result<Decision, Failure>
        ensures decided { Agrees result (decide_snap (aged at.second (rows_in self.now)) at account volume.now description.now tags.now) }
        ensures memory { OnMemory result (IsSettled (decide_snap (aged at.second (rows_in self.now)) at account volume.now description.now tags.now)) }
    {
        let Some(row) = self.the_volume(account, volume) else {
            return Err(Failure::Refused(Refusal::NotFound(Kind::Volume)));
        };
        if self.is_full(account, at) {
            return Err(Failure::Refused(quota(QuotaName::Snapshots, MOST_KEPT)));
        }
        let number = self.own_of(account).next_snap;
        if number >= MOST_IDS {
            return Err(Failure::Refused(quota(QuotaName::Ids, u64::from(MOST_IDS))));
        }
        let key = SnapKey {
            account,
            number: KeyNumber::new(number),
        };
        let alloc = self.alloc();
        let made = one_id(alloc, AnyKey::Snap(key))?;
        let view = snapped_view(alloc, account, at, &key, volume, row, description, tags)?;
        let answer = Answer::SnapshotShown {
            created: true,
            row: view,
        };
        match snapshot_request(alloc, volume, description, tags) {
            Ok(request) => {
                let change = self.change(account, at, request, made);
                Ok(Decision::Change(change, answer))
            }
            Err(_) => {
                drop(answer);
                Err(Failure::Memory)
            }
        }
    }

    /// Whether the volume's block is written.
    pub(crate) fn decide_write(
        &self,
        account: Account,
        at: Moment,
        key: &VolKey,
        index: u64,
        digest: &[u8; 32],
    ) -> Result<Decision, Refusal>
        ensures { result ≡ decide_write (aged at.second (rows_in self.now)) at account key.now index digest.now }
    {
        let Some(row) = self.the_volume(account, key) else {
            return Err(Refusal::NotFound(Kind::Volume));
        };
        if index >= blocks_of(row.size) {
            return Err(Refusal::BadIndex);
        }
        let alloc = self.alloc();
        let request = Request::WriteVolumeBlock {
            key: *key,
            index,
            digest: *digest,
            bytes: Bytes::new(alloc),
        };
        let change = self.change(account, at, request, Ids::new(alloc));
        Ok(Decision::Change(change, Answer::BlockWritten { digest: *digest }))
    }

    /// Whether the volume's blocks may be read.
    pub(crate) fn decide_fetch(&self, account: Account, key: &VolKey) -> Result<Decision, Refusal>
        ensures { result ≡ decide_fetch (rows_in self.now) account key.now }
    {
        let Some(row) = self.the_volume(account, key) else {
            return Err(Refusal::NotFound(Kind::Volume));
        };
        Ok(Decision::Read(ReadRow {
            size: row.size,
            related: true,
        }))
    }

    /// Adds a snapshot that is made of a volume, which takes no memory.
    pub(crate) fn add_snapshot(
        &mut self,
        at: Moment,
        made: &Option<SnapKey>,
        volume: &VolKey,
        description: Option<Text>,
        tags: Tags,
    )
        requires room { CoversSnap self.old made.now }
        requires there { IsVolume (aged at.second (rows_in self.old)) volume.now }
        requires moment { at.second ≤ 2 ^ 36 }
        ensures rows { aged at.second (rows_in self.new) ≡ commit_snap (aged at.second (rows_in self.old)) at made.now volume.now description tags }
        ensures stale { stale self.new at.second ≡ filter (λ key. not (is_made key made.now)) (stale self.old at.second) }
        ensures latest { self.new.latest ≡ self.old.latest }
    {
        match made {
            Some(key) => self.commit_snap(at, key, volume, description, tags),
            None => {}
        }
    }
}
