// What is said of a block that is put.
ghost use Rattle.std.specs.Prelude.{◌≡◌, not, nat_eq, []};
ghost use Rattle.std.specs.Cmp.Lexicographic.{pointwise};
ghost use Rattle.ebs_model.specs.declared.answer.Refusal.TheVariants.{Checksum};
ghost use Rattle.ebs_model.specs.Refuse.{refuse_if};
ghost use Rattle.ebs_model.specs.inner.Follows.{Agrees};
ghost use Rattle.ebs_records.specs.Fields.{IsDigest};
ghost use Rattle.ebs_disk_store.specs.inner.Puts.{index_of, refuse_head, stated_in, with_bytes};

use crate::turning::bad_parameter;
use ebs_model::{Bytes, Failure, Refusal, Request, SnapKey, VolKey};
use std::alloc::Global;

// An index has at most ten digits.
const MOST_INDEX: u64 = 9_999_999_999;

/// Where a block is put, and the SHA-256 that is stated of it: at an index of an open upload, or of a volume.
#[derive(Clone, Copy, Debug)]
pub enum PutHead {
    Snapshot {
        key: SnapKey,
        index: u64,
        digest: [u8; 32],
    },
    Volume {
        key: VolKey,
        index: u64,
        digest: [u8; 32],
    },
}

impl PutHead {
    pub(crate) fn index(&self) -> u64
        ensures { result ≡ index_of self.now }
    {
        match self {
            PutHead::Snapshot { index, .. } => *index,
            PutHead::Volume { index, .. } => *index,
        }
    }

    pub(crate) fn digest(&self) -> [u8; 32]
        ensures { result ≡ stated_in self.now }
    {
        match self {
            PutHead::Snapshot { digest, .. } => *digest,
            PutHead::Volume { digest, .. } => *digest,
        }
    }

    // The request without the block's bytes.
    pub(crate) fn request(&self, alloc: Global) -> Request
        ensures { result ≡ with_bytes self.now [] }
    {
        let bytes = Bytes::from_vec(Vec::new(alloc));
        match self {
            PutHead::Snapshot { key, index, digest } => Request::PutSnapshotBlock {
                key: *key,
                index: *index,
                digest: *digest,
                bytes,
            },
            PutHead::Volume { key, index, digest } => Request::WriteVolumeBlock {
                key: *key,
                index: *index,
                digest: *digest,
                bytes,
            },
        }
    }
}

// Refuses an index of more than ten digits, then a block whose digest isn't the stated one.
pub(crate) fn check_head(alloc: Global, head: &PutHead, found: [u8; 32]) -> Result<(), Failure>
    ensures { Agrees result (refuse_head head.now found) }
{
    if head.index() > MOST_INDEX {
        return Err(bad_parameter(alloc, "blockIndex"));
    }
    match check_digest(head.digest(), found) {
        Ok(()) => Ok(()),
        Err(refusal) => Err(Failure::Refused(refusal)),
    }
}

// A digest or checksum that is stated is the one that was found.
pub(crate) fn check_digest(stated: [u8; 32], found: [u8; 32]) -> Result<(), Refusal>
    ensures { result ≡ refuse_if (not (pointwise nat_eq stated found)) (Checksum stated found) }
{
    if stated == found {
        Ok(())
    } else {
        Err(Refusal::Checksum { stated, found })
    }
}

// Reads a digest, which has 32 bytes.
pub(crate) fn check_size(digest: [u8; 32])
    ensures { IsDigest digest }
{
    let _bytes = digest.as_slice();
}
