// The entries of the lists of blocks.
use crate::text::Text;
use ebs_tables::Sequence;

/// A block of a snapshot: its index, and the token with which it is read (EBS direct APIs reference,
/// ListSnapshotBlocks).
#[derive(Debug, Drop)]
pub struct BlockEntry {
    pub index: u32,
    pub token: Text,
}

/// Blocks of a snapshot, in ascending index.
pub type BlockEntries = Sequence<BlockEntry>;

/// An index at which two snapshots differ, with the token of each that has a block there (EBS direct APIs reference,
/// ListChangedBlocks).
#[derive(Debug, Drop)]
pub struct ChangedToken {
    pub index: u32,
    pub first: Option<Text>,
    pub second: Option<Text>,
}

/// Where two snapshots differ, in ascending index.
pub type ChangedTokens = Sequence<ChangedToken>;
