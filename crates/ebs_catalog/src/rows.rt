// Rows as they are kept.
use ebs_model::{IndexSlots, Own, Request, SnapRow, TokenKey};
use ebs_tables::Sequence;

/// A snapshot's row with the indexes that were put in its upload, and those that are ready to be. The row's own set is
/// empty.
#[derive(Debug, Drop)]
pub struct KeptRow {
    pub row: SnapRow,
    pub put: IndexSlots,
}

/// What an account has, how many rows of its snapshots stand in the table, those that time has ended among them, how many
/// volumes it has, and how many client tokens it has used.
#[derive(Clone, Copy, Debug)]
pub struct AccountRow {
    pub own: Own,
    pub rows: u64,
    pub volumes: u64,
    pub tokens: u64,
}

/// Rows of snapshots that a change will make, with the memory that they take.
pub type SnapRows = Sequence<SnapRow>;

/// A client token that a change will keep, and the call that it was used for once more: with them no memory is taken.
#[derive(Debug, Drop)]
pub struct NewToken {
    pub key: TokenKey,
    pub first: Request,
}
