// What rows decide of a request.
use crate::answer::Answer;
use crate::keys::{Account, Ids, Moment};
use crate::request::Request;
use crate::tags::Accounts;

/// A change of the rows: who asks for it, when and by which request, whose block's bytes are left out. `made` has the
/// ids that it makes, `sources` what each of them is made of, `ended` the snapshots that go to the bin or are gone,
/// `released` those that are released from their policy, and `shared` the accounts that a snapshot is shared with
/// afterwards, where the request is about that.
#[derive(Debug, Drop)]
pub struct Change {
    pub account: Account,
    pub at: Moment,
    pub request: Request,
    pub made: Ids,
    pub sources: Ids,
    pub ended: Ids,
    pub released: Ids,
    pub shared: Accounts,
}

/// What is known of the rows whose blocks are listed, compared or read: the size in GiB of the row that is read, the
/// second of a comparison, and whether the two rows of a comparison are of one line.
#[derive(Clone, Copy, Debug, PartialEq, Eq)]
pub struct ReadRow {
    pub size: u32,
    pub related: bool,
}

/// What rows decide of a request that passes its own tests.
#[derive(Debug, Drop)]
pub enum Decision {
    /// The rows change, and this is answered.
    Change(Change, Answer),
    /// The answer of the call that this one repeats.
    Kept(Answer),
    /// Rows are shown.
    View(Answer),
    /// Blocks decide the rest.
    Read(ReadRow),
}
