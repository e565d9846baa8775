// What turns leave in the line.
use ebs_disk_store::{Loaded, Progress};
use ebs_model::{Account, Moment, Request};
use ebs_slots::Prepared;
use std::snapshot::Snapshot;

/// What a turn did.
#[derive(Drop)]
pub enum Item<D> {
    /// It answered this call of an account, at a reading of the clock, by what the call came to: that is judged behind the turn.
    Entry(Account, Moment, Snapshot<Request>, Snapshot<Loaded>),
    /// The disk failed, which was so before and so after.
    Fault(Snapshot<D>, Snapshot<D>),
    /// Time passed until a reading of the clock, and of the blocks that waited so many were looked at, after which some still wait or none.
    Tick(Moment, u32, Progress),
    /// A checkpoint was written, or passed over since so few records stood behind the last one; so many stand behind the last one then.
    Saving(u64),
    /// No checkpoint can be written: it would be too long, or the journal's epochs are used up.
    Full,
    /// This block was staged, for a put in a later turn of the same pass.
    Staged(Snapshot<Prepared>),
    /// Nothing, for want of memory.
    Blank,
}
