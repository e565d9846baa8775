//! The journal: records behind gates, in two areas of a disk that may crash.
#![tactic(auto)]

mod adding;
mod front;
mod journal;
mod laws;
mod making;
mod opening;
mod reading;
mod records;
mod refusal;
mod replay;
mod turning;

pub use journal::Journal;
pub use laws::{none_refused, one_journal, one_refusal, others_keep};
pub use opening::sync_all;
pub use refusal::{DiskFailed, JournalRefusal};
pub use replay::{Payloads, Places, Replay};
