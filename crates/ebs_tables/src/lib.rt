//! Tables by key and sequences, seen as finite maps and lists.
#![tactic(auto)]

mod filled;
mod key;
mod numbered;
mod numbered_slots;
mod sequence;
mod slots;
mod stamped;
mod table;

pub use filled::Filled;
pub use key::{ExactClone, Key};
pub use numbered::Numbered;
pub use numbered_slots::NumberedSlots;
pub use sequence::Sequence;
pub use slots::Slots;
pub use stamped::Stamped;
pub use table::Table;
