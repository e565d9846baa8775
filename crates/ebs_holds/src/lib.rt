//! Which snapshot or volume has which node, and so the array of blocks that each one has.
#![tactic(auto)]

mod changes;
mod holder;
mod holdings;
mod waiting;

pub use changes::{give_back, replaced, reserve, write};
pub use holder::Holder;
pub use holdings::Holdings;
