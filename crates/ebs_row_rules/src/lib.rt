//! The rules that hold between the parts of a checkpoint.
#![tactic(auto)]

mod counts;
mod limits;
mod number_lists;
mod order;
mod owners;
mod slots;
mod stamps;

pub use counts::are_in_quotas;
pub use limits::is_within;
pub use order::is_ordered;
pub use owners::is_owned;
pub use slots::is_stored;
