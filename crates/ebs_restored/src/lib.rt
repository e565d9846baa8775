//! The store's tables, made of what a checkpoint says.
#![tactic(auto)]

mod copies;
mod holders;
mod holdings;
mod restoring;

pub use copies::has_no_copies;
pub use holders::holders_of;
pub use holdings::holdings_of;
pub use restoring::restore;
