//! The lists of a checkpoint that a store's tables are written as.
#![tactic(auto)]

mod accounts;
mod copies;
mod fields;
mod gathering;
mod names;
mod nodes;
mod policies;
mod puts;
mod rules;
mod snapshots;
mod standard;
mod tokens;
mod volumes;

pub use accounts::accounts_of;
pub use names::names_of;
pub use policies::policies_of;
pub use rules::rules_of;
pub use snapshots::snapshots_of;
pub use standard::standard_of;
pub use volumes::volumes_of;
