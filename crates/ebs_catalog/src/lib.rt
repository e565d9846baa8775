//! The rows of all accounts: what they decide of a request, and what becomes of them by a change.
#![tactic(auto)]

mod alterations;
mod blocks;
mod catalog;
mod changes;
mod copies;
mod counts;
mod decides;
mod deletions;
mod disks;
mod locks;
mod permissions;
mod policies;
mod repeats;
mod rooms;
mod rows;
mod rules;
mod runs;
mod shows;
mod snapped;
mod tiers;
mod views;
mod volumes;

pub use catalog::Catalog;
pub use rooms::{Room, RuleRoom};
pub use rows::{AccountRow, KeptRow, NewToken, SnapRows};
