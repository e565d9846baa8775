//! The kept form of the snapshot machine: its rows, and arrays whose blocks have digests and no bytes.
#![tactic(auto)]

mod calls;
mod checksums;
mod collecting;
mod kept;
mod lists;
mod nodes;
mod place;
mod stamps;

pub use kept::{Kept, Reserved};
pub use place::Place;
