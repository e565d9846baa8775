//! Checkpoints as bytes: each has one spelling.
#![tactic(auto)]

mod checkpoint;
mod laws;
mod nodes;
mod owned;
mod points;
mod snapshots;

pub use checkpoint::{Checkpoint, PolicyRows, RuleRows};
pub use laws::one_checkpoint_spelling;
pub use nodes::{CopyRow, CopyRows, EntryRow, EntryRows, NodeRow, NodeRows, SlotRow, SlotRows};
pub use owned::{AccountRow, AccountRows, TokenPoint, TokenPoints, VolPoint, VolPoints};
pub use points::{read_checkpoint, write_checkpoint};
pub use snapshots::{IndexList, SnapPoint, SnapPoints};
