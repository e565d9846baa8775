//! The rows that a lineage's nodes are written as in a checkpoint.
#![tactic(auto)]

mod entries;
mod marks;
mod rows;

pub use rows::rows_of;
