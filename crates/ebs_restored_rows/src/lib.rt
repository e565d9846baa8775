//! The tables of rows, made of what a checkpoint says.
#![tactic(auto)]

mod accounts;
mod books;
mod laws;
mod owned;
mod snapshots;
mod tables;

pub use laws::{lists_say_rows, rules_let_restore};
pub use tables::catalog_of;
