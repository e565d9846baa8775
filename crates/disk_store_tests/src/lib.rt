//! What no clause says of a store on a disk, by worked examples.
#![tactic(auto)]

mod slices;
#[cfg(test)]
mod tests;

pub use slices::slice;
