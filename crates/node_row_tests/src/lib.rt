//! Tests of the rows of a lineage's nodes, over the public calls alone.
#![tactic(auto)]

#[cfg(test)]
mod tests;
