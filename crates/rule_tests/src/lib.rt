//! What tables, the tests on a snapshot's row, locks, tiers, the bin, lifecycle policies, tokens and lists do, by worked cases.
#![tactic(auto)]

#[cfg(test)]
mod tests;
