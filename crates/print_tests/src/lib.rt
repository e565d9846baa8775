//! The texts of answers, written out from their format.
#![tactic(auto)]

#[cfg(test)]
mod tests;
