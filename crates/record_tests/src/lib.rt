//! How records and checkpoints are spelled and read, and which rules they must meet, by worked cases.
#![tactic(auto)]

#[cfg(test)]
mod tests;
