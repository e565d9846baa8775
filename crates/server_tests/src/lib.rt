//! What servers do over a disk in memory, by worked cases.
#![tactic(auto)]

#[cfg(test)]
mod tests;
