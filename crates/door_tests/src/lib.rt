//! What listeners and connections do, in memory and over loopback, by worked cases.
#![tactic(auto)]

#[cfg(test)]
mod tests;
