//! What sources, sinks, clocks, disks, the journal and slots do, by worked cases.
#![tactic(auto)]

#[cfg(test)]
mod tests;
