//! What messages, a session and words of the command line come to, by worked cases.
#![tactic(auto)]

#[cfg(test)]
mod tests;
