//! What is made of messages, by tables of messages.
#![tactic(auto)]

#[cfg(test)]
mod tests;
