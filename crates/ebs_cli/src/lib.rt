//! The command line of the snapshot store.
#![tactic(auto)]

mod command;
mod commanding;
mod outcome;
mod playing;

pub use command::run;
