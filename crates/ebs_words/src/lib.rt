//! The words of the command line.
#![tactic(auto)]

mod given;
mod grammar;
mod server;
mod values;
mod words;

pub use given::given_words;
pub use server::read_server_words;
pub use words::{Command, read_words};
