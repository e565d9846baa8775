//! What holds of every machine that calls have made: what a checkpoint's rules ask of rows and of arrays. Each law is a function with an empty body.
#![tactic(auto)]

mod answers;
mod laws;

pub use answers::answers_are_own;
pub use laws::{
    arrays_are_kept, calls_keep_laws, empty_is_lawful, runs_are_lawful, time_keeps_laws,
};
