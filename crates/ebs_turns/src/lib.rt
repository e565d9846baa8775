//! Passes that take turns at one value, and one line of turns for all of them.
#![tactic(auto)]

mod line;
mod plays;
mod seats;
mod subject;
mod turns;

pub use line::{Deed, Left, Turn};
pub use seats::{Opening, Place, Rule, View};
pub use subject::Subject;
pub use turns::{Pass, Turns};
