//! The desk of a server: a store with its disk, at which passes take turns, and one history of their calls.
#![tactic(auto)]

mod desk;
mod item;
mod laws;
mod leaving;
mod one_turn;
mod saving;
mod shelf;
mod task;
mod two_turns;

pub use desk::{Desk, Pass, Receipt, TurnRefusal};
pub use item::Item;
pub use laws::turns_leave_fronts;
pub use shelf::Shelf;
