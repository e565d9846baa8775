//! The store on a disk: one machine whose changes are in a journal, and whose blocks are in slots.
#![tactic(auto)]

mod applying;
mod checking;
mod collecting;
mod creation;
mod following;
mod heads;
mod kinds;
mod loading;
mod mending;
mod opening;
mod pointing;
mod putting;
mod reading;
mod recording;
mod refusal;
mod ruling;
mod staging;
mod store;
mod sweeping;
mod taking;
mod turning;
mod viewing;

pub use applying::recorded_calls_are_asked;
pub use checking::Checked;
pub use collecting::{Progress, Unavailable, Usage};
pub use heads::PutHead;
pub use loading::{Loaded, judge};
pub use pointing::StoreStop;
pub use refusal::OpenRefusal;
pub use store::{Promise, Stop, Store};
