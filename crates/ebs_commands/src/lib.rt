//! The commands that aren't a session, over a store on a disk.
#![tactic(auto)]

mod calls;
mod checking;
mod collecting;
mod ending;
mod lines;
mod making;
mod rounds;
mod sampling;
mod ticking;

pub use checking::check;
pub use collecting::{collect, usage};
pub use ending::CommandEnd;
pub use making::init;
pub use sampling::sample;
pub use ticking::tick;
