//! Sessions and commands over a disk in memory that fails at one of its calls or is stopped at a moment, and what came of them.
#![tactic(auto)]

mod failing;
mod messages;
mod play;
mod reply;
mod stopped;

pub use failing::{Outcome, fail_at, refused_pairs};
pub use messages::{BLOCK, Call, MORE, SCRIPT, Upload};
pub use play::{Ended, command, has_all, input_of, is_block, session, session_at};
pub use reply::{Reply, replies};
pub use stopped::{PICKS, is_done, play_script, survive};
