//! A session: messages in, answers out, whatever it is that answers them.
#![tactic(auto)]

mod answering;
mod end;
mod laws;
mod pieces;
mod responder;
mod serving;

pub use answering::session;
pub use end::End;
pub use laws::statuses;
pub use responder::Responder;
