//! Connections that are answered at a desk.
#![tactic(auto)]

mod bell;
mod clerk;
mod collector;
mod connection;
mod hand;
mod hands;
mod laws;
mod post;
mod serving;
mod status;
mod working;

pub use bell::Bell;
pub use clerk::Clerk;
pub use connection::serve_connection;
pub use laws::turns_are_taken;
pub use post::{Post, PostEnd};
pub use serving::{ServeEnd, serve};
pub use status::serve_status;
