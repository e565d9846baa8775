//! From an HTTP message to a call of the EBS direct APIs.
#![tactic(auto)]

mod calls;
mod laws;
mod policies;
mod routes;
mod rules;
mod table;
mod volumes;

pub use ebs_print::{memory_answer, write_answer};
pub use laws::{member_laws, order_laws};
pub use routes::Routes;
