//! The client's side of the calls: the message that asks for each.
#![tactic(auto)]

mod laws;

pub use laws::{each_change_of_permissions_is_held, each_request_has_a_message};
