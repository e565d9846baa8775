//! What has to hold between the parts of a checkpoint.
#![tactic(auto)]

mod arrays;
mod nodes;
mod states;

pub use arrays::arrays_fit;
pub use nodes::{are_forest, names, set_of};
pub use states::states_fit;
