//! How values are shown in answers: JSON objects and arrays, rows, rules, entries, names and Base64.
#![tactic(auto)]

mod array;
mod entries;
mod ids;
mod laws;
mod names;
mod object;
mod rows;
mod rules;
mod shown;
mod values;

pub use array::array_of;
pub use laws::base64_is_standard;
pub use names::{lock_text, quota_text, spent_text, state_text, tier_text};
pub use object::Object;
pub use rows::row_object;
pub use rules::rule_object;
pub use shown::Shown;
pub use values::{base64_text, put_tags};
