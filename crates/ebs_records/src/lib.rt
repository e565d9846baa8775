//! What the store keeps on a disk, as bytes: each value has one spelling.
#![tactic(auto)]

mod calls;
mod choices;
mod codec;
mod input;
mod keys;
mod laws;
mod limits;
mod lists;
mod locks;
mod names;
mod numbers;
mod pair;
mod policies;
mod policy_calls;
mod record;
mod records;
mod rule_calls;
mod states;

pub use calls::ChangingCall;
pub use codec::{Codec, Unread};
pub use input::Input;
pub use laws::one_spelling;
pub use record::{AcceptedCall, Record, Transfer};
pub use records::{Read, read_record, write_advance, write_record};
