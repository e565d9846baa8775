//! The members of a message: where they stand, what they are, and how they are read.
#![tactic(auto)]

mod captures;
mod kinds;
mod laws;
mod members;
mod policies;
mod rules;
mod source;

pub use captures::Captures;
pub use kinds::{
    AccountList, Check, Digest, Flag, Index, Kind, Mode, Named, Number, OwnedKind, Snapshot, Spell,
    TagList, Volume, Within, Words, copy,
};
pub use laws::{field_laws, query_laws};
pub use members::{Read, Wrong, need};
pub use policies::{Policy, Retention, Schedule, Scheduled, Span, TargetList};
pub use rules::{Period, Rule, RuleTagList};
pub use source::{Found, Source, header, object, pairs, path_and_query, utf8_only};
