//! Which blocks nobody finds any more, and how they are given up a few at a time.
#![tactic(auto)]

mod backlog;
mod judging;
mod laws;

pub use backlog::{Backlog, Progress};
pub use laws::{
    blocks_stay, dropping_leaves_its_line, others_cover, putting_counts,
    putting_leaves_what_it_hides,
};
