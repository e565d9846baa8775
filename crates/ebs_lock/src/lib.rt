//! Snapshot locks: what a lock is at a moment, and what a command makes of it (EBS User Guide, snapshot lock).
#![tactic(auto)]

mod laws;
mod lock;

pub use ebs_model::{LockCommand, LockMode, LockRefusal, Term};
pub use laws::{compliance_lasts, expired_is_none};
pub use lock::lock_change;
