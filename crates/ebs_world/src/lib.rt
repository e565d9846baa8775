//! The outside: sources, sinks and clocks, their forms in memory, and the real ones.
#![tactic(auto)]

mod area;
mod areas;
mod crash;
mod disk;
mod durable;
mod faults;
mod folder;
mod log;
mod memory;
mod memory_disk;
mod real;
mod traits;

pub use area::Area;
pub use crash::CrashPick;
pub use disk::Disk;
pub use durable::write_durably;
pub use faults::Failed;
pub use folder::FolderDisk;
pub use memory::{ListClock, MemorySink, MemorySource};
pub use memory_disk::MemoryDisk;
pub use real::{StdSink, StdSource, SystemClock};
pub use traits::{Clock, Sink, Source};
