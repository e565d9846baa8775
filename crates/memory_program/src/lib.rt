//! The program over an input, an output, a disk and a clock in memory, for all that plays it.
#![tactic(auto)]

use ebs_cli::run;
use ebs_world::{ListClock, MemoryDisk, MemorySink, MemorySource};
use std::alloc::Global;

/// Does what the words say, and answers the status.
pub fn run_in_memory(
    alloc: Global,
    words: &[String],
    input: &mut MemorySource,
    output: &mut MemorySink,
    disk: &mut MemoryDisk,
    clock: &mut ListClock,
) -> u8 {
    run(alloc, words, input, output, disk, clock)
}
