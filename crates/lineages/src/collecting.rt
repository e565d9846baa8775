// Steps that collect.
use crate::played::Played;
use crate::step::Collect;
use ebs_collect::Progress;
use std::io;

pub fn collect(rt: &HostRuntime, played: &mut Played, step: Collect) -> io::Result<()> {
    match step {
        Collect::All(work) => {
            let slices = collect_all(played, work);
            println!(rt; "{slices} slices, {} slots", played.used())
        }
        Collect::Slice(work) => match played.collect(work) {
            Progress::More => println!(rt; "more"),
            Progress::Finished => println!(rt; "finished"),
        },
        Collect::Slots => println!(rt; "{} slots, {} wait", played.used(), played.waiting()),
    }
}

// How many slices of so many blocks there are until nothing waits.
fn collect_all(played: &mut Played, work: u32) -> u32 {
    for slices in 1..u32::MAX {
        match played.collect(work) {
            Progress::More => {}
            Progress::Finished => return slices,
        }
    }
    u32::MAX
}
