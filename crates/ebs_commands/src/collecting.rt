// The collection with its checkpoint, and what is used.
ghost use Rattle.std.specs.Prelude.{◌≡◌};
ghost use Rattle.ebs_recovery.specs.inner.Fits.{Fits};
ghost use Rattle.ebs_commands.specs.Collects.{TellsUsage};
ghost use Rattle.ebs_commands.specs.inner.Collects.{Collects, CollectsAt, CollectsNow, Ended, Failed, IsCollectedOr, after_point, used};
ghost use Rattle.ebs_disk_store.specs.inner.Told.{at_reading};

use crate::ending::{CommandEnd, put_line};
use crate::lines::usage_line;
use ebs_disk_store::{Promise, Store, StoreStop, Usage};
use ebs_laws::time_passes_in_parts;
use ebs_model::Moment;
use ebs_recovery::{fit_tells, one_base};
use ebs_world::{Clock, Disk, Sink};
use std::alloc::Global;

// What is used, told.
fn tell<O: Sink>(alloc: Global, output: &mut O, usage: Usage) -> CommandEnd
    ensures { TellsUsage result usage (O.outlet output.old) (O.outlet output.new) }
{
    let Ok(line) = usage_line(alloc, usage) else {
        return CommandEnd::Memory;
    };
    match put_line(output, line.as_bytes()) {
        Ok(()) => CommandEnd::Done,
        Err(end) => end,
    }
}

/// Prints what is used.
pub fn usage<S: Promise, O: Sink>(alloc: Global, store: &Store<S>, output: &mut O) -> CommandEnd
    ensures { TellsUsage result (used store.now.slots) (O.outlet output.old) (O.outlet output.new) }
{
    tell(alloc, output, store.usage())
}

// The end of a collection whose checkpoint ended so.
fn after_point(point: Result<(), StoreStop>) -> Result<(), CommandEnd>
    ensures { result ≡ after_point point }
{
    match point {
        Ok(()) => Ok(()),
        Err(StoreStop::Unavailable) => Err(CommandEnd::DiskFailed),
        Err(StoreStop::Exhausted) => Err(CommandEnd::Exhausted),
        Err(StoreStop::Memory) => Err(CommandEnd::Memory),
    }
}

/// Gives up what time has ended at a reading, gives back each slot that nothing needs any more, and writes a checkpoint in the
/// place of the records.
pub fn collect_store<S: Promise, D: Disk>(
    store: &mut Store<S>,
    disk: &mut D,
    reading: Moment,
) -> Result<(), CommandEnd>
    requires fits { Fits S.sound (D.view disk.old) store.old }
    ensures fits { Fits S.sound (D.view disk.new) store.new }
    ensures collects { Collects D.view S.sound reading disk.old store.old disk.new store.new }
    ensures end { IsCollectedOr result (Failed S.sound (D.view disk.old) (D.view disk.new) store.old store.new)
        (Ended S.sound (D.view disk.old) (D.view disk.new) store.old store.new (at_reading store.old reading)) }
{
    fit_tells::<D>();
    one_base();
    time_passes_in_parts();
    let Ok(()) = store.collect(disk, reading) else {
        return Err(CommandEnd::DiskFailed);
    };
    let point = store.checkpoint(disk);
    after_point(point)
}

fn collect_and_tell<S: Promise, D: Disk, O: Sink>(
    alloc: Global,
    store: &mut Store<S>,
    disk: &mut D,
    output: &mut O,
    reading: Moment,
) -> CommandEnd
    requires fits { Fits S.sound (D.view disk.old) store.old }
    ensures fits { Fits S.sound (D.view disk.new) store.new }
    ensures collects { CollectsAt D.view S.sound result reading disk.old store.old disk.new store.new (O.outlet output.old) (O.outlet output.new) }
{
    match collect_store(store, disk, reading) {
        Ok(()) => tell(alloc, output, store.usage()),
        Err(end) => end,
    }
}

/// Gives up what time has ended at one reading of the clock, gives back each slot that nothing needs any more, writes a
/// checkpoint in the place of the records, and prints what is used then.
pub fn collect<S: Promise, D: Disk, O: Sink, K: Clock>(
    alloc: Global,
    store: &mut Store<S>,
    disk: &mut D,
    output: &mut O,
    clock: &mut K,
) -> CommandEnd
    requires fits { Fits S.sound (D.view disk.old) store.old }
    ensures fits { Fits S.sound (D.view disk.new) store.new }
    ensures collects { CollectsNow D.view S.sound result (K.ticks clock.old).readings (K.ticks clock.new).readings disk.old store.old disk.new store.new (O.outlet output.old) (O.outlet output.new) }
{
    let reading = clock.now();
    collect_and_tell(alloc, store, disk, output, reading)
}
