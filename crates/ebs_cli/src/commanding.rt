// The commands over the store of a disk.
ghost use Rattle.std.specs.Prelude.{◌≡◌};
ghost use Rattle.ebs_world.specs.View.{View};
ghost use Rattle.ebs_disk_store.specs.Opened.{IsPromising};
ghost use Rattle.ebs_cli.specs.Done.{ChecksAll, CollectsAll, DoneBy, MakesOne, SamplesAll, TicksAll, UsesAll};

use crate::outcome::Outcome;
use ebs_commands::{CommandEnd, check, collect, init, sample, tick, usage};
use ebs_disk_store::Promise;
use ebs_exchanges::life_goes_on;
use ebs_opening::open_or_make;
use ebs_recovery::standing_rests;
use ebs_service::own_calls_stand;
use ebs_world::{Clock, Disk, Sink};
use std::alloc::Global;

/// Runs each policy of the store of a disk.
pub fn tick_on_disk<S: Promise, D: Disk, O: Sink, K: Clock>(
    alloc: Global,
    output: &mut O,
    disk: &mut D,
    clock: &mut K,
) -> Outcome
    requires sound { S.sound → IsPromising (D.view disk.old) }
    ensures { DoneBy D.view ((O.outlet output.new ≡ O.outlet output.old) × (K.ticks clock.new ≡ K.ticks clock.old))
        (TicksAll D.view S.sound disk.old disk.new (K.ticks clock.old).readings (K.ticks clock.new).readings (O.outlet output.old) (O.outlet output.new)) disk.old disk.new result }
{
    life_goes_on();
    own_calls_stand::<S, D>();
    let mut store = match open_or_make::<S, D>(alloc, disk) {
        Ok(store) => store,
        Err(refusal) => return Outcome::Unready(refusal),
    };
    let done = Outcome::Command(tick(alloc, &mut store, disk, output, clock));
    drop(store);
    done
}

/// Collects the store of a disk, with a checkpoint behind the collection, and tells what it uses then.
pub fn collect_on_disk<S: Promise, D: Disk, O: Sink, K: Clock>(
    alloc: Global,
    output: &mut O,
    disk: &mut D,
    clock: &mut K,
) -> Outcome
    requires sound { S.sound → IsPromising (D.view disk.old) }
    ensures { DoneBy D.view ((O.outlet output.new ≡ O.outlet output.old) × (K.ticks clock.new ≡ K.ticks clock.old))
        (CollectsAll D.view S.sound disk.old disk.new (K.ticks clock.old).readings (K.ticks clock.new).readings (O.outlet output.old) (O.outlet output.new)) disk.old disk.new result }
{
    life_goes_on();
    let mut store = match open_or_make::<S, D>(alloc, disk) {
        Ok(store) => store,
        Err(refusal) => return Outcome::Unready(refusal),
    };
    let done = Outcome::Command(collect(alloc, &mut store, disk, output, clock));
    drop(store);
    done
}

/// Tells what the store of a disk uses.
pub fn usage_on_disk<S: Promise, D: Disk, O: Sink>(
    alloc: Global,
    output: &mut O,
    disk: &mut D,
) -> Outcome
    requires sound { S.sound → IsPromising (D.view disk.old) }
    ensures { DoneBy D.view (O.outlet output.new ≡ O.outlet output.old)
        (UsesAll D.view disk.old disk.new (O.outlet output.old) (O.outlet output.new)) disk.old disk.new result }
{
    let store = match open_or_make::<S, D>(alloc, disk) {
        Ok(store) => store,
        Err(refusal) => return Outcome::Unready(refusal),
    };
    let done = Outcome::Command(usage(alloc, &store, output));
    drop(store);
    done
}

/// Checks each block of the store of a disk.
pub fn check_on_disk<S: Promise, D: Disk, O: Sink>(
    alloc: Global,
    output: &mut O,
    disk: &mut D,
) -> Outcome
    requires sound { S.sound → IsPromising (D.view disk.old) }
    ensures { DoneBy D.view (O.outlet output.new ≡ O.outlet output.old)
        (ChecksAll D.view S.sound disk.old disk.new (O.outlet output.old) (O.outlet output.new)) disk.old disk.new result }
{
    let mut store = match open_or_make::<S, D>(alloc, disk) {
        Ok(store) => store,
        Err(refusal) => return Outcome::Unready(refusal),
    };
    let done = Outcome::Command(check(alloc, &mut store, disk, output));
    drop(store);
    done
}

/// Makes the store of a disk with this secret.
pub fn init_on_disk<S: Promise, D: Disk, O: Sink>(
    alloc: Global,
    output: &mut O,
    disk: &mut D,
    secret: [u8; 32],
) -> CommandEnd
    ensures { MakesOne S.sound (D.view disk.old) (D.view disk.new) secret (O.outlet output.old) (O.outlet output.new) result }
{
    own_calls_stand::<S, D>();
    init::<S, D, O>(alloc, disk, output, secret)
}

/// Makes the store of a disk, gives it the calls of so many rounds, and collects it, with a checkpoint.
pub fn sample_on_disk<S: Promise, D: Disk, O: Sink>(
    alloc: Global,
    output: &mut O,
    disk: &mut D,
    rounds: u16,
) -> CommandEnd
    ensures { SamplesAll D.view S.sound rounds disk.old disk.new (O.outlet output.old) (O.outlet output.new) result }
{
    life_goes_on();
    standing_rests();
    own_calls_stand::<S, D>();
    sample::<S, D, O>(alloc, disk, output, rounds)
}
