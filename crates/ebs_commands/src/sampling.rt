// A sample: a new store, and calls on it.
ghost use Rattle.std.specs.Prelude.{◌≡◌, ◌⊎◌, IfOk, IfErr, true, ◌<◌, ◌^◌, length};
ghost use Rattle.ebs_recovery.specs.inner.Fits.{Fits};
ghost use Rattle.ebs_disk_store.specs.Opened.{KeepsMade};
ghost use Rattle.ebs_commands.specs.Samples as spec;
ghost use Rattle.ebs_commands.specs.inner.Samples.{Gives, GivesAll, GivesAndCollects, Samples};
ghost use Rattle.ebs_commands.specs.declared.ending.CommandEnd.TheVariants as ends;
ghost use Rattle.ebs_commands.specs.Ticks as ticks;
ghost use Rattle.ebs_commands.specs.inner.Ticks.{end_of};

use crate::calls::call;
use crate::collecting::collect_store;
use crate::ending::{CommandEnd, put_line};
use crate::lines::sample_lines;
use crate::making::make;
use crate::rounds::{SampleCall, moment_in, moment_of, owner, request_of, sample_calls};
use ebs_disk_store::{Promise, Store, Usage};
use ebs_model::{Answer, Moment, Refusal};
use ebs_world::{Disk, Sink};
use std::alloc::Global;

/// What is counted of a sample: the calls that were accepted, and what is used behind them.
#[derive(Clone, Copy)]
struct Counts {
    accepted: u64,
    usage: Usage,
}

/// Whether an answer is no refusal; or why the calls end with it.
fn is_accepted(answer: &Answer) -> Result<bool, CommandEnd>
    ensures goes_on { IfOk result (λ accepted. (accepted ≡ spec.is_accepted answer.now) × (ticks.goes_on answer.now ≡ true)) }
    ensures stop { IfErr result (λ end. ((end ≡ ends.Memory) × (answer.now ≡ Answer.Memory)) ⊎ ((end ≡ ends.DiskFailed) × (answer.now ≡ Answer.Refused Refusal.Unavailable))) }
{
    match answer {
        Answer::Refused(Refusal::Unavailable) => Err(CommandEnd::DiskFailed),
        Answer::Memory => Err(CommandEnd::Memory),
        Answer::Refused(_) => Ok(false),
        _ => Ok(true),
    }
}

/// Whether a call of a sample was accepted.
fn give<S: Promise, D: Disk>(
    alloc: Global,
    store: &mut Store<S>,
    disk: &mut D,
    asked: SampleCall,
) -> Result<bool, CommandEnd>
    requires fits { Fits S.sound (D.view disk.old) store.old }
    ensures fits { Fits S.sound (D.view disk.new) store.new }
    ensures gives { Gives D.view S.sound result asked disk.old store.old disk.new store.new }
{
    let Ok(request) = request_of(alloc, asked) else {
        return Err(CommandEnd::Memory);
    };
    let answer = call(store, disk, owner(), moment_of(asked), request);
    let accepted = is_accepted(&answer);
    drop(answer);
    accepted
}

/// How many of the calls were accepted.
fn give_each<S: Promise, D: Disk>(
    alloc: Global,
    store: &mut Store<S>,
    disk: &mut D,
    calls: &[SampleCall],
) -> Result<u64, CommandEnd>
    requires few { length calls.now < 2 ^ 43 }
    requires fits { Fits S.sound (D.view disk.old) store.old }
    ensures gives { GivesAll D.view S.sound result calls.now disk.old store.old disk.new store.new }
    ensures fits { Fits S.sound (D.view disk.new) store.new }
{
    let mut accepted = 0;
    for asked in calls {
        accepted += u64::from(give(alloc, store, disk, *asked)?);
    }
    Ok(accepted)
}

/// How many of the calls were accepted, and what is used once the store was collected at this moment behind them, with a
/// checkpoint. It is let go then.
fn give_and_collect<S: Promise, D: Disk>(
    alloc: Global,
    mut store: Store<S>,
    disk: &mut D,
    calls: &[SampleCall],
    reading: Moment,
) -> Result<Counts, CommandEnd>
    requires few { length calls.now < 2 ^ 43 }
    requires fits { Fits S.sound (D.view disk.old) store }
    ensures gives { GivesAndCollects D.view S.sound result calls.now reading disk.old store disk.new }
{
    let accepted = give_each(alloc, &mut store, disk, calls)?;
    match collect_store(&mut store, disk, reading) {
        Ok(()) => Ok(Counts {
            accepted,
            usage: store.usage(),
        }),
        Err(end) => Err(end),
    }
}

fn sample_and_print<S: Promise, D: Disk, O: Sink>(
    alloc: Global,
    disk: &mut D,
    output: &mut O,
    rounds: u16,
) -> Result<(), CommandEnd>
    ensures sampled { Samples D.view S.sound (end_of result) rounds disk.old disk.new (O.outlet output.old) (O.outlet output.new) }
    ensures kept { KeepsMade (D.view disk.old) (D.view disk.new) }
{
    let Ok(calls) = sample_calls(alloc, rounds) else {
        return Err(CommandEnd::Memory);
    };
    let store = make::<S, D>(alloc, disk, [0; 32])?;
    let counts = give_and_collect(alloc, store, disk, calls.as_slice(), moment_in(rounds))?;
    let Ok(lines) = sample_lines(alloc, calls.len() as u64, counts.accepted, counts.usage) else {
        return Err(CommandEnd::Memory);
    };
    put_line(output, lines.as_bytes())
}

/// Makes a store with a secret of zeros, gives it the calls of so many rounds, each at its moment, collects it at the moment of
/// the last, with a checkpoint; and prints how many calls there were, how many were accepted, and what is used then.
pub fn sample<S: Promise, D: Disk, O: Sink>(
    alloc: Global,
    disk: &mut D,
    output: &mut O,
    rounds: u16,
) -> CommandEnd
    ensures sampled { Samples D.view S.sound result rounds disk.old disk.new (O.outlet output.old) (O.outlet output.new) }

    // Over a store that was made nothing is written, however it ends.
    ensures kept { KeepsMade (D.view disk.old) (D.view disk.new) }
{
    match sample_and_print::<S, D, O>(alloc, disk, output, rounds) {
        Ok(()) => CommandEnd::Done,
        Err(end) => end,
    }
}
