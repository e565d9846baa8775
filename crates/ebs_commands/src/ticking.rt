// The runs of all policies.
ghost use Rattle.std.specs.Prelude.{◌≡◌, ◌⊎◌, IfOk, IfErr, OnOk, true, string_bytes, map as list_map};
ghost use Rattle.ebs_model.specs.declared.keys.AnyKey.TheVariants as any;
ghost use Rattle.ebs_recovery.specs.inner.Fits.{Fits};
ghost use Rattle.ebs_commands.specs.inner.Chains.{Applies};
ghost use Rattle.ebs_commands.specs.Lines.{run_line};
ghost use Rattle.ebs_commands.specs.inner.Ticks.{RunsAll, RunsOnce, Ticked, end_of};
ghost use Rattle.ebs_commands.specs.Ticks.{goes_on, policy_keys, run_asked};
ghost use Rattle.ebs_commands.specs.declared.ending.CommandEnd.TheVariants as ends;

use crate::calls::call;
use crate::ending::{CommandEnd, put_line};
use crate::lines::run_line;
use ebs_disk_store::{Promise, Store};
use ebs_model::{Answer, AnyKey, Moment, PolicyKey, Refusal, Request};
use ebs_world::{Clock, Disk, Sink};
use std::alloc::Global;

// One run, as the store answers it.
fn run<S: Promise, D: Disk>(
    store: &mut Store<S>,
    disk: &mut D,
    reading: Moment,
    key: &PolicyKey,
) -> Answer
    requires fits { Fits S.sound (D.view disk.old) store.old }
    ensures fits { Fits S.sound (D.view disk.new) store.new }
    ensures applies { Applies D.view S.sound disk.old store.old (run_asked reading key.now) result disk.new store.new }
{
    call(
        store,
        disk,
        key.account,
        reading,
        Request::RunPolicy { key: *key },
    )
}

// The line of a run; or why it ends the command.
fn line_of(alloc: Global, key: &PolicyKey, answer: &Answer) -> Result<String, CommandEnd>
    ensures line { IfOk result (λ line. string_bytes line ≡ run_line key.now answer.now) }
    ensures on { OnOk result (goes_on answer.now ≡ true) }
    ensures stop { IfErr result (λ end. (end ≡ ends.Memory) ⊎ ((end ≡ ends.DiskFailed) × (answer.now ≡ Answer.Refused Refusal.Unavailable))) }
{
    match answer {
        Answer::Refused(Refusal::Unavailable) => return Err(CommandEnd::DiskFailed),
        Answer::Memory => return Err(CommandEnd::Memory),
        _ => {}
    }
    match run_line(alloc, *key, answer) {
        Ok(line) => Ok(line),
        Err(_) => Err(CommandEnd::Memory),
    }
}

fn run_policy<S: Promise, D: Disk, O: Sink>(
    alloc: Global,
    store: &mut Store<S>,
    disk: &mut D,
    output: &mut O,
    reading: Moment,
    key: &PolicyKey,
) -> Result<(), CommandEnd>
    requires fits { Fits S.sound (D.view disk.old) store.old }
    ensures fits { Fits S.sound (D.view disk.new) store.new }
    ensures ran { RunsOnce D.view S.sound result reading key.now disk.old store.old disk.new store.new (O.outlet output.old) (O.outlet output.new) }
{
    let answer = run(store, disk, reading, key);
    let line = line_of(alloc, key, &answer)?;
    put_line(output, line.as_bytes())
}

fn run_each<S: Promise, D: Disk, O: Sink>(
    alloc: Global,
    store: &mut Store<S>,
    disk: &mut D,
    output: &mut O,
    reading: Moment,
    ids: &[AnyKey],
) -> Result<(), CommandEnd>
    requires fits { Fits S.sound (D.view disk.old) store.old }
    requires policies { ids.now ≡ list_map any.Policy (policy_keys store.old.recorded) }
    ensures fits { Fits S.sound (D.view disk.new) store.new }
    ensures ran { RunsAll D.view S.sound (end_of result) reading (policy_keys store.old.recorded) disk.old store.old disk.new store.new (O.outlet output.old) (O.outlet output.new) }
{
    for id in ids {
        if let AnyKey::Policy(key) = id {
            run_policy(alloc, store, disk, output, reading, key)?;
        }
    }
    Ok(())
}

/// Runs each policy at one reading of the clock, in ascending account and then number, and prints what it made and
/// deleted, or why it was refused.
pub fn tick<S: Promise, D: Disk, O: Sink, K: Clock>(
    alloc: Global,
    store: &mut Store<S>,
    disk: &mut D,
    output: &mut O,
    clock: &mut K,
) -> CommandEnd
    requires fits { Fits S.sound (D.view disk.old) store.old }
    ensures fits { Fits S.sound (D.view disk.new) store.new }
    ensures ticked { Ticked D.view S.sound result (K.ticks clock.old).readings (K.ticks clock.new).readings disk.old store.old disk.new store.new (O.outlet output.old) (O.outlet output.new) }
{
    let reading = clock.now();
    let Ok(policies) = store.policies() else {
        return CommandEnd::Memory;
    };
    match run_each(alloc, store, disk, output, reading, policies.as_slice()) {
        Ok(()) => CommandEnd::Done,
        Err(end) => end,
    }
}
