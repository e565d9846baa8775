// The top call.
ghost use Rattle.std.specs.Prelude.{◌≡◌, ◌<◌, ◌^◌, ◌⊎◌, ℕ, List, [], length, true, Some, map, string_bytes};
ghost use Rattle.std.specs.Io.KnownBytes.{Appends};
ghost use Rattle.ebs_world.specs.Ends.{AppendsFront};
ghost use Rattle.ebs_model.specs.Quotas.{Rose};
ghost use Rattle.ebs_http.specs.Messages.{Splits};
ghost use Rattle.ebs_http.specs.declared.message.Message.{Message};
ghost use Rattle.ebs_model.specs.Machine.{Machine};
ghost use Rattle.ebs_recovery.specs.Stands.{Stands};
ghost use Rattle.ebs_disk_store.specs.Opened.{IsPromising};
ghost use Rattle.ebs_words.specs.Spellings.{IsSpelled};
ghost use Rattle.ebs_words.specs.declared.words.Command.{Command};
ghost use Rattle.ebs_commands.specs.declared.ending.CommandEnd.{CommandEnd};
ghost use Rattle.ebs_cli.specs.Done.{ChecksAll, CollectsAll, DoneBy, MakesOne, SamplesAll, TicksAll, UsesAll};
ghost use Rattle.ebs_cli.specs.Keeps.{AreWhole, KeepsAll};
ghost use Rattle.ebs_cli.specs.OnDisk.{Played, WentOnDisk};
ghost use Rattle.ebs_cli.specs.Outcomes.{IsWhole, TellsFor, command_at, status_for, usage_text};
ghost use Rattle.ebs_cli.specs.Refusals.{CantBeDone, IsRefused, SaysUndone, WritesCheckpoint};
ghost use Rattle.ebs_cli.specs.declared.outcome.Outcome.{Outcome};

use crate::commanding::{
    check_on_disk, collect_on_disk, init_on_disk, sample_on_disk, tick_on_disk, usage_on_disk,
};
use crate::outcome::Outcome;
use crate::playing::session_on_disk;
use ebs_session::statuses;
use ebs_words::{Command, read_words};
use ebs_world::{Clock, Disk, Sink, Source};
use std::alloc::Global;
use std::marker::Brand;

const USAGE: &[u8] = b"usage: ebs init|session|tick|collect|usage|check|sample\n";

/// Does what the words say, on the store of a disk, and answers the status.
pub fn run<I: Source, O: Sink, D: Disk, K: Clock>(
    alloc: Global,
    words: &[String],
    input: &mut I,
    output: &mut O,
    disk: &mut D,
    clock: &mut K,
) -> u8
    // Status 1 comes exactly where the words are of no command, unless memory ran out.
    ensures words { result ≡ 1 → (command : Command) → IsSpelled command (map string_bytes words.now) → ⊥ }
    ensures other_words { ((command : Command) → IsSpelled command (map string_bytes words.now) → ⊥) → (result ≡ 1) ⊎ (result ≡ 8) }

    // Then the usage text is written, or a front of it where the sink failed, and nothing else is done.
    ensures usage { result ≡ 1 → (I.inlet input.new ≡ I.inlet input.old) × (K.ticks clock.new ≡ K.ticks clock.old) × (disk.new ≡ disk.old)
        × ((Appends (O.outlet output.old).written (O.outlet output.new).written usage_text
        × ((O.outlet output.new).faults ≡ (O.outlet output.old).faults))
        ⊎ (AppendsFront (O.outlet output.old).written (O.outlet output.new).written usage_text
        × Rose (O.outlet output.old).faults (O.outlet output.new).faults)) }
    ensures untouched { ((command : Command) → IsSpelled command (map string_bytes words.now) → ⊥) → result ≡ 8
        → (I.inlet input.new ≡ I.inlet input.old) × (K.ticks clock.new ≡ K.ticks clock.old) × (O.outlet output.new ≡ O.outlet output.old) × (disk.new ≡ disk.old) }

    // A session answers the messages that it takes, by the store of the disk, and ends in one of seven ways, each with its status; or the
    // store can't be used.
    ensures session { IsSpelled Command.Session (map string_bytes words.now) → (done : Outcome) × (result ≡ status_for done)
        × Played ((I.inlet input.new ≡ I.inlet input.old) × (O.outlet output.new ≡ O.outlet output.old) × (K.ticks clock.new ≡ K.ticks clock.old))
        (λ xs. WentOnDisk (D.view disk.old) (D.view disk.new) xs × KeepsAll D.view (IsPromising (D.view disk.old)) disk.old disk.new xs × AreWhole xs) (D.view disk.old) (D.view disk.new) (I.inlet input.old).left (I.inlet input.new).left
        (O.outlet output.old).written (O.outlet output.new).written (K.ticks clock.old).readings (K.ticks clock.new).readings done }

    // Of a session status 4 comes exactly where the source's count of faults rose, and 5 where the sink's did; the other
    // count stands. At status 8 both stand.
    ensures source_fault { IsSpelled Command.Session (map string_bytes words.now) → result ≡ 4 → Rose (I.inlet input.old).faults (I.inlet input.new).faults
        × ((O.outlet output.new).faults ≡ (O.outlet output.old).faults) }
    ensures sink_fault { IsSpelled Command.Session (map string_bytes words.now) → result ≡ 5 → Rose (O.outlet output.old).faults (O.outlet output.new).faults
        × ((I.inlet input.new).faults ≡ (I.inlet input.old).faults) }
    ensures source_rose { IsSpelled Command.Session (map string_bytes words.now) → (I.inlet input.old).faults < (I.inlet input.new).faults → result ≡ 4 }
    ensures sink_rose { IsSpelled Command.Session (map string_bytes words.now) → (O.outlet output.old).faults < (O.outlet output.new).faults → result ≡ 5 }
    ensures no_fault { IsSpelled Command.Session (map string_bytes words.now) → result ≡ 8 → ((I.inlet input.new).faults ≡ (I.inlet input.old).faults)
        × ((O.outlet output.new).faults ≡ (O.outlet output.old).faults) }

    // `init` makes the store with its secret; `sample` makes one, gives it its calls and collects it, with a checkpoint behind all, and a disk's life begins so.
    ensures init { (secret : List ℕ) → IsSpelled (Command.Init secret) (map string_bytes words.now) → (end : CommandEnd) × (result ≡ command_at end)
        × MakesOne (Unit {0}) (D.view disk.old) (D.view disk.new) secret (O.outlet output.old) (O.outlet output.new) end }
    ensures sample { (rounds : ℕ) → IsSpelled (Command.Sample rounds) (map string_bytes words.now) → (end : CommandEnd) × (result ≡ command_at end)
        × SamplesAll D.view (Unit {0}) rounds disk.old disk.new (O.outlet output.old) (O.outlet output.new) end }

    // `tick` runs each policy of the disk's store, and the disk's life goes on by these runs; `check` reads each block.
    ensures tick { IsSpelled Command.Tick (map string_bytes words.now) → (done : Outcome) × (result ≡ status_for done)
        × DoneBy D.view ((O.outlet output.new ≡ O.outlet output.old) × (K.ticks clock.new ≡ K.ticks clock.old))
        (TicksAll D.view (IsPromising (D.view disk.old)) disk.old disk.new (K.ticks clock.old).readings (K.ticks clock.new).readings (O.outlet output.old) (O.outlet output.new)) disk.old disk.new done }
    ensures check { IsSpelled Command.Check (map string_bytes words.now) → (done : Outcome) × (result ≡ status_for done)
        × DoneBy D.view (O.outlet output.new ≡ O.outlet output.old)
        (ChecksAll D.view (IsPromising (D.view disk.old)) disk.old disk.new (O.outlet output.old) (O.outlet output.new)) disk.old disk.new done }

    // `collect` gives up what nothing has any more, at one reading of the clock, writes a checkpoint in the place of the records, and tells the usage then; `usage` tells it.
    ensures collect { IsSpelled Command.Collect (map string_bytes words.now) → (done : Outcome) × (result ≡ status_for done)
        × DoneBy D.view ((O.outlet output.new ≡ O.outlet output.old) × (K.ticks clock.new ≡ K.ticks clock.old))
        (CollectsAll D.view (IsPromising (D.view disk.old)) disk.old disk.new (K.ticks clock.old).readings (K.ticks clock.new).readings (O.outlet output.old) (O.outlet output.new)) disk.old disk.new done }
    ensures used { IsSpelled Command.Usage (map string_bytes words.now) → (done : Outcome) × (result ≡ status_for done)
        × DoneBy D.view (O.outlet output.new ≡ O.outlet output.old)
        (UsesAll D.view disk.old disk.new (O.outlet output.old) (O.outlet output.new)) disk.old disk.new done }

    // Only a session takes from the input, and only it, `tick` and `collect` read the clock.
    ensures input { (IsSpelled Command.Session (map string_bytes words.now) → ⊥) → I.inlet input.new ≡ I.inlet input.old }
    ensures clock { (IsSpelled Command.Session (map string_bytes words.now) → ⊥) → (IsSpelled Command.Tick (map string_bytes words.now) → ⊥)
        → (IsSpelled Command.Collect (map string_bytes words.now) → ⊥) → K.ticks clock.new ≡ K.ticks clock.old }

    // Status 2 comes only where the disk's count of faults rose, and 3 where there is no store that can be used, or, of `init` and `sample`, one was made before.
    ensures disk_fault { result ≡ 2 → Rose (D.view disk.old).faults (D.view disk.new).faults }
    ensures refused { result ≡ 3 → (command : Command) × IsSpelled command (map string_bytes words.now) × IsRefused command (D.view disk.old) (D.view disk.new) }

    // Status 12 comes only of `collect` and `sample`, whose clauses say that the checkpoint at their end can't be written.
    ensures exhausted { result ≡ 12 → (command : Command) × IsSpelled command (map string_bytes words.now) × WritesCheckpoint command }

    // The other way, on a disk that tells: `init` and `sample` end with 3 where a store was made, and the others where one was made and none can be read,
    // unless the disk fails or memory runs out.
    ensures refuses { (command : Command) → IsSpelled command (map string_bytes words.now) → (D.view disk.old).tells ≡ true → CantBeDone command (D.view disk.old)
        → SaysUndone result (D.view disk.old) (D.view disk.new) }

    // Whole messages are answered where no count rose and the disk stood for a machine, unless memory ran out.
    ensures complete { IsSpelled Command.Session (map string_bytes words.now) → (text : List ℕ) (messages : List Message)
        → (I.inlet input.old).left ≡ Some text → Splits text messages [] → length text < 2 ^ 40
        → (Rose (I.inlet input.old).faults (I.inlet input.new).faults → ⊥)
        → (Rose (O.outlet output.old).faults (O.outlet output.new).faults → ⊥)
        → (Rose (D.view disk.old).faults (D.view disk.new).faults → ⊥)
        → (D.view disk.old).tells ≡ true → (m : Machine) → Stands (D.view disk.old).reads m
        → (result ≡ 0) ⊎ (result ≡ 8) }
{
    match read_words(alloc, words) {
        Err(_) => 8,
        Ok(Some(command)) => {
            statuses();
            run_command(alloc, command, input, output, disk, clock).status()
        }
        Ok(None) => {
            let _ = output.put(USAGE);
            1
        }
    }
}

/// Does a command.
fn run_command<I: Source, O: Sink, D: Disk, K: Clock>(
    alloc: Global,
    command: Command,
    input: &mut I,
    output: &mut O,
    disk: &mut D,
    clock: &mut K,
) -> Outcome
    ensures session { command ≡ Command.Session
        → Played ((I.inlet input.new ≡ I.inlet input.old) × (O.outlet output.new ≡ O.outlet output.old) × (K.ticks clock.new ≡ K.ticks clock.old))
        (λ xs. WentOnDisk (D.view disk.old) (D.view disk.new) xs × KeepsAll D.view (IsPromising (D.view disk.old)) disk.old disk.new xs × AreWhole xs) (D.view disk.old) (D.view disk.new) (I.inlet input.old).left (I.inlet input.new).left
        (O.outlet output.old).written (O.outlet output.new).written (K.ticks clock.old).readings (K.ticks clock.new).readings result }
    ensures init { (secret : List ℕ) → command ≡ Command.Init secret → (end : CommandEnd) × (result ≡ Outcome.Command end)
        × MakesOne (Unit {0}) (D.view disk.old) (D.view disk.new) secret (O.outlet output.old) (O.outlet output.new) end }
    ensures sample { (rounds : ℕ) → command ≡ Command.Sample rounds → (end : CommandEnd) × (result ≡ Outcome.Command end)
        × SamplesAll D.view (Unit {0}) rounds disk.old disk.new (O.outlet output.old) (O.outlet output.new) end }
    ensures tick { command ≡ Command.Tick
        → DoneBy D.view ((O.outlet output.new ≡ O.outlet output.old) × (K.ticks clock.new ≡ K.ticks clock.old))
        (TicksAll D.view (IsPromising (D.view disk.old)) disk.old disk.new (K.ticks clock.old).readings (K.ticks clock.new).readings (O.outlet output.old) (O.outlet output.new)) disk.old disk.new result }
    ensures check { command ≡ Command.Check
        → DoneBy D.view (O.outlet output.new ≡ O.outlet output.old)
        (ChecksAll D.view (IsPromising (D.view disk.old)) disk.old disk.new (O.outlet output.old) (O.outlet output.new)) disk.old disk.new result }
    ensures collect { command ≡ Command.Collect
        → DoneBy D.view ((O.outlet output.new ≡ O.outlet output.old) × (K.ticks clock.new ≡ K.ticks clock.old))
        (CollectsAll D.view (IsPromising (D.view disk.old)) disk.old disk.new (K.ticks clock.old).readings (K.ticks clock.new).readings (O.outlet output.old) (O.outlet output.new)) disk.old disk.new result }
    ensures used { command ≡ Command.Usage
        → DoneBy D.view (O.outlet output.new ≡ O.outlet output.old)
        (UsesAll D.view disk.old disk.new (O.outlet output.old) (O.outlet output.new)) disk.old disk.new result }
    ensures input { (command ≡ Command.Session → ⊥) → I.inlet input.new ≡ I.inlet input.old }
    ensures clock { (command ≡ Command.Session → ⊥) → (command ≡ Command.Tick → ⊥) → (command ≡ Command.Collect → ⊥) → K.ticks clock.new ≡ K.ticks clock.old }
    ensures disk_fault { status_for result ≡ 2 → Rose (D.view disk.old).faults (D.view disk.new).faults }
    ensures refused { status_for result ≡ 3 → IsRefused command (D.view disk.old) (D.view disk.new) }
    ensures exhausted { status_for result ≡ 12 → WritesCheckpoint command }
    ensures refuses { (D.view disk.old).tells ≡ true → CantBeDone command (D.view disk.old) → SaysUndone (status_for result) (D.view disk.old) (D.view disk.new) }
    ensures tells { command ≡ Command.Session → TellsFor result (I.inlet input.old).faults (I.inlet input.new).faults (O.outlet output.old).faults (O.outlet output.new).faults }
    ensures complete { command ≡ Command.Session → (text : List ℕ) (messages : List Message) → (I.inlet input.old).left ≡ Some text → Splits text messages [] → length text < 2 ^ 40
        → (Rose (I.inlet input.old).faults (I.inlet input.new).faults → ⊥)
        → (Rose (O.outlet output.old).faults (O.outlet output.new).faults → ⊥)
        → (Rose (D.view disk.old).faults (D.view disk.new).faults → ⊥)
        → (D.view disk.old).tells ≡ true → (m : Machine) → Stands (D.view disk.old).reads m
        → IsWhole result }
{
    match command {
        Command::Session => session_on_disk::<Brand, _, _, _, _>(alloc, input, output, disk, clock),
        Command::Init { secret } => {
            Outcome::Command(init_on_disk::<Brand, _, _>(alloc, output, disk, secret))
        }
        Command::Tick => tick_on_disk::<Brand, _, _, _>(alloc, output, disk, clock),
        Command::Collect => collect_on_disk::<Brand, _, _, _>(alloc, output, disk, clock),
        Command::Usage => usage_on_disk::<Brand, _, _>(alloc, output, disk),
        Command::Check => check_on_disk::<Brand, _, _>(alloc, output, disk),
        Command::Sample { rounds } => {
            Outcome::Command(sample_on_disk::<Brand, _, _>(alloc, output, disk, rounds))
        }
    }
}
