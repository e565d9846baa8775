// A session over the store of a disk.
ghost use Rattle.std.specs.Prelude.{◌≡◌, ◌⊎◌, ◌<◌, ◌^◌, ℕ, List, [], length, true, None, Some, IfOk, IfErr};
ghost use Rattle.ebs_model.specs.Quotas.{Rose};
ghost use Rattle.ebs_world.specs.Image.{Everywhere};
ghost use Rattle.ebs_world.specs.View.{Leaves, Ran};
ghost use Rattle.ebs_http.specs.Messages.{Splits};
ghost use Rattle.ebs_http.specs.declared.message.Message.{Message};
ghost use Rattle.ebs_journal.specs.Opening.{OffMaking};
ghost use Rattle.ebs_model.specs.Machine.{Machine};
ghost use Rattle.ebs_recovery.specs.inner.Fits.{Fits};
ghost use Rattle.ebs_recovery.specs.Stands.{Stands};
ghost use Rattle.ebs_disk_store.specs.Opened.{IsMarked, IsPromising};
ghost use Rattle.ebs_disk_store.specs.inner.Opened.{MayRefuse};
ghost use Rattle.ebs_session.specs.Session.{Session, TellsOf};
ghost use Rattle.ebs_opening.specs.Opens.{AllStand, IsUnready};
ghost use Rattle.ebs_opening.specs.inner.Opens.{Has, IsReadOrNew};
ghost use Rattle.ebs_cli.specs.inner.Keeps.{AnswersAll, FallsApart};
ghost use Rattle.ebs_cli.specs.Keeps.{AreWhole, KeepsAll};
ghost use Rattle.ebs_cli.specs.inner.OnDisk.{AnsweredBy, WentWhere};
ghost use Rattle.ebs_cli.specs.OnDisk.{Played};
ghost use Rattle.ebs_cli.specs.Outcomes.{IsWhole, TellsFor};

use crate::outcome::Outcome;
use ebs_disk_store::{OpenRefusal, Promise};
use ebs_exchanges::{life_goes_on, read_back, run_is_of_calls};
use ebs_opening::open_or_make;
use ebs_service::{Service, answers_stay, failures_are_counted, sessions_stand};
use ebs_session::{End, session};
use ebs_world::{Clock, Disk, Sink, Source};
use std::alloc::Global;

/// How many bytes a session takes.
const LIMIT: u64 = 1 << 40;

/// Answers the messages of the input by the store of a disk, up to the end of the input.
pub fn session_on_disk<S: Promise, I: Source, O: Sink, D: Disk, K: Clock>(
    alloc: Global,
    input: &mut I,
    output: &mut O,
    disk: &mut D,
    clock: &mut K,
) -> Outcome
    requires sound { S.sound → IsPromising (D.view disk.old) }
    ensures played { Played ((I.inlet input.new ≡ I.inlet input.old) × (O.outlet output.new ≡ O.outlet output.old) × (K.ticks clock.new ≡ K.ticks clock.old))
        (λ xs. WentWhere S.sound (D.view disk.old) (D.view disk.new) xs × KeepsAll D.view S.sound disk.old disk.new xs × AreWhole xs) (D.view disk.old) (D.view disk.new) (I.inlet input.old).left (I.inlet input.new).left
        (O.outlet output.old).written (O.outlet output.new).written (K.ticks clock.old).readings (K.ticks clock.new).readings result }
    ensures tells { TellsFor result (I.inlet input.old).faults (I.inlet input.new).faults (O.outlet output.old).faults (O.outlet output.new).faults }

    // Whole messages are answered where no count rose and the disk stood for a machine, unless memory ran out.
    ensures complete { (text : List ℕ) (messages : List Message) → (I.inlet input.old).left ≡ Some text → Splits text messages [] → length text < 2 ^ 40
        → (Rose (I.inlet input.old).faults (I.inlet input.new).faults → ⊥)
        → (Rose (O.outlet output.old).faults (O.outlet output.new).faults → ⊥)
        → (Rose (D.view disk.old).faults (D.view disk.new).faults → ⊥)
        → (D.view disk.old).tells ≡ true → (m : Machine) → Stands (D.view disk.old).reads m
        → IsWhole result }
{
    life_goes_on();
    read_back();
    run_is_of_calls();
    match ready_service::<S, D>(alloc, disk) {
        Ok(service) => Outcome::Session(answer_by(alloc, service, input, output, disk, clock)),
        Err(refusal) => Outcome::Unready(refusal),
    }
}

/// What answers messages by the store of a disk.
fn ready_service<S: Promise, D: Disk>(
    alloc: Global,
    disk: &mut D,
) -> Result<Service<S>, OpenRefusal>
    requires sound { S.sound → IsPromising (D.view disk.old) }
    ensures fits { IfOk result (λ service. Fits S.sound (D.view disk.new) service) }
    ensures machine { IfOk result (λ service. (D.view disk.old).tells ≡ true → (D.view disk.old).honest ≡ true → (m : Machine) → Stands (D.view disk.old).reads m → Has (D.view disk.new) service m) }
    ensures read { IfOk result (λ service. (D.view disk.old).tells ≡ true → IsReadOrNew (D.view disk.old) service) }
    ensures clean { IfOk result (λ service. service.pending ≡ None) }
    ensures refused { IfErr result (IsUnready (D.view disk.old) (D.view disk.new)) }
    ensures stood { IfErr result (λ refusal. (D.view disk.old).tells ≡ true → (m : Machine) → Stands (D.view disk.old).reads m → MayRefuse refusal) }
    ensures moments { (D.view disk.old).tells ≡ true → (D.view disk.old).honest ≡ true → (m : Machine) → Stands (D.view disk.old).reads m → AllStand (D.view disk.old) m
        → Leaves (D.view disk.old) (D.view disk.new) (λ c. Stands c m) }
    ensures ran { Ran OffMaking (D.view disk.old) (D.view disk.new) }
    ensures unwritten { (D.view disk.old).tells ≡ true → IsMarked (D.view disk.old) → Ran Everywhere (D.view disk.old) (D.view disk.new) }
{
    let store = match open_or_make::<S, D>(alloc, disk) {
        Ok(store) => store,
        Err(refusal) => return Err(refusal),
    };
    match Service::new(alloc, store) {
        Ok(service) => Ok(service),
        Err(_) => Err(OpenRefusal::Memory),
    }
}

/// Answers the messages of the input.
fn answer_by<S: Promise, I: Source, O: Sink, D: Disk, K: Clock>(
    alloc: Global,
    mut service: Service<S>,
    input: &mut I,
    output: &mut O,
    disk: &mut D,
    clock: &mut K,
) -> End
    requires fits { Fits S.sound (D.view disk.old) service }
    requires clean { service.pending ≡ None }
    ensures session { Session (2 ^ 40) result (λ xs. AnsweredBy S.sound (D.view disk.old) (D.view disk.new) service xs × FallsApart D.view S.sound service disk.old disk.new xs × AnswersAll D.view S.sound service disk.old disk.new xs) (I.inlet input.old).left (I.inlet input.new).left
        (O.outlet output.old).written (O.outlet output.new).written (K.ticks clock.old).readings (K.ticks clock.new).readings }
    ensures tells { TellsOf result (I.inlet input.old).faults (I.inlet input.new).faults (O.outlet output.old).faults (O.outlet output.new).faults }
    ensures complete { (text : List ℕ) (messages : List Message) → (I.inlet input.old).left ≡ Some text → Splits text messages [] → length text < 2 ^ 40
        → (Rose (I.inlet input.old).faults (I.inlet input.new).faults → ⊥)
        → (Rose (O.outlet output.old).faults (O.outlet output.new).faults → ⊥)
        → (result ≡ End.Done) ⊎ (result ≡ End.Memory) }
{
    failures_are_counted::<S, D>();
    sessions_stand::<S, D>();
    answers_stay::<S, D>();
    session(alloc, LIMIT, &mut service, disk, input, output, clock)
}
