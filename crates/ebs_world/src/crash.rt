// A crash of a disk in memory.
ghost use Rattle.std.specs.Prelude.{◌≡◌, ℕ, length, replicate, IfOk, OnOk};
ghost use Rattle.ebs_world.specs.declared.area.Area.{Area};
ghost use Rattle.ebs_world.specs.inner.Held.{shown};
ghost use Rattle.ebs_world.specs.inner.Log.{State, after, present};
ghost use Rattle.ebs_world.specs.inner.Crash.{picked};

use crate::areas::Areas;
use crate::log::{Log, Step};
use std::alloc::{AllocError, Global};

/// What the places that were written and not synced hold after a crash.
#[derive(Clone, Copy, Debug, PartialEq, Eq)]
pub enum CrashPick {
    /// Their bytes before.
    Old,
    /// Their new bytes.
    New,
    /// This byte.
    Fill(u8),
}

impl Log {
    ghost use Rattle.std.specs.Prelude.{◌≤◌, false};
    ghost use Rattle.ebs_world.specs.Image.{Image};
    ghost use Rattle.ebs_world.specs.View.{View};
    ghost use Rattle.ebs_world.specs.inner.Logged.{log_view, log_state};

    /// A log that begins with what the crash left.
    pub(crate) fn crash(&self, moment: u64, pick: CrashPick) -> Result<Log, AllocError>
        requires { moment ≤ (log_view self.now 0).moment }
        ensures reads { IfOk result (λ crashed. (a : Area) (i : ℕ) → (log_view crashed 0).reads a i ≡ picked pick (log_state self.now moment) a i) }
        ensures image { IfOk result (λ crashed. (t : ℕ) → t ≤ moment → (log_view self.now 0).left_since t (log_view crashed 0).reads) }
        ensures durable { IfOk result (λ crashed. (c : Image) → (log_view crashed 0).may_leave c → (a : Area) (i : ℕ) → c a i ≡ (log_view crashed 0).reads a i) }
        ensures honest { IfOk result (λ crashed. crashed.spoiled ≡ false) }
        ensures moment { IfOk result (λ crashed. (log_view crashed 0).moment ≡ 0) }
    {
        let first = crash_image(
            self.alloc,
            &self.first,
            &self.steps[..moment as usize],
            pick,
        )?;
        let bytes = first.copy(self.alloc)?;
        Ok(Log {
            alloc: self.alloc,
            first,
            steps: Vec::new(self.alloc),
            bytes,
            spoiled: false,
        })
    }
}

fn crash_image(
    alloc: Global,
    first: &Areas,
    steps: &[Step],
    pick: CrashPick,
) -> Result<Areas, AllocError>
    ensures { IfOk result (λ image. (a : Area) (i : ℕ) → shown image a i ≡ picked pick (present (shown first.now) steps.now) a i) }
{
    let mut now = first.copy(alloc)?;
    let mut image = first.copy(alloc)?;
    let mut rest = steps;
    while let [step, later @ ..] = rest {
        crash_step(alloc, &mut now, &mut image, step, pick)?;
        rest = later;
    }
    Ok(image)
}

// One call more, in what is read and in what a crash leaves.
fn crash_step(
    alloc: Global,
    now: &mut Areas,
    image: &mut Areas,
    step: &Step,
    pick: CrashPick,
) -> Result<(), AllocError>
    ensures now { OnOk result ((s : State) → ((a : Area) (i : ℕ) → shown now.old a i ≡ s.now a i)
        → (a : Area) (i : ℕ) → shown now.new a i ≡ (after s step.now).now a i) }
    ensures image { OnOk result ((s : State) → ((a : Area) (i : ℕ) → shown now.old a i ≡ s.now a i)
        → ((a : Area) (i : ℕ) → shown image.old a i ≡ picked pick s a i) → (a : Area) (i : ℕ) → shown image.new a i ≡ picked pick (after s step.now) a i) }
{
    match step {
        Step::Write(area, at, piece) => {
            now.write(*area, *at, piece)?;
            match pick {
                CrashPick::Old => Ok(()),
                CrashPick::New => image.write(*area, *at, piece),
                CrashPick::Fill(byte) => image.write(
                    *area,
                    *at,
                    &filler(alloc, byte, piece.len())?,
                ),
            }
        }
        Step::Sync(area) => image.take_over(alloc, now, *area),
    }
}

fn filler(alloc: Global, byte: u8, count: usize) -> Result<Vec<u8>, AllocError>
    ensures { IfOk result (λ bytes. bytes.items ≡ replicate count byte) }
{
    let mut bytes = Vec::new(alloc);
    bytes.resize(count, byte)?;
    Ok(bytes)
}
