// How words were done, and the status that tells it.
ghost use Rattle.std.specs.Prelude.{◌≡◌};
ghost use Rattle.ebs_cli.specs.Outcomes.{command_at, status_for, unready_at};

use ebs_commands::CommandEnd;
use ebs_disk_store::OpenRefusal;
use ebs_session::End;

/// How a session or another command ended on a disk.
#[derive(Clone, Copy, Debug, PartialEq, Eq)]
pub enum Outcome {
    /// There was no store, or no memory to answer by it, so nothing was begun.
    Unready(OpenRefusal),
    Session(End),
    Command(CommandEnd),
}

impl Outcome {
    pub fn status(self) -> u8
        ensures { result ≡ status_for self }
    {
        match self {
            Outcome::Unready(refusal) => unready_status(refusal),
            Outcome::Session(end) => end.status(),
            Outcome::Command(end) => command_status(end),
        }
    }
}

fn unready_status(refusal: OpenRefusal) -> u8
    ensures { result ≡ unready_at refusal }
{
    match refusal {
        OpenRefusal::DiskFailed => 2,
        OpenRefusal::Memory => 8,
        _ => 3,
    }
}

fn command_status(end: CommandEnd) -> u8
    ensures { result ≡ command_at end }
{
    match end {
        CommandEnd::Done => 0,
        CommandEnd::DiskFailed => 2,
        CommandEnd::AlreadyMade => 3,
        CommandEnd::OutputFailed => 5,
        CommandEnd::Memory => 8,
        CommandEnd::Damaged => 10,
        CommandEnd::Exhausted => 12,
    }
}
