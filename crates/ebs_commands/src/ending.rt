// How a command ends.
ghost use Rattle.std.specs.Prelude.{OnOk, OnErr, IfErr, ◌≡◌};
ghost use Rattle.ebs_commands.specs.Ends.{Wrote, FailedAt};
ghost use Rattle.ebs_commands.specs.declared.ending.CommandEnd.TheVariants as ends;

use ebs_world::Sink;

/// How a command ended.
#[derive(Clone, Copy, Debug, PartialEq, Eq)]
pub enum CommandEnd {
    Done,
    /// The disk failed, which its count of faults shows.
    DiskFailed,
    /// A store was made on the disk before.
    AlreadyMade,
    /// The output failed, which its count of faults shows.
    OutputFailed,
    /// There wasn't memory enough.
    Memory,
    /// Blocks have other bytes than were put.
    Damaged,
    /// No checkpoint can be written: it would be too long, or the journal's epochs are used up.
    Exhausted,
}

/// Writes a line.
pub fn put_line<O: Sink>(output: &mut O, line: &[u8]) -> Result<(), CommandEnd>
    ensures wrote { OnOk result (Wrote (O.outlet output.old) (O.outlet output.new) line.now) }
    ensures failed { OnErr result (FailedAt (O.outlet output.old) (O.outlet output.new) line.now) }
    ensures end { IfErr result (λ end. end ≡ ends.OutputFailed) }
{
    match output.put(line) {
        Ok(()) => Ok(()),
        Err(_) => Err(CommandEnd::OutputFailed),
    }
}
