// The stamps of blocks.
ghost use Rattle.ebs_lawful_points.specs.Blocks.{EmptyHasStamps, CallsKeepStamps, TimeKeepsStamps, PointsHaveStamps, PointsHaveArrays};

/// Each block of a machine has a stamp that was given, and one stamp is of one block: of the empty machine, after each accepted call,
/// however digests are found, and at each later moment.
pub fn stamps_are_kept()
    ensures empty { EmptyHasStamps }
    ensures call { CallsKeepStamps }
    ensures time { TimeKeepsStamps }
{}

/// So it is of the machine that a checkpoint with all rules says; and its arrays stand within their sizes, have what was put, and are those
/// of its snapshots and volumes.
pub fn points_have_stamps()
    ensures stamps { PointsHaveStamps }
    ensures arrays { PointsHaveArrays }
{}
