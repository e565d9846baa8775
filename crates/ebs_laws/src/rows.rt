// What is said of rows alone.
ghost use Rattle.ebs_laws.specs.RowLaws.{ChangeCommitsRows, RowsDecideAlone, RowsRefuse, ReadsAreRefusedAlike, ReadsLeave, RowsAge, RowsAgeInParts};

/// Whether a change is accepted, its answer, and the rows after it depend on the rows alone, but for the checksum that the
/// end of an upload states: whatever blocks there are. So do the refusals of reads and their tokens, but for a block that
/// isn't there.
pub fn rows_alone()
    ensures commits { ChangeCommitsRows }
    ensures decides { RowsDecideAlone }
    ensures refuses { RowsRefuse }
    ensures reads { ReadsAreRefusedAlike }
{}

/// A call that asks for no change changes nothing.
pub fn reads_leave_machine()
    ensures { ReadsLeave }
{}

/// What time leaves of the rows depends on the rows alone.
pub fn time_in_rows()
    ensures ages { RowsAge }
    ensures parts { RowsAgeInParts }
{}
