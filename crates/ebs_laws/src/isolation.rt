// What an account is told depends on what it sees.
ghost use Rattle.ebs_laws.specs.IsolationLaws.{OwnRowsAlone, AgreesWithItself};

/// What an account is told, and what its calls do, depends on its own snapshots, volumes with their blocks, counters, client tokens and rules and on the
/// snapshots that it may read, and on nothing else that others have. Of stamps it learns only which ones are equal.
/// Each machine that calls lead to agrees with itself.
pub fn own_rows_alone()
    ensures alone { OwnRowsAlone }
    ensures itself { AgreesWithItself }
{}
