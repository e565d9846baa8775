// What runs of lifecycle policies make of each volume, and which ids they give out.
ghost use Rattle.ebs_laws.specs.RunLaws.{StartsStayPassed, RunsPassStarts, PoliciesStayFit, RunsFitPolicies, RunMakesEachTarget, RunTellsMade, RunNotDueMakesNothing, RunTellsDeleted, RunKeepsNewest, GivenIdsDiffer};
ghost use Rattle.ebs_laws.specs.RunBytes.{CallKeepsVolume, RunHasBytes};

/// No snapshot was started after the clock, and each policy keeps one snapshot or one day at least, and has an interval of an hour at least.
pub fn starts_are_passed()
    ensures each_call { StartsStayPassed }
    ensures run { RunsPassStarts }
    ensures policies { PoliciesStayFit }
    ensures policies_run { RunsFitPolicies }
{}

/// A run at a due moment makes one snapshot of each target volume of the account, in ascending id, and no other: completed, of this moment, with the volume's whole
/// array, and there after the run. A run before the next due moment makes none. Each run answers the ids of all that it makes, in this order, and of all
/// that it deletes.
pub fn run_makes_each_target()
    ensures each { RunMakesEachTarget }
    ensures told { RunTellsMade }
    ensures not_due { RunNotDueMakesNothing }
    ensures deleted { RunTellsDeleted }
{}

/// Under a count of n a run leaves, of each volume, the n newest snapshots that the policy has of it, those that the run makes among them.
pub fn run_keeps_newest()
    ensures { RunKeepsNewest }
{}

/// No id of a snapshot is given twice, by a start, by a snapshot that is taken of a volume or by a run.
pub fn given_ids_differ()
    ensures { GivenIdsDiffer }
{}

/// What a run made of a volume has the bytes that stood in the volume then, and no call changes what a snapshot is of.
pub fn run_has_bytes()
    ensures bytes { RunHasBytes }
    ensures volume { CallKeepsVolume }
{}
