// What runs of lifecycle policies leave and make.
ghost use Rattle.ebs_laws.specs.PolicyLaws.{RunSparesLocked, RunLeavesOtherPolicies, RunLeavesOtherAccounts, RunLeavesYoung, RunLeavesNewest, RunLeavesTheNewest, AtMostAreLeft, RunMakesOfVolumes, RunGivesNumbers, RunAgainMakesNothing, CreatedPolicyIsAsAsked, DeletedPolicyLeavesSnapshots};
ghost use Rattle.ebs_laws.specs.PolicyRows.{PoliciesStayGiven, RunsGivePolicies, PolicyNumbersNeverFall, CreatedPolicyIsNew, CreatedPoliciesDiffer, PolicyStays, OwnerIsShownPolicy, ShownPolicyIsTheRow, CreatedPolicyIsShown};

/// A run never ends a snapshot under a lock that hasn't expired: it is there with all its blocks, at most without its policy. It leaves one of another policy,
/// of none or of another account as it was, and one that is younger than the policy's age or among the newest of its volume that the policy keeps.
pub fn run_spares()
    ensures locked { RunSparesLocked }
    ensures other_policies { RunLeavesOtherPolicies }
    ensures other_accounts { RunLeavesOtherAccounts }
    ensures young { RunLeavesYoung }
    ensures newest { RunLeavesNewest }
{}

/// Under a count the newest snapshot of each volume always stays.
pub fn newest_stays()
    ensures { RunLeavesTheNewest }
{}

/// Under a count a run leaves at most so many snapshots of a volume outside the bin, without a lock and in the standard tier.
pub fn at_most_are_left()
    ensures { AtMostAreLeft }
{}

/// What a run makes is a snapshot of a volume of the account's own, with the volume's whole array of that moment. Its number is one that no call has given
/// out before.
pub fn run_makes_of_volumes()
    ensures made { RunMakesOfVolumes }
    ensures numbers { RunGivesNumbers }
{}

/// Of two runs without a due moment between them the second makes nothing.
pub fn run_again_makes_nothing()
    ensures { RunAgainMakesNothing }
{}

/// A created policy is what was asked for, under its account's next number, and its creation counts as its last run. A deletion takes it out and leaves its
/// snapshots. Neither changes a volume, a block, a rule, a client token or another policy.
pub fn policy_is_as_asked()
    ensures created { CreatedPolicyIsAsAsked }
    ensures deleted { DeletedPolicyLeavesSnapshots }
{}

/// No policy's id is given twice: a created policy has a number above all that its account has given out before, and takes the place of none.
pub fn policy_ids_differ()
    ensures each_call { PoliciesStayGiven }
    ensures run { RunsGivePolicies }
    ensures numbers { PolicyNumbersNeverFall }
    ensures created { CreatedPolicyIsNew }
    ensures ids { CreatedPoliciesDiffer }
{}

/// Through every call but its owner's accepted deletion a policy stays as it was asked for, and is shown with its last run: that of the last accepted
/// run, or its creation. It is shown to its owner alone.
pub fn policy_stays()
    ensures stays { PolicyStays }
    ensures shown { OwnerIsShownPolicy }
    ensures row { ShownPolicyIsTheRow }
    ensures created { CreatedPolicyIsShown }
{}
