// In which order a call's tests refuse it.
ghost use Rattle.ebs_laws.specs.OrderLaws.{StartIsRefusedInOrder, GetIsRefusedInOrder, PutIsRefusedInOrder, CompleteIsRefusedInOrder, ListIsRefusedInOrder, ComparisonIsRefusedInOrder};
ghost use Rattle.ebs_laws.specs.RowOrders.{DescribeIsRefusedInOrder, OwnListIsRefusedInOrder, PermissionIsRefusedInOrder, DeleteIsRefusedInOrder, LockIsRefusedInOrder, UnlockIsRefusedInOrder, ArchiveIsRefusedInOrder, RestoreIsRefusedInOrder};
ghost use Rattle.ebs_laws.specs.VolumeOrders.{CreateIsRefusedInOrder, CreateSnapshotIsRefusedInOrder, WriteIsRefusedInOrder, ReadIsRefusedInOrder, DescribeVolumeIsRefusedInOrder, DeleteVolumeIsRefusedInOrder};
ghost use Rattle.ebs_laws.specs.RuleOrders.{CreateRuleIsRefusedInOrder, GetRuleIsRefusedInOrder, UpdateRuleIsRefusedInOrder, DeleteRuleIsRefusedInOrder, ListRulesIsNotRefused, LockRuleIsRefusedInOrder, UnlockRuleIsRefusedInOrder, BinListIsRefusedInOrder, RestoreBinIsRefusedInOrder};
ghost use Rattle.ebs_laws.specs.PolicyOrders.{CreatePolicyIsRefusedInOrder, GetPolicyIsRefusedInOrder, DeletePolicyIsRefusedInOrder, RunIsRefusedInOrder};

/// Of a call's tests, in one order, the first that stands is its answer; where none stands it isn't refused. What the caller may
/// not know of comes before its state, a state before a token or a lock, a token before an index or a line, a lock before its new date, and a
/// count before a checksum; a volume before an index within it, and the checksum of a block before both; a rule of the whole account before its lock. Where the client token of a start or of a creation was used before, the first use alone
/// decides, behind the request's own limits.
pub fn refusals_have_order()
    ensures start { StartIsRefusedInOrder }
    ensures get { GetIsRefusedInOrder }
    ensures put { PutIsRefusedInOrder }
    ensures complete { CompleteIsRefusedInOrder }
    ensures list { ListIsRefusedInOrder }
    ensures comparison { ComparisonIsRefusedInOrder }
    ensures describe { DescribeIsRefusedInOrder }
    ensures own_list { OwnListIsRefusedInOrder }
    ensures permission { PermissionIsRefusedInOrder }
    ensures delete { DeleteIsRefusedInOrder }
    ensures lock { LockIsRefusedInOrder }
    ensures unlock { UnlockIsRefusedInOrder }
    ensures archive { ArchiveIsRefusedInOrder }
    ensures restore { RestoreIsRefusedInOrder }
    ensures create { CreateIsRefusedInOrder }
    ensures describe_volume { DescribeVolumeIsRefusedInOrder }
    ensures delete_volume { DeleteVolumeIsRefusedInOrder }
    ensures create_snapshot { CreateSnapshotIsRefusedInOrder }
    ensures write { WriteIsRefusedInOrder }
    ensures read { ReadIsRefusedInOrder }
    ensures create_rule { CreateRuleIsRefusedInOrder }
    ensures get_rule { GetRuleIsRefusedInOrder }
    ensures update_rule { UpdateRuleIsRefusedInOrder }
    ensures delete_rule { DeleteRuleIsRefusedInOrder }
    ensures list_rules { ListRulesIsNotRefused }
    ensures lock_rule { LockRuleIsRefusedInOrder }
    ensures unlock_rule { UnlockRuleIsRefusedInOrder }
    ensures bin_list { BinListIsRefusedInOrder }
    ensures restore_bin { RestoreBinIsRefusedInOrder }
    ensures create_policy { CreatePolicyIsRefusedInOrder }
    ensures get_policy { GetPolicyIsRefusedInOrder }
    ensures delete_policy { DeletePolicyIsRefusedInOrder }
    ensures run_policy { RunIsRefusedInOrder }
{}
