// Laws of the members of each call.
ghost use Rattle.ebs_rest.specs.inner.Order as order;
ghost use Rattle.ebs_rest.specs.inner.RuleOrder as rule_order;
ghost use Rattle.ebs_rest.specs.inner.PolicyOrder as policy_order;

/// Which member a refusal names.
pub fn order_laws()
    ensures start { order.StartNames }
    ensures put { order.PutNames }
    ensures complete { order.CompleteNames }
    ensures get { order.GetNames }
    ensures list { order.ListNames }
    ensures changed { order.ChangedNames }
    ensures describe { order.DescribeNames }
    ensures rows { order.RowsNames }
    ensures permission { order.PermissionNames }
    ensures delete { order.DeleteNames }
    ensures lock { order.LockNames }
    ensures unlock { order.UnlockNames }
    ensures archive { order.ArchiveNames }
    ensures restore { order.RestoreNames }
    ensures create { order.CreateNames }
    ensures create_snapshot { order.CreateSnapshotNames }
    ensures write_block { order.WriteBlockNames }
    ensures read_block { order.ReadBlockNames }
    ensures describe_volume { order.DescribeVolumeNames }
    ensures delete_volume { order.DeleteVolumeNames }
    ensures create_rule { rule_order.CreateRuleNames }
    ensures get_rule { rule_order.GetRuleNames }
    ensures update_rule { rule_order.UpdateRuleNames }
    ensures delete_rule { rule_order.DeleteRuleNames }
    ensures list_rules { rule_order.ListRulesNames }
    ensures lock_rule { rule_order.LockRuleNames }
    ensures unlock_rule { rule_order.UnlockRuleNames }
    ensures list_bin { rule_order.ListBinNames }
    ensures restore_from_bin { rule_order.RestoreFromBinNames }
    ensures create_policy { policy_order.CreatePolicyNames }
    ensures get_policy { policy_order.GetPolicyNames }
    ensures delete_policy { policy_order.DeletePolicyNames }
    ensures run_policy { policy_order.RunPolicyNames }
{}

/// What members change a call.
pub fn member_laws()
    ensures get { order.GetOthers }
    ensures list { order.ListOthers }
    ensures changed { order.ChangedOthers }
    ensures describe { order.DescribeOthers }
    ensures rows { order.RowsOthers }
    ensures permission { order.PermissionOthers }
    ensures delete { order.DeleteOthers }
    ensures lock { order.LockOthers }
    ensures unlock { order.UnlockOthers }
    ensures archive { order.ArchiveOthers }
    ensures restore { order.RestoreOthers }
    ensures create { order.CreateOthers }
    ensures create_snapshot { order.CreateSnapshotOthers }
    ensures write_block { order.WriteBlockOthers }
    ensures read_block { order.ReadBlockOthers }
    ensures describe_volume { order.DescribeVolumeOthers }
    ensures delete_volume { order.DeleteVolumeOthers }
    ensures create_rule { rule_order.CreateRuleOthers }
    ensures get_rule { rule_order.GetRuleOthers }
    ensures update_rule { rule_order.UpdateRuleOthers }
    ensures delete_rule { rule_order.DeleteRuleOthers }
    ensures lock_rule { rule_order.LockRuleOthers }
    ensures unlock_rule { rule_order.UnlockRuleOthers }
    ensures list_bin { rule_order.ListBinOthers }
    ensures restore_from_bin { rule_order.RestoreFromBinOthers }
    ensures create_policy { policy_order.CreatePolicyOthers }
    ensures get_policy { policy_order.GetPolicyOthers }
    ensures delete_policy { policy_order.DeletePolicyOthers }
    ensures run_policy { policy_order.RunPolicyOthers }
{}
