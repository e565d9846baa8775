// What messages say.
ghost use Rattle.ebs_client.specs.Reach.{IsReached, AreChangesHeld, IsRead, IsPaged, IsShared, IsRuled, IsRuledForAll, IsScheduled, IsAged};

/// Every request within its limits is the call of a message, for every account: nothing that the calls can do is out of
/// a client's reach. Its fields are as their types hold them, and a choice of accounts is everybody or a list.
pub fn each_request_has_a_message()
    ensures reached { IsReached }
    ensures a_read { IsRead }
    ensures a_page { IsPaged }
    ensures a_share { IsShared }
    ensures a_rule { IsRuled }
    ensures a_rule_of_all { IsRuledForAll }
    ensures a_policy { IsScheduled }
    ensures a_policy_by_age { IsAged }
{}

/// Each change of permissions that any message asks for is one of those: its limits, its account and its choices are
/// what `each_request_has_a_message` asks of it.
pub fn each_change_of_permissions_is_held()
    ensures { AreChangesHeld }
{}
