// The calls on rules and the bin.
use super::player::check;
use std::test::Fail;

const RULES: &str = r#"// A rule is named by its id.
GET /rules/@
rule-00000000010000003 => rule 3
rule-00000000010000003?x=1 => rule 3
rule-e8d4a50ffffffffff => rule 268435455
rule-e8d4a510000000000 => identifier
rule-0000000001000003 => identifier
rule-000000000100000030 => identifier
rule-0000000001000000A => identifier
Rule-00000000010000003 => identifier
snap-00000000010000003 => identifier
vol-00000000010000003 => identifier
00000000010000003 => identifier

// Calls without members in JSON pass their body over.
DELETE /rules/rule-00000000010000003 @
 => delete rule 3
[ => delete rule 3

PATCH /rules/rule-00000000010000003/unlock @
 => unlock rule 3
[ => unlock rule 3

POST /list-rules @
 => rules
{"max":0 => rules

POST /recycle-bin/snap-00000000010000003 @
 => recover 3
[ => recover 3

// A bad key is named before the body.
DELETE /rules/snap-00000000010000003 @
 => identifier
[] => identifier

PATCH /rules/snap-00000000010000003 @
 => identifier
[] => identifier

PATCH /rules/rule-3/lock @
 => identifier
[] => identifier

PATCH /rules/rule-3/unlock @
 => identifier
[] => identifier

POST /recycle-bin/rule-00000000010000003 @
 => snapshotId
[] => snapshotId

// The bin is listed from a number on.
GET /recycle-bin@
 => bin 1000 0
?from=268435455&max=1 => bin 1 268435455
?max=0000001000&max=0&x=1 => bin 1000 0
?from=268435456&max=0 => from
?from= => from
?from=-1 => from
?max=0 => max
?max=1001 => max

// A retention period is 1 to 365 days. Where it is good, the next member is named.
POST /rules {"RetentionPeriod":@}
{"RetentionPeriodValue":1,"RetentionPeriodUnit":"DAYS"} => ResourceType
{"X":[],"RetentionPeriodUnit":"DAYS","RetentionPeriodValue":365} => ResourceType
{"RetentionPeriodValue":0,"RetentionPeriodUnit":"DAYS"} => RetentionPeriod
{"RetentionPeriodValue":366,"RetentionPeriodUnit":"DAYS"} => RetentionPeriod
{"RetentionPeriodValue":4294967297,"RetentionPeriodUnit":"DAYS"} => RetentionPeriod
{"RetentionPeriodValue":1.0,"RetentionPeriodUnit":"DAYS"} => RetentionPeriod
{"RetentionPeriodValue":"1","RetentionPeriodUnit":"DAYS"} => RetentionPeriod
{"RetentionPeriodValue":null,"RetentionPeriodUnit":"DAYS"} => RetentionPeriod
{"RetentionPeriodValue":1,"RetentionPeriodUnit":"days"} => RetentionPeriod
{"RetentionPeriodValue":1,"RetentionPeriodUnit":"HOURS"} => RetentionPeriod
{"RetentionPeriodValue":1,"RetentionPeriodUnit":null} => RetentionPeriod
{"RetentionPeriodValue":1} => RetentionPeriod
{"RetentionPeriodUnit":"DAYS"} => RetentionPeriod
{} => RetentionPeriod
30 => RetentionPeriod
[] => RetentionPeriod
null => RetentionPeriod

// A rule is for snapshots.
POST /rules {"RetentionPeriod":{"RetentionPeriodValue":30,"RetentionPeriodUnit":"DAYS"},"ResourceTags":1,"ResourceType":@}
"EBS_SNAPSHOT" => ResourceTags
"ebs_snapshot" => ResourceType
"EC2_IMAGE" => ResourceType
["EBS_SNAPSHOT"] => ResourceType
null => ResourceType
1 => ResourceType

// The members of a rule are tried in order.
POST /rules {"ResourceType":"EBS_SNAPSHOT","RetentionPeriod":{"RetentionPeriodValue":30,"RetentionPeriodUnit":"DAYS"}@}
 => 30 [] none -
,"ResourceTags":null,"Description":null,"LockConfiguration":null,"X":[] => 30 [] none -
,"ResourceTags":[],"Description":"" => 30 []  -
,"ResourceTags":[{"ResourceTagKey":"b","ResourceTagValue":""},{"ResourceTagKey":"a","ResourceTagValue":null,"X":1},{"ResourceTagKey":"B","ResourceTagValue":"v"}],"Description":"d" => 30 [b=;a;B=v;] d -
,"ResourceTags":{},"Description":1 => ResourceTags
,"ResourceTags":[null] => ResourceTags
,"ResourceTags":[{"ResourceTagKey":""}] => ResourceTags
,"ResourceTags":[{"ResourceTagValue":"a"}] => ResourceTags
,"ResourceTags":[{"ResourceTagKey":"a","ResourceTagValue":1}] => ResourceTags
,"ResourceTags":[{"ResourceTagKey":"a"},{"ResourceTagKey":"a","ResourceTagValue":"b"}] => ResourceTags
,"ResourceTags":[{"Key":"a","Value":"b"}] => ResourceTags
,"Description":1,"LockConfiguration":1 => Description

// Only a rule of the whole account is created locked.
POST /rules {"ResourceType":"EBS_SNAPSHOT","RetentionPeriod":{"RetentionPeriodValue":30,"RetentionPeriodUnit":"DAYS"},"LockConfiguration":@}
{"UnlockDelay":{"UnlockDelayValue":7,"UnlockDelayUnit":"DAYS"}} => 30 [] none 7
{"X":1,"UnlockDelay":{"UnlockDelayUnit":"DAYS","UnlockDelayValue":30,"X":1}},"ResourceTags":[] => 30 [] none 30
{"UnlockDelay":{"UnlockDelayValue":7,"UnlockDelayUnit":"DAYS"}},"ResourceTags":[{"ResourceTagKey":"a"}] => LockConfiguration
null,"ResourceTags":[{"ResourceTagKey":"a"}] => 30 [a;] none -
{"UnlockDelay":{"UnlockDelayValue":6,"UnlockDelayUnit":"DAYS"}} => LockConfiguration
{"UnlockDelay":{"UnlockDelayValue":31,"UnlockDelayUnit":"DAYS"}} => LockConfiguration
{"UnlockDelay":{"UnlockDelayValue":4294967303,"UnlockDelayUnit":"DAYS"}} => LockConfiguration
{"UnlockDelay":{"UnlockDelayValue":7,"UnlockDelayUnit":"HOURS"}} => LockConfiguration
{"UnlockDelay":{"UnlockDelayValue":7}} => LockConfiguration
{"UnlockDelay":{"UnlockDelayUnit":"DAYS"}} => LockConfiguration
{"UnlockDelay":{"RetentionPeriodValue":7,"RetentionPeriodUnit":"DAYS"}} => LockConfiguration
{"UnlockDelayValue":7,"UnlockDelayUnit":"DAYS"} => LockConfiguration
{"UnlockDelay":null} => LockConfiguration
{} => LockConfiguration
7 => LockConfiguration

// A rule is an object.
POST /rules @
 => body
[] => body
null => body
{"RetentionPeriod": => body
{} => RetentionPeriod

// What an update doesn't give stays, and a lock isn't changed so.
PATCH /rules/rule-00000000010000003 @
{} => 3 - - none
{"RetentionPeriod":null,"ResourceTags":null,"Description":null} => 3 - - none
{"ResourceTags":[]} => 3 - [] none
{"ResourceTags":[{"ResourceTagKey":"a"}],"Description":""} => 3 - [a;] |
{"RetentionPeriod":{"RetentionPeriodValue":365,"RetentionPeriodUnit":"DAYS"}} => 3 365 - none
{"LockConfiguration":1,"ResourceType":1} => 3 - - none
 => body
[] => body
{"RetentionPeriod":{"RetentionPeriodValue":0,"RetentionPeriodUnit":"DAYS"}} => RetentionPeriod
{"RetentionPeriod":{"RetentionPeriodValue":366,"RetentionPeriodUnit":"DAYS"},"ResourceTags":1} => RetentionPeriod
{"RetentionPeriod":5} => RetentionPeriod
{"ResourceTags":1,"Description":1} => ResourceTags
{"ResourceTags":[{"ResourceTagKey":"a"},{"ResourceTagKey":"a"}]} => ResourceTags
{"Description":1} => Description

// An unlock waits for 7 to 30 days.
PATCH /rules/rule-00000000010000003/lock @
{"LockConfiguration":{"UnlockDelay":{"UnlockDelayValue":7,"UnlockDelayUnit":"DAYS"}}} => lock rule 3 7
{"LockConfiguration":{"UnlockDelay":{"UnlockDelayValue":30,"UnlockDelayUnit":"DAYS"}},"X":1} => lock rule 3 30
{"LockConfiguration":{"UnlockDelay":{"UnlockDelayValue":6,"UnlockDelayUnit":"DAYS"}}} => LockConfiguration
{"LockConfiguration":{"UnlockDelay":{"UnlockDelayValue":31,"UnlockDelayUnit":"DAYS"}}} => LockConfiguration
{"LockConfiguration":null} => LockConfiguration
{} => LockConfiguration
[] => body
 => body

// At most 50 resource tags are given. The description is no text.
PATCH /rules/rule-00000000010000003 {"Description":1,"ResourceTags":[@{"ResourceTagKey":"last"}]}
`49 {"ResourceTagKey":"*"},` => Description
`50 {"ResourceTagKey":"*"},` => ResourceTags

// A resource tag has a key of 128 bytes at most, and a value of 256.
PATCH /rules/rule-00000000010000003 {"Description":1,"ResourceTags":[{"ResourceTagKey":"@","X":1}]}
`128 a`","ResourceTagValue":"`256 a` => Description
`129 a`","ResourceTagValue":"`256 a` => ResourceTags
`128 a`","ResourceTagValue":"`257 a` => ResourceTags
"#;

#[test]
fn the_calls_on_rules_and_the_bin(rt: HostRuntime) -> Result<(), Fail> {
    check(&rt, rt.alloc(), RULES, 119)
}
