// The calls on lifecycle policies.
use super::player::check;
use std::test::Fail;

const POLICIES: &str = r#"// A policy is named by its id.
GET /policies/@
policy-00000000010000003 => policy 3
policy-00000000010000003?x=1 => policy 3
policy-e8d4a50ffffffffff => policy 268435455
policy-e8d4a510000000000 => policyId
policy-0000000001000003 => policyId
policy-0000000001000000A => policyId
Policy-00000000010000003 => policyId
rule-00000000010000003 => policyId
00000000010000003 => policyId

// A deletion and a run pass their body over.
DELETE /policies/policy-00000000010000003 @
 => delete policy 3
[ => delete policy 3

POST /policies/policy-00000000010000003/run @
 => run policy 3
[ => run policy 3

DELETE /policies/rule-3 @
 => policyId
[] => policyId

POST /policies/policy-3/run @
 => policyId
[] => policyId

// The first bad member of a policy is named.
POST /policies @
{"TargetTags":[{"Key":"team","Value":"db"}],"Schedule":{"Interval":24,"IntervalUnit":"HOURS","Times":["03:30"]},"RetainRule":{"Count":7}} => [team=db;] 24 12600 7 snapshots []
{"RetainRule":{"Count":7},"Schedule":{"Interval":24,"IntervalUnit":"HOURS","Times":["03:30"]},"TargetTags":[{"Key":"team","Value":"db"}],"TagsToAdd":[{"Key":"by","Value":"policy"},{"Key":"z","Value":""}],"X":1} => [team=db;] 24 12600 7 snapshots [by=policy;z=;]
{"TargetTags":[{"Key":"team","Value":"db"}],"Schedule":{"Interval":24,"IntervalUnit":"HOURS","Times":["03:30"]},"RetainRule":{"Count":7},"TagsToAdd":null} => [team=db;] 24 12600 7 snapshots []
{"TargetTags":[{"Key":"team","Value":"db"}],"Schedule":{"Interval":24,"IntervalUnit":"HOURS","Times":["03:30"]},"RetainRule":{"Count":7},"TagsToAdd":[{"Key":"","Value":""}]} => TagsToAdd
 => body
[] => body
{} => TargetTags
{"TargetTags":[],"Schedule":{"Interval":24,"IntervalUnit":"HOURS","Times":["03:30"]},"RetainRule":{"Count":7}} => TargetTags
{"TargetTags":[{"Key":"a","Value":null}]} => TargetTags
{"TargetTags":[{"Key":"a","Value":"1"},{"Key":"a","Value":"2"}]} => TargetTags
{"TargetTags":[{"Key":"team","Value":"db"}]} => Schedule
{"TargetTags":[{"Key":"team","Value":"db"}],"RetainRule":{"Count":7}} => Schedule
{"TargetTags":[{"Key":"team","Value":"db"}],"Schedule":{"Interval":24,"IntervalUnit":"HOURS","Times":["03:30"]}} => RetainRule
{"Schedule":{"Interval":24,"IntervalUnit":"HOURS","Times":["03:30"]},"RetainRule":{"Count":7}} => TargetTags

// Two members are bad at once, or all of them: the first of the order is named, wherever it stands.
POST /policies @
{"TargetTags":[],"Schedule":1,"RetainRule":{"Count":7}} => TargetTags
{"RetainRule":{"Count":7},"Schedule":null,"TargetTags":1} => TargetTags
{"TargetTags":[{"Key":"team","Value":"db"}],"Schedule":{"Interval":5,"IntervalUnit":"HOURS","Times":["03:30"]},"RetainRule":{"Count":0}} => Schedule
{"RetainRule":null,"Schedule":{"Interval":24,"IntervalUnit":"HOURS","Times":["24:00"]},"TargetTags":[{"Key":"team","Value":"db"}]} => Schedule
{"TargetTags":[{"Key":"team","Value":"db"}],"Schedule":{"Interval":24,"IntervalUnit":"HOURS","Times":["03:30"]},"RetainRule":{"Count":1001},"TagsToAdd":1} => RetainRule
{"TagsToAdd":[{"Key":"a"}],"RetainRule":{},"Schedule":{"Interval":24,"IntervalUnit":"HOURS","Times":["03:30"]},"TargetTags":[{"Key":"team","Value":"db"}]} => RetainRule
{"TagsToAdd":1,"RetainRule":1,"Schedule":1,"TargetTags":1} => TargetTags
{"TagsToAdd":1,"RetainRule":1,"Schedule":1, => body
"#;

const MEMBERS: &str = r#"// A day is a whole number of intervals.
POST /policies {"TargetTags":[{"Key":"team","Value":"db"}],"RetainRule":{"Count":7},"Schedule":{"IntervalUnit":"HOURS","Times":["03:30"],"Interval":@}}
1 => [team=db;] 1 12600 7 snapshots []
2 => [team=db;] 2 12600 7 snapshots []
3 => [team=db;] 3 12600 7 snapshots []
4 => [team=db;] 4 12600 7 snapshots []
6 => [team=db;] 6 12600 7 snapshots []
8 => [team=db;] 8 12600 7 snapshots []
12 => [team=db;] 12 12600 7 snapshots []
24 => [team=db;] 24 12600 7 snapshots []
0 => Schedule
5 => Schedule
7 => Schedule
9 => Schedule
23 => Schedule
25 => Schedule
48 => Schedule
-1 => Schedule
24.0 => Schedule
2.4e1 => Schedule
"24" => Schedule
null => Schedule
4294967320 => Schedule
18446744073709551617 => Schedule

// A time of day is a whole minute.
POST /policies {"TargetTags":[{"Key":"team","Value":"db"}],"RetainRule":{"Count":7},"Schedule":{"Interval":24,"IntervalUnit":"HOURS","Times":["@"]}}
00:00 => [team=db;] 24 0 7 snapshots []
00:01 => [team=db;] 24 60 7 snapshots []
00:59 => [team=db;] 24 3540 7 snapshots []
01:00 => [team=db;] 24 3600 7 snapshots []
12:00 => [team=db;] 24 43200 7 snapshots []
23:00 => [team=db;] 24 82800 7 snapshots []
23:59 => [team=db;] 24 86340 7 snapshots []
24:00 => Schedule
23:60 => Schedule
99:99 => Schedule
00:60 => Schedule
0:000 => Schedule
000:0 => Schedule
00.00 => Schedule
-1:00 => Schedule
00:+1 => Schedule
 0:00 => Schedule
00:0  => Schedule
00:00  => Schedule
 => Schedule
é:00 => Schedule

// A schedule has one time of day.
POST /policies {"TargetTags":[{"Key":"team","Value":"db"}],"Schedule":@,"RetainRule":{"Count":7}}
{"Interval":1,"IntervalUnit":"HOURS","Times":["00:00"]} => [team=db;] 1 0 7 snapshots []
{"X":[],"Times":["23:59"],"IntervalUnit":"HOURS","Interval":12} => [team=db;] 12 86340 7 snapshots []
{"Interval":24,"IntervalUnit":"HOURS","Times":["24:00"]} => Schedule
{"Interval":24,"IntervalUnit":"HOURS","Times":["00:60"]} => Schedule
{"Interval":24,"IntervalUnit":"HOURS","Times":["3:30"]} => Schedule
{"Interval":24,"IntervalUnit":"HOURS","Times":["03-30"]} => Schedule
{"Interval":24,"IntervalUnit":"HOURS","Times":["03:30:00"]} => Schedule
{"Interval":24,"IntervalUnit":"HOURS","Times":["+3:30"]} => Schedule
{"Interval":24,"IntervalUnit":"HOURS","Times":[]} => Schedule
{"Interval":24,"IntervalUnit":"HOURS","Times":["03:30","04:30"]} => Schedule
{"Interval":24,"IntervalUnit":"HOURS","Times":"03:30"} => Schedule
{"Interval":24,"IntervalUnit":"HOURS","Times":[330]} => Schedule
{"Interval":24,"IntervalUnit":"HOURS"} => Schedule
{"Interval":5,"IntervalUnit":"HOURS","Times":["03:30"]} => Schedule
{"Interval":0,"IntervalUnit":"HOURS","Times":["03:30"]} => Schedule
{"Interval":4294967297,"IntervalUnit":"HOURS","Times":["03:30"]} => Schedule
{"Interval":24,"IntervalUnit":"hours","Times":["03:30"]} => Schedule
{"Interval":24,"Times":["03:30"]} => Schedule
{"IntervalUnit":"HOURS","Times":["03:30"]} => Schedule
[] => Schedule
null => Schedule

// Snapshots are retained by count or by age.
POST /policies {"TargetTags":[{"Key":"team","Value":"db"}],"Schedule":{"Interval":24,"IntervalUnit":"HOURS","Times":["03:30"]},"RetainRule":@}
{"Count":1} => [team=db;] 24 12600 1 snapshots []
{"Count":1000,"Interval":null,"IntervalUnit":null} => [team=db;] 24 12600 1000 snapshots []
{"Interval":36500,"IntervalUnit":"DAYS"} => [team=db;] 24 12600 36500 days []
{"Interval":5200,"IntervalUnit":"WEEKS"} => [team=db;] 24 12600 5200 weeks []
{"Interval":1200,"IntervalUnit":"MONTHS"} => [team=db;] 24 12600 1200 months []
{"IntervalUnit":"YEARS","Interval":100} => [team=db;] 24 12600 100 years []
{"Count":0} => RetainRule
{"Count":1001} => RetainRule
{"Count":4294967297} => RetainRule
{"Count":"1"} => RetainRule
{"Interval":36501,"IntervalUnit":"DAYS"} => RetainRule
{"Interval":5201,"IntervalUnit":"WEEKS"} => RetainRule
{"Interval":1201,"IntervalUnit":"MONTHS"} => RetainRule
{"Interval":101,"IntervalUnit":"YEARS"} => RetainRule
{"Interval":0,"IntervalUnit":"YEARS"} => RetainRule
{"Interval":1,"IntervalUnit":"HOURS"} => RetainRule
{"Interval":1} => RetainRule
{"IntervalUnit":"DAYS"} => RetainRule
{"Count":3,"IntervalUnit":"DAYS"} => RetainRule
{"Count":3,"Interval":1} => RetainRule
{"Count":3,"Interval":1,"IntervalUnit":"DAYS"} => RetainRule
{} => RetainRule

// A policy has 1 to 50 target tags.
POST /policies {"Schedule":1,"TargetTags":[@]}
 => TargetTags
{"Key":"k0","Value":""} => Schedule
`49 {"Key":"k*","Value":""},`{"Key":"k49","Value":""} => Schedule
`50 {"Key":"k*","Value":""},`{"Key":"k50","Value":""} => TargetTags

// A policy adds at most 50 tags.
POST /policies {"TargetTags":[{"Key":"team","Value":"db"}],"Schedule":{"Interval":24,"IntervalUnit":"HOURS","Times":["03:30"]},"RetainRule":{"Count":7},"TagsToAdd":[@]}
 => [team=db;] 24 12600 7 snapshots []
`49 {"Key":"k*","Value":""},`{"Key":"k49","Value":""} => [team=db;] 24 12600 7 snapshots [`49 k*=;`k49=;]
`50 {"Key":"k*","Value":""},`{"Key":"k50","Value":""} => TagsToAdd

// A target tag has a key of 1 to 128 bytes, and a value of 256 at most.
POST /policies {"Schedule":1,"TargetTags":[@]}
{"Key":"","Value":""} => TargetTags
{"Key":"`128 a`","Value":"`256 a`"} => Schedule
{"Key":"`129 a`","Value":"`256 a`"} => TargetTags
{"Key":"`128 a`","Value":"`257 a`"} => TargetTags
"#;

#[test]
fn the_calls_on_policies(rt: HostRuntime) -> Result<(), Fail> {
    check(&rt, rt.alloc(), POLICIES, 39)
}

#[test]
fn the_members_of_a_policy(rt: HostRuntime) -> Result<(), Fail> {
    check(&rt, rt.alloc(), MEMBERS, 97)
}
