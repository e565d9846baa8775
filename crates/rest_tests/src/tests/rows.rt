// The calls on rows.
use super::player::check;
use std::test::Fail;

const ROWS: &str = r#"// Rows are listed from a number on.
GET @
/snapshots => none 1000 0
/snapshots?from=268435455&max=1 => none 1 268435455
/snapshots?max=0000001000&max=0 => none 1000 0
/snapshots?from=268435456&max=0 => from
/snapshots?from=00000000000 => from
/snapshots?from= => from
/snapshots?max=0 => max
/snapshots?max=1001 => max
/snapshots/snap-00000000010000003 => a call
/snapshots/snap-3?from=x => snapshotId

// Accounts are held ascending and each once.
PATCH /snapshots/snap-00000000010000003/permission @
{} => - |
{"Add":null,"Remove":[]} => - |
{"Add":["000000000009","000000000002","000000000009"],"Remove":"all"} => 2 9 - all
{"Add":"all","Remove":["999999999999","000000000000"]} => all- 0 999999999999 |

// The members of a permission are tried in order.
PATCH /snapshots/snap-3/permission @
 => snapshotId
[] => snapshotId

PATCH /snapshots/snap-00000000010000003/permission @
[] => body
{"Add":"All","Remove":1} => Add
{"Add":["00000000001"]} => Add
{"Add":[1]} => Add
{"Remove":[null]} => Remove
{"Add":"all","Remove":"all"} => Remove
{"Add":["000000000001"],"Remove":["000000000002","000000000001"]} => Remove

// At most 1000 accounts are added.
PATCH /snapshots/snap-00000000010000003/permission {"Add":[@"000000000001"]}
`999 "000000000001",` => 1 - |
`1000 "000000000001",` => Add

// A snapshot and its lock are taken off, whatever the body.
DELETE /snapshots/snap-00000000010000003 @
 => delete 3
[ => delete 3

DELETE /snapshots/snap-00000000010000003/lock @
 => unlock 3
[ => unlock 3

DELETE /snapshots/snap-3 @
 => snapshotId
[] => snapshotId

DELETE /snapshots/snap-3/lock @
 => snapshotId
[] => snapshotId

// A lock has a mode and one term.
PUT /snapshots/snap-3/lock @
 => snapshotId
[] => snapshotId

PUT /snapshots/snap-00000000010000003/lock @
{"LockMode":"governance","LockDuration":1,"Unknown":[]} => 3 governance days 1 -
{"LockMode":"compliance","LockDuration":36500,"ExpirationDate":null,"CoolOffPeriod":72} => 3 compliance days 36500 72
{"LockMode":"compliance","ExpirationDate":18446744073709551615,"LockDuration":null,"CoolOffPeriod":1} => 3 compliance date 18446744073709551615 1
{"LockMode":"governance","ExpirationDate":0,"CoolOffPeriod":null} => 3 governance date 0 -
[] => body
{} => LockMode
{"LockMode":null,"LockDuration":0} => LockMode
{"LockMode":"Governance","LockDuration":1} => LockMode
{"LockMode":"COMPLIANCE","LockDuration":1} => LockMode
{"LockMode":1,"LockDuration":1} => LockMode
{"LockMode":"governance"} => LockDuration
{"LockMode":"governance","ExpirationDate":null,"CoolOffPeriod":0} => LockDuration

// The terms of a lock are tried in order.
PUT /snapshots/snap-00000000010000003/lock {"LockMode":"compliance",@}
"LockDuration":0 => LockDuration
"LockDuration":36501 => LockDuration
"LockDuration":4294967297 => LockDuration
"LockDuration":1.0 => LockDuration
"LockDuration":"1" => LockDuration
"LockDuration":0,"ExpirationDate":"x" => LockDuration
"ExpirationDate":"x","CoolOffPeriod":0 => ExpirationDate
"ExpirationDate":-1 => ExpirationDate
"ExpirationDate":5,"LockDuration":5,"CoolOffPeriod":0 => ExpirationDate
"LockDuration":5,"CoolOffPeriod":0 => CoolOffPeriod
"LockDuration":5,"CoolOffPeriod":73 => CoolOffPeriod
"LockDuration":5,"CoolOffPeriod":4294967297 => CoolOffPeriod
"LockDuration":5,"CoolOffPeriod":1 => 3 compliance days 5 1
"LockDuration":5,"CoolOffPeriod":72 => 3 compliance days 5 72

PUT /snapshots/snap-00000000010000003/lock @
{"LockMode":"governance","LockDuration":1,"CoolOffPeriod":1} => CoolOffPeriod

// A tier is the archive.
PUT /snapshots/snap-3/tier @
 => snapshotId
[] => snapshotId

PUT /snapshots/snap-00000000010000003/tier @
{"StorageTier":"archive"} => archive 3
{"StorageTier":"archive","Unknown":1} => archive 3
{"StorageTier":"Archive"} => StorageTier
{"StorageTier":"standard"} => StorageTier
{"StorageTier":null} => StorageTier
{"StorageTier":1} => StorageTier
{} => StorageTier
"archive" => body

// A restore is for days or for good.
POST /snapshots/snap-3/restore-tier @
 => snapshotId
[] => snapshotId

POST /snapshots/snap-00000000010000003/restore-tier @
{"TemporaryRestoreDays":1} => restore 3 1
{"TemporaryRestoreDays":180,"PermanentRestore":false} => restore 3 180
{"PermanentRestore":true} => restore 3 -
{"PermanentRestore":true,"TemporaryRestoreDays":null} => restore 3 -
{} => TemporaryRestoreDays
{"PermanentRestore":false} => TemporaryRestoreDays
{"PermanentRestore":null} => TemporaryRestoreDays
{"TemporaryRestoreDays":0} => TemporaryRestoreDays
{"TemporaryRestoreDays":181} => TemporaryRestoreDays
{"TemporaryRestoreDays":181,"PermanentRestore":1} => TemporaryRestoreDays
{"TemporaryRestoreDays":1,"PermanentRestore":1} => PermanentRestore
{"PermanentRestore":"true"} => PermanentRestore
{"TemporaryRestoreDays":1,"PermanentRestore":true} => PermanentRestore
[] => body
"#;

#[test]
fn the_calls_on_rows(rt: HostRuntime) -> Result<(), Fail> {
    check(&rt, rt.alloc(), ROWS, 88)
}
