// The calls on volumes.
use super::player::check;
use std::test::Fail;

const VOLUMES: &str = r#"// A volume is of a snapshot or has a size.
POST /volumes @
{"Size":5} => empty 5 0 a call
{"SnapshotId":null,"Size":0,"Tags":null,"Unknown":[]} => empty 0 0 a call
{"SnapshotId":"snap-00000000010000003"} => of 3 - 0 a call
{"SnapshotId":"snap-00000000010000003","Size":null} => of 3 - 0 a call
{"SnapshotId":"snap-00000000010000003","Size":16385,"Tags":[{"Key":"a","Value":""}],"ClientToken":"t1"} => of 3 16385 1 a call with t1
{"Size":18446744073709551615} => empty 18446744073709551615 0 a call

// The members of a volume are tried in order.
POST /volumes @
[] => body
 => body
{} => Size
{"SnapshotId":null,"Size":null,"Tags":1} => Size
{"SnapshotId":"snap-3","Size":-1} => SnapshotId
{"SnapshotId":"vol-00000000010000003"} => SnapshotId
{"SnapshotId":3,"Size":5} => SnapshotId
{"Size":18446744073709551616,"Tags":1} => Size
{"SnapshotId":"snap-00000000010000003","Size":"5"} => Size
{"Size":5,"Tags":{},"ClientToken":""} => Tags
{"Size":5,"Tags":[{"Key":"","Value":""}]} => Tags
{"Size":5,"ClientToken":"a b"} => ClientToken
{"Size":5,"ClientToken":5} => ClientToken

// A volume is described and deleted by its id, whatever the body.
GET /volumes/vol-00000000010000003 @
 => volume 3
[ => volume 3

DELETE /volumes/vol-00000000010000003 @
 => delete volume 3
[ => delete volume 3

GET /volumes/snap-00000000010000003 @
 => volumeId

DELETE /volumes/snap-00000000010000003 @
 => volumeId

// The members of a snapshot of a volume are tried in order.
POST /volumes/vol-00000000010000003/snapshots @
{} => snapshot of 3 0 none
{"Description":null,"Tags":null,"Unknown":[]} => snapshot of 3 0 none
{"Description":""} => snapshot of 3 0 |
{"Tags":[{"Key":"a","Value":""}],"Description":"d e"} => snapshot of 3 1 d e
{"Tags":[]} => snapshot of 3 0 none
 => body
[] => body
null => body
{"Description":1} => Description
{"Description":1,"Tags":1} => Description
{"Description":"d","Tags":{}} => Tags
{"Tags":[{"Key":"","Value":""}]} => Tags
{"Tags":[{"Key":"a"}]} => Tags

POST /volumes/vol-3/snapshots @
 => volumeId
[] => volumeId
{"Description":1} => volumeId

POST /volumes/snap-00000000010000003/snapshots @
 => volumeId
[] => volumeId
{"Description":1} => volumeId

// A description has at most 255 bytes.
POST /volumes/vol-00000000010000003/snapshots {"Tags":1,"Description":"@"}
`255 d` => Tags
`256 d` => Description

// A block of a volume is read by its index, and a body is passed over.
GET /volumes/@
vol-00000000010000003/blocks/0 => read 3 0
vol-00000000010000003/blocks/0000000007?x=1 => read 3 7
vol-00000000010000003/blocks/9999999999 => read 3 9999999999
vol-00000000010000003/blocks/00000000007 => blockIndex
vol-00000000010000003/blocks/-1 => blockIndex
vol-00000000010000003/blocks/a => blockIndex
snap-00000000010000003/blocks/0 => volumeId
vol-3/blocks/a => volumeId
vol-00000000010000003/blocks/ => no such call

GET /volumes/vol-00000000010000003/blocks/7 @
 => read 3 7
[ => read 3 7
"#;

#[test]
fn the_calls_on_volumes(rt: HostRuntime) -> Result<(), Fail> {
    check(&rt, rt.alloc(), VOLUMES, 57)
}
