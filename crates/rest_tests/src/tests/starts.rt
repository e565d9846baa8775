// StartSnapshot, whose members are those of its body.
use super::player::check;
use std::test::Fail;

const STARTS: &str = r#"// A start is an object with a size.
POST /snapshots @
[1] => body
 => body
{"VolumeSize":01} => body
{"VolumeSize":1,"x":1e400} => body
{"VolumeSize":0} => a call
{"VolumeSize":16384} => a call
{"VolumeSize":18446744073709551615} => a call
{"VolumeSize":18446744073709551616} => VolumeSize
{"VolumeSize":-0} => VolumeSize
{"VolumeSize":1.0} => VolumeSize
{"VolumeSize":1e3} => VolumeSize
{"VolumeSize":null,"Timeout":1} => VolumeSize
{"VolumeSize":"1"} => VolumeSize
{"VolumeSize":"1","VolumeSize":1} => a call

// The other members of a start are tried in order.
POST /snapshots @
{"VolumeSize":1,"Unknown":[],"Description":null} => a call
{"VolumeSize":1,"ParentSnapshotId":"snap-0000000001000000A"} => ParentSnapshotId
{"VolumeSize":1,"ParentSnapshotId":"snap-00000000010000000"} => a call
{"VolumeSize":1,"Description":1,"Tags":1} => Description
{"VolumeSize":1,"Tags":[{"Key":"a","Value":null}]} => Tags
{"VolumeSize":1,"Tags":[{"Key":"a","Value":"","x":1}]} => a call
{"VolumeSize":1,"Tags":[null],"ClientToken":""} => Tags
{"VolumeSize":1,"ClientToken":"a b"} => ClientToken
{"VolumeSize":1,"ClientToken":"t1","Timeout":9} => Timeout
{"VolumeSize":1,"ClientToken":"t1"} => a call with t1
{"VolumeSize":1,"ClientToken":"!~"} => a call with !~
{"VolumeSize":1,"ClientToken":""} => ClientToken
{"VolumeSize":1,"ClientToken":"\u007f"} => ClientToken
{"VolumeSize":1,"ClientToken":"é"} => ClientToken
{"VolumeSize":1,"ClientToken":null} => a call
{"VolumeSize":1,"ClientToken":1} => ClientToken
{"VolumeSize":1,"Timeout":4321} => Timeout
{"VolumeSize":1,"Encrypted":true} => Encrypted
{"VolumeSize":1,"Encrypted":false,"KmsKeyArn":"k"} => KmsKeyArn
{"VolumeSize":1,"Encrypted":false,"KmsKeyArn":null} => a call

// A client token has at most 255 bytes.
POST /snapshots {"VolumeSize":1,"Timeout":9,"ClientToken":"@"}
`255 t` => Timeout
`256 t` => ClientToken
"#;

#[test]
fn the_members_of_a_start(rt: HostRuntime) -> Result<(), Fail> {
    check(&rt, rt.alloc(), STARTS, 36)
}
