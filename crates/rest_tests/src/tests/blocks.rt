// The calls on blocks.
use super::player::{check, check_target};
use std::test::Fail;

const BLOCKS: &str = r#"// A block token is decoded.
GET /snapshots/snap-00000000010000000/blocks/7@
?blockToken=a%2Bb+c => 7 a+b c
?x=1&blockToken=1&blockToken=2 => 7 1
?block%54oken= => 7 |
?blockToken=%ff => 7 �
 => blockToken

// The members of a list are tried in order.
GET /snapshots/snap-1/blocks@
?maxResults=99 => snapshotId

GET /snapshots/snap-00000000010000003/blocks@
? => 3 3 none 1000 0
?maxResults=100&startingBlockIndex=0000000012 => 3 3 none 100 12
?pageToken=a%2Bb+c&startingBlockIndex=9999999999 => 3 3 a+b c 1000 9999999999
?maxResults=0000010000&pageToken= => 3 3  10000 0
?pageToken=1&pageToken=2&maxResults=101&maxResults=x => 3 3 1 101 0
?maxResults=99 => maxResults
?maxResults=10001 => maxResults
?maxResults=00000000100 => maxResults
?maxResults=&startingBlockIndex= => maxResults
?startingBlockIndex= => startingBlockIndex
?startingBlockIndex=00000000000 => startingBlockIndex
?pageToken=a&startingBlockIndex=-1 => startingBlockIndex

// The members of changes are tried in order.
GET /snapshots/snap-2/changedblocks@
? => firstSnapshotId
?firstSnapshotId=snap-00000000010000001&maxResults=1 => secondSnapshotId

GET /snapshots/snap-00000000010000002/changedblocks@
?firstSnapshotId=snap-00000000010000001 => 1 2 none 1000 0
?firstSnapshotId=snap-00000000010000001&pageToken=t&maxResults=500&startingBlockIndex=7 => 1 2 t 500 7
?secondSnapshotId=snap-00000000010000001 => firstSnapshotId
?firstSnapshotId=&maxResults=1 => firstSnapshotId
?firstSnapshotId=snap-00000000010000001&maxResults=1&startingBlockIndex=x => maxResults
?firstSnapshotId=snap-00000000010000001&startingBlockIndex=x => startingBlockIndex

// The first field of a name counts.
POST /snapshots/completion/snap-00000000010000000 ## @; x-ebs-account: 000000000001; X-AMZ-changedblockscount: 0000000003; x-amz-ChangedBlocksCount: x
x-ebs-account: 0000000000001 => x-ebs-account
X-EBS-Account: 000000000001 => a call

POST /snapshots/completion/snap-00000000010000000 ## x-ebs-account: 000000000001; X-AMZ-changedblockscount: 0000000003; x-amz-Checksum: @
 => x-amz-Checksum
RxlmJNWlC5GQC0hALKviJRfn3F0OGL85v71pSmUZdH8 => x-amz-Checksum
RxlmJNWlC5GQC0hALKviJRfn3F0OGL85v71pSmUZdH8= => a call
RxlmJNWlC5GQC0hALKviJRfn3F0OGL85v71pSmUZdH9= => x-amz-Checksum

// The members of a write are tried in order.
PUT /volumes/@
vol-00000000010000003/blocks/0000000007 => x-amz-Data-Length
vol-00000000010000003/blocks/00000000007 => blockIndex
vol-00000000010000003/blocks/x => blockIndex
snap-00000000010000003/blocks/7 => volumeId
snap-00000000010000003/blocks/x => volumeId
vol-00000000010000003/blocks/7/8 => no such call

PUT /snapshots/snap-00000000010000000/blocks/7 ## x-ebs-account: 000000000001; @
x-amz-Checksum: RxlmJNWlC5GQC0hALKviJRfn3F0OGL85v71pSmUZdH8=; x-amz-Checksum-Algorithm: SHA256; x-amz-Progress: x => x-amz-Data-Length
x-amz-Data-Length: 524288; x-amz-Checksum-Algorithm: SHA256; x-amz-Progress: x => x-amz-Checksum
x-amz-Data-Length: 524288; x-amz-Checksum: RxlmJNWlC5GQC0hALKviJQ==; x-amz-Checksum-Algorithm: SHA-256 => x-amz-Checksum
x-amz-Data-Length: 524288; x-amz-Checksum: RxlmJNWlC5GQC0hALKviJRfn3F0OGL85v71pSmUZdH8=; x-amz-Progress: x => x-amz-Checksum-Algorithm
x-amz-Data-Length: 524288; x-amz-Checksum: RxlmJNWlC5GQC0hALKviJRfn3F0OGL85v71pSmUZdH8=; x-amz-Checksum-Algorithm: SHA-256 => x-amz-Checksum-Algorithm
x-amz-Data-Length: 524288; x-amz-Checksum: RxlmJNWlC5GQC0hALKviJRfn3F0OGL85v71pSmUZdH8=; x-amz-Checksum-Algorithm: SHA256 => body

PUT /volumes/vol-00000000010000003/blocks/7 ## x-ebs-account: 000000000001; @
x-amz-Checksum: RxlmJNWlC5GQC0hALKviJRfn3F0OGL85v71pSmUZdH8=; x-amz-Checksum-Algorithm: SHA256; x-amz-Progress: x => x-amz-Data-Length
x-amz-Data-Length: 524288; x-amz-Checksum-Algorithm: SHA256; x-amz-Progress: x => x-amz-Checksum
x-amz-Data-Length: 524288; x-amz-Checksum: RxlmJNWlC5GQC0hALKviJQ==; x-amz-Checksum-Algorithm: SHA-256 => x-amz-Checksum
x-amz-Data-Length: 524288; x-amz-Checksum: RxlmJNWlC5GQC0hALKviJRfn3F0OGL85v71pSmUZdH8=; x-amz-Progress: x => x-amz-Checksum-Algorithm
x-amz-Data-Length: 524288; x-amz-Checksum: RxlmJNWlC5GQC0hALKviJRfn3F0OGL85v71pSmUZdH8=; x-amz-Checksum-Algorithm: SHA-256 => x-amz-Checksum-Algorithm
x-amz-Data-Length: 524288; x-amz-Checksum: RxlmJNWlC5GQC0hALKviJRfn3F0OGL85v71pSmUZdH8=; x-amz-Checksum-Algorithm: SHA256 => body

// A block has 524288 bytes.
PUT /snapshots/snap-00000000010000000/blocks/7 @; x-amz-Checksum: RxlmJNWlC5GQC0hALKviJRfn3F0OGL85v71pSmUZdH8=; x-amz-Checksum-Algorithm: SHA256
`32767 1111111111111111`111111111111111 ## x-ebs-account: 000000000001; x-amz-Data-Length: 524287; x-amz-Progress: 100 => x-amz-Data-Length
`32768 1111111111111111` ## x-ebs-account: 000000000001; x-amz-Data-Length: 524288; x-amz-Progress: 101 => x-amz-Progress
`32767 1111111111111111`111111111111111 ## x-ebs-account: 000000000001; x-amz-Data-Length: 524288; x-amz-Progress: 100 => body
`32768 1111111111111111` ## x-ebs-account: 000000000001; x-amz-Data-Length: 524288; x-amz-Progress: 100 => a call

PUT /volumes/vol-00000000010000003/blocks/7 @; x-amz-Checksum: RxlmJNWlC5GQC0hALKviJRfn3F0OGL85v71pSmUZdH8=; x-amz-Checksum-Algorithm: SHA256
`32767 1111111111111111`111111111111111 ## x-ebs-account: 000000000001; x-amz-Data-Length: 524287; x-amz-Progress: 100 => x-amz-Data-Length
`32767 1111111111111111`111111111111111 ## x-ebs-account: 000000000001; x-amz-Data-Length: 524288; x-amz-Progress: 101 => x-amz-Progress
`32768 1111111111111111`1 ## x-ebs-account: 000000000001; x-amz-Data-Length: 524288; x-amz-Progress: 0 => body
`32768 1111111111111111` ## x-ebs-account: 000000000001; x-amz-Data-Length: 524288; x-amz-Progress: 0 => write 3 7 524288
"#;

#[test]
fn the_calls_on_blocks(rt: HostRuntime) -> Result<(), Fail> {
    check(&rt, rt.alloc(), BLOCKS, 58)
}

const OTHER_BYTES: &[u8] = b"/snapshots/\xff/blocks/7";

#[test]
fn a_path_of_other_bytes_is_matched(rt: HostRuntime) -> Result<(), Fail> {
    check_target(&rt, rt.alloc(), OTHER_BYTES, "snapshotId")
}
