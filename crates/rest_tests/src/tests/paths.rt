// Every method and path is a call or none.
use super::player::check;
use std::test::Fail;

const METHODS_AND_PATHS: &str = r#"// Methods and paths without an account.
@ ## Host: ebs
POST /snapshots => x-ebs-account
PUT /snapshots/a/blocks/0 => x-ebs-account
POST /snapshots/completion/a => x-ebs-account
GET /snapshots/a/blocks => x-ebs-account
GET /snapshots/a/changedblocks => x-ebs-account
GET /snapshots/a/blocks/0 => x-ebs-account
GET /snapshots/a => x-ebs-account
GET /snapshots?from=0 => x-ebs-account
DELETE /snapshots/a => x-ebs-account
PATCH /snapshots/a/permission => x-ebs-account
PUT /snapshots/a/lock => x-ebs-account
DELETE /snapshots/a/lock => x-ebs-account
PUT /snapshots/a/tier => x-ebs-account
POST /snapshots/a/restore-tier => x-ebs-account
POST /volumes => x-ebs-account
POST /volumes/a/snapshots => x-ebs-account
PUT /volumes/a/blocks/0 => x-ebs-account
GET /volumes/a/blocks/0 => x-ebs-account
GET /volumes/a => x-ebs-account
DELETE /volumes/a => x-ebs-account
POST /rules => x-ebs-account
GET /rules/a => x-ebs-account
PATCH /rules/a => x-ebs-account
DELETE /rules/a => x-ebs-account
POST /list-rules => x-ebs-account
PATCH /rules/a/lock => x-ebs-account
PATCH /rules/a/unlock => x-ebs-account
GET /recycle-bin => x-ebs-account
POST /recycle-bin/a => x-ebs-account
POST /policies => x-ebs-account
GET /policies/a => x-ebs-account
DELETE /policies/a => x-ebs-account
POST /policies/a/run => x-ebs-account
GET /nothing => no such call
GET /snapshots/completion/blocks => no such call
PUT /snapshots/completion/lock => no such call
GET /snapshots/ => no such call
get /snapshots => no such call
HEAD /snapshots => no such call
PUT /snapshots/completion/blocks/1 => x-ebs-account
"#;

#[test]
fn every_method_and_path_is_a_call_or_none(rt: HostRuntime) -> Result<(), Fail> {
    check(&rt, rt.alloc(), METHODS_AND_PATHS, 40)
}
