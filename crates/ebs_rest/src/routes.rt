// From a message to a call: the table of paths and methods, and then the call's own members.
ghost use Rattle.std.specs.Prelude.{◌≡◌, ◌&&◌, OnOk, IfOk, IfErr, map, find, fold, true};
ghost use Rattle.std.specs.Option.{option_copied};
ghost use Rattle.std.specs.Str.{bytes_eq};
ghost use Rattle.ebs_rest.specs.CallOf.{table, operation_at, caller_in, call_from, request_from, with_path, rows, call_at};
ghost use Rattle.ebs_model.specs.Limits.{bad_member};
ghost use Rattle.ebs_model.specs.Refuse.{some_or};
ghost use Rattle.ebs_model.specs.declared.answer.Refusal.TheVariants.{NoSuchCall};
ghost use Rattle.ebs_members.specs.inner.Outcome.{Reads, IsExact, RanOut};
ghost use Rattle.ebs_rest.specs.inner.Memory.{Makes, MakesAt};
ghost use Rattle.ebs_members.specs.Sources.{path_of, query_of, in_path, in_fields};
ghost use Rattle.ebs_members.specs.inner.Sources.{found};
ghost use Rattle.ebs_rest.specs.inner.CallOf.{with_body};
ghost use Rattle.ebs_rest.specs.inner.Router.{rows_of, fits, all_fit};

use crate::calls::{
    archive, complete, describe_all, get_block, list_blocks, list_changed, lock, modify_permission,
    put_block, restore, snapshot, start,
};
use crate::policies::{create_policy, policy};
use crate::rules::{create_rule, list_bin, lock_rule, rule, update_rule};
use crate::table::{Operation, TABLE};
use crate::volumes::{create, create_snapshot, read_block, volume, write_block};
use ebs_http::Message;
use ebs_members::{Captures, Read, Source, Wrong, copy, header, need, path_and_query, utf8_only};
use ebs_model::{Account, Bytes, Call, Failure, Request, Text, read_account};
use matchit::{InsertError, Router};
use std::alloc::{AllocError, Global};
use std::mem;

/// A call's method and path.
pub type Row<'a> = (&'a str, &'a str, Operation);

/// The program's table is the one that is defined.
pub fn the_table()
    ensures { map (λ r. (r.0.now, r.1.now, r.2)) TABLE ≡ table }
{}

fn add(alloc: Global, router: &mut Router<Text>, row: &Row) -> Result<(), AllocError>
    requires { fits router.old row.now.1.now ≡ true }
    ensures { OnOk result (router.new ≡ with_path router.old (row.now.0.now, row.now.1.now, row.now.2)) }
{
    match router.insert(row.1, copy(alloc, row.1)?) {
        Ok(()) | Err(InsertError::Conflict { with: _ }) => Ok(()),
        Err(InsertError::OutOfMemory) => Err(AllocError),
        Err(_) => unreachable!(),
    }
}

fn add_all(alloc: Global, router: &mut Router<Text>, rows: &[Row]) -> Result<(), AllocError>
    requires { all_fit router.old (rows_of rows.now) ≡ true }
    ensures { OnOk result (router.new ≡ fold with_path router.old (rows_of rows.now)) }
{
    for row in rows {
        add(alloc, router, row)?;
    }
    Ok(())
}

fn routed(alloc: Global) -> Result<Router<Text>, AllocError>
    ensures { IfOk result (λ router. router ≡ rows) }
{
    let mut router = Router::new(alloc);
    add_all(alloc, &mut router, &TABLE)?;
    Ok(router)
}

/// The call of a method at a path of the table.
#[tactic(auto, using(crate::proofs::Rows::found_row))]
pub fn call_at(method: &[u8], route: &str, rows: &[Row]) -> Option<Operation>
    ensures { result ≡ call_at method.now route.now (rows_of rows.now) }
{
    row_at(method, route, rows).map(|row| row.2)
}

fn row_at<'a>(method: &[u8], route: &str, rows: &'a [Row<'a>]) -> Option<&'a Row<'a>>
    ensures { option_copied result
        ≡ find (λ row. bytes_eq row.0.now method.now && bytes_eq row.1.now route.now) rows.now }
{
    let mut rows = rows.iter();
    rows.find(|row| row.0.as_bytes() == method && row.1 == route)
}

/// The paths of all calls.
#[derive(Drop)]
pub struct Routes {
    alloc: Global,
    router: Router<Text>,
    ghost built: { router ≡ rows },
}

impl Routes {
    ghost use Rattle.std.specs.Prelude.{◌≡◌, IfOk, IfErr, IfSome};
    ghost use Rattle.std.specs.Option.{option_map};
    ghost use Rattle.ebs_model.specs.Limits.{bad_member};
    ghost use Rattle.ebs_model.specs.declared.answer.Failure.TheVariants.{Memory};
    ghost use Rattle.ebs_members.specs.inner.Outcome.{Gives, Reads, RanOut};
    ghost use Rattle.ebs_rest.specs.inner.Memory.{MakesBy, MakesValue, MayWantMemory};
    ghost use Rattle.ebs_rest.specs.CallOf.{route_of, call_of};
    ghost use Rattle.ebs_members.specs.Sources.{path_bytes, path_of};
    ghost use Rattle.ebs_rest.specs.inner.CallOf.{with_body};

    /// From a message to a call: the table of paths and methods, and then the call's own members.
    pub fn new(alloc: Global) -> Result<Routes, AllocError> {
        let router = routed(alloc)?;
        Ok(Routes { alloc, router })
    }

    /// The call that a message asks for, or why it is refused. A block's bytes move into the call.
    #[tactic(auto, using(crate::proofs::HandedOut::handed_on, crate::proofs::HandedOut::wanting))]
    pub fn read_call(&self, message: Message) -> Result<Call, Failure>
        ensures value { Gives (call_of message) result }
        ensures memory { IfErr result (λ e. e ≡ Memory → MayWantMemory message) }
        ensures limits { IfOk result (λ call. bad_member call.request ≡ None) }
    {
        match self.call_of(message) {
            Ok(call) => Ok(call),
            Err(wrong) => Err(wrong.handed_out(self.alloc)),
        }
    }

    /// The same, before a name becomes a text. The body is taken out, so that it moves into the call
    /// while the rest of the message is lent.
    fn call_of<'n>(&self, mut message: Message) -> Read<'n, Call>
        ensures value { Reads (call_of message) result }
        ensures memory { IfErr result (λ e. RanOut e → MakesValue message) }
        ensures limits { IfOk result (λ call. bad_member call.request ≡ None) }
    {
        let body = mem::replace(&mut message.body, Bytes::new(self.alloc));
        let (path, _) = path_and_query(message.target.as_slice());
        match utf8_only(path) {
            Some(path) => self.call_at(path, &message, body),
            None => self.call_at_bytes(path, &message, body),
        }
    }

    /// The same of a path that isn't UTF-8: each bad sequence counts as U+FFFD.
    fn call_at_bytes<'n>(&self, path: &[u8], head: &Message, body: Bytes) -> Read<'n, Call>
        requires { path_bytes head.now.target ≡ path.now }
        ensures value { Reads (call_of (with_body head.now body)) result }
        ensures limits { IfOk result (λ call. bad_member call.request ≡ None) }
    {
        let path = String::from_utf8_lossy(self.alloc, path)?;
        self.call_at(path.as_str(), head, body)
    }

    /// The same of a path as a text.
    #[tactic(auto, unfolding(crate::specs::CallOf::call_of))]
    fn call_at<'n>(&self, path: &str, head: &Message, body: Bytes) -> Read<'n, Call>
        requires { path_of head.now.target ≡ path.now }
        ensures value { Reads (call_of (with_body head.now body)) result }
        ensures memory { IfErr result (λ e. RanOut e → MakesBy (route_of path.now) (with_body head.now body)) }
        ensures limits { IfOk result (λ call. bad_member call.request ≡ None) }
    {
        match self.route_at(path) {
            Some((route, captures)) => {
                call_from(self.alloc, route, &Source::Path(captures), head, body)
            }
            None => Err(Wrong::NoSuchCall),
        }
    }

    /// The path of the table that a path fits, and what the router took from it.
    fn route_at<'a>(&'a self, path: &'a str) -> Option<(&'a str, Captures<'a>)>
        ensures route { option_map (λ found. found.0.now) result ≡ route_of path.now }
        ensures text { IfSome result (λ found. found.1.params.text.now ≡ found.0.now) }
        ensures path { IfSome result (λ found. found.1.params.path.now ≡ path.now) }
    {
        match self.router.at(path) {
            Ok(found) => Some((found.value.as_str(), Captures::of(found.params))),
            Err(_) => None,
        }
    }
}

fn call_from<'n>(
    alloc: Global,
    route: &str,
    path: &Source,
    head: &Message,
    body: Bytes,
) -> Read<'n, Call>
    requires { found path.now ≡ in_path route.now (path_of head.now.target) }
    ensures value { Reads (call_from route.now (with_body head.now body)) result }
    ensures memory { IfErr result (λ e. RanOut e → MakesAt route.now (with_body head.now body)) }
    ensures limits { IfOk result (λ call. bad_member call.request ≡ None) }
{
    let operation = operation_at(head, route)?;
    let account = caller(head)?;
    let request = request_of(alloc, operation, path, head, body)?;
    Ok(Call { account, request })
}

fn operation_at<'n>(head: &Message, route: &str) -> Read<'n, Operation>
    ensures value { Reads (operation_at head.now.method route.now) result }
    ensures exact { IsExact result }
{
    known(call_at(head.method.as_slice(), route, &TABLE))
}

fn known<'n>(operation: Option<Operation>) -> Read<'n, Operation>
    ensures value { Reads (some_or operation NoSuchCall) result }
    ensures exact { IsExact result }
{
    operation.ok_or(Wrong::NoSuchCall)
}

fn caller<'n>(head: &Message) -> Read<'n, Account>
    ensures value { Reads (caller_in head.now.headers) result }
    ensures exact { IsExact result }
{
    let account = header(&head.headers, "x-ebs-account");
    need("x-ebs-account", account.and_then(|text| read_account(text)))
}

fn request_of<'n>(
    alloc: Global,
    operation: Operation,
    path: &Source,
    head: &Message,
    body: Bytes,
) -> Read<'n, Request>
    ensures value { Reads (request_from operation (found path.now) (query_of head.now.target) (in_fields head.now.headers) body) result }
    ensures memory { IfErr result (λ e. RanOut e → Makes operation (found path.now) (query_of head.now.target) body) }
    ensures limits { IfOk result (λ request. bad_member request ≡ None) }
{
    let (_, query) = path_and_query(head.target.as_slice());
    let fields = Source::Fields(&head.headers);
    match operation {
        Operation::StartSnapshot => start(alloc, body.as_slice()),
        Operation::PutSnapshotBlock => put_block(path, &fields, body),
        Operation::CompleteSnapshot => complete(path, &fields),
        Operation::ListSnapshotBlocks => list_blocks(alloc, path, query),
        Operation::ListChangedBlocks => list_changed(alloc, path, query),
        Operation::GetSnapshotBlock => get_block(alloc, path, query),
        Operation::DescribeSnapshot => snapshot(path).map(|key| Request::DescribeSnapshot { key }),
        Operation::DescribeSnapshots => describe_all(alloc, query),
        Operation::DeleteSnapshot => snapshot(path).map(|key| Request::DeleteSnapshot { key }),
        Operation::ModifyPermission => modify_permission(alloc, path, body.as_slice()),
        Operation::LockSnapshot => lock(alloc, path, body.as_slice()),
        Operation::UnlockSnapshot => snapshot(path).map(|key| Request::UnlockSnapshot { key }),
        Operation::ArchiveSnapshot => archive(alloc, path, body.as_slice()),
        Operation::RestoreTier => restore(alloc, path, body.as_slice()),
        Operation::CreateVolume => create(alloc, body.as_slice()),
        Operation::CreateSnapshot => create_snapshot(alloc, path, body.as_slice()),
        Operation::WriteVolumeBlock => write_block(path, &fields, body),
        Operation::ReadVolumeBlock => read_block(path),
        Operation::DescribeVolume => volume(path).map(|key| Request::DescribeVolume { key }),
        Operation::DeleteVolume => volume(path).map(|key| Request::DeleteVolume { key }),
        Operation::CreateRule => create_rule(alloc, body.as_slice()),
        Operation::GetRule => rule(path).map(|key| Request::GetRule { key }),
        Operation::UpdateRule => update_rule(alloc, path, body.as_slice()),
        Operation::DeleteRule => rule(path).map(|key| Request::DeleteRule { key }),
        Operation::ListRules => Ok(Request::ListRules),
        Operation::LockRule => lock_rule(alloc, path, body.as_slice()),
        Operation::UnlockRule => rule(path).map(|key| Request::UnlockRule { key }),
        Operation::ListBin => list_bin(alloc, query),
        Operation::RestoreFromBin => snapshot(path).map(|key| Request::RestoreFromBin { key }),
        Operation::CreatePolicy => create_policy(alloc, body.as_slice()),
        Operation::GetPolicy => policy(path).map(|key| Request::GetPolicy { key }),
        Operation::DeletePolicy => policy(path).map(|key| Request::DeletePolicy { key }),
        Operation::RunPolicy => policy(path).map(|key| Request::RunPolicy { key }),
    }
}
