//! A store of many blocks, without their bytes: more puts than a page lists, a page that lists them all, a child of so great a
//! parent, and what changed between them; as many client tokens as an account may use, and one more; the last change that there may
//! be, and calls behind it; and ids of great numbers. It prints what it counted, which is the same wherever there is memory enough.
#![tactic(auto)]

ghost use Rattle.std.specs.Prelude.{◌<◌, ◌^◌};

mod calls;
mod spent;
mod tokens;
mod told;
mod uploads;

use crate::calls::Call;
use crate::spent::{is_put_spent, is_spent};
use crate::tokens::{create, most, use_up};
use crate::uploads::{complete, page, put_all, shown, start};
use ebs_kept::Kept;
use ebs_model::{Account, KeyNumber, SnapKey, snap_text};
use std::io;
use std::process::ExitCode;

/// The blocks that are put into the parent, from index 0 on.
const BLOCKS: u64 = 6000;

/// The client tokens that an account may use.
const TOKENS: u64 = 65536;

/// The changes that a store may make.
const CHANGES: u64 = 1 << 40;

/// The index of one block more.
const FAR: u64 = 9999;

fn main(rt: HostRuntime) -> ExitCode {
    match tell(&rt) {
        Ok(()) => ExitCode::SUCCESS,
        Err(_) => ExitCode::FAILURE,
    }
}

fn tell(rt: &HostRuntime) -> io::Result<()> {
    let mut kept = Kept::new(rt.alloc(), [0; 32]);
    let told = tell_kept(rt, &mut kept);
    drop(kept);
    if told? {
        tell_last(rt)?;
    }
    Ok(())
}

// Whether there are a parent and a child.
fn tell_kept(rt: &HostRuntime, kept: &mut Kept) -> io::Result<bool> {
    let Some(parent) = start(kept, None) else {
        println!(rt; "no parent")?;
        return Ok(false);
    };
    tell_parent(rt, kept, &parent)?;
    let Some(child) = start(kept, Some(parent)) else {
        println!(rt; "no child")?;
        return Ok(false);
    };
    tell_child(rt, kept, &child)?;
    tell_pages(rt, kept, &parent, &child)?;
    tell_tokens(rt, kept)?;
    Ok(true)
}

fn tell_parent(rt: &HostRuntime, kept: &mut Kept, parent: &SnapKey) -> io::Result<()> {
    let near = put_all(kept, parent, 0, BLOCKS);
    let far = put_all(kept, parent, FAR, 1);
    let is_done = complete(kept, parent, BLOCKS + 1);
    println!(rt; "parent: {near} and {far} blocks put, completed: {is_done}")
}

fn tell_child(rt: &HostRuntime, kept: &mut Kept, child: &SnapKey) -> io::Result<()> {
    let put = put_all(kept, child, FAR, 1);
    let is_done = complete(kept, child, 1);
    println!(rt; "child: {put} block put, completed: {is_done}")
}

// What is listed of them and shown, and the changes until then.
fn tell_pages(
    rt: &HostRuntime,
    kept: &mut Kept,
    parent: &SnapKey,
    child: &SnapKey,
) -> io::Result<()> {
    let (count, last) = page(kept, Call::List(*child));
    println!(rt; "child: {count} blocks on a page, the last has index {last}")?;
    let (count, last) = page(kept, Call::Changed(*parent, *child));
    println!(rt; "changed: {count} block, the last has index {last}")?;
    let length = shown(kept, child);
    println!(rt; "child: a description of {length} bytes")?;
    let changes = kept.changes();
    println!(rt; "{changes} changes")
}

// How many client tokens an account can use, and what comes of one more and of the first one again.
fn tell_tokens(rt: &HostRuntime, kept: &mut Kept) -> io::Result<()> {
    let used = use_up(kept, TOKENS);
    println!(rt; "{used} client tokens used, each for a volume that was deleted")?;
    let Some(allowed) = most(kept, TOKENS) else {
        return println!(rt; "one more isn't refused");
    };
    println!(rt; "one more is refused: {allowed} at most")?;
    let Some(first) = create(kept, 0) else {
        return println!(rt; "the first has no volume");
    };
    let number = first.number.number();
    println!(rt; "the first again: volume {number}")
}

// What comes of the last change, and ids of great numbers.
fn tell_last(rt: &HostRuntime) -> io::Result<()> {
    let mut kept = Kept::behind(rt.alloc(), [0; 32], CHANGES - 1);
    let told = tell_last_change(rt, &mut kept);
    drop(kept);
    told?;
    tell_id(rt, 1_048_575)?;
    tell_id(rt, 1_048_576)?;
    tell_id(rt, 268_435_455)
}

// What comes of the last change, and of calls behind it.
fn tell_last_change(rt: &HostRuntime, kept: &mut Kept) -> io::Result<()> {
    let Some(key) = start(kept, None) else {
        return println!(rt; "there is no last change");
    };
    let changes = kept.changes();
    let start = is_spent(kept, Call::Start(None));
    let put = is_put_spent(kept, &key);
    let end = is_spent(kept, Call::End(key, 0));
    println!(rt; "{changes} changes: a start is refused: {start}, a put: {put}, an end: {end}")
}

// The id of a snapshot of the last account.
fn tell_id(rt: &HostRuntime, number: u32) -> io::Result<()>
    requires { number < 2 ^ 28 }
{
    let key = SnapKey {
        account: Account::new(999_999_999_999),
        number: KeyNumber::new(number),
    };
    let id = snap_text(rt.alloc(), key)?;
    println!(rt; "{id}")
}
