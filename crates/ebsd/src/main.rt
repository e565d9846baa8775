//! `ebsd`: the snapshot store as a server at a port of this machine, over a folder.
#![tactic(auto)]

ghost use Rattle.std.specs.Prelude.{◌≡◌, IfOk, vec_len};

mod telling;

use crate::telling::{cause_of, tell_listening};
use ebs_doors::{OpenGate, TcpDoor};
use ebs_server::{Post, serve, serve_status};
use ebs_telling::{Cause, tell, tell_made};
use ebs_words::{given_words, read_server_words};
use ebs_world::{FolderDisk, SystemClock};
use std::alloc::AllocError;
use std::fs;
use std::io::Eprint;
use std::net::{Ipv4Addr, SocketAddr, TcpListener};
use std::process::ExitCode;

const NAME: &str = "ebsd";

const USAGE: &str = "usage: ebsd PORT WORKERS";

/// The file that is there once a store was made.
const MARKED: &str = "ebs-data/archive";

/// The status where the port can't be listened at.
const NOT_BOUND: u8 = 5;

/// The status where there is no memory to begin.
const NO_MEMORY: u8 = 8;

fn main(rt: HostRuntime) -> ExitCode {
    let alloc = rt.alloc();
    let Ok(words) = given_words(&rt, alloc) else {
        return end_with(&rt, NO_MEMORY, "there isn't memory enough");
    };
    let Some((port, workers)) = read_server_words(words.as_slice()) else {
        let _ = println!(&rt; "{USAGE}");
        return ExitCode::from(1);
    };
    let Ok(listener) = TcpListener::bind(&rt, SocketAddr::from((Ipv4Addr::LOCALHOST, port))) else {
        return end_with(&rt, NOT_BOUND, "the port can't be listened at");
    };
    let Ok(posts) = posts_at(&rt, &listener, workers) else {
        return end_with(&rt, NO_MEMORY, "there isn't memory enough");
    };
    if !fs::exists(&rt, MARKED).unwrap_or(true) {
        tell_made(&rt, NAME);
    }
    tell_listening(&rt, port, workers);
    let disk = FolderDisk::new(&rt);
    let end = serve(&rt, alloc, posts, disk, SystemClock::new(&rt), &OpenGate);
    let status = serve_status(&end);
    tell(&rt, NAME, status, cause_of(&end));
    drop(end);
    ExitCode::from(status)
}

// Tells why, and answers the status.
fn end_with(rt: &impl Eprint, status: u8, why: &'static str) -> ExitCode {
    tell(rt, NAME, status, Cause::Words(why));
    ExitCode::from(status)
}

// So many posts, whose doors share a listener.
fn posts_at<'a>(
    rt: &'a HostRuntime,
    listener: &'a TcpListener,
    workers: u32,
) -> Result<Vec<Post<TcpDoor<'a>, SystemClock<'a, HostRuntime>>>, AllocError>
    ensures { IfOk result (λ posts. vec_len posts ≡ workers) }
{
    let mut posts = Vec::new(rt.alloc());
    'post: while posts.len() < workers as usize {
        posts.push(Post {
            listener: TcpDoor::new(listener),
            clock: SystemClock::new(rt),
        })?;
    }
    Ok(posts)
}
