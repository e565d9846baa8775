//! Prints the SHA-256 of standard input in hexadecimal.
#![tactic(auto)]

mod digest;

use digest::digest_of;
use ebs_world::StdSource;
use std::process::ExitCode;

/// The bytes of one read.
const ROOM: usize = 65536;

fn main(rt: HostRuntime) -> ExitCode {
    let alloc = rt.alloc();
    let Ok(mut room) = vec![in alloc; 0u8; ROOM] else {
        return ExitCode::FAILURE;
    };
    let mut input = StdSource::new(&rt);
    let Ok(digest) = digest_of(&mut input, room.as_mut_slice()) else {
        return ExitCode::FAILURE;
    };
    let Ok(text) = hex::encode(alloc, digest.as_slice()) else {
        return ExitCode::FAILURE;
    };
    match println!(rt; "{text}") {
        Ok(()) => ExitCode::SUCCESS,
        Err(_) => ExitCode::FAILURE,
    }
}
