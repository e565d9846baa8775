// Lines on standard error.
use crate::cause::Cause;
use std::io::Eprint;

/// Tells why a program of this name ended with a status. Nothing is told of 0, and of 1 the usage text is.
pub fn tell(rt: &impl Eprint, name: &str, status: u8, cause: Cause) {
    if status > 1 {
        let _ = eprintln!(rt; "{name}: {cause} (status {status})");
    }
}

/// Tells that a store was made where none was asked for.
pub fn tell_made(rt: &impl Eprint, name: &str) {
    let _ = eprintln!(rt;
        "{name}: there was no store in ebs-data, so an empty one was made, with a secret of zeros for its tokens"
    );
}
