// The words that a program was given.
ghost use Rattle.std.specs.Prelude.{◌≡◌, [], IsErr, IfOk, OnErr};
ghost use Rattle.std.specs.IoError.{error_kind};
ghost use Rattle.std.specs.declared.io.ErrorKind.{ErrorKind};

use std::alloc::{AllocError, Global};
use std::io::ErrorKind;
use std::rt::Env;
use std::{env, io};

/// The words that the program was given, without its name.
pub fn given_words(
    rt: &(impl Env + AllocGlobal),
    alloc: Global,
) -> Result<Vec<String>, AllocError> {
    match env::args(rt) {
        Ok(words) => words.skip(1).collect(alloc),
        Err(error) => untold_words(alloc, &error),
    }
}

/// What stands for words that can't be told: none, unless it was for want of memory.
fn untold_words(alloc: Global, error: &io::Error) -> Result<Vec<String>, AllocError>
    ensures memory { error_kind error.now ≡ ErrorKind.OutOfMemory → IsErr result }
    ensures others { OnErr result (error_kind error.now ≡ ErrorKind.OutOfMemory) }
    ensures none { IfOk result (λ words. words.items ≡ []) }
{
    if error.kind() == ErrorKind::OutOfMemory {
        return Err(AllocError);
    }
    Ok(Vec::new(alloc))
}
