// What the words of a command line ask for.
ghost use Rattle.std.specs.Prelude.{◌≡◌, ◌↔◌, ℕ, IfOk, List, Some, codes, false, map, nat_eq, string_bytes};
ghost use Rattle.std.specs.List.{list_any};
ghost use Rattle.std.specs.Cmp.Lexicographic.{pointwise};
ghost use Rattle.clap.specs.Words.{first_of, found_of, rows_of, subcommand_rows_of};
ghost use Rattle.ebs_words.specs.Spellings.{IsSpelled};
ghost use Rattle.ebs_words.specs.inner.Found.{IsFound, IsRoundsIn, IsSecretIn};

use crate::grammar::grammar;
use crate::values::{read_number, read_secret};
use clap::ArgMatches;
use clap::error::ErrorKind;
use std::alloc::{AllocError, Global};

const MOST_ROUNDS: u16 = 256;

/// What the words ask for.
#[derive(Clone, Copy, Debug, PartialEq, Eq)]
pub enum Command {
    Session,
    /// The store is made with this secret.
    Init { secret: [u8; 32] },
    Tick,
    Collect,
    Usage,
    Check,
    Sample { rounds: u16 },
}

/// What the words ask for: a command exactly where they spell it. It fails only for want of memory.
pub fn read_words(alloc: Global, words: &[String]) -> Result<Option<Command>, AllocError>
    ensures { IfOk result (λ found. (command : Command) → (found ≡ Some command) ↔ IsSpelled command (map string_bytes words.now)) }
{
    // `clap` takes `--` in front of a value and behind the last one.
    if has_end_of_options(words) {
        return Ok(None);
    }
    parse(alloc, words)
}

fn has_end_of_options(words: &[String]) -> bool
    ensures { result ≡ list_any (λ word. pointwise nat_eq (string_bytes word) (codes "--")) words.now }
{
    words.iter().any(|word| word.as_str() == "--")
}

// What `clap` makes of words of which none is `--`.
fn parse(alloc: Global, words: &[String]) -> Result<Option<Command>, AllocError>
    requires { list_any (λ word. pointwise nat_eq (string_bytes word) (codes "--")) words.now ≡ false }
    ensures { IfOk result (λ found. (command : Command) → (found ≡ Some command) ↔ IsSpelled command (map string_bytes words.now)) }
{
    match grammar(alloc)?.try_get_matches_from(words) {
        Ok(matches) => Ok(command_of(&matches)),
        Err(error) if error.kind() == ErrorKind::OutOfMemory => Err(AllocError),
        Err(_) => Ok(None),
    }
}

fn command_of(matches: &ArgMatches<'_>) -> Option<Command>
    ensures { (command : Command) → (result ≡ Some command) ↔ IsFound command (subcommand_rows_of matches.now) }
{
    let (name, values) = matches.subcommand()?;
    match name {
        "session" => Some(Command::Session),
        "init" => Some(Command::Init {
            secret: secret_in(values)?,
        }),
        "tick" => Some(Command::Tick),
        "collect" => Some(Command::Collect),
        "usage" => Some(Command::Usage),
        "check" => Some(Command::Check),
        "sample" => Some(Command::Sample {
            rounds: rounds_in(values)?,
        }),
        _ => None,
    }
}

// The secret that is given, or that of zeros.
fn secret_in(values: &ArgMatches<'_>) -> Option<[u8; 32]>
    ensures { (secret : List ℕ) → (result ≡ Some secret) ↔ IsSecretIn (first_of (codes "secret") (rows_of (found_of values.now))) secret }
{
    match values.get_str("secret") {
        Some(text) => read_secret(text),
        None => Some([0; 32]),
    }
}

fn rounds_in(values: &ArgMatches<'_>) -> Option<u16>
    ensures { (rounds : ℕ) → (result ≡ Some rounds) ↔ IsRoundsIn (first_of (codes "rounds") (rows_of (found_of values.now))) rounds }
{
    read_number(values.get_str("rounds")?, MOST_ROUNDS)
}
