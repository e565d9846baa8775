// Words of the command line, and those that are none.
use ebs_words::{Command, read_words};
use std::alloc::{AllocError, Global};

const DIGITS: &str = "000102030405060708090a0b0c0d0e0f101112131415161718191a1b1c1d1e1f";

const SECRET: [u8; 32] = [
    0, 1, 2, 3, 4, 5, 6, 7, 8, 9, 10, 11, 12, 13, 14, 15, 16, 17, 18, 19, 20, 21, 22, 23, 24, 25,
    26, 27, 28, 29, 30, 31,
];

fn push_word(words: &mut Vec<String>, alloc: Global, word: &str) -> Result<(), AllocError> {
    let word = String::from_str(alloc, word)?;
    Ok(words.push(word)?)
}

fn words_of(alloc: Global, line: &[&str]) -> Result<Vec<String>, AllocError> {
    let mut words = Vec::new(alloc);
    for word in line {
        push_word(&mut words, alloc, word)?;
    }
    Ok(words)
}

fn command_of(alloc: Global, line: &[&str]) -> Result<Option<Command>, AllocError> {
    let words = words_of(alloc, line)?;
    let command = read_words(alloc, words.as_slice());
    drop(words);
    command
}

/// Whether the line is this command, or none.
fn is_read(alloc: Global, line: &[&str], want: Option<Command>) -> bool {
    match command_of(alloc, line) {
        Ok(found) => found == want,
        Err(_) => false,
    }
}

fn are_read(alloc: Global, rows: &[(&[&str], Command)]) -> bool {
    for (line, wanted) in rows {
        if !is_read(alloc, line, Some(*wanted)) {
            return false;
        }
    }
    true
}

fn are_none(alloc: Global, lines: &[&[&str]]) -> bool {
    for line in lines {
        if !is_read(alloc, line, None) {
            return false;
        }
    }
    true
}

const COMMANDS: [(&[&str], Command); 10] = [
    (&["session"], Command::Session),
    (&["init"], Command::Init { secret: [0; 32] }),
    (
        &["init", "--secret", DIGITS],
        Command::Init { secret: SECRET },
    ),
    (&["tick"], Command::Tick),
    (&["collect"], Command::Collect),
    (&["usage"], Command::Usage),
    (&["check"], Command::Check),
    (&["sample", "1"], Command::Sample { rounds: 1 }),
    (&["sample", "10"], Command::Sample { rounds: 10 }),
    (&["sample", "256"], Command::Sample { rounds: 256 }),
];

#[test]
fn each_command_has_its_words(rt: HostRuntime) {
    assert!(rt; are_read(rt.alloc(), &COMMANDS));
}

const NO_COMMANDS: [&[&str]; 34] = [
    &[],
    &[""],
    &["Session"],
    &["session", "x"],
    &["session", ""],
    &["session", "-"],
    &["--"],
    &["session", "--"],
    &["--", "session"],
    &["--help"],
    &["session", "--help"],
    &["session", "-h"],
    &["help"],
    &["-V"],
    &["--version"],
    &["collect", "x"],
    &["usage", "--"],
    &["tick", "1"],
    &["init", "x"],
    &["init", "--"],
    &["init", "--secret"],
    &["init", "--secret="],
    &["init", "--secret", "-"],
    &["init", "--secret", "--secret"],
    &["init", "--sec", DIGITS],
    &["init", "--secret", DIGITS, "--secret", DIGITS],
    &["sample"],
    &["sample", ""],
    &["sample", "0"],
    &["sample", "01"],
    &["sample", "+1"],
    &["sample", "-1"],
    &["sample", "257"],
    &["sample", "1", "1"],
];

#[test]
fn other_words_are_no_command(rt: HostRuntime) {
    assert!(rt; are_none(rt.alloc(), &NO_COMMANDS));
}

/// Whether `init` with a word that is put together of these is read so.
fn init_so(alloc: Global, front: &str, back: &str, want: Option<Command>) -> bool {
    match format!(in alloc; "{front}{back}") {
        Ok(word) => {
            let so = is_read(alloc, &["init", word.as_str()], want);
            drop(word);
            so
        }
        Err(_) => false,
    }
}

fn inits_so(alloc: Global, rows: &[(&str, &str, Option<Command>)]) -> bool {
    for (front, back, want) in rows {
        if !init_so(alloc, front, back, *want) {
            return false;
        }
    }
    true
}

const UPPER: &str = "000102030405060708090A0B0C0D0E0F101112131415161718191A1B1C1D1E1F";

const INITS: [(&str, &str, Option<Command>); 5] = [
    ("--secret=", DIGITS, Some(Command::Init { secret: SECRET })),
    ("--secret=0", DIGITS, None),
    ("--secret==", DIGITS, None),
    ("--secret", DIGITS, None),
    ("--secret=", UPPER, None),
];

#[test]
fn a_secret_may_stand_in_one_word(rt: HostRuntime) {
    assert!(rt; inits_so(rt.alloc(), &INITS));
}
