// What is told on standard error.
use ebs_telling::Cause;
use std::io::Eprint;

/// What a status alone tells.
pub fn words_for(status: u8) -> Cause {
    Cause::Words(words_of(status))
}

fn words_of(status: u8) -> &'static str {
    match status {
        2 => "the folder ebs-data, or a file in it, can't be read or written",
        3 => "what is in ebs-data is no store that this program can use",
        4 => "standard input can't be read",
        5 => "standard output can't be written",
        6 => "the input ends within a message",
        7 => "what follows in the input is no HTTP message",
        8 => "there isn't memory enough",
        9 => "the session took as many bytes as one may",
        12 =>
            "no checkpoint can be written: it would be too long, or the journal's epochs are used up",
        _ => "a block is damaged",
    }
}

/// Tells how many policies of all were refused, where one was.
pub fn tell_refused(rt: &impl Eprint, refused: u64, all: u64) {
    let _ = match refused {
        0 => Ok(()),
        1 => eprintln!(rt; "ebs: 1 of {all} policies wasn't run, its line tells why"),
        _ => { eprintln!(rt; "ebs: {refused} of {all} policies weren't run, their lines tell why") }
    };
}
