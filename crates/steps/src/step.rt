// A line of a session.
use crate::words::{Words, account_of, long_of, short_of};
use ebs_model::{Account, Moment};

/// A call of an account at a moment, so many times, and what is answered the last time.
#[derive(Clone, Copy)]
pub struct Step<'a> {
    pub at: Moment,
    pub account: Account,
    pub count: u32,
    pub call: Call<'a>,
    pub wanted: &'a str,
}

/// A verb, and the words behind it.
#[derive(Clone, Copy)]
pub struct Call<'a> {
    pub verb: &'a str,
    pub words: Words<'a>,
}

/// `SECOND ACCOUNT [COUNT*] VERB WORDS : ANSWER`
pub fn read_step(line: &str) -> Option<Step<'_>> {
    let (call, wanted) = line.split_once(" : ")?;
    let (second, rest) = call.split_once(" ")?;
    let (account, rest) = rest.split_once(" ")?;
    let (count, rest) = counted(rest)?;
    Some(Step {
        at: Moment {
            second: long_of(second)?,
        },
        account: account_of(account)?,
        count,
        call: call_of(rest),
        wanted,
    })
}

fn counted(text: &str) -> Option<(u32, &str)> {
    match text.split_once("* ") {
        Some((count, rest)) => Some((short_of(count)?, rest)),
        None => Some((1, text)),
    }
}

pub fn call_of(text: &str) -> Call<'_> {
    let (verb, rest) = text.split_once(" ").unwrap_or((text, ""));
    Call {
        verb,
        words: Words::new(rest),
    }
}
