// The requests of the calls on rows of snapshots.
use crate::words::{Words, accounts, given_long, given_short, short, snap};
use ebs_model::{LockMode, Moment, Request, Term};
use std::alloc::Global;

pub fn row_request(alloc: Global, verb: &str, words: Words<'_>) -> Option<Request> {
    match verb {
        "describe" => Some(Request::DescribeSnapshot {
            key: snap(words, 0)?,
        }),
        "rows" => Some(Request::DescribeSnapshots {
            from: short(words, 0)?,
            max: short(words, 1)?,
        }),
        "share" => share(alloc, words),
        "lock" => lock(words),
        "unlock" => Some(Request::UnlockSnapshot {
            key: snap(words, 0)?,
        }),
        "archive" => Some(Request::ArchiveSnapshot {
            key: snap(words, 0)?,
        }),
        "restore" => Some(Request::RestoreTier {
            key: snap(words, 0)?,
            days: given_short(words, "days")?,
        }),
        "delete" => Some(Request::DeleteSnapshot {
            key: snap(words, 0)?,
        }),
        _ => None,
    }
}

// share SNAPSHOT [add=] [add_all=yes] [remove=] [remove_all=yes]
fn share(alloc: Global, words: Words<'_>) -> Option<Request> {
    let key = snap(words, 0)?;
    let add_all = words.named("add_all").is_some();
    let remove_all = words.named("remove_all").is_some();
    Some(Request::ModifyPermission {
        key,
        add: accounts(alloc, words, "add")?,
        add_all,
        remove: accounts(alloc, words, "remove")?,
        remove_all,
    })
}

// lock SNAPSHOT MODE [days=] [date=] [cool=]
fn lock(words: Words<'_>) -> Option<Request> {
    Some(Request::LockSnapshot {
        key: snap(words, 0)?,
        mode: mode_of(words.at(1)?)?,
        term: term(words)?,
        cool_hours: given_short(words, "cool")?,
    })
}

fn mode_of(text: &str) -> Option<LockMode> {
    match text {
        "governance" => Some(LockMode::Governance),
        "compliance" => Some(LockMode::Compliance),
        _ => None,
    }
}

fn term(words: Words<'_>) -> Option<Term> {
    match given_short(words, "days")? {
        Some(days) => Some(Term::Days(days)),
        None => Some(Term::Date(Moment {
            second: given_long(words, "date")??,
        })),
    }
}
