// What is told of answers.
use ebs_model::{Answer, Failure, QuotaName, Refusal, SnapKey, Spent, VolKey};

/// What is told of an answer.
#[derive(Clone, Copy)]
pub enum Told {
    Started(SnapKey),
    Written,
    Completed,
    Listed(usize, u32),
    Described(usize),
    Volume(VolKey),
    Done,
    Tokens(u64),
    NoChangeLeft,
    Other,
}

/// What is told of an answer, or why the call is refused.
pub fn made_of(answer: &Result<Answer, Failure>) -> Told {
    match answer {
        Ok(answer) => told_of(answer),
        Err(Failure::Refused(refusal)) => refused(refusal),
        Err(_) => Told::Other,
    }
}

fn refused(refusal: &Refusal) -> Told {
    match refusal {
        Refusal::Exhausted(Spent::Changes) => Told::NoChangeLeft,
        Refusal::Quota {
            what: QuotaName::ClientTokens,
            number,
        } => Told::Tokens(*number),
        _ => Told::Other,
    }
}

fn told_of(answer: &Answer) -> Told {
    match answer {
        Answer::Started { key, .. } => Told::Started(*key),
        Answer::BlockWritten { .. } => Told::Written,
        Answer::Completed => Told::Completed,
        Answer::BlockList { entries, .. } => {
            let last = entries.as_slice().last();
            Told::Listed(entries.len(), last.map_or(0, |entry| entry.index))
        }
        Answer::ChangedList { entries, .. } => {
            let last = entries.as_slice().last();
            Told::Listed(entries.len(), last.map_or(0, |entry| entry.index))
        }
        Answer::SnapshotShown { row, .. } => match &row.description {
            Some(text) => Told::Described(text.len()),
            None => Told::Described(0),
        },
        Answer::VolumeShown { key, .. } => Told::Volume(*key),
        Answer::Done => Told::Done,
        _ => Told::Other,
    }
}
