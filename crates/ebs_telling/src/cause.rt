// Why a program ended.
use ebs_disk_store::OpenRefusal;
use std::fmt;

/// Why a program ended with a status.
#[derive(Clone, Copy)]
pub enum Cause {
    /// Another process uses the store.
    Used,
    /// A store was there where one was to be made.
    MadeBefore,
    /// What is there isn't opened.
    Unopened(OpenRefusal),
    /// What the status alone tells, in words.
    Words(&'static str),
}

impl fmt::Display for Cause {
    fn fmt<W: fmt::Write>(&self, f: &mut fmt::Formatter<W>) -> fmt::Result {
        match self {
            Cause::Used => f.write_str("another process uses the store in ebs-data"),
            Cause::MadeBefore => f.write_str("a store was made in ebs-data before"),
            Cause::Unopened(refusal) => write_refusal(f, *refusal),
            Cause::Words(words) => f.write_str(words),
        }
    }
}

fn write_refusal<W: fmt::Write>(f: &mut fmt::Formatter<W>, refusal: OpenRefusal) -> fmt::Result {
    match refusal {
        OpenRefusal::DiskFailed => {
            f.write_str("the folder ebs-data, or a file in it, can't be read or written")
        }
        OpenRefusal::NotAJournal(nine) => write_found(f, &nine),
        OpenRefusal::BadVersion(version) => write!(
            f,
            "the journal in ebs-data is of version {version}, which this program doesn't read"
        ),
        OpenRefusal::BadRecord(place) => {
            write!(
                f,
                "the record at byte {place} of the journal in ebs-data is bad"
            )
        }
        OpenRefusal::BadCheckpoint => {
            f.write_str("the checkpoint of the journal in ebs-data is bad")
        }
        OpenRefusal::NotBuilt => f.write_str(
            "the journal in ebs-data has a checkpoint or a record that this program doesn't read",
        ),
        OpenRefusal::Memory => f.write_str("there isn't memory enough"),
        OpenRefusal::NotMade | OpenRefusal::AlreadyMade => {
            f.write_str("what is in ebs-data is no store that this program can use")
        }
    }
}

// Which bytes stand where a journal's first nine should.
fn write_found<W: fmt::Write>(f: &mut fmt::Formatter<W>, found: &[u8; 9]) -> fmt::Result {
    f.write_str(
        "the journal in ebs-data should begin with 01 45 42 53 4a 52 4e 41 4c and begins with",
    )?;
    for byte in found {
        write!(f, " {byte:02x}")?;
    }
    Ok(())
}
