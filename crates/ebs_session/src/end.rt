// How a session ended.
ghost use Rattle.std.specs.Prelude.{◌≡◌};
ghost use Rattle.ebs_session.specs.Session.{status_of};

/// How a session ended.
#[derive(Clone, Copy, Debug, PartialEq, Eq)]
pub enum End {
    /// The input ended behind a message, or was empty.
    Done,
    InputFailed,
    OutputFailed,
    /// The input ended inside a message, of which so many bytes wait.
    Cut(u64),
    /// What came is no message, whatever follows. So many bytes of what was taken stand before it.
    Bad(u64),
    /// Want of memory.
    Memory,
    /// As many bytes were taken as the session takes.
    Limit,
}

impl End {
    /// The status by which a program tells it.
    pub fn status(self) -> u8
        ensures { result ≡ status_of self }
    {
        match self {
            End::Done => 0,
            End::InputFailed => 4,
            End::OutputFailed => 5,
            End::Cut(_) => 6,
            End::Bad(_) => 7,
            End::Memory => 8,
            End::Limit => 9,
        }
    }
}
