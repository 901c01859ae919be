//! What is told of a line that asks nothing.
ghost use Rattle.std.specs.Prelude.{◌≡◌};
ghost use Rattle.ac_session.specs.Questions.LineFaults.{fault_line};

/// What is wrong with a line that asks nothing.
#[derive(Clone, Copy, Debug, PartialEq, Eq)]
pub enum LineFault {
    /// Its first word is no command, or it isn't UTF-8.
    UnknownCommand,
    /// Behind the name of a command stand too few words, or too many.
    WrongNumber,
    /// It has more than 131072 bytes.
    TooLong,
}

impl LineFault {
    /// The line that tells it.
    pub fn line(self) -> &'static str
        ensures { result.now ≡ fault_line self }
    {
        match self {
            LineFault::UnknownCommand => "session: unknown command\n",
            LineFault::WrongNumber => "session: wrong number of words\n",
            LineFault::TooLong => "session: line too long\n",
        }
    }
}
