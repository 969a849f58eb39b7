ghost use Rattle.std.specs.Prelude.{◌≡◌};

/// How the program ended. The number of each is its exit status.
#[derive(Clone, Copy, Debug, PartialEq, Eq)]
pub(crate) enum Status {
    /// 0: each step is accepted; this was written.
    Accepted,
    /// 1: the words are not one number; the usage line was written.
    Usage,
    /// 2: the text is no list, or its rules make no problem; the first fault was written.
    Refused,
    /// 3: the source failed.
    ReadFault,
    /// 4: the sink failed.
    WriteFault,
    /// 5: no memory was left.
    NoMemory,
    /// 6: the source held more bytes than are taken, or more rules, steps or hints than a `u32`
    /// numbers.
    TooLong,
    /// 7: a step is not accepted; the first such step and its failing hint were written.
    Bad,
}

impl Status {
    ghost use Rattle.stepcheck.specs.Statuses.{status_number};

    /// Its number, with which the program ends.
    pub(crate) fn number(self) -> u8
        ensures { result ≡ status_number self }
    {
        match self {
            Status::Accepted => 0,
            Status::Usage => 1,
            Status::Refused => 2,
            Status::ReadFault => 3,
            Status::WriteFault => 4,
            Status::NoMemory => 5,
            Status::TooLong => 6,
            Status::Bad => 7,
        }
    }
}
