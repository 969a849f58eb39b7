ghost use Rattle.std.specs.Prelude.{◌≡◌};

/// How a top call ended. The number of each is the program's exit status.
#[derive(Clone, Copy, Debug, PartialEq, Eq)]
pub enum Status {
    /// 0: the source was read to its end, and the whole answer was written.
    Ok,
    /// 1: the words have not the form of a command; the usage line was written.
    Usage,
    /// 2: the input has no draw file; the line of its first fault was written.
    FileRefused,
    /// 3: the source failed.
    ReadFault,
    /// 4: the sink failed.
    WriteFault,
    /// 5: no memory was left.
    NoMemory,
    /// 6: the source held more bytes than are taken.
    TooLong,
    /// 7: the table is not legal, or there is no table; what is wrong was written. `run_check` alone
    /// answers so.
    NotValid,
}

impl Status {
    ghost use Rattle.draw_top.specs.Statuses.{status_number};

    /// Its number, with which the program ends.
    pub fn number(self) -> u8
        ensures { result ≡ status_number self }
    {
        match self {
            Status::Ok => 0,
            Status::Usage => 1,
            Status::FileRefused => 2,
            Status::ReadFault => 3,
            Status::WriteFault => 4,
            Status::NoMemory => 5,
            Status::TooLong => 6,
            Status::NotValid => 7,
        }
    }
}
