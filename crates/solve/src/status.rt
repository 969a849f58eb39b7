ghost use Rattle.std.specs.Prelude.{◌≡◌};
ghost use Rattle.solve.specs.declared.status.Status.TheVariants.{NoMemory};

use std::alloc::AllocError;

/// How the program ended. The number of each is its exit status.
#[derive(Clone, Copy, Debug, PartialEq, Eq)]
pub(crate) enum Status {
    /// 0: each question is answered; the answers were written.
    Answered,
    /// 1: the words are not one number; the usage line was written.
    Usage,
    /// 2: the text is no inquiry, its rules make no problem, or a question may not be asked; the
    /// first fault was written.
    Refused,
    /// 3: the source failed.
    ReadFault,
    /// 4: the sink failed.
    WriteFault,
    /// 5: no memory was left.
    NoMemory,
    /// 6: the source held more bytes than are taken, or more rules than a `u32` numbers.
    TooLong,
}

impl Status {
    ghost use Rattle.solve.specs.Statuses.{status_number};

    /// Its number, with which the program ends.
    pub(crate) fn number(self) -> u8
        ensures { result ≡ status_number self }
    {
        match self {
            Status::Answered => 0,
            Status::Usage => 1,
            Status::Refused => 2,
            Status::ReadFault => 3,
            Status::WriteFault => 4,
            Status::NoMemory => 5,
            Status::TooLong => 6,
        }
    }
}

/// Where memory runs out the program ends with `NoMemory`.
impl From<AllocError> for Status {
    ghost from_gives = { λ _ status. status ≡ NoMemory };

    fn from(_error: AllocError) -> Status {
        Status::NoMemory
    }
}
