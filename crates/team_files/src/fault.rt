ghost use Rattle.std.specs.Prelude.{◌≡◌};
ghost use Rattle.team_files.specs.declared.fault.FileFault.TheVariants.{NoMemory};

use crate::code::Code;
use crate::text::Text;
use std::alloc::{AllocError, AllocFailed};

/// The members of a head and of the objects in it, by name.
#[derive(Clone, Copy, Debug, PartialEq, Eq)]
pub enum Field {
    Kind,
    Groups,
    Pots,
    Teams,
    Code,
    Name,
    Pot,
    Tags,
    Group,
    Limits,
    Tag,
    Lo,
    Hi,
    Pairs,
    Places,
    Position,
}

/// Why a head has no draw file, each with its number. `place` counts from 0 in its list, `pot` from 1.
#[derive(Debug, Drop, thiserror::Error)]
pub enum FileFault {
    /// 1. The bytes are not one JSON value.
    #[error("the head is not one JSON value")]
    NotJson,
    /// 2. The value is not an object.
    #[error("the head is not an object")]
    NotObject,
    /// 3. No kind has the name.
    #[error("the kind is unknown")]
    KindUnknown { text: Text },
    /// 4. The first needed member that is absent.
    #[error("a member is missing")]
    FieldMissing { name: Field },
    /// 5. The first member of another form or range.
    #[error("a member has another form or range")]
    FieldWrong { name: Field },
    /// 6. The first list that is longer than its limit, and its length.
    #[error("a list or a number is past its limit: {number}")]
    TooMany { what: Field, number: u64 },
    /// 7. The first team whose code is not a code.
    #[error("team {place} has no code")]
    BadCode { place: u32 },
    /// 8. The code of the first team that has an earlier one's code.
    #[error("two teams have one code")]
    SameCode { code: Code },
    /// 9. The first pot that is not of the size that the kind asks, and its size.
    #[error("pot {pot} has {number} teams")]
    PotSize { pot: u32, number: u32 },
    /// 10. The first team with a tag that no limit names.
    #[error("team {place} has a tag that no limit names")]
    UnknownTag { place: u32 },
    /// 11. The first forbidden pair that does not name two different teams.
    #[error("forbidden pair {place} is no pair of two teams")]
    BadPair { place: u32 },
    /// 12. The first fixed place that is not a place of a team.
    #[error("fixed place {place} is no place of a team")]
    BadPlace { place: u32 },
    /// 13. Memory ran out.
    #[error("out of memory")]
    NoMemory,
    /// 14. The kind is known by name and not built.
    #[error("the kind is not built yet")]
    KindNotBuilt,
}

/// Where memory runs out the fault is `NoMemory`.
impl From<AllocError> for FileFault {
    ghost from_gives = { λ _ fault. fault ≡ NoMemory };

    fn from(_error: AllocError) -> FileFault {
        FileFault::NoMemory
    }
}

/// Where memory runs out the fault is `NoMemory`; the value that found no room is dropped.
impl<T: Drop> From<AllocFailed<T>> for FileFault {
    ghost from_gives = { λ _ fault. fault ≡ NoMemory };

    fn from(_error: AllocFailed<T>) -> FileFault {
        FileFault::NoMemory
    }
}
