//! What the definitions of the contracts come to, in the subject's own words.

ghost use Rattle.team_files.specs.Codes.{FindsByCode, TellsSameCode};
ghost use Rattle.team_files.specs.Faults.{TellsFirstFault};

/// Where codes are different, a code finds exactly the team that has it, and none exactly where no
/// team has it.
pub fn law_find_by_code()
    ensures { FindsByCode }
{}

/// `SameCode` names the code at the first place whose code stands before it, and comes exactly
/// where some code stands twice.
pub fn law_same_code()
    ensures { TellsSameCode }
{}

/// The fault that `read_head` tells of a value is the first that holds of it, in the order of their
/// numbers, and it gives a head exactly where none holds.
pub fn law_first_fault()
    ensures { TellsFirstFault }
{}
