ghost use Rattle.list_counts.specs.Counting.{AllWithin, SameNumbers};
ghost use Rattle.list_counts.specs.Filling.{CleanWishesFill};

/// A list that has each of some numbers once, and no other number, passes a test as often as these
/// numbers do.
pub fn law_same_numbers()
    ensures { SameNumbers }
{}

/// A list of n numbers that has each of n numbers once has no other number.
pub fn law_all_within()
    ensures { AllWithin }
{}

/// Clean wishes can be filled: each position is taken once, each wish is met, and whoever wishes
/// nothing has the least position that nobody wishes and none of those before it has.
pub fn law_clean_wishes_fill()
    ensures { CleanWishesFill }
{}
