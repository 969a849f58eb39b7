/// A team by its place in file order, counted from 0.
#[derive(Clone, Copy, Debug, PartialEq, Eq)]
pub struct TeamId(pub u32);
