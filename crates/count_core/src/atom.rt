/// A truth value that a problem leaves open, by its number, from 0.
#[derive(Clone, Copy, Debug, PartialEq, Eq)]
pub struct Atom(pub u32);
