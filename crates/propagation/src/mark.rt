/// A length of a trail, to which an engine can go back.
#[derive(Clone, Copy, Debug, PartialEq, Eq)]
pub struct Mark(pub u32);
