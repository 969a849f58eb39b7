/// A literal over an atom: the number of the constraint that has it, and its sign.
#[derive(Clone, Copy, Debug, PartialEq, Eq)]
pub(crate) struct Occurrence {
    pub(crate) constraint: u32,
    pub(crate) positive: bool,
}
