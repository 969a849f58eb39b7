use count_core::Lits;

/// A clause that was added: at least one of its literals is true. `step` is the number that the
/// caller gave with it, by which a cause names it.
#[derive(Drop)]
pub struct Clause {
    pub lits: Lits,
    pub step: u32,
}
