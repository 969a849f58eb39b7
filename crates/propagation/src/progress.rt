/// How far propagation has come. Entries before `rules` were visited for the problem's rules, those
/// before `clauses` for the added clauses, and the first constraints, so many as `examined`, were
/// examined at all.
#[derive(Clone, Copy)]
pub(crate) struct Progress {
    pub(crate) rules: usize,
    pub(crate) clauses: usize,
    pub(crate) examined: usize,
}
