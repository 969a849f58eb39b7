/// What a check of a list of steps answers.
#[derive(Clone, Copy, Debug, PartialEq, Eq)]
pub enum Checked {
    /// Each step is accepted after those before it.
    Accepted,
    /// The first step that is not accepted, by its number from 0, and its failing hint, from 0: the
    /// first faulty hint; the number of hints where none is faulty and the last only forces; 0
    /// where there is no hint, or the clause has an atom out of range or one atom twice.
    Bad { step: u32, hint: u32 },
}
