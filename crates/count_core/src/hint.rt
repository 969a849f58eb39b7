/// What a step rests on: a rule of the problem, or an earlier step of the list, each by its number
/// from 0.
#[derive(Clone, Copy, Debug, PartialEq, Eq)]
pub enum Hint {
    Rule(u32),
    Step(u32),
}
