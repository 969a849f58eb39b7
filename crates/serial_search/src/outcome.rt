use count_core::Values;
use refutations::Closed;

/// What was found of a question: values that satisfy it and the problem, or its refutation.
#[derive(Drop)]
pub enum Outcome {
    Possible { values: Values },
    Impossible { closed: Closed },
}
