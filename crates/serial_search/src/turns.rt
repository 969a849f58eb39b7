use crate::picking::{Heuristic, other_side_of};
use count_core::{NoMemory, Problem};
use std::alloc::Global;

/// The heuristics in the order of their turns in a round. Nothing rests on it.
#[derive(Clone, Copy, Debug, PartialEq, Eq)]
pub(crate) struct Turns {
    pub(crate) first: Heuristic,
    pub(crate) second: Heuristic,
    pub(crate) third: Heuristic,
}

impl Turns {
    /// The order for a problem: where it pairs two sides, slack goes first, since what the fewest
    /// unset literals teach there is in the way of the others.
    pub(crate) fn of(alloc: Global, problem: &Problem) -> Result<Turns, NoMemory> {
        let place = other_side_of(problem.rules());
        let one_side = Heuristic::LeastSlackFrom { place: 0 };
        let other_side = Heuristic::LeastSlackFrom { place };
        if pairs_two_sides(alloc, problem)? {
            return Ok(Turns {
                first: one_side,
                second: other_side,
                third: Heuristic::FewestUnset,
            });
        }
        Ok(Turns {
            first: Heuristic::FewestUnset,
            second: one_side,
            third: other_side,
        })
    }
}

/// Whether no atom stands in more than two rules of more than one literal, as in a pairing, where
/// these are the rules of a runner-up and of a winner.
fn pairs_two_sides(alloc: Global, problem: &Problem) -> Result<bool, NoMemory> {
    let mut numbers: Vec<u32> = vec![in alloc; 0; problem.atoms() as usize]?;
    for rule in problem.rules() {
        let lits = rule.lits.as_slice();
        if lits.len() < 2 {
            continue;
        }
        for lit in lits {
            let place = lit.atom.0 as usize;
            if place < numbers.len() {
                numbers[place] = numbers[place].saturating_add(1);
            }
        }
    }
    Ok(numbers.iter().all(|number| *number <= 2))
}
