ghost use Rattle.std.specs.Prelude.{◌≡◌, ◌↔◌, IsTrue};
ghost use Rattle.count_core.specs.Assignments.{makes_true, true_number, SatisfiesRule, Satisfies};

use crate::count_rule::CountRule;
use crate::lit::Lit;
use crate::problem::Problem;

/// Whether the values satisfy each rule of the problem. Values are by atom from 0; an atom past
/// their end is false, so there may be fewer or more of them than atoms.
pub fn satisfied(problem: &Problem, values: &[bool]) -> bool
    ensures { IsTrue result ↔ Satisfies values.now problem.now }
{
    problem
        .rules()
        .iter()
        .all(|rule| satisfies_rule(values, rule))
}

/// Whether the number of the rule's true literals is from its `lo` to its `hi`.
fn satisfies_rule(values: &[bool], rule: &CountRule) -> bool
    ensures { IsTrue result ↔ SatisfiesRule values.now rule.now }
{
    let number = true_number(values, rule.lits.as_slice());
    rule.lo as usize <= number && number <= rule.hi as usize
}

/// How many of the literals are true.
fn true_number(values: &[bool], lits: &[Lit]) -> usize
    ensures { result ≡ true_number values.now lits.now }
{
    lits.iter().filter(|lit| makes_true(values, **lit)).count()
}

/// Whether the values make the literal true.
fn makes_true(values: &[bool], lit: Lit) -> bool
    ensures { result ≡ makes_true values.now lit }
{
    let place = lit.atom.0 as usize;
    let value = place < values.len() && values[place];
    if lit.positive { value } else { !value }
}
