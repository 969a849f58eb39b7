ghost use Rattle.std.specs.Prelude.{◌≡◌, ◌<◌, length};
ghost use Rattle.propagation.specs.Constraints.{IsNamed, constraint_at, constraints_of, hint_at};
ghost use Rattle.propagation.specs.Views.{rule_in};

use crate::clause::Clause;
use count_core::{Hint, Lit, Problem};

/// A rule or an added clause: its literals, its bounds, and the hint that names it.
#[derive(Clone, Copy)]
pub(crate) struct Constraint<'a> {
    pub(crate) lits: &'a [Lit],
    pub(crate) lo: usize,
    pub(crate) hi: usize,
    pub(crate) hint: Hint,
}

/// The constraint with this number: first come the problem's rules, then the clauses.
pub(crate) fn find<'a>(problem: &'a Problem, clauses: &'a [Clause], number: usize) -> Constraint<'a>
    requires { number < length (constraints_of problem.now clauses.now) }
    ensures rule { rule_in result ≡ constraint_at problem.now clauses.now number }
    ensures hint { result.hint ≡ hint_at problem.now clauses.now number }
    ensures named { IsNamed problem.now clauses.now result.hint (rule_in result) }
{
    let rules = problem.rules();
    if number < rules.len() {
        let rule = &rules[number];
        return Constraint {
            lits: rule.lits.as_slice(),
            lo: rule.lo as usize,
            hi: rule.hi as usize,
            hint: Hint::Rule(number as u32),
        };
    }
    let clause = &clauses[number - rules.len()];
    let lits = clause.lits.as_slice();
    Constraint {
        lits,
        lo: 1,
        hi: lits.len(),
        hint: Hint::Step(clause.step),
    }
}
