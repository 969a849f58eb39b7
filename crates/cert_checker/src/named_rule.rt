ghost use Rattle.std.specs.Prelude.{◌≡◌, option_map};
ghost use Rattle.count_core.specs.Steps.{rule_at};
ghost use Rattle.cert_checker.specs.NamedRules.{rule_of};

use count_core::{Hint, Lit, Problem, Step};

/// What a hint names, borrowed: from `lo` to `hi` of the literals are true. A clause is that at
/// least one of them is.
#[derive(Clone, Copy)]
pub(crate) struct NamedRule<'a> {
    pub(crate) lits: &'a [Lit],
    pub(crate) lo: usize,
    pub(crate) hi: usize,
}

/// The rule, or the clause of an earlier step, that the hint names, if it is there.
pub(crate) fn rule_at<'a>(
    problem: &'a Problem,
    earlier: &'a [Step],
    hint: Hint,
) -> Option<NamedRule<'a>>
    ensures { option_map rule_of result ≡ rule_at problem.now earlier.now hint }
{
    match hint {
        Hint::Rule(number) => {
            let rule = problem.rules().get(number as usize)?;
            Some(NamedRule {
                lits: rule.lits.as_slice(),
                lo: rule.lo as usize,
                hi: rule.hi as usize,
            })
        }
        Hint::Step(number) => {
            let step = earlier.get(number as usize)?;
            let lits = step.clause.as_slice();
            Some(NamedRule {
                lits,
                lo: 1,
                hi: lits.len(),
            })
        }
    }
}
