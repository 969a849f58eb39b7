ghost use Rattle.std.specs.Prelude.{◌≡◌, ◌↔◌, IsTrue};

use crate::count_rule::CountRule;
use crate::lit::Lit;

/// Whether the literals are the same, in the same order.
pub(crate) fn same_lits(one: &[Lit], other: &[Lit]) -> bool
    ensures { IsTrue result ↔ (one.now ≡ other.now) }
{
    one == other
}

/// Whether the rules are the same, in the same order.
pub(crate) fn same_rules(one: &[CountRule], other: &[CountRule]) -> bool
    ensures { IsTrue result ↔ (one.now ≡ other.now) }
{
    one.len() == other.len() && one.iter().zip(other).all(|(x, y)| same_rule(x, y))
}

fn same_rule(one: &CountRule, other: &CountRule) -> bool
    ensures { IsTrue result ↔ (one.now ≡ other.now) }
{
    one.lo == other.lo
        && one.hi == other.hi
        && same_lits(one.lits.as_slice(), other.lits.as_slice())
}
