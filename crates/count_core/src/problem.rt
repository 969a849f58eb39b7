ghost use Rattle.std.specs.Prelude.{◌≡◌, ◌<◌, ◌↔◌, length, None, IfOk, IfErr, IsTrue};
ghost use Rattle.count_core.specs.Limits.{number_limit};
ghost use Rattle.count_core.specs.Problems.{IsWellFormed, IsFirstFaultOrNoMemory, first_fault, problem_of};

use crate::count_rule::CountRule;
use crate::faults::{self, CoreFault};
use crate::same::same_rules;
use std::alloc::Global;
use std::marker::Model;
use std::sync::Arc;

/// A count problem, well formed by its type: atoms numbered from 0, and fewer than `NUMBER_LIMIT`
/// rules, each over different atoms of the problem and with `lo` not above `hi`. Contracts see a
/// record of `atoms` and `rules`.
#[derive(Drop)]
pub struct Problem {
    atoms: u32,
    rules: Vec<CountRule>,
}

/// A problem that threads may share.
pub type SharedProblem = Arc<Problem>;

impl Model for Problem {
    ghost use Rattle.count_core.specs.Problems as spec;

    ghost Value = { spec.Problem };

    ghost view = { λ p. spec.problem_of p.atoms p.rules.items };

    ghost invariant = { λ p. spec.IsWellFormed (spec.problem_of p.atoms p.rules.items) };
}

impl Problem {
    /// The problem of these atoms and rules. A fault other than `NoMemory` is the first fault of
    /// the first rule that has one, in the order of the faults' numbers.
    pub fn build(alloc: Global, atoms: u32, rules: Vec<CountRule>) -> Result<Problem, CoreFault>
        requires few { length rules.items < number_limit }
        ensures ok { IfOk result (λ p. p ≡ problem_of atoms rules.items) }
        ensures right { IfOk result (λ p. first_fault atoms 0 rules.items ≡ None) }
        ensures fault { IfErr result (λ f. IsFirstFaultOrNoMemory atoms rules.items f) }
        ensures formed { IsWellFormed (problem_of atoms rules.items)
            → IfErr result (λ f. f ≡ CoreFault.NoMemory) }
    {
        match faults::first_fault(alloc, atoms, rules.as_slice()) {
            Ok(None) => Ok(Problem { atoms, rules }),
            Ok(Some(fault)) => Err(fault),
            Err(_) => Err(CoreFault::NoMemory),
        }
    }

    /// The number of atoms.
    pub fn atoms(&self) -> u32
        ensures atoms { result ≡ self.now.atoms }
        ensures formed { IsWellFormed self.now }
    {
        self.atoms
    }

    /// The rules, in the order of their numbers.
    pub fn rules(&self) -> &[CountRule]
        ensures rules { result.now ≡ self.now.rules }
        ensures formed { IsWellFormed self.now }
    {
        self.rules.as_slice()
    }

    /// Whether both are one and the same problem: as many atoms, and the same rules in the same
    /// order.
    pub fn equals(&self, other: &Problem) -> bool
        ensures { IsTrue result ↔ (self.now ≡ other.now) }
    {
        self.atoms == other.atoms && same_rules(self.rules.as_slice(), other.rules.as_slice())
    }
}
