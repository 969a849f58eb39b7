ghost use Rattle.std.specs.Prelude.{◌≡◌, ◌++◌, IfOk, OnOk};
ghost use Rattle.std.specs.List.{filter};
ghost use Rattle.refutations.specs.JoinedClauses as spec;

use count_core::Lit;
use std::alloc::{AllocError, Global};

/// The literals of both sides without the split and its negation, each once.
pub(crate) fn joined_clause(
    alloc: Global,
    split: Lit,
    first: &[Lit],
    second: &[Lit],
) -> Result<Vec<Lit>, AllocError>
    ensures { IfOk result (λ v. v.items ≡ spec.joined_clause split first.now second.now) }
{
    let mut clause = Vec::new(alloc);
    push_others(&mut clause, first, split.negation(), &[])?;
    push_others(&mut clause, second, split, first)?;
    Ok(clause)
}

/// Puts behind the clause those literals that are neither the one left out nor known.
fn push_others(
    clause: &mut Vec<Lit>,
    lits: &[Lit],
    out: Lit,
    known: &[Lit],
) -> Result<(), AllocError>
    ensures { OnOk result (clause.new.items
        ≡ clause.old.items ++ filter (spec.is_other out known.now) lits.now) }
{
    for lit in lits {
        if is_other(*lit, out, known) {
            clause.push(*lit)?;
        }
    }
    Ok(())
}

/// Whether the literal is neither the one left out nor known.
fn is_other(lit: Lit, out: Lit, known: &[Lit]) -> bool
    ensures { result ≡ spec.is_other out known.now lit }
{
    lit != out && !known.contains(&lit)
}
