ghost use Rattle.std.specs.Prelude.{◌≡◌, ◌≤◌, length, take, None};
ghost use Rattle.count_core.specs.declared.hint.Hint.{Hint as Cause};
ghost use Rattle.propagation.specs.Engines.{AllQuiet, HasRoom, IsConflict, IsSound, OnlyTrailDiffers, values_in};
ghost use Rattle.propagation.specs.Trails.{IsFree, values_of, with_entry};
ghost use Rattle.serial_search.specs.Assumptions.{assumed_of};
ghost use Rattle.serial_search.specs.Sides.{IsLonger, KeepsFront};

use crate::work::Work;
use count_core::Lit;
use propagation::{Engine, Found, Mark};

/// Propagates, and counts what is set.
pub(crate) fn set_what_follows(engine: &mut Engine, work: &mut Work) -> Found
    requires { HasRoom engine.old }
    ensures quiet { result ≡ Found.Quiet → AllQuiet engine.new }
    ensures conflict { (h : Cause) → result ≡ Found.Conflict h → IsConflict engine.new h }
    ensures longer { IsLonger engine.old.entries engine.new.entries }
    ensures assumed { assumed_of engine.new.entries ≡ assumed_of engine.old.entries }
    ensures sound { IsSound engine.new }
    ensures kept { OnlyTrailDiffers engine.old engine.new }
{
    let before = engine.mark();
    let found = engine.propagate();
    work.count_literals(before.0, engine.mark().0);
    found
}

/// Assumes the literal, whose atom is unset, and answers the mark before it.
pub(crate) fn decide(engine: &mut Engine, lit: Lit) -> Mark
    requires room { HasRoom engine.old }
    requires free { IsFree (values_in engine.old) lit }
    ensures mark { result.0 ≡ length engine.old.entries }
    ensures entries { engine.new.entries ≡ with_entry engine.old.entries lit None }
    ensures kept { OnlyTrailDiffers engine.old engine.new }
{
    let mark = engine.mark();
    engine.assume(lit);
    mark
}

/// Goes back to the mark and assumes the literal, whose atom is unset there.
pub(crate) fn turn_to(engine: &mut Engine, mark: Mark, lit: Lit)
    requires room { HasRoom engine.old }
    requires mark { mark.0 ≤ length engine.old.entries }
    requires free { IsFree (values_of engine.old.problem.atoms (take mark.0 engine.old.entries)) lit }
    ensures entries { engine.new.entries ≡ with_entry (take mark.0 engine.old.entries) lit None }
    ensures kept { OnlyTrailDiffers engine.old engine.new }
{
    engine.back_to(mark);
    engine.assume(lit);
}

/// Goes back to the mark, but not before the base.
pub(crate) fn go_back(engine: &mut Engine, base: Mark, mark: Mark)
    requires { base.0 ≤ length engine.old.entries }
    ensures keeps { KeepsFront base.0 engine.old.entries engine.new.entries }
    ensures kept { OnlyTrailDiffers engine.old engine.new }
{
    let end = engine.mark();
    engine.back_to(between(base, mark, end));
}

/// The mark where it is from the base to the end, or else the base.
fn between(base: Mark, mark: Mark, end: Mark) -> Mark
    requires { base.0 ≤ end.0 }
    ensures base { base.0 ≤ result.0 }
    ensures end { result.0 ≤ end.0 }
{
    if base.0 <= mark.0 && mark.0 <= end.0 {
        return mark;
    }
    base
}
