ghost use Rattle.count_core.specs.Laws.{AcceptedByConflict, AcceptedClausesFollow, RefutedQuestionsFail};
ghost use Rattle.count_core.specs.Decisions.{SatisfiabilityDecides};
ghost use Rattle.count_core.specs.Clash.{ClashTable};
ghost use Rattle.count_core.specs.FirstFaults.{TellsFirstFault};
ghost use Rattle.count_core.specs.FailingHints.{TellsFailingHint};

/// The fault of rules that is reported is the first of the first rule that has one: each rule
/// before it is well formed, and no fault with a lower number holds of it. There is none exactly
/// where each rule is well formed.
pub fn law_first_fault()
    ensures { TellsFirstFault }
{}

/// The failing hint that is reported of a step is n exactly where its clause has a literal out of
/// range or one atom twice, and n is 0; or where, with the clause's negation assumed, the hints
/// before n force without a conflict, and either n is the number of hints or hint n is faulty after
/// them: it names no rule, or it conflicts and is not the last, or it neither conflicts nor forces.
pub fn law_failing_hint()
    ensures { TellsFailingHint }
{}

/// A step is accepted exactly where its literals are over different atoms of the problem and, with
/// each of them set false, each hint but the last names a rule that forces without a conflict, and
/// the last names a rule that conflicts.
pub fn law_accepted_by_conflict()
    ensures { AcceptedByConflict }
{}

/// Every clause of an accepted list of steps follows from the problem: each assignment that
/// satisfies the problem makes one of its literals true.
pub fn law_accepted_clauses_follow()
    ensures { AcceptedClausesFollow }
{}

/// A question that has a refutation is satisfied by no assignment that satisfies the problem.
pub fn law_refuted_questions_fail()
    ensures { RefutedQuestionsFail }
{}

/// Either some assignment satisfies the problem and the question, or none does, for any problem and
/// any literals: the proof tries all values of the atoms that stand in them.
pub fn law_satisfiability_decides()
    ensures { SatisfiabilityDecides }
{}

/// The definitions on a small problem: which steps are accepted, and which hint fails.
pub fn law_clash_table()
    ensures { ClashTable }
{}
