ghost use Rattle.pairing_draw.specs.Correspondence.{CompletableWhereSatisfied, MovesAreQuestions, RulesAreFormed, TablesSatisfy, ValuesComplete, ValuesTellPairs};

use rule_sets::law_files_have_form;

/// By the values of a table of a pairing, the atom of a runner-up and a winner is true exactly where
/// the table gives that runner-up that winner.
pub fn law_values_of_tables()
    ensures { ValuesTellPairs }
{}

/// In a pairing, the values of a legal table that extends moves satisfy the rules of the file and
/// make the literals of the moves true.
pub fn law_tables_satisfy()
    ensures { TablesSatisfy }
{}

/// Where some assignment satisfies the rules of a pairing's file and makes the literals of a state's
/// moves true, some legal table extends the moves.
pub fn law_values_complete()
    ensures { ValuesComplete }
{}

/// A state of a pairing is completable exactly where some assignment satisfies the rules of the file
/// and makes the literals of its moves true.
pub fn law_completable_where_satisfied()
    ensures { CompletableWhereSatisfied }
{}

/// The rules of a pairing's file are well formed, and the literals of a state's moves are over
/// different atoms of them.
pub fn law_rules_and_questions_are_formed()
    ensures rules { RulesAreFormed }
    ensures questions { MovesAreQuestions }
{
    law_files_have_form();
}
