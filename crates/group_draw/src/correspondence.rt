ghost use Rattle.group_draw.specs.Correspondence.{AgreeingSatisfy, CompletableWhereSatisfied, MovesAreQuestions, ReadAgrees, RulesAreFormed, TablesSatisfy, ValuesAgree, ValuesComplete};

use rule_sets::law_files_have_form;

/// A group table agrees with its values: the atom of a team and a group is true exactly where the
/// table has the team in the group. So do values that satisfy the rules of the file and a table
/// whose groups are read off them.
pub fn law_values_agree()
    ensures values { ValuesAgree }
    ensures read { ReadAgrees }
{}

/// Where values and a group table agree, the values satisfy the rules of the file exactly where the
/// groups of the table keep the rules of legal tables.
pub fn law_agreeing_satisfy()
    ensures { AgreeingSatisfy }
{
    law_files_have_form();
}

/// In a group draw, the values of a legal table that extends moves satisfy the rules of the file and
/// make the literals of the moves true.
pub fn law_tables_satisfy()
    ensures { TablesSatisfy }
{
    law_files_have_form();
}

/// Where some assignment satisfies the rules of a group draw's file and makes the literals of the
/// moves of a state with clean positions true, some legal table extends the moves.
pub fn law_values_complete()
    ensures { ValuesComplete }
{
    law_files_have_form();
}

/// A state of a group draw with clean positions is completable exactly where some assignment
/// satisfies the rules of the file and makes the literals of its moves true.
pub fn law_completable_where_satisfied()
    ensures { CompletableWhereSatisfied }
{
    law_files_have_form();
}

/// The rules of a group draw's file are well formed, and the literals of a state's moves are over
/// different atoms of them.
pub fn law_rules_and_questions_are_formed()
    ensures rules { RulesAreFormed }
    ensures questions { MovesAreQuestions }
{
    law_files_have_form();
}
