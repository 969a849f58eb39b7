ghost use Rattle.group_draw.specs.Laws.{CompletableIsClean, OfferExists, PossibleWhereNotHeld};
ghost use Rattle.group_draw.specs.Worked.{WorkedFiles};

use draw_tables::law_held_positions;
use rule_sets::law_files_have_form;

/// The moves of a group draw that can be completed have clean positions.
pub fn law_completable_is_clean()
    ensures { CompletableIsClean }
{}

/// Each state of a group draw has an offer, be it an empty one.
pub fn law_offer_exists()
    ensures { OfferExists }
{
    law_files_have_form();
}

/// In a completable state of a group draw with clean positions, a position that is a candidate is
/// possible exactly where it is not held.
pub fn law_possible_where_not_held()
    ensures { PossibleWhereNotHeld }
{
    law_files_have_form();
    law_held_positions();
}

/// The definitions on two small files: their rules, and what moves say.
pub fn law_worked_files()
    ensures { WorkedFiles }
{}
