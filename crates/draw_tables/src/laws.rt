ghost use Rattle.draw_tables.specs.Names.{StatesNameTeams};
ghost use Rattle.draw_tables.specs.Offers.{OfferWhereDecided, OfferedWherePossible, OneOffer};
ghost use Rattle.draw_tables.specs.Positions.{HeldIsImpossible, OneHolder, StaysClean};
ghost use Rattle.draw_tables.specs.Verdicts.{LegalWhereNoneBroken, NoneBrokenWhereLegal, OneFirstBroken};
ghost use Rattle.draw_tables.specs.TableTexts.{OneTableOfText};

use rule_sets::law_files_have_form;

/// A table of a file is legal exactly where it breaks no rule.
pub fn law_legal_where_nothing_broken()
    ensures legal { LegalWhereNoneBroken }
    ensures none_broken { NoneBrokenWhereLegal }
{}

/// A table has at most one first case of a broken rule, so that a verdict is a function of the
/// table.
pub fn law_one_first_broken()
    ensures { OneFirstBroken }
{}

/// Two tables of a file with one text are equal, so that what is written is read again as what was
/// written.
pub fn law_one_table_of_text()
    ensures { OneTableOfText }
{
    law_files_have_form();
}

/// A state has at most one offer, so that what is offered is a function of the file and the moves.
///.
pub fn law_one_offer()
    ensures { OneOffer }
{}

/// What is offered in a state is exactly what is possible in it.
pub fn law_offered_where_possible()
    ensures { OfferedWherePossible }
{}

/// A state has an offer where it is decided of each candidate's move whether the moves with it can
/// be completed.
pub fn law_offer_where_decided()
    ensures { OfferWhereDecided }
{}

/// The moves, the phase, the candidates and the offer of a state name teams of its file only.
pub fn law_states_name_teams()
    ensures { StatesNameTeams }
{}

/// Positions of a group that are held. One that is not held leaves the positions of the moves clean;
/// one that is held is not possible; and where the moves can be completed it has one holder.
pub fn law_held_positions()
    ensures clean { StaysClean }
    ensures held { HeldIsImpossible }
    ensures holder { OneHolder }
{}
