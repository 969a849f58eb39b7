ghost use Rattle.draw_state.specs.Laws.{OneOutcome, OfferedIsAccepted, StatesStay, StepsBelowLimit};
ghost use Rattle.draw_state.specs.Laws.{RepliesNameTeams, OneRun};
ghost use Rattle.draw_state.specs.TableBalls.{TablesAreDrawn};

use rule_sets::law_files_have_form;
use team_files::law_find_by_code;

/// Of each command exactly one thing is true: it is accepted with one action or refused for one
/// cause, the first that holds.
pub fn law_one_outcome()
    ensures { OneOutcome }
{}

/// A ball of the offer is accepted, below the limit of commands, and no other; after it the moves
/// can be completed.
pub fn law_offered_is_accepted()
    ensures { OfferedIsAccepted }
{}

/// A command leads from a state to a state.
pub fn law_states_stay()
    ensures { StatesStay }
{}

/// Below the limit of commands a step is the same, however many were answered before.
pub fn law_steps_below_limit()
    ensures { StepsBelowLimit }
{}

/// The replies in a state, and what comes next in it, are of the file: each team, group and position
/// that they name. At the opening and after each command no team waits for its group.
pub fn law_replies_name_teams()
    ensures { RepliesNameTeams }
{}

/// Commands have at most one run, and one where each state of the file has an offer.
pub fn law_one_run()
    ensures { OneRun }
{}

/// Each legal table of a group draw can be drawn ball by ball, where each state of its file has an
/// offer: each of its balls is taken, and after them the draw is complete with this table alone.
pub fn law_tables_are_drawn()
    ensures { TablesAreDrawn }
{
    law_files_have_form();
    law_find_by_code();
}
