ghost use Rattle.offer_engine.specs.Laws.{CleanAtStart, CleanWhereCompletable, OfferExists, TablesDrawn};
ghost use Rattle.offer_engine.specs.Turns.{OneWanted, ReadyOrWaiting};

use draw_state::{law_one_outcome, law_tables_are_drawn};
use group_draw::law_completable_is_clean;

/// Moves that can be completed have clean positions, and so have none.
pub fn law_clean_where_completable()
    ensures clean { CleanWhereCompletable }
    ensures start { CleanAtStart }
{
    law_completable_is_clean();
}

/// Each state has an offer, be it an empty one.
pub fn law_offer_exists()
    ensures { OfferExists }
{
    group_draw::law_offer_exists();
    pairing_draw::law_offer_exists();
}

/// A turn for which all needed offers were given wants none.
pub fn law_ready_or_waiting()
    ensures { ReadyOrWaiting }
{
    law_one_outcome();
}

/// A turn wants the offer of one state.
pub fn law_one_wanted()
    ensures { OneWanted }
{
    law_one_outcome();
}

/// Each legal table of a group draw can be drawn ball by ball: pot by pot, the pot's teams in the
/// order of their groups in the table, each team's ball and then, from pot 2 on, that of its
/// position. Each of these balls is taken, they are fewer than the commands that are answered, and
/// after them the draw is complete with this table alone.
pub fn law_tables_drawn()
    ensures { TablesDrawn }
{
    law_tables_are_drawn();
    law_offer_exists();
}
