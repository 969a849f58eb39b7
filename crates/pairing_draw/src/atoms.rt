ghost use Rattle.std.specs.Prelude.{◌≡◌, ◌≤◌};
ghost use Rattle.team_files.specs.Heads.{most_teams};
ghost use Rattle.pairing_draw.specs.Encoding.{pair_lit};

use count_core::{Atom, Lit};

/// The literal that the runner-up at a place gets the winner at a place, among so many winners.
pub(crate) fn pair_lit(winners: usize, runner: usize, winner: usize) -> Lit
    requires winners { winners ≤ most_teams }
    requires runner { runner ≤ most_teams }
    requires winner { winner ≤ most_teams }
    ensures { result ≡ pair_lit winners runner winner }
{
    Lit {
        atom: Atom((runner * winners + winner) as u32),
        positive: true,
    }
}
