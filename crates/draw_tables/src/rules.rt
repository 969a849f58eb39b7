ghost use Rattle.std.specs.Prelude.{◌≡◌, ◌↔◌, ◌<◌, length, bytes_eq, IsTrue};
ghost use Rattle.std.specs.List.{list_any};
ghost use Rattle.draw_tables.specs.Pairings.{KeepRules, breaks, have_common_tag, is_pair_of, may_meet};

use crate::pair_rule::PairRule;
use rule_sets::{DrawFile, Pair};
use team_files::{Tag, Team, TeamId};

/// Whether no rule forbids the runner-up and the winner directly to meet: they come from different
/// first-round groups, have no tag in common and are not a forbidden pair.
pub fn may_meet(file: &DrawFile, runner: TeamId, winner: TeamId) -> bool
    requires runner { runner.0 < length file.now.teams }
    requires winner { winner.0 < length file.now.teams }
    ensures value { result ≡ may_meet file.now runner winner }
    ensures rules { IsTrue result ↔ KeepRules file.now runner winner }
{
    !breaks(file, PairRule::Letters, runner, winner)
        && !breaks(file, PairRule::Tags, runner, winner)
        && !breaks(file, PairRule::Forbidden, runner, winner)
}

/// Whether a runner-up and its winner break a rule.
pub(crate) fn breaks(file: &DrawFile, rule: PairRule, runner: TeamId, winner: TeamId) -> bool
    requires runner { runner.0 < length file.now.teams }
    requires winner { winner.0 < length file.now.teams }
    ensures { result ≡ breaks file.now rule runner winner }
{
    let one = file.teams().get(runner);
    let other = file.teams().get(winner);
    match rule {
        PairRule::Letters => one.group_letter == other.group_letter,
        PairRule::Tags => have_common_tag(one, other),
        PairRule::Forbidden => is_forbidden(file.pairs(), runner, winner),
    }
}

/// Whether the two teams have a tag in common.
fn have_common_tag(one: &Team, other: &Team) -> bool
    ensures { result ≡ have_common_tag one.now other.now }
{
    one.tags
        .as_slice()
        .iter()
        .any(|tag| has_tag(other.tags.as_slice(), tag))
}

/// Whether the tags have the tag.
pub(crate) fn has_tag(tags: &[Tag], tag: &Tag) -> bool
    ensures { result ≡ list_any (λ t. bytes_eq tag.now t) tags.now }
{
    tags.iter().any(|other| tag.bytes() == other.bytes())
}

/// Whether some pair is these two teams, in either order.
fn is_forbidden(pairs: &[Pair], one: TeamId, other: TeamId) -> bool
    ensures { result ≡ list_any (is_pair_of one other) pairs.now }
{
    pairs.iter().any(|pair| {
        (pair.first == one && pair.second == other) || (pair.first == other && pair.second == one)
    })
}
