//! The tags of a group draw's teams, looked up in its limits.

ghost use Rattle.std.specs.Prelude.{◌≡◌, map, IfOk};
ghost use Rattle.std.specs.Result.{result_err};
ghost use Rattle.team_files.specs.Heads.{has_limit};
ghost use Rattle.rule_sets.specs.Files.{has_limits, unknown_tag_from, limit_of};

use crate::limit::Limit;
use std::alloc::Global;
use team_files::{FileFault, HeadLimit, NoMemory, Team, TeamId, Teams};

/// Refuses the first team with a tag that no limit names.
pub(crate) fn check_tags(limits: &[HeadLimit], teams: &Teams) -> Result<(), FileFault>
    ensures { result_err result ≡ unknown_tag_from limits.now 0 teams.now }
{
    for place in 0..teams.number() {
        if !has_limits(limits, teams.get(TeamId(place))) {
            return Err(FileFault::UnknownTag { place });
        }
    }
    Ok(())
}

/// Whether each tag of the team is that of a limit.
fn has_limits(limits: &[HeadLimit], team: &Team) -> bool
    ensures { result ≡ has_limits limits.now team.now }
{
    team.tags
        .as_slice()
        .iter()
        .all(|tag| has_limit(limits, tag.bytes()))
}

/// Whether a limit has the tag.
fn has_limit(limits: &[HeadLimit], tag: &[u8]) -> bool
    ensures { result ≡ has_limit limits.now tag.now }
{
    limits.iter().any(|limit| limit.tag.bytes() == tag)
}

/// The limits of a head.
pub(crate) fn limits_of(alloc: Global, limits: &[HeadLimit]) -> Result<Vec<Limit>, NoMemory>
    ensures { IfOk result (λ copies. copies.items ≡ map limit_of limits.now) }
{
    let mut copies = Vec::new(alloc);
    for limit in limits {
        let tag = limit.tag.clone_in(alloc)?;
        copies.push(Limit {
            tag,
            lo: limit.lo,
            hi: limit.hi,
        })?;
    }
    Ok(copies)
}
