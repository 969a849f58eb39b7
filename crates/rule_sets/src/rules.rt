ghost use Rattle.std.specs.Prelude.{◌≡◌, ◌<◌, ◌≤◌, length, Ok, IfOk, IfErr, IfSome};
ghost use Rattle.team_files.specs.Answers.{Gives, Tells};
ghost use Rattle.team_files.specs.Heads.{most_pairs};
ghost use Rattle.rule_sets.specs.Files.{file_of, team_named, pair_of, pairs_from};
ghost use Rattle.rule_sets.specs.BadPairs.{TellsFirstBadPair};
ghost use Rattle.rule_sets.specs.BadPlaces.{TellsFirstBadPlace};
ghost use Rattle.rule_sets.specs.FileFaults.{TellsFirstFaultOfBytes};
ghost use Rattle.rule_sets.specs.Forms.{FilesHaveForm};
ghost use Rattle.rule_sets.specs.NamedPairs.{FilesHavePairs};
ghost use Rattle.rule_sets.specs.UnknownTags.{TellsFirstUnknownTag};

use crate::draw_file::DrawFile;
use crate::pair::Pair;
use crate::places::places_of;
use crate::tags::{check_tags, limits_of};
use std::alloc::Global;
use team_files::{Code, FileFault, Head, HeadPair, Kind, TeamId, Teams};

/// The draw file of a head, with its tags, forbidden pairs and fixed places looked up. Each fault
/// tells a place, counted from 0: `UnknownTag` the first team of a group draw with a tag that no
/// limit names; `BadPair` the first pair that does not name two different teams of the head;
/// `BadPlace` the first fixed place of a group draw that its team can't take, or whose team or place
/// an earlier one has. The first of these is told; there is no other fault.
pub fn rules_from(alloc: Global, head: Head) -> Result<DrawFile, FileFault>
    ensures { Gives result (file_of head) }
{
    match head.kind() {
        Kind::Group => group_file(alloc, head),
        Kind::Pairing => pairing_file(alloc, head),
    }
}

/// The draw file of a pairing's head. It has no limits and no fixed places.
fn pairing_file(alloc: Global, head: Head) -> Result<DrawFile, FileFault>
    requires { head.kind ≡ Kind.Pairing }
    ensures { Gives result (file_of head) }
{
    let pairs = pairs_of(alloc, head.teams(), head.pairs())?;
    Ok(DrawFile::of_head(head, Vec::new(alloc), pairs, Vec::new(alloc)))
}

/// The draw file of a group draw's head.
fn group_file(alloc: Global, head: Head) -> Result<DrawFile, FileFault>
    requires { head.kind ≡ Kind.Group }
    ensures { Gives result (file_of head) }
{
    check_tags(head.limits(), head.teams())?;
    let limits = limits_of(alloc, head.limits())?;
    let pairs = pairs_of(alloc, head.teams(), head.pairs())?;
    let places = places_of(alloc, &head, head.places())?;
    Ok(DrawFile::of_head(head, limits, pairs, places))
}

/// The pairs that a head names, or the first that does not name two different teams.
fn pairs_of(alloc: Global, teams: &Teams, pairs: &[HeadPair]) -> Result<Vec<Pair>, FileFault>
    requires few { length pairs.now ≤ most_pairs }
    ensures ok { IfOk result (λ v. pairs_from teams.now 0 pairs.now ≡ Ok v.items) }
    ensures fault { IfErr result (λ fault. Tells fault (pairs_from teams.now 0 pairs.now)) }
{
    let mut found = Vec::new(alloc);
    for (place, pair) in pairs.iter().enumerate() {
        let pair = pair_of(teams, place as u32, pair)?;
        found.push(pair)?;
    }
    Ok(found)
}

/// The team that a text names.
pub(crate) fn team_named(teams: &Teams, text: &[u8]) -> Option<TeamId>
    ensures named { result ≡ team_named teams.now text.now }
    ensures within { IfSome result (λ team. team.0 < length teams.now) }
{
    let code = Code::read(text)?;
    teams.find(code)
}

/// The pair at a place, where it names two different teams.
fn pair_of(teams: &Teams, place: u32, pair: &HeadPair) -> Result<Pair, FileFault>
    ensures { result ≡ pair_of teams.now place pair.now }
{
    match (
        team_named(teams, pair.first.bytes()),
        team_named(teams, pair.second.bytes()),
    ) {
        (Some(first), Some(second)) if first != second => Ok(Pair { first, second }),
        _ => Err(FileFault::BadPair { place }),
    }
}

/// Each well-formed draw file has the form of one: at most `MOST_TEAMS` teams, each with one tag or
/// two different ones, and at most `MOST_PAIRS` forbidden pairs of two different teams. A pairing has
/// two pots of one size, and its teams the letters of their first-round groups. A group draw has in
/// each pot one team for each group, a limit for each tag of its teams, and fixed places that their
/// teams can take, no team and no place twice.
pub fn law_files_have_form()
    ensures { FilesHaveForm }
{}

/// `UnknownTag` tells the first team with a tag that no limit names.
pub fn law_first_unknown_tag()
    ensures { TellsFirstUnknownTag }
{}

/// `BadPlace` tells the first fixed place that is not right: its code is no team's, its letter is
/// past the groups or its position past the pots, position 1 is not for its team or another position
/// is not, or an earlier place has its team or its group and position.
pub fn law_first_bad_place()
    ensures { TellsFirstBadPlace }
{}

/// `BadPair` tells the first forbidden pair that names no two teams: a text is no team's code, or
/// both are one team's.
pub fn law_first_bad_pair()
    ensures { TellsFirstBadPair }
{}

/// The file of a head has as many forbidden pairs, and at each place its pair names, first and
/// second, the teams that have the codes of the head's pair.
pub fn law_files_have_pairs()
    ensures { FilesHavePairs }
{}

/// What the bytes of a head are refused for is the first fault that holds of them, in the order of
/// their numbers, and they have a draw file exactly where none holds.
pub fn law_first_fault_of_bytes()
    ensures { TellsFirstFaultOfBytes }
{}
