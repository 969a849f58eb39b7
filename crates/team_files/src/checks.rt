//! Limits, codes and pot sizes of the members whose forms are right.

ghost use Rattle.std.specs.Prelude.{◌≡◌, ◌≤◌, length, All, IfOk, IfErr, OnOk};
ghost use Rattle.std.specs.Result.{result_err};
ghost use Rattle.team_files.specs.Answers.{Gives, Tells};
ghost use Rattle.team_files.specs.Heads.{too_many_if, too_many_fault, most_groups, most_pots, most_teams, team_of, teams_from, teams_of, pot_size, first_uneven, pot_size_fault};

use crate::code::Code;
use crate::fault::{Field, FileFault};
use crate::fields::{AllTeamFields, HeadFields, TeamFields};
use crate::kind::Kind;
use crate::team::Team;
use crate::teams::Teams;
use std::alloc::Global;

/// The most groups that a head may have.
pub const MOST_GROUPS: usize = 8;

/// The most pots that a head may have.
pub const MOST_POTS: usize = 4;

/// The most teams that a head may have.
pub const MOST_TEAMS: usize = 40;

/// The most limits that a head may have.
pub const MOST_LIMITS: usize = 16;

/// The most forbidden pairs that a head may have.
pub const MOST_PAIRS: usize = 64;

/// The most fixed places that a head may have.
pub const MOST_PLACES: usize = 40;

/// Refuses the first number past its limit: of groups, of pots, and the length of each list.
pub(crate) fn check_numbers(fields: &HeadFields) -> Result<(), FileFault>
    ensures fault { result_err result ≡ too_many_fault fields.now }
    ensures few_groups { OnOk result (fields.now.groups ≤ most_groups) }
    ensures few_pots { OnOk result (fields.now.pots ≤ most_pots) }
    ensures few_teams { OnOk result (length fields.now.teams ≤ most_teams) }
{
    check_number(MOST_GROUPS, Field::Groups, fields.groups)?;
    check_number(MOST_POTS, Field::Pots, fields.pots)?;
    check_number(MOST_TEAMS, Field::Teams, fields.teams.number() as u64)?;
    check_number(
        MOST_LIMITS,
        Field::Limits,
        fields.limits.as_slice().len() as u64,
    )?;
    check_number(
        MOST_PAIRS,
        Field::Pairs,
        fields.pairs.as_slice().len() as u64,
    )?;
    check_number(
        MOST_PLACES,
        Field::Places,
        fields.places.as_slice().len() as u64,
    )
}

fn check_number(most: usize, what: Field, number: u64) -> Result<(), FileFault>
    ensures fault { result_err result ≡ too_many_if most what number }
    ensures few { OnOk result (number ≤ most) }
{
    if (most as u64) < number {
        return Err(FileFault::TooMany { what, number });
    }
    Ok(())
}

/// The teams, or the first one whose code is not a code, or else the first one whose code an earlier
/// team has.
pub(crate) fn teams_of(alloc: Global, all: AllTeamFields) -> Result<Teams, FileFault>
    requires few { length all ≤ most_teams }
    requires pots { All (λ f. f.pot ≤ most_pots) all }
    ensures { Gives result (teams_of all) }
{
    let teams = teams_from(alloc, all.into_vec())?;
    Teams::new(alloc, teams)
}

fn teams_from(alloc: Global, all: Vec<TeamFields>) -> Result<Vec<Team>, FileFault>
    requires few { length all.items ≤ most_teams }
    requires pots { All (λ f. f.pot ≤ most_pots) all.items }
    ensures ok { IfOk result (λ teams. teams_from 0 all.items ≡ Ok teams.items) }
    ensures fault { IfErr result (λ fault. Tells fault (teams_from 0 all.items)) }
    ensures few { IfOk result (λ teams. length teams.items ≤ most_teams) }
{
    let mut teams = Vec::new(alloc);
    for fields in all {
        let place = teams.len() as u32;
        teams.push(team_of(place, fields)?)?;
    }
    Ok(teams)
}

/// The team, or the fault that the one at this place has no code.
fn team_of(place: u32, fields: TeamFields) -> Result<Team, FileFault>
    requires { fields.pot ≤ most_pots }
    ensures { result ≡ team_of place fields }
{
    let TeamFields {
        code: text,
        name,
        pot,
        tags,
        group_letter,
    } = fields;
    let Some(code) = Code::read(text.bytes()) else {
        return Err(FileFault::BadCode { place });
    };
    Ok(Team {
        code,
        name: name.unwrap_or(text),
        pot: pot as u32,
        tags,
        group_letter,
    })
}

/// Refuses teams whose pots are not of the sizes that the kind asks, in a head with so many groups
/// and pots.
pub(crate) fn check_pots(kind: Kind, groups: u32, pots: u32, teams: &Teams) -> Result<(), FileFault>
    requires { pots ≤ most_pots }
    ensures { result_err result ≡ pot_size_fault kind groups pots teams.now }
{
    match kind {
        Kind::Group => check_each_pot(groups, pots, teams),
        Kind::Pairing => check_two_pots(teams),
    }
}

/// Refuses the first pot that has not one team for each group.
fn check_each_pot(groups: u32, pots: u32, teams: &Teams) -> Result<(), FileFault>
    requires { pots ≤ most_pots }
    ensures { result_err result ≡ first_uneven (λ pot. pot_size pot teams.now) groups 1 pots }
{
    for before in 0..pots {
        let pot = before + 1;
        let number = pot_size(teams, pot);
        if number != groups {
            return Err(FileFault::PotSize { pot, number });
        }
    }
    Ok(())
}

/// Refuses an empty pot 1, and a pot 2 that is not of its size.
fn check_two_pots(teams: &Teams) -> Result<(), FileFault>
    ensures { result_err result ≡ pot_size_fault Kind.Pairing 0 2 teams.now }
{
    let winners = pot_size(teams, 1);
    if winners == 0 {
        return Err(FileFault::PotSize { pot: 1, number: 0 });
    }
    let runners_up = pot_size(teams, 2);
    if runners_up != winners {
        return Err(FileFault::PotSize {
            pot: 2,
            number: runners_up,
        });
    }
    Ok(())
}

/// How many teams are in the pot.
fn pot_size(teams: &Teams, pot: u32) -> u32
    ensures { result ≡ pot_size pot teams.now }
{
    let number = teams
        .as_slice()
        .iter()
        .filter(|team| team.pot == pot)
        .count();
    number as u32
}
