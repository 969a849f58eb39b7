ghost use Rattle.std.specs.Prelude.{◌≡◌, ◌↔◌, IfOk, IsTrue, Ok};
ghost use Rattle.rule_sets.specs.Files.{IsWellFormed, file_of, file_with};

use crate::limit::Limit;
use crate::pair::Pair;
use crate::place::Place;
use std::alloc::Global;
use std::marker::Model;
use team_files::{Head, Kind, NoMemory, Teams};

/// A draw file, well formed by its type: it is the file of some head that has no fault.
#[derive(Drop)]
pub struct DrawFile {
    kind: Kind,
    groups: u32,
    pots: u32,
    teams: Teams,
    limits: Vec<Limit>,
    pairs: Vec<Pair>,
    places: Vec<Place>,
}

impl Model for DrawFile {
    ghost use Rattle.rule_sets.specs.Files as spec;

    ghost Value = { spec.DrawFile };

    ghost view = { λ f. record {
      kind = f.kind;
      groups = f.groups;
      pots = f.pots;
      teams = f.teams;
      limits = f.limits.items;
      pairs = f.pairs.items;
      places = f.places.items;
    } };

    ghost invariant = { λ f. spec.IsWellFormed (record {
      kind = f.kind;
      groups = f.groups;
      pots = f.pots;
      teams = f.teams;
      limits = f.limits.items;
      pairs = f.pairs.items;
      places = f.places.items;
    }) };
}

impl DrawFile {
    /// The file of a head with what is looked up.
    pub(crate) fn of_head(
        head: Head,
        limits: Vec<Limit>,
        pairs: Vec<Pair>,
        places: Vec<Place>,
    ) -> DrawFile
        requires { file_of head ≡ Ok (file_with head limits.items pairs.items places.items) }
        ensures { result ≡ file_with head limits.items pairs.items places.items }
    {
        DrawFile {
            kind: head.kind(),
            groups: head.groups(),
            pots: head.pots(),
            teams: head.into_teams(),
            limits,
            pairs,
            places,
        }
    }

    /// An equal file.
    pub fn clone_in(&self, alloc: Global) -> Result<DrawFile, NoMemory>
        ensures { IfOk result (λ file. file ≡ self.now) }
    {
        let teams = self.teams.clone_in(alloc)?;
        let limits = clone_limits(alloc, self.limits.as_slice())?;
        let mut pairs = Vec::new(alloc);
        pairs.extend_from_slice(self.pairs.as_slice())?;
        let mut places = Vec::new(alloc);
        places.extend_from_slice(self.places.as_slice())?;
        Ok(DrawFile {
            kind: self.kind,
            groups: self.groups,
            pots: self.pots,
            teams,
            limits,
            pairs,
            places,
        })
    }

    /// Whether both are one file: the same members, their lists in the same order.
    pub fn equals(&self, other: &DrawFile) -> bool
        ensures { IsTrue result ↔ (self.now ≡ other.now) }
    {
        self.has_same_numbers(other) && self.has_same_lists(other)
    }

    /// Whether the kind and the numbers of groups and pots are the same.
    fn has_same_numbers(&self, other: &DrawFile) -> bool
        ensures { IsTrue result
            ↔ ((self.now.kind ≡ other.now.kind)
            × (self.now.groups ≡ other.now.groups)
            × (self.now.pots ≡ other.now.pots)) }
    {
        self.kind == other.kind && self.groups == other.groups && self.pots == other.pots
    }

    /// Whether the teams, the limits, the pairs and the places are the same.
    fn has_same_lists(&self, other: &DrawFile) -> bool
        ensures { IsTrue result
            ↔ ((self.now.teams ≡ other.now.teams)
            × (self.now.limits ≡ other.now.limits)
            × (self.now.pairs ≡ other.now.pairs)
            × (self.now.places ≡ other.now.places)) }
    {
        self.teams.equals(&other.teams)
            && same_limits(self.limits(), other.limits())
            && same_pairs(self.pairs(), other.pairs())
            && same_places(self.places(), other.places())
    }

    /// The kind of the draw.
    pub fn kind(&self) -> Kind
        ensures kind { result ≡ self.now.kind }
        ensures formed { IsWellFormed self.now }
    {
        self.kind
    }

    /// How many groups there are; 0 in a pairing.
    pub fn groups(&self) -> u32
        ensures { result ≡ self.now.groups }
    {
        self.groups
    }

    /// How many pots there are; 2 in a pairing.
    pub fn pots(&self) -> u32
        ensures { result ≡ self.now.pots }
    {
        self.pots
    }

    /// The teams, in file order.
    pub fn teams(&self) -> &Teams
        ensures { result.now ≡ self.now.teams }
    {
        &self.teams
    }

    /// The limits of the tags, in file order; none in a pairing.
    pub fn limits(&self) -> &[Limit]
        ensures { result.now ≡ self.now.limits }
    {
        self.limits.as_slice()
    }

    /// The forbidden pairs, in file order.
    pub fn pairs(&self) -> &[Pair]
        ensures { result.now ≡ self.now.pairs }
    {
        self.pairs.as_slice()
    }

    /// The fixed places, in file order; none in a pairing.
    pub fn places(&self) -> &[Place]
        ensures { result.now ≡ self.now.places }
    {
        self.places.as_slice()
    }
}

/// Whether the limits are the same, in the same order.
fn same_limits(one: &[Limit], other: &[Limit]) -> bool
    ensures { IsTrue result ↔ (one.now ≡ other.now) }
{
    one.len() == other.len() && one.iter().zip(other).all(|(x, y)| x.equals(y))
}

/// Whether the pairs are the same, in the same order.
fn same_pairs(one: &[Pair], other: &[Pair]) -> bool
    ensures { IsTrue result ↔ (one.now ≡ other.now) }
{
    one == other
}

/// Whether the places are the same, in the same order.
fn same_places(one: &[Place], other: &[Place]) -> bool
    ensures { IsTrue result ↔ (one.now ≡ other.now) }
{
    one == other
}

/// Equal limits.
fn clone_limits(alloc: Global, limits: &[Limit]) -> Result<Vec<Limit>, NoMemory>
    ensures { IfOk result (λ copies. copies.items ≡ limits.now) }
{
    let mut copies = Vec::new(alloc);
    for limit in limits {
        copies.push(limit.clone_in(alloc)?)?;
    }
    Ok(copies)
}
