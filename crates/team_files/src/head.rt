ghost use Rattle.std.specs.Prelude.{◌≡◌, ◌≤◌, length};
ghost use Rattle.team_files.specs.Heads.{IsReadHead, head_from, most_pairs, most_places};

use crate::head_limit::{HeadLimit, HeadLimits};
use crate::head_pair::{HeadPair, HeadPairs};
use crate::head_place::{HeadPlace, HeadPlaces};
use crate::kind::Kind;
use crate::teams::Teams;
use std::marker::Model;

/// What a head says, before its pairs and its fixed places are looked up. By its type it was read of
/// a value of which no fault of a head holds: so it has at most `MOST_TEAMS` teams, at most
/// `MOST_PAIRS` pairs and at most `MOST_PLACES` places.
#[derive(Drop)]
pub struct Head {
    kind: Kind,
    groups: u32,
    pots: u32,
    teams: Teams,
    limits: HeadLimits,
    pairs: HeadPairs,
    places: HeadPlaces,
}

impl Model for Head {
    ghost use Rattle.team_files.specs.Heads as spec;

    ghost Value = { spec.Head };

    ghost view = { λ h. record {
      kind = h.kind;
      groups = h.groups;
      pots = h.pots;
      teams = h.teams;
      limits = h.limits;
      pairs = h.pairs;
      places = h.places;
    } };

    ghost invariant = { λ h.
        spec.IsReadHead (spec.head_from h.kind h.groups h.pots h.teams h.limits h.pairs h.places) };
}

impl Head {
    /// The head with these members.
    pub(crate) fn new(
        kind: Kind,
        groups: u32,
        pots: u32,
        teams: Teams,
        limits: HeadLimits,
        pairs: HeadPairs,
        places: HeadPlaces,
    ) -> Head
        requires { IsReadHead (head_from kind groups pots teams limits pairs places) }
        ensures { result ≡ head_from kind groups pots teams limits pairs places }
    {
        Head {
            kind,
            groups,
            pots,
            teams,
            limits,
            pairs,
            places,
        }
    }

    /// The kind of the draw.
    pub fn kind(&self) -> Kind
        ensures kind { result ≡ self.now.kind }
        ensures read { IsReadHead self.now }
    {
        self.kind
    }

    /// How many groups there are, at most `MOST_GROUPS`; 0 in a pairing.
    pub fn groups(&self) -> u32
        ensures { result ≡ self.now.groups }
    {
        self.groups
    }

    /// How many pots there are, at most `MOST_POTS`; 2 in a pairing.
    pub fn pots(&self) -> u32
        ensures { result ≡ self.now.pots }
    {
        self.pots
    }

    /// The teams, in file order.
    pub fn teams(&self) -> &Teams
        ensures { result.now ≡ self.now.teams }
    {
        &self.teams
    }

    /// The limits of the tags, at most `MOST_LIMITS`, in file order; none in a pairing.
    pub fn limits(&self) -> &[HeadLimit]
        ensures { result.now ≡ self.now.limits }
    {
        self.limits.as_slice()
    }

    /// The forbidden pairs as the head names them, at most `MOST_PAIRS`, in file order.
    pub fn pairs(&self) -> &[HeadPair]
        ensures pairs { result.now ≡ self.now.pairs }
        ensures few { length result.now ≤ most_pairs }
    {
        self.pairs.as_slice()
    }

    /// The fixed places as the head names them, at most `MOST_PLACES`, in file order; none in a
    /// pairing.
    pub fn places(&self) -> &[HeadPlace]
        ensures places { result.now ≡ self.now.places }
        ensures few { length result.now ≤ most_places }
    {
        self.places.as_slice()
    }

    /// The teams, taken out of the head.
    pub fn into_teams(self) -> Teams
        ensures { result ≡ self.teams }
    {
        self.teams
    }
}
