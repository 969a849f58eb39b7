ghost use Rattle.std.specs.Prelude.{◌≡◌, IfOk};
ghost use Rattle.draw_state.specs.Runs.{IsNextLine};
ghost use Rattle.draw_tables.specs.Offers.{IsOffer};
ghost use Rattle.draw_tables.specs.Positions.{HasCleanPositions};
ghost use Rattle.offer_engine.specs.Offers.{IsExact, offer_with, offered};

use crate::NoMemory;
use crate::standing::Standing;
use count_core::law_refuted_questions_fail;
use draw_state::{Choices, NextLine, State, next_line};
use draw_tables::{Choice, law_held_positions};
use std::alloc::Global;
use std::marker::Model;

/// A state with its offer, exact by its type: the positions of the state are clean, and all
/// candidates stand in order, each with a legal table that extends the moves with its own, with a
/// refutation of the literals of those moves, or with the team that holds the position. Contracts
/// see a record of `state` and `standings`.
#[derive(Drop)]
pub struct Offer {
    state: State,
    standings: Vec<(Choice, Standing)>,
}

impl Model for Offer {
    ghost use Rattle.offer_engine.specs.Offers as spec;

    ghost Value = { spec.Offer };

    ghost view = { λ o. spec.offer_with o.state o.standings.items };

    ghost invariant = { λ o. spec.IsExact (spec.offer_with o.state o.standings.items) };
}

impl Offer {
    /// The offer of a state in which the candidates stand so, as is right.
    pub(crate) fn of(state: State, standings: Vec<(Choice, Standing)>) -> Offer
        requires { IsExact (offer_with state standings.items) }
        ensures { result ≡ offer_with state standings.items }
    {
        Offer { state, standings }
    }

    /// The state.
    pub fn state(&self) -> &State
        ensures state { result.now ≡ self.now.state }
        ensures clean { HasCleanPositions self.now.state.file self.now.state.moves }
    {
        &self.state
    }

    /// All candidates in order, each as it stands.
    pub fn standings(&self) -> &[(Choice, Standing)]
        ensures standings { result.now ≡ self.now.standings }
        ensures exact { IsExact self.now }
        ensures offer { IsOffer self.now.state.file self.now.state.moves (offered result.now) }
    {
        self.state.file().kind();
        group_draw::law_tables_satisfy();
        pairing_draw::law_tables_satisfy();
        law_refuted_questions_fail();
        law_held_positions();
        self.standings.as_slice()
    }

    /// What comes next in the state.
    pub fn next(&self, alloc: Global) -> Result<NextLine, NoMemory>
        ensures { IfOk result (λ n. IsNextLine self.now.state.file self.now.state.moves n) }
    {
        let choices = self.offered(alloc)?;
        let next = next_line(&self.state, Choices::new(choices));
        Ok(next)
    }

    /// The choices that are offered, in order.
    pub(crate) fn offered(&self, alloc: Global) -> Result<Vec<Choice>, NoMemory>
        ensures { IfOk result (λ v. IsOffer self.now.state.file self.now.state.moves v.items) }
    {
        let choices = offered_of(alloc, self.standings())?;
        Ok(choices)
    }

    /// An equal offer.
    pub fn clone_in(&self, alloc: Global) -> Result<Offer, NoMemory>
        ensures { IfOk result (λ o. o ≡ self.now) }
    {
        let standings = clone_standings(alloc, self.standings.as_slice())?;
        let state = self.state.clone_in(alloc)?;
        Ok(Offer { state, standings })
    }
}

/// The choices that are offered, in order.
fn offered_of(alloc: Global, standings: &[(Choice, Standing)]) -> Result<Vec<Choice>, NoMemory>
    ensures { IfOk result (λ v. v.items ≡ offered standings.now) }
{
    let mut choices = Vec::new(alloc);
    for (choice, standing) in standings {
        let Standing::Offered(_) = standing else {
            continue;
        };
        choices.push(*choice)?;
    }
    Ok(choices)
}

/// Equal standings.
fn clone_standings(
    alloc: Global,
    standings: &[(Choice, Standing)],
) -> Result<Vec<(Choice, Standing)>, NoMemory>
    ensures { IfOk result (λ v. v.items ≡ standings.now) }
{
    let mut copies = Vec::new(alloc);
    for (choice, standing) in standings {
        copies.push((*choice, standing.clone_in(alloc)?))?;
    }
    Ok(copies)
}
