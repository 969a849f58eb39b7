ghost use Rattle.std.specs.Prelude.{◌≡◌, ◌≢◌, ◌↔◌, [], ◌∷◌, ◌++◌, IfOk, OnOk, OnErr, IfErr, IsTrue};
ghost use Rattle.std.specs.Prelude.{MatchOption, Some};
ghost use Rattle.draw_tables.specs.declared.moves.Choice.{Choice as ChoiceValue};
ghost use Rattle.draw_tables.specs.Names.{AreFileChoices};
ghost use Rattle.draw_tables.specs.Lists.{IsAmong};
ghost use Rattle.draw_state.specs.State.{TakesOffBall};
ghost use Rattle.draw_tables.specs.States.{phase_of, candidates, move_in, IsMoveOf};
ghost use Rattle.draw_tables.specs.States.{IsCandidateMove, IsState};

use crate::NoMemory;
use draw_tables::{Choice, Move, Phase, candidates, is_candidate, move_of, phase_of};
use rule_sets::DrawFile;
use std::alloc::Global;
use std::marker::Model;
use std::sync::Arc;

/// A state of a draw: a draw file, and the moves so far, each of which was a candidate's in the
/// phase of the moves before it. Copies of a state share its file.
#[derive(Drop)]
pub struct State {
    file: Arc<DrawFile>,
    moves: Vec<Move>,
}

impl Model for State {
    ghost use Rattle.draw_state.specs.State as spec;
    ghost use Rattle.std.specs.Arc.{arc_value};
    ghost use Rattle.draw_tables.specs.States.{IsState};

    ghost Value = { spec.State };

    ghost view = { λ s. record { file = arc_value s.file; moves = s.moves.items } };

    ghost invariant = { λ s. IsState (arc_value s.file) s.moves.items };
}

/// Why a move was not added to a state.
#[derive(Clone, Copy, Debug, PartialEq, Eq)]
pub enum StateFault {
    /// The move is no candidate's in the state's phase.
    WrongPhase,
    /// Out of memory.
    NoMemory,
}

impl State {
    /// The state of a draw file without moves.
    pub fn start(alloc: Global, file: &DrawFile) -> Result<State, NoMemory>
        ensures file { IfOk result (λ s. s.file ≡ file.now) }
        ensures moves { IfOk result (λ s. s.moves ≡ []) }
    {
        let file = file.clone_in(alloc)?;
        Ok(State {
            file: Arc::new(alloc, file)?,
            moves: Vec::new(alloc),
        })
    }

    /// The draw file.
    pub fn file(&self) -> &DrawFile
        ensures file { result.now ≡ self.now.file }
        ensures state { IsState self.now.file self.now.moves }
    {
        &self.file
    }

    /// The moves so far, in order.
    pub fn moves(&self) -> &[Move]
        ensures { result.now ≡ self.now.moves }
    {
        self.moves.as_slice()
    }

    /// What comes next.
    pub fn phase(&self) -> Phase
        ensures { result ≡ phase_of self.now.file self.now.moves }
    {
        phase_of(&self.file, &self.moves)
    }

    /// The candidates of the phase, in order.
    pub fn candidates(&self, alloc: Global) -> Result<Vec<Choice>, NoMemory>
        ensures candidates { IfOk result (λ v. v.items ≡ candidates self.now.file self.now.moves) }
        ensures of_file { IfOk result (λ v. AreFileChoices self.now.file v.items) }
    {
        candidates(alloc, &self.file, &self.moves)
    }

    /// The move that a choice adds. `None` exactly where the choice is no candidate of the phase.
    pub fn move_of(&self, choice: Choice) -> Option<Move>
        ensures { MatchOption result
            (¬ IsAmong (candidates self.now.file self.now.moves) choice)
            (λ m. IsMoveOf self.now.file self.now.moves choice m) }
    {
        move_of(&self.file, &self.moves, choice)
    }

    /// Adds a move. `WrongPhase` comes exactly where it is no candidate's in the phase, `NoMemory`
    /// only where it is one; after an error the state is as before.
    pub fn apply(&mut self, alloc: Global, next: Move) -> Result<(), StateFault>
        ensures added { OnOk result (self.new.moves ≡ self.old.moves ++ next ∷ []) }
        ensures candidate { OnOk result (IsCandidateMove self.old.file self.old.moves next) }
        ensures wrong_phase { IfErr result (λ f. f ≡ StateFault.WrongPhase
            → ¬ IsCandidateMove self.old.file self.old.moves next) }
        ensures no_memory { IfErr result (λ f. f ≡ StateFault.NoMemory
            → IsCandidateMove self.old.file self.old.moves next) }
        ensures file { self.new.file ≡ self.old.file }
        ensures err { OnErr result (self.new ≡ self.old) }
    {
        let _ = alloc;
        if !is_next(&self.file, &self.moves, next) {
            return Err(StateFault::WrongPhase);
        }
        if self.moves.push(next).is_err() {
            return Err(StateFault::NoMemory);
        }
        Ok(())
    }

    /// Takes off the last ball with all moves that it added, and gives the ball's own move. `None`
    /// exactly where there are no moves.
    pub fn undo(&mut self) -> Option<Move>
        ensures moves { MatchOption result
            ((self.old.moves ≡ []) × (self.new.moves ≡ []))
            (λ m. TakesOffBall self.old.moves self.new.moves m) }
        ensures file { self.new.file ≡ self.old.file }
    {
        let last = take_last(&mut self.moves)?;
        match last {
            Move::Placed(_, _) => take_last(&mut self.moves),
            Move::Drawn(_) | Move::Positioned(_, _) | Move::Paired(_, _) => Some(last),
        }
    }

    /// Whether both are one state: one file, and the same moves.
    pub fn equals(&self, other: &State) -> bool
        ensures { IsTrue result ↔ (self.now ≡ other.now) }
    {
        self.file().equals(other.file()) && same_moves(self.moves(), other.moves())
    }

    /// An equal state.
    pub fn clone_in(&self, alloc: Global) -> Result<State, NoMemory>
        ensures { IfOk result (λ s. s ≡ self.now) }
    {
        let moves = Vec::from_slice(alloc, &self.moves)?;
        Ok(State {
            file: self.file.clone()?,
            moves,
        })
    }
}

/// Takes off the last move. `None` exactly where there is none.
fn take_last(moves: &mut Vec<Move>) -> Option<Move>
    ensures { MatchOption result
        ((moves.old.items ≡ []) × (moves.new.items ≡ []))
        (λ m. moves.old.items ≡ moves.new.items ++ m ∷ []) }
{
    moves.pop()
}

/// Whether the moves are the same, in the same order.
fn same_moves(one: &[Move], other: &[Move]) -> bool
    ensures { IsTrue result ↔ (one.now ≡ other.now) }
{
    one == other
}

/// Whether the move is a candidate's in the phase after the moves.
fn is_next(file: &DrawFile, moves: &[Move], next: Move) -> bool
    ensures { IsTrue result ↔ IsCandidateMove file.now moves.now next }
{
    match choice_of_move(phase_of(file, moves), next) {
        Some(choice) => is_candidate(file, moves, choice),
        None => false,
    }
}

/// The choice whose move this is in a phase.
fn choice_of_move(phase: Phase, next: Move) -> Option<Choice>
    ensures { MatchOption result
        ((c : ChoiceValue) → move_in phase c ≢ Some next)
        (λ choice. (c : ChoiceValue) → (move_in phase c ≡ Some next) ↔ (c ≡ choice)) }
{
    match (phase, next) {
        (Phase::Runner, Move::Drawn(team)) => Some(Choice::Team(team)),
        (Phase::Opponent { runner }, Move::Paired(other, winner)) if other == runner => {
            Some(Choice::Team(winner))
        }
        (Phase::Team { pot: _ }, Move::Drawn(team)) => Some(Choice::Team(team)),
        (Phase::Group { team }, Move::Placed(other, group)) if other == team => {
            Some(Choice::Group(group))
        }
        (Phase::Position { team }, Move::Positioned(other, position)) if other == team => {
            Some(Choice::Position(position))
        }
        _ => None,
    }
}
