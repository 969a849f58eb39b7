ghost use Rattle.std.specs.Prelude.{◌≡◌, [], IfOk, OnErr};
ghost use Rattle.draw_top.specs.Replies.{StepsTo, IsRefusal};
ghost use Rattle.draw_state.specs.Runs.{IsNextLine};
ghost use Rattle.draw_state.specs.Replies.{IsFileNextLine, IsFileReply};

use crate::offers::{offer_at, reply_below_limit};
use draw_state::{Command, MOST_COMMANDS, NextLine, Refusal, Reply, State, law_replies_name_teams};
use offer_engine::{Encoded, Offer, law_clean_where_completable};
use rule_sets::DrawFile;
use serial_search::Session;
use std::alloc::{AllocError, Global};
use std::marker::Model;
use std::sync::Arc;

/// A state of a draw with its offer, and the one session that is asked for offers; right by its
/// type.
#[derive(Drop)]
pub struct Turn {
    enc: Encoded,
    session: Session,
    offer: Offer,
}

impl Model for Turn {
    ghost use Rattle.draw_top.specs.Turns as spec;

    ghost Value = { spec.Turn };

    ghost view = { λ t. record { file = t.offer.state.file; moves = t.offer.state.moves } };

    ghost invariant = { λ t. spec.AreOfOneFile t.enc t.session t.offer };
}

impl Turn {
    /// The state without moves.
    pub fn open(alloc: Global, file: &DrawFile) -> Result<Turn, AllocError>
        ensures file { IfOk result (λ t. t.file ≡ file.now) }
        ensures moves { IfOk result (λ t. t.moves ≡ []) }
    {
        law_replies_name_teams();
        law_clean_where_completable();
        let enc = Encoded::new(alloc, file.clone_in(alloc)?)?;
        let mut session = Session::new(alloc, Arc::try_clone(enc.problem())?)?;
        let state = State::start(alloc, enc.file())?;
        let offer = offer_at(alloc, &enc, &mut session, &state)?;
        Ok(Turn {
            enc,
            session,
            offer,
        })
    }

    /// The draw file.
    pub fn file(&self) -> &DrawFile
        ensures { result.now ≡ self.now.file }
    {
        self.offer.state().file()
    }

    /// What comes next.
    pub fn next(&self, alloc: Global) -> Result<NextLine, AllocError>
        ensures next { IfOk result (λ n. IsNextLine self.now.file self.now.moves n) }
        ensures of_file { IfOk result (λ n. IsFileNextLine self.now.file n) }
    {
        law_replies_name_teams();
        self.offer.state().file();
        let next = self.offer.next(alloc)?;
        Ok(next)
    }

    /// Answers a command, where so many were `answered` before. A refused command changes nothing.
    pub fn answer(
        &mut self,
        alloc: Global,
        answered: u64,
        command: Command,
    ) -> Result<Reply, AllocError>
        ensures step { IfOk result (λ r. StepsTo self.old self.new answered command r) }
        ensures of_file { IfOk result (λ r. IsFileReply self.old.file r) }
        ensures refused { IfOk result (λ r. IsRefusal r → self.new ≡ self.old) }
        ensures file { self.new.file ≡ self.old.file }
        ensures err { OnErr result (self.new ≡ self.old) }
    {
        law_replies_name_teams();
        self.offer.state().file();
        if answered >= MOST_COMMANDS {
            return Ok(Reply::Refused(Refusal::Limit));
        }
        let before = self.offer.clone_in(alloc)?;
        let (reply, offer) = reply_below_limit(
            alloc,
            &self.enc,
            &mut self.session,
            before,
            command,
        )?;
        self.offer = offer;
        Ok(reply)
    }
}
