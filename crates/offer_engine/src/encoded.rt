ghost use Rattle.std.specs.Prelude.{◌≡◌, IfOk};
ghost use Rattle.std.specs.Arc.{arc_value};
ghost use Rattle.offer_engine.specs.Encodings.{encoding_of, rules_of};

use crate::NoMemory;
use count_core::{Problem, SharedProblem};
use rule_sets::DrawFile;
use std::alloc::Global;
use std::marker::Model;
use std::sync::Arc;
use team_files::Kind;

/// A draw file with its count problem, which by its type is that of the file. Contracts see a
/// record of `file` and `problem`, its value.
#[derive(Drop)]
pub struct Encoded {
    file: DrawFile,
    problem: SharedProblem,
}

impl Model for Encoded {
    ghost use Rattle.std.specs.Prelude.{◌≡◌};
    ghost use Rattle.std.specs.Arc.{arc_value};
    ghost use Rattle.offer_engine.specs.Encodings as spec;

    ghost Value = { spec.Encoding };

    ghost view = { λ e. record { file = e.file; problem = arc_value e.problem } };

    ghost invariant = { λ e. arc_value e.problem ≡ spec.rules_of e.file };
}

impl Encoded {
    /// The file with its problem.
    pub fn new(alloc: Global, file: DrawFile) -> Result<Encoded, NoMemory>
        ensures { IfOk result (λ e. e ≡ encoding_of file) }
    {
        let problem = problem_of(alloc, &file)?;
        let shared = Arc::new(alloc, problem)?;
        Ok(Encoded {
            file,
            problem: shared,
        })
    }

    /// The draw file.
    pub fn file(&self) -> &DrawFile
        ensures { result.now ≡ self.now.file }
    {
        &self.file
    }

    /// Its count problem.
    pub fn problem(&self) -> &SharedProblem
        ensures problem { arc_value result.now ≡ self.now.problem }
        ensures rules { self.now.problem ≡ rules_of self.now.file }
    {
        &self.problem
    }
}

/// The count problem of a file, by the kind of its draw.
fn problem_of(alloc: Global, file: &DrawFile) -> Result<Problem, NoMemory>
    ensures { IfOk result (λ p. p ≡ rules_of file.now) }
{
    match file.kind() {
        Kind::Group => group_draw::encode(alloc, file),
        Kind::Pairing => pairing_draw::encode(alloc, file),
    }
}
