ghost use Rattle.std.specs.Prelude.{◌≡◌, ◌<◌};
ghost use Rattle.team_files.specs.declared.kind.Kind.{Kind};
ghost use Rattle.rule_sets.specs.Files.{IsWellFormed};
ghost use Rattle.rule_sets.specs.Forms.{HasForm};
ghost use Rattle.draw_tables.specs.Pots.{IsTeamOf};
ghost use Rattle.group_draw.specs.Encoding.{HasAtoms, group_lit};

use count_core::{Atom, Lit};
use rule_sets::{DrawFile, law_files_have_form};
use team_files::TeamId;

/// The form of a group draw's file, and that its atoms are few. Does nothing.
pub(crate) fn form_of(file: &DrawFile)
    requires kind { file.now.kind ≡ Kind.Group }
    ensures formed { IsWellFormed file.now }
    ensures form { HasForm file.now }
    ensures atoms { HasAtoms file.now }
{
    file.kind();
    law_files_have_form();
}

/// The literal that a team stands in a group, counted from 0.
pub(crate) fn group_lit(file: &DrawFile, group: u32, team: TeamId) -> Lit
    requires atoms { HasAtoms file.now }
    requires team { IsTeamOf file.now team }
    requires group { group < file.now.groups }
    ensures { result ≡ group_lit file.now group team }
{
    Lit {
        atom: Atom(team.0 * file.groups() + group),
        positive: true,
    }
}
