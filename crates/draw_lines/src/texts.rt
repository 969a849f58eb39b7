ghost use Rattle.std.specs.Prelude.{◌≡◌, ◌+◌, ◌<◌, ◌≤◌, ◌++◌, codes, IfOk, IfSome, OnOk, Some, None};
ghost use Rattle.std.specs.Fmt.{decimal};
ghost use Rattle.draw_tables.specs.declared.moves.Move.{Move as MoveValue};
ghost use Rattle.draw_tables.specs.Names.{AreFileChoices, IsFileChoice};
ghost use Rattle.draw_tables.specs.Names.{AreFileMoves, IsFileMove, IsFilePhase};
ghost use Rattle.draw_tables.specs.Pots.{IsTeamOf};
ghost use Rattle.draw_state.specs.Replies.{IsFileGroup, IsFileNextLine, IsFileReply, WaitsForBall};
ghost use Rattle.draw_lines.specs.Texts.{code_text, choice_text, choices_text, phase_text};
ghost use Rattle.draw_lines.specs.Texts.{next_text, refusal_text, stands_text, move_text, ball_text};
ghost use Rattle.draw_lines.specs.Texts.{reply_text, opening_text};

use draw_state::{NextLine, Refusal, Reply};
use draw_tables::{Choice, Move, Phase};
use rule_sets::{DrawFile, law_files_have_form};
use std::alloc::{AllocError, Global};
use team_files::TeamId;

/// The lines of a reply, each with its line feed.
pub fn reply_text(alloc: Global, file: &DrawFile, reply: &Reply) -> Result<Vec<u8>, AllocError>
    requires teams { IsFileReply file.now reply.now }
    ensures { IfOk result (λ text. text.items ≡ reply_text file.now reply.now) }
{
    match reply {
        Reply::Refused(refusal) => Vec::from_slice(alloc, refusal_text(*refusal).as_bytes()),
        Reply::Taken { moves, group, next } => {
            let mut text = Vec::new(alloc);
            add_ball(alloc, &mut text, file, moves.as_slice(), *group)?;
            add_next(alloc, &mut text, file, next)?;
            Ok(text)
        }
    }
}

/// The lines of the opening, each with its line feed.
pub fn opening_text(alloc: Global, file: &DrawFile, next: &NextLine) -> Result<Vec<u8>, AllocError>
    requires teams { IsFileNextLine file.now next.now }
    ensures { IfOk result (λ text. text.items ≡ opening_text file.now next.now) }
{
    let kind = file.kind().text();
    let number = file.teams().number();
    let first = format!(in alloc; "draw {kind} {number} teams\n")?;
    let mut text = first.into_bytes();
    add_next(alloc, &mut text, file, next)?;
    Ok(text)
}

/// The line of a refusal.
fn refusal_text(refusal: Refusal) -> &'static str
    ensures { result.now ≡ refusal_text refusal }
{
    match refusal {
        Refusal::Limit => "refused limit\n",
        Refusal::Form => "refused form\n",
        Refusal::Unknown => "refused unknown\n",
        Refusal::Complete => "refused complete\n",
        Refusal::Phase => "refused phase\n",
        Refusal::Excluded => "refused excluded\n",
    }
}

/// Writes the line of a ball: that of the last move that it added. `told` is the group that the
/// reply tells.
fn add_ball(
    alloc: Global,
    text: &mut Vec<u8>,
    file: &DrawFile,
    moves: &[Move],
    told: Option<u32>,
) -> Result<(), AllocError>
    requires moves { AreFileMoves file.now moves.now }
    requires told { IsFileGroup file.now moves.now told }
    ensures { OnOk result (text.new.items
        ≡ text.old.items ++ ball_text file.now told moves.now) }
{
    let Some((last, _)) = moves.split_last() else {
        return Ok(());
    };
    add_move(alloc, text, file, *last, told)
}

/// Writes the line of a move.
fn add_move(
    alloc: Global,
    text: &mut Vec<u8>,
    file: &DrawFile,
    added: Move,
    told: Option<u32>,
) -> Result<(), AllocError>
    requires of_file { IsFileMove file.now added }
    requires told { IfSome told (λ group. group < file.now.groups) }
    ensures { OnOk result (text.new.items ≡ text.old.items ++ move_text file.now told added) }
{
    match (added, told) {
        (Move::Drawn(team), _) => add_drawn(text, file, team),
        (Move::Placed(team, group), _) => add_placed(text, file, team, group),
        (Move::Positioned(team, position), Some(group)) => {
            add_stands(alloc, text, file, team, group, position)
        }
        (Move::Positioned(_, _), None) => Ok(()),
        (Move::Paired(runner, winner), _) => add_paired(text, file, runner, winner),
    }
}

/// Writes the line of a team's ball after which nothing came of itself.
fn add_drawn(text: &mut Vec<u8>, file: &DrawFile, team: TeamId) -> Result<(), AllocError>
    requires team { IsTeamOf file.now team }
    ensures { OnOk result (text.new.items
        ≡ text.old.items ++ move_text file.now None (MoveValue.Drawn team)) }
{
    text.extend_from_slice(b"drawn ")?;
    text.extend_from_slice(code_text(file, team).as_bytes())?;
    text.push(b'\n')?;
    Ok(())
}

/// Writes the line of a team that took a group.
fn add_placed(
    text: &mut Vec<u8>,
    file: &DrawFile,
    team: TeamId,
    group: u32,
) -> Result<(), AllocError>
    requires team { IsTeamOf file.now team }
    requires group { group < file.now.groups }
    ensures { OnOk result (text.new.items
        ≡ text.old.items ++ move_text file.now None (MoveValue.Placed team group)) }
{
    text.extend_from_slice(b"placed ")?;
    text.extend_from_slice(code_text(file, team).as_bytes())?;
    text.push(b' ')?;
    text.push(letter_of(file, group))?;
    text.push(b'\n')?;
    Ok(())
}

/// Writes the line of a team that got a position of its group.
fn add_stands(
    alloc: Global,
    text: &mut Vec<u8>,
    file: &DrawFile,
    team: TeamId,
    group: u32,
    position: u32,
) -> Result<(), AllocError>
    requires team { IsTeamOf file.now team }
    requires group { group < file.now.groups }
    ensures { OnOk result (text.new.items
        ≡ text.old.items ++ stands_text file.now team (Some group) position) }
{
    text.extend_from_slice(b"stands ")?;
    text.extend_from_slice(code_text(file, team).as_bytes())?;
    text.push(b' ')?;
    text.push(letter_of(file, group))?;
    add_number(alloc, text, position)?;
    text.push(b'\n')?;
    Ok(())
}

/// Writes the line of a pair.
fn add_paired(
    text: &mut Vec<u8>,
    file: &DrawFile,
    runner: TeamId,
    winner: TeamId,
) -> Result<(), AllocError>
    requires runner { IsTeamOf file.now runner }
    requires winner { IsTeamOf file.now winner }
    ensures { OnOk result (text.new.items
        ≡ text.old.items ++ move_text file.now None (MoveValue.Paired runner winner)) }
{
    text.extend_from_slice(b"paired ")?;
    text.extend_from_slice(code_text(file, runner).as_bytes())?;
    text.push(b' ')?;
    text.extend_from_slice(code_text(file, winner).as_bytes())?;
    text.push(b'\n')?;
    Ok(())
}

/// Writes the line of what comes next.
fn add_next(
    alloc: Global,
    text: &mut Vec<u8>,
    file: &DrawFile,
    next: &NextLine,
) -> Result<(), AllocError>
    requires teams { IsFileNextLine file.now next.now }
    ensures { OnOk result (text.new.items ≡ text.old.items ++ next_text file.now next.now) }
{
    match next {
        NextLine::Choices { phase, choices } => {
            add_phase(alloc, text, file, *phase)?;
            add_choices(alloc, text, file, choices.as_slice())?;
            text.push(b'\n')?;
            Ok(())
        }
        NextLine::Complete => text.extend_from_slice(b"complete\n"),
        NextLine::Impossible => text.extend_from_slice(b"impossible\n"),
    }
}

/// Writes the start of the line that tells a phase.
fn add_phase(
    alloc: Global,
    text: &mut Vec<u8>,
    file: &DrawFile,
    phase: Phase,
) -> Result<(), AllocError>
    requires waits { WaitsForBall phase }
    requires of_file { IsFilePhase file.now phase }
    ensures { OnOk result (text.new.items ≡ text.old.items ++ phase_text file.now phase) }
{
    match phase {
        Phase::Runner => text.extend_from_slice(b"next runner-up:"),
        Phase::Opponent { runner } => {
            text.extend_from_slice(b"next opponent ")?;
            text.extend_from_slice(code_text(file, runner).as_bytes())?;
            text.push(b':')?;
            Ok(())
        }
        Phase::Team { pot } => add_team_phase(alloc, text, pot),
        Phase::Position { team } => {
            text.extend_from_slice(b"next position ")?;
            text.extend_from_slice(code_text(file, team).as_bytes())?;
            text.push(b':')?;
            Ok(())
        }
        Phase::Group { team: _ } | Phase::Complete => unreachable!(),
    }
}

/// Writes the start of the line that tells that a team of the pot comes next.
fn add_team_phase(alloc: Global, text: &mut Vec<u8>, pot: u32) -> Result<(), AllocError>
    ensures { OnOk result (text.new.items
        ≡ text.old.items ++ codes "next team pot " ++ decimal pot ++ codes ":") }
{
    text.extend_from_slice(b"next team pot ")?;
    add_number(alloc, text, pot)?;
    text.push(b':')?;
    Ok(())
}

/// Writes each choice, with a space before it.
fn add_choices(
    alloc: Global,
    text: &mut Vec<u8>,
    file: &DrawFile,
    choices: &[Choice],
) -> Result<(), AllocError>
    requires teams { AreFileChoices file.now choices.now }
    ensures { OnOk result (text.new.items ≡ text.old.items ++ choices_text file.now choices.now) }
{
    for choice in choices {
        text.push(b' ')?;
        add_choice(alloc, text, file, *choice)?;
    }
    Ok(())
}

/// Writes a choice: a team's code, a group's letter, or the number of a position.
fn add_choice(
    alloc: Global,
    text: &mut Vec<u8>,
    file: &DrawFile,
    choice: Choice,
) -> Result<(), AllocError>
    requires { IsFileChoice file.now choice }
    ensures { OnOk result (text.new.items ≡ text.old.items ++ choice_text file.now choice) }
{
    match choice {
        Choice::Team(team) => text.extend_from_slice(code_text(file, team).as_bytes()),
        Choice::Group(group) => {
            text.push(letter_of(file, group))?;
            Ok(())
        }
        Choice::Position(position) => add_number(alloc, text, position),
    }
}

/// Writes a number by its decimal digits.
fn add_number(alloc: Global, text: &mut Vec<u8>, number: u32) -> Result<(), AllocError>
    ensures { OnOk result (text.new.items ≡ text.old.items ++ decimal number) }
{
    let digits = format!(in alloc; "{number}")?;
    text.extend_from_slice(digits.as_bytes())
}

/// The letter of a group: group 0 is A.
fn letter_of(file: &DrawFile, group: u32) -> u8
    requires { group < file.now.groups }
    ensures { result ≡ 65 + group }
{
    expect_few_groups(file);
    b'A' + group as u8
}

/// That there is a letter for each group of the file.
fn expect_few_groups(file: &DrawFile)
    ensures { file.now.groups ≤ 26 }
{
    file.kind();
    law_files_have_form();
}

/// The code of a team.
fn code_text(file: &DrawFile, team: TeamId) -> &str
    requires { IsTeamOf file.now team }
    ensures { result.now ≡ code_text file.now team }
{
    file.teams().get(team).code.text()
}
