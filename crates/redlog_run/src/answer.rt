ghost use Rattle.std.specs.Prelude.{◌≡◌, ◌≢◌, ℕ, ◌+◌, ◌<◌, ◌≤◌, ◌^◌, List, ◌++◌, ◌∷◌, [], true, false, length, take, IfOk, OnOk};
ghost use Rattle.redlog_tokens.specs.Pieces.{HasBytes};
ghost use Rattle.session_commands.specs.Seen.{state_in};
ghost use Rattle.program_meaning.specs.Words.{word_of};
ghost use Rattle.program_meaning.specs.Lines.{refusal_line};
ghost use Rattle.program_meaning.specs.Run.{RunOf};
ghost use Rattle.redlog_run.specs.Adding.{Adds};
ghost use Rattle.redlog_run.specs.Script.{Stands, StandsOrEnds};

use crate::lines::{Lines, Part};
use crate::team::Team;
use program_meaning::{Line, StatementError};
use qe_io::{Cause, Place, Refusal, Teller};
use qe_parallel::Gate;
use redlog_tokens::{Cut, Splitter};
use session_commands::Session;
use smtlib_front::Limits;
use std::alloc::{AllocError, Global};
use std::thread::Threads;

/// What a script is answered with: its lines, and whether one of them is a refusal.
#[derive(Drop)]
pub struct Answers {
    pub lines: Vec<u8>,
    pub refused: bool,
}

/// A script that is answered while its bytes come.
#[derive(Drop)]
pub struct Answering {
    pub alloc: Global,
    pub session: Session,
    pub splitter: Splitter,
    pub answers: Answers,
    pub lines: Lines,
}

/// A step: how many bytes it took, and whether a statement ended the script.
#[derive(Clone, Copy)]
pub struct Step {
    pub taken: usize,
    pub ends: bool,
}

/// A script of which nothing has come yet, under these limits.
pub fn begin(alloc: Global, limits: Limits) -> Answering
    requires { 1 ≤ limits.workers }
    ensures stands { Stands limits.nodes [] [] result }
    ensures none { result.splitter.whole ≡ false }
    ensures fed { result.splitter.fed ≡ 0 }
    ensures quiet { result.answers.lines.items ≡ [] }
{
    Answering {
        alloc,
        session: Session::new(alloc, limits),
        splitter: Splitter::new(alloc),
        answers: Answers {
            lines: Vec::new(alloc),
            refused: false,
        },
        lines: Lines::new(),
    }
}

/// Takes bytes through the first end mark, or all of them, and adds what the piece that ends there is answered with. Of a refusal
/// is told too, with its place, for which the bytes count that were taken of the same read before.
pub fn answer_next<R: Threads + Sync, G: Gate + Sync, T: Teller>(
    team: &Team<'_, R, G, T>,
    answering: &mut Answering,
    earlier: &[u8],
    bytes: &[u8],
) -> Result<Step, AllocError>
    requires none { answering.old.splitter.whole ≡ false }
    requires few { answering.old.splitter.fed + length bytes.now < 2 ^ 64 }
    ensures stands { IfOk result (λ step. (limit : ℕ) (given written : List ℕ) → Stands limit given (written ++ answering.old.answers.lines.items) answering.old
        → StandsOrEnds step.ends limit (given ++ take step.taken bytes.now) (written ++ answering.new.answers.lines.items) answering.new) }
    ensures none { OnOk result (answering.new.splitter.whole ≡ false) }
    ensures some { IfOk result (λ step. 0 < length bytes.now → 0 < step.taken) }
    ensures within { IfOk result (λ step. step.taken ≤ length bytes.now) }
    ensures count { IfOk result (λ step. answering.new.splitter.fed ≡ answering.old.splitter.fed + step.taken) }
{
    let taken = answering.splitter.feed(bytes)?;
    let part = Part {
        earlier,
        bytes: &bytes[..taken],
        left: bytes.len() - taken,
    };
    let Some(cut) = answering.splitter.next() else {
        answering.lines.leave(&part);
        return Ok(Step { taken, ends: false });
    };
    let ends = answer_cut(
        team,
        answering.alloc,
        &mut answering.session,
        &cut,
        &part,
        &mut answering.lines,
        &mut answering.answers,
    )?;
    answering.splitter.reuse(cut);
    answering.lines.end(&part);
    Ok(Step { taken, ends })
}

/// Adds what the last piece is answered with, which no end mark ends, and gives the answers.
pub fn answer_last<R: Threads + Sync, G: Gate + Sync, T: Teller>(
    team: &Team<'_, R, G, T>,
    answering: Answering,
) -> Result<Answers, AllocError>
    requires none { answering.splitter.whole ≡ false }
    ensures { IfOk result (λ answers. (limit : ℕ) (given written : List ℕ) → Stands limit given (written ++ answering.answers.lines.items) answering
        → RunOf limit given (written ++ answers.lines.items) answers.refused) }
{
    let Answering {
        alloc,
        mut session,
        splitter,
        mut answers,
        mut lines,
    } = answering;
    let Some(cut) = splitter.finish() else {
        return Ok(answers);
    };
    let part = Part {
        earlier: &[],
        bytes: &[],
        left: 0,
    };
    let _ends = answer_cut(
        team,
        alloc,
        &mut session,
        &cut,
        &part,
        &mut lines,
        &mut answers,
    )?;
    Ok(answers)
}

/// Answers a whole script under these limits: its statements in turn, each in the state that the one before left, until one of them
/// ends it.
pub fn answer_script<R: Threads + Sync, G: Gate + Sync, T: Teller>(
    team: &Team<'_, R, G, T>,
    alloc: Global,
    limits: Limits,
    script: &[u8],
) -> Result<Answers, AllocError>
    requires { 1 ≤ limits.workers }
    ensures { IfOk result (λ answers. RunOf limits.nodes script.now answers.lines.items answers.refused) }
{
    let mut answering = begin(alloc, limits);
    let mut taken = 0;
    while taken < script.len() {
        let step = answer_next(team, &mut answering, &script[..taken], &script[taken..])?;
        if step.ends {
            return Ok(answering.answers);
        }
        taken += step.taken;
    }
    answer_last(team, answering)
}

/// Adds what a cut is answered with, and says whether it ends the script. A piece past the limit of the splitter is refused.
fn answer_cut<R: Threads + Sync, G: Gate + Sync, T: Teller>(
    team: &Team<'_, R, G, T>,
    alloc: Global,
    session: &mut Session,
    cut: &Cut,
    part: &Part<'_>,
    lines: &mut Lines,
    answers: &mut Answers,
) -> Result<bool, AllocError>
    ensures adds { IfOk result (λ ends. (piece : List ℕ) → HasBytes piece cut.now.bytes
        → Adds (state_in session.old) session.old.limits.nodes piece cut.now.offset ends (state_in session.new) answers.old.lines.items answers.old.refused answers.new.lines.items answers.new.refused) }
    ensures limits { OnOk result (session.new.limits ≡ session.old.limits) }
{
    match &cut.bytes {
        Some(bytes) => {
            let offset = cut.offset;
            answer_piece(team, alloc, session, bytes, offset, part, lines, answers)
        }
        None => {
            add_refusal(alloc, StatementError::Long, cut.offset, answers)?;
            team.teller
                .tell(&refusal_of(None, lines.place(part), StatementError::Long));
            Ok(false)
        }
    }
}

/// Adds what a piece at this offset is answered with, and says whether it ends the script.
fn answer_piece<R: Threads + Sync, G: Gate + Sync, T: Teller>(
    team: &Team<'_, R, G, T>,
    alloc: Global,
    session: &mut Session,
    piece: &[u8],
    offset: u64,
    part: &Part<'_>,
    lines: &mut Lines,
    answers: &mut Answers,
) -> Result<bool, AllocError>
    ensures adds { IfOk result (λ ends. Adds (state_in session.old) session.old.limits.nodes piece.now offset ends (state_in session.new) answers.old.lines.items answers.old.refused answers.new.lines.items answers.new.refused) }
    ensures limits { session.new.limits ≡ session.old.limits }
{
    match session.statement(team.rt, piece, team.gate) {
        Ok(Line::Finished) => return Ok(true),
        Ok(Line::Nothing) => (),
        Ok(Line::Printed(text)) => add_line(&text, answers)?,
        Err(error) => {
            add_refusal(alloc, error, offset, answers)?;
            team.teller
                .tell(&refusal_of(Some(piece), lines.place(part), error));
        }
    }
    Ok(false)
}

/// The refusal of a statement that begins at this place, and these are its bytes, where they are kept.
fn refusal_of(bytes: Option<&[u8]>, place: Place, error: StatementError) -> Refusal<'_> {
    Refusal {
        bytes,
        place,
        cause: Cause::Statement(error),
    }
}

/// Adds a line.
fn add_line(text: &[u8], answers: &mut Answers) -> Result<(), AllocError>
    ensures lines { OnOk result (answers.new.lines.items ≡ answers.old.lines.items ++ (text.now ++ 10 ∷ [])) }
    ensures refused { answers.new.refused ≡ answers.old.refused }
{
    answers.lines.extend_from_slice(text)?;
    answers.lines.push(b'\n')?;
    Ok(())
}

/// Adds the line of a refusal of the statement at this offset. Want of memory is no refusal.
fn add_refusal(
    alloc: Global,
    error: StatementError,
    offset: u64,
    answers: &mut Answers,
) -> Result<(), AllocError>
    ensures lines { OnOk result (answers.new.lines.items ≡ answers.old.lines.items ++ refusal_line (word_of error) offset) }
    ensures refused { OnOk result (answers.new.refused ≡ true) }
    ensures cause { OnOk result (error ≢ StatementError.Memory) }
{
    if error == StatementError::Memory {
        return Err(AllocError);
    }
    let word = error.word();
    let line = format!(in alloc; "***** {word} at {offset}\n")?;
    answers.lines.extend_from_slice(line.as_bytes())?;
    answers.refused = true;
    Ok(())
}
