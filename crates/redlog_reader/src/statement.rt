ghost use Rattle.std.specs.Prelude.{◌≡◌, ◌∷◌, IfOk, IfErr, MatchOption, Some, None};
ghost use Rattle.written_syntax.specs.CodeTrees.{whole_formula};
ghost use Rattle.language_meaning.specs.Statements.{Say};
ghost use Rattle.language_meaning.specs.Inner.{around};
ghost use Rattle.written_syntax.specs.StatementSyntaxCodeTrees.{statement_tree, whole_action, whole_command};
ghost use Rattle.language_meaning.specs.declared.terminal.Terminal.{Terminal};
ghost use Rattle.language_meaning.specs.Grammar.{setting_of, result_of};
ghost use Rattle.redlog_reader.specs.Reader.{pointed_read, result_read, is_any, anys_read, context_read, ignored_read, assumed_read, action_from, named_from, action_read, alone, ending, statement_read};
ghost use Rattle.redlog_reader.specs.Reading.{Refuses};

use crate::argument::{AtomKind, FORMULA, argument, atoms, formula};
use crate::constraints::{constraints, multiplied, targeted};
use crate::grid::grid;
use crate::peek::{after, name, next};
use crate::point::point;
use crate::setting::setting_of;
use language_meaning::{Mark, ReadError, Terminal, Word};
use logic_meaning::Name;
use std::alloc::{AllocError, Global};
use written_syntax::{Action, Command, Entries, Formula, Formulas, Statement};

/// The statement that the tokens spell, with no token after it.
#[tactic(auto, using(crate::proofs::Options::options))]
pub fn statement(alloc: Global, tokens: &[Terminal]) -> Result<Statement, ReadError>
    ensures read { IfOk result (λ s. statement_read tokens.now ≡ Some (statement_tree s)) }
    ensures refused { IfErr result (λ e. Refuses e (statement_read tokens.now ≡ None)) }
{
    let Some((first, after_first)) = next(tokens) else {
        return Err(ReadError::Syntax);
    };
    if let Some(printed) = ended(&first, after_first) {
        let action = Action::Empty;
        return Ok(Statement { action, printed });
    }
    let (action, end) = action(alloc, first, after_first, tokens)?;
    let Some(printed) = ending(end) else {
        return Err(ReadError::Syntax);
    };
    Ok(Statement { action, printed })
}

/// Whether the statement is printed, where the tokens are its end.
fn ending(tokens: &[Terminal]) -> Option<bool>
    ensures { result ≡ ending tokens.now }
{
    let Some((first, rest)) = next(tokens) else {
        return None;
    };
    ended(&first, rest)
}

/// Whether the statement is printed, where the terminal and the tokens after it are its end.
fn ended(first: &Terminal, rest: &[Terminal]) -> Option<bool>
    ensures { result ≡ ending (first.now ∷ rest.now) }
{
    match first {
        Terminal::Mark(Mark::Semicolon) => alone(true, rest),
        Terminal::Mark(Mark::Dollar) => alone(false, rest),
        _ => None,
    }
}

fn alone(printed: bool, tokens: &[Terminal]) -> Option<bool>
    ensures { result ≡ alone printed tokens.now }
{
    match tokens {
        [] => Some(printed),
        _ => None,
    }
}

/// What a statement does, which begins with this terminal.
#[tactic(auto, using(crate::proofs::Options::options))]
fn action<'a>(
    alloc: Global,
    first: Terminal,
    rest: &'a [Terminal],
    tokens: &'a [Terminal],
) -> Result<(Action, &'a [Terminal]), ReadError>
    requires { tokens.now ≡ first ∷ rest.now }
    ensures read { IfOk result (λ r. action_read tokens.now ≡ Some (whole_action r.0, r.1.now)) }
    ensures refused { IfErr result (λ e. Refuses e (action_read tokens.now ≡ None)) }
{
    match first {
        Terminal::Word(word) => action_from(alloc, word, rest, tokens),
        Terminal::Name(name) => named_from(alloc, name, rest, tokens),
        _ => {
            let (command, end) = result_of(alloc, tokens)?;
            let action = say(alloc, command)?;
            Ok((action, end))
        }
    }
}

/// An action that begins with this word.
#[tactic(auto, using(crate::proofs::Options::options))]
fn action_from<'a>(
    alloc: Global,
    word: Word,
    rest: &'a [Terminal],
    tokens: &'a [Terminal],
) -> Result<(Action, &'a [Terminal]), ReadError>
    requires { tokens.now ≡ Terminal.Word word ∷ rest.now }
    ensures read { IfOk result (λ r. action_from word rest.now ≡ Some (whole_action r.0, r.1.now)) }
    ensures refused { IfErr result (λ e. Refuses e (action_from word rest.now ≡ None)) }
{
    match word {
        Word::Set => context(rest),
        Word::Load | Word::On | Word::Off => ignored(rest),
        Word::Assume => assumed(alloc, rest),
        Word::Retract => Ok((Action::Retract, rest)),
        Word::End | Word::Bye | Word::Quit => Ok((Action::Finish, rest)),
        Word::Qea => {
            let (formula, given, rest) = argument(alloc, rest)?;
            let action = say(alloc, Command::Qea(formula, Formulas::of(given)))?;
            Ok((action, rest))
        }
        Word::Holds => {
            let (formula, entries, rest) = pointed(alloc, rest)?;
            let action = say(alloc, Command::Holds(formula, entries))?;
            Ok((action, rest))
        }
        Word::Witness => {
            let (formula, entries, rest) = pointed(alloc, rest)?;
            let action = say(alloc, Command::Sample(formula, entries))?;
            Ok((action, rest))
        }
        Word::Grid => {
            let (formula, axes, rest) = grid(alloc, rest)?;
            let action = say(alloc, Command::Grid(formula, axes))?;
            Ok((action, rest))
        }
        Word::Cert => {
            let (constraints, rest) = constraints(alloc, rest)?;
            let action = say(alloc, Command::Certify(Formulas::of(constraints)))?;
            Ok((action, rest))
        }
        Word::Check => {
            let (constraints, multipliers, rest) = multiplied(alloc, rest)?;
            let action = say(
                alloc,
                Command::Check(Formulas::of(constraints), multipliers),
            )?;
            Ok((action, rest))
        }
        Word::Opt => {
            let (constraints, target, rest) = targeted(alloc, rest)?;
            let action = say(alloc, Command::Least(Formulas::of(constraints), target))?;
            Ok((action, rest))
        }
        _ => {
            let (command, rest) = result_of(alloc, tokens)?;
            let action = say(alloc, command)?;
            Ok((action, rest))
        }
    }
}

/// An action that begins with this name.
#[tactic(auto, using(crate::proofs::Options::options))]
fn named_from<'a>(
    alloc: Global,
    name: Name,
    rest: &'a [Terminal],
    tokens: &'a [Terminal],
) -> Result<(Action, &'a [Terminal]), ReadError>
    requires { tokens.now ≡ Terminal.Name name ∷ rest.now }
    ensures read { IfOk result (λ r. named_from name rest.now ≡ Some (whole_action r.0, r.1.now)) }
    ensures refused { IfErr result (λ e. Refuses e (named_from name rest.now ≡ None)) }
{
    if let Some(start) = after(rest, Mark::Assign) {
        let (command, end) = result_of(alloc, start)?;
        let command = Box::new(alloc, command)?;
        return Ok((Action::Assign(name, command), end));
    }
    let (command, end) = result_of(alloc, tokens)?;
    let action = say(alloc, command)?;
    Ok((action, end))
}

/// The action that is this command.
fn say(alloc: Global, command: Command) -> Result<Action, AllocError>
    ensures { IfOk result (λ a. whole_action a ≡ around Say (whole_command command)) }
{
    let command = Box::new(alloc, command)?;
    Ok(Action::Say(command))
}

/// The context to be chosen.
#[tactic(auto, using(crate::proofs::Options::options))]
fn context(tokens: &[Terminal]) -> Result<(Action, &[Terminal]), ReadError>
    ensures read { IfOk result (λ r. context_read tokens.now ≡ Some (whole_action r.0, r.1.now)) }
    ensures refused { IfErr result (λ e. Refuses e (context_read tokens.now ≡ None)) }
{
    let Some((name, rest)) = name(tokens) else {
        return Err(ReadError::Syntax);
    };
    let Some(setting) = setting_of(name.bytes()) else {
        return Err(ReadError::Syntax);
    };
    Ok((Action::Choose(setting), rest))
}

/// Names and words that change nothing.
#[tactic(auto, using(crate::proofs::Options::options))]
fn ignored(tokens: &[Terminal]) -> Result<(Action, &[Terminal]), ReadError>
    ensures read { IfOk result (λ r. ignored_read tokens.now ≡ Some (whole_action r.0, r.1.now)) }
    ensures refused { IfErr result (λ e. Refuses e (ignored_read tokens.now ≡ None)) }
{
    let Some(rest) = anys(tokens) else {
        return Err(ReadError::Syntax);
    };
    Ok((Action::Ignored, rest))
}

/// Atoms to be assumed.
#[tactic(auto, using(crate::proofs::Options::options))]
fn assumed(alloc: Global, tokens: &[Terminal]) -> Result<(Action, &[Terminal]), ReadError>
    ensures read { IfOk result (λ r. assumed_read tokens.now ≡ Some (whole_action r.0, r.1.now)) }
    ensures refused { IfErr result (λ e. Refuses e (assumed_read tokens.now ≡ None)) }
{
    let (given, rest) = atoms(alloc, AtomKind::Any, tokens)?;
    Ok((Action::Assume(Formulas::of(given)), rest))
}

/// One name or word or more, with commas between them.
#[tactic(auto, using(crate::proofs::Options::anys))]
fn anys(tokens: &[Terminal]) -> Option<&[Terminal]>
    ensures { MatchOption result (anys_read tokens.now ≡ None) (λ rest. anys_read tokens.now ≡ Some rest.now) }
{
    let mut left = tokens;
    'anys: while let Some((first, rest)) = next(left) {
        if !is_any(&first) {
            return None;
        }
        let Some(more) = after(rest, Mark::Comma) else {
            return Some(rest);
        };
        left = more;
    }
    None
}

/// Whether the terminal is a name or a word.
fn is_any(terminal: &Terminal) -> bool
    ensures { result ≡ is_any terminal.now }
{
    matches!(terminal, Terminal::Name(_) | Terminal::Word(_))
}

/// A formula and a point in brackets.
#[tactic(auto, using(crate::proofs::Options::options))]
fn pointed(alloc: Global, tokens: &[Terminal]) -> Result<(Formula, Entries, &[Terminal]), ReadError>
    ensures read { IfOk result (λ r. pointed_read tokens.now ≡ Some ((whole_formula r.0, r.1), r.2.now)) }
    ensures refused { IfErr result (λ e. Refuses e (pointed_read tokens.now ≡ None)) }
{
    let Some(start) = after(tokens, Mark::Open) else {
        return Err(ReadError::Syntax);
    };
    let (formula, comma) = formula(alloc, FORMULA, start)?;
    let Some(middle) = after(comma, Mark::Comma) else {
        return Err(ReadError::Syntax);
    };
    let (entries, end) = point(alloc, middle)?;
    let Some(rest) = after(end, Mark::Close) else {
        return Err(ReadError::Syntax);
    };
    Ok((formula, entries, rest))
}

/// A formula by itself, or a command that gives one.
#[tactic(auto, using(crate::proofs::Options::options))]
fn result_of(alloc: Global, tokens: &[Terminal]) -> Result<(Command, &[Terminal]), ReadError>
    ensures read { IfOk result (λ r. result_read tokens.now ≡ Some (whole_command r.0, r.1.now)) }
    ensures refused { IfErr result (λ e. Refuses e (result_read tokens.now ≡ None)) }
{
    let (formula, rest) = formula(alloc, FORMULA, tokens)?;
    Ok((command_of(formula), rest))
}

/// The command that a formula is where it is one alone, else the formula by itself.
#[tactic(auto, using(written_syntax::proofs::TreeEquations::wholes))]
fn command_of(formula: Formula) -> Command
    ensures { whole_command result ≡ result_of (whole_formula formula) }
{
    match formula.into_command() {
        Ok(command) => Command::of_inner(command),
        Err(formula) => Command::Echo(formula),
    }
}
