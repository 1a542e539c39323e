//! Commands inside formulas: their words, and what they may assume.

ghost use Rattle.std.specs.Prelude.{◌≡◌, ◌∷◌, [], List, map, IfOk, IfErr};
ghost use Rattle.language_meaning.specs.Trees.{Compare};
ghost use Rattle.language_meaning.specs.Holes.{computed};
ghost use Rattle.written_syntax.specs.CodeTrees.{term_tree, whole_formula, whole_command};
ghost use Rattle.language_meaning.specs.Grammar.{inner_word, takes_given, command};
ghost use Rattle.redlog_reader.specs.Machine.{Frame, Group, Relates, AtomWanted, GivenEnd, Moves, Fails, with_atom, answered, separated, enclosed, congruence_read, commands, braced, atom_begins, atom_ends, given_ends};
ghost use Rattle.redlog_reader.specs.Reading.{Refuses};
ghost use Rattle.redlog_reader.specs.View.{reading_of, call_of, frames, outcome_of};

use crate::ending::put;
use crate::machine::{begin, put_pending};
use crate::operand::{Operand, formula_of, formula_operand, term_of};
use crate::pending::{Call, Expects, Pending, Step};
use language_meaning::{InnerWord, Mark, ReadError, Relation, Terminal, Word};
use std::alloc::{AllocError, Global};
use written_syntax::{Formula, Formulas, InnerCommand, Term, answered};

/// Which word begins a command that may stand inside a formula.
fn inner_word(word: Word) -> Option<InnerWord>
    ensures { result ≡ inner_word word }
{
    match word {
        Word::Nnf => Some(InnerWord::Nnf),
        Word::Pnf => Some(InnerWord::Pnf),
        Word::Dnf => Some(InnerWord::Dnf),
        Word::Cnf => Some(InnerWord::Cnf),
        Word::Simpl => Some(InnerWord::Simpl),
        Word::Qe => Some(InnerWord::Qe),
        _ => None,
    }
}

/// Whether such a command may assume atoms.
fn takes_given(word: InnerWord) -> bool
    ensures { result ≡ takes_given word }
{
    match word {
        InnerWord::Nnf | InnerWord::Pnf | InnerWord::Dnf | InnerWord::Cnf => false,
        InnerWord::Simpl | InnerWord::Qe => true,
    }
}

/// The word of a command at the beginning of an operand.
#[tactic(auto, using(crate::proofs::Frames::steps))]
pub fn begin_command(pending: &mut Vec<Pending>, word: Word) -> Result<Step, ReadError>
    ensures taken { IfOk result (λ s. commands (inner_word word) (frames pending.old.items) ≡ outcome_of s (frames pending.new.items)) }
    ensures refused { IfErr result (λ e. Refuses e (commands (inner_word word) (frames pending.old.items) ≡ Fails)) }
{
    let Some(word) = inner_word(word) else {
        return Err(ReadError::Syntax);
    };
    put_pending(pending, Pending::Commanded(word))?;
    Ok(Step::Moves(Expects::Operand))
}

/// The comma after the formula of a command, whose bracket has been taken away.
#[tactic(auto, using(crate::proofs::Frames::steps))]
pub fn end_formula(
    alloc: Global,
    pending: &mut Vec<Pending>,
    operand: Operand,
) -> Result<Step, ReadError>
    ensures taken { IfOk result (λ s. separated (Group ∷ frames pending.old.items) (reading_of operand) ≡ outcome_of s (frames pending.new.items)) }
    ensures refused { IfErr result (λ e. Refuses e (separated (Group ∷ frames pending.old.items) (reading_of operand) ≡ Fails)) }
{
    let Some(Pending::Commanded(word)) = pending.pop() else {
        return Err(ReadError::Syntax);
    };
    if !takes_given(word) {
        return Err(ReadError::Syntax);
    }
    let Some(formula) = formula_of(operand) else {
        return Err(ReadError::Syntax);
    };
    let atoms = Vec::new(alloc);
    let call = Call {
        word,
        formula,
        atoms,
    };
    Ok(Step::Moves(Expects::Brace(Box::new(alloc, call)?)))
}

/// The brace before what a command may assume.
#[tactic(auto, using(crate::proofs::Frames::steps))]
pub fn brace(
    pending: &mut Vec<Pending>,
    terminal: &Terminal,
    call: Box<Call>,
) -> Result<Step, ReadError>
    ensures taken { IfOk result (λ s. braced (call_of call.value) terminal.now (frames pending.old.items) ≡ outcome_of s (frames pending.new.items)) }
    ensures refused { IfErr result (λ e. Refuses e (braced (call_of call.value) terminal.now (frames pending.old.items) ≡ Fails)) }
{
    match terminal {
        Terminal::Mark(Mark::OpenBrace) => Ok(Step::Moves(Expects::Atom(call))),
        _ => Err(ReadError::Syntax),
    }
}

/// The first terminal of an atom, or the brace behind none at all.
#[tactic(auto, using(crate::proofs::Frames::steps))]
pub fn atom(
    alloc: Global,
    goal: usize,
    pending: &mut Vec<Pending>,
    terminal: &Terminal,
    call: Box<Call>,
) -> Result<Step, ReadError>
    ensures taken { IfOk result (λ s. atom_begins goal (call_of call.value) terminal.now (frames pending.old.items) ≡ outcome_of s (frames pending.new.items)) }
    ensures refused { IfErr result (λ e. Refuses e (atom_begins goal (call_of call.value) terminal.now (frames pending.old.items) ≡ Fails)) }
{
    match terminal {
        Terminal::Mark(Mark::CloseBrace) => match call.atoms.as_slice() {
            [] => Ok(Step::Moves(Expects::GivenEnd(call))),
            _ => Err(ReadError::Syntax),
        },
        _ => {
            put_pending(pending, Pending::Assumes(call))?;
            begin(alloc, goal, pending, terminal)
        }
    }
}

/// What stands after a congruence that may be assumed.
#[tactic(auto, using(crate::proofs::Frames::steps))]
pub fn atom_end(
    pending: &mut Vec<Pending>,
    terminal: &Terminal,
    call: Box<Call>,
) -> Result<Step, ReadError>
    ensures taken { IfOk result (λ s. atom_ends (call_of call.value) terminal.now (frames pending.old.items) ≡ outcome_of s (frames pending.new.items)) }
    ensures refused { IfErr result (λ e. Refuses e (atom_ends (call_of call.value) terminal.now (frames pending.old.items) ≡ Fails)) }
{
    match terminal {
        Terminal::Mark(Mark::Comma) => Ok(Step::Moves(Expects::Atom(call))),
        Terminal::Mark(Mark::CloseBrace) => Ok(Step::Moves(Expects::GivenEnd(call))),
        _ => Err(ReadError::Syntax),
    }
}

/// The bracket behind what a command may assume.
#[tactic(auto, using(crate::proofs::Frames::steps))]
pub fn given_end(
    alloc: Global,
    pending: &mut Vec<Pending>,
    terminal: &Terminal,
    call: Box<Call>,
) -> Result<Step, ReadError>
    ensures taken { IfOk result (λ s. given_ends (call_of call.value) terminal.now (frames pending.old.items) ≡ outcome_of s (frames pending.new.items)) }
    ensures refused { IfErr result (λ e. Refuses e (given_ends (call_of call.value) terminal.now (frames pending.old.items) ≡ Fails)) }
{
    match terminal {
        Terminal::Mark(Mark::Close) => {
            let Call {
                word,
                formula,
                atoms,
            } = Box::into_inner(call);
            let formula = computed_by(alloc, word, formula, atoms)?;
            let formula = formula_operand(alloc, formula)?;
            Ok(Step::Moves(Expects::Power(formula)))
        }
        _ => Err(ReadError::Syntax),
    }
}

/// The formula that a command of this word is.
#[tactic(auto, using(written_syntax::proofs::TreeEquations::wholes))]
pub fn computed_by(
    alloc: Global,
    word: InnerWord,
    formula: Formula,
    atoms: Vec<Formula>,
) -> Result<Formula, AllocError>
    ensures { IfOk result (λ f. whole_formula f ≡ computed (command word (whole_formula formula) (map whole_formula atoms.items))) }
{
    answered(alloc, command_by(word, formula, atoms))
}

/// The command of this word.
#[tactic(auto, using(written_syntax::proofs::TreeEquations::wholes))]
fn command_by(word: InnerWord, formula: Formula, atoms: Vec<Formula>) -> InnerCommand
    ensures { whole_command result ≡ command word (whole_formula formula) (map whole_formula atoms.items) }
{
    match word {
        InnerWord::Nnf => InnerCommand::Nnf(formula),
        InnerWord::Pnf => InnerCommand::Pnf(formula),
        InnerWord::Dnf => InnerCommand::Dnf(formula),
        InnerWord::Cnf => InnerCommand::Cnf(formula),
        InnerWord::Simpl => InnerCommand::Simpl(formula, Formulas::of(atoms)),
        InnerWord::Qe => InnerCommand::Qe(formula, Formulas::of(atoms)),
    }
}

/// A closing brace, which ends the last atom that a command may assume.
#[tactic(auto, using(crate::proofs::Frames::steps))]
pub fn enclose(pending: &mut Vec<Pending>, operand: Operand) -> Result<Step, ReadError>
    ensures taken { IfOk result (λ s. enclosed (frames pending.old.items) (reading_of operand) ≡ outcome_of s (frames pending.new.items)) }
    ensures refused { IfErr result (λ e. Refuses e (enclosed (frames pending.old.items) (reading_of operand) ≡ Fails)) }
{
    match pending.pop() {
        Some(Pending::Relates(call, relation, left)) => {
            let call = end_comparison(call, relation, left, operand)?;
            Ok(Step::Moves(Expects::GivenEnd(call)))
        }
        _ => Err(ReadError::Syntax),
    }
}

/// What a command may assume, with the comparison that ends here.
#[tactic(auto, using(crate::proofs::Frames::steps, written_syntax::proofs::TreeEquations::wholes))]
pub fn end_comparison(
    call: Box<Call>,
    relation: Relation,
    left: Box<Term>,
    operand: Operand,
) -> Result<Box<Call>, ReadError>
    ensures comma { IfOk result (λ c. (fs : List Frame) → separated (Relates (call_of call.value) relation (term_tree left.value) ∷ fs) (reading_of operand) ≡ Moves fs (AtomWanted (call_of c.value))) }
    ensures brace { IfOk result (λ c. (fs : List Frame) → enclosed (Relates (call_of call.value) relation (term_tree left.value) ∷ fs) (reading_of operand) ≡ Moves fs (GivenEnd (call_of c.value))) }
    ensures refused_comma { IfErr result (λ e. (fs : List Frame) → Refuses e (separated (Relates (call_of call.value) relation (term_tree left.value) ∷ fs) (reading_of operand) ≡ Fails)) }
    ensures refused_brace { IfErr result (λ e. (fs : List Frame) → Refuses e (enclosed (Relates (call_of call.value) relation (term_tree left.value) ∷ fs) (reading_of operand) ≡ Fails)) }
{
    let Some(right) = term_of(operand) else {
        return Err(ReadError::Syntax);
    };
    let call = one_atom_more(call, Formula::Compare(relation, left, right))?;
    Ok(call)
}

/// What a command may assume, with one more atom.
fn one_atom_more(mut call: Box<Call>, atom: Formula) -> Result<Box<Call>, AllocError>
    ensures { IfOk result (λ c. call_of c.value ≡ with_atom (call_of call.value) (whole_formula atom)) }
{
    put(&mut call.atoms, atom)?;
    Ok(call)
}

/// A congruence that was read: an atom that a command may assume, or an operand.
#[tactic(auto, using(crate::proofs::Frames::steps))]
pub fn end_congruence(
    alloc: Global,
    pending: &mut Vec<Pending>,
    congruence: Formula,
) -> Result<Step, ReadError>
    ensures taken { IfOk result (λ s. congruence_read (frames pending.old.items) (whole_formula congruence) ≡ outcome_of s (frames pending.new.items)) }
    ensures memory { IfErr result (λ e. e ≡ ReadError.Memory) }
{
    match pending.pop() {
        Some(Pending::Assumes(call)) => {
            let call = one_atom_more(call, congruence)?;
            Ok(Step::Moves(Expects::AtomEnd(call)))
        }
        Some(other) => {
            put_pending(pending, other)?;
            let congruence = formula_operand(alloc, congruence)?;
            Ok(Step::Moves(Expects::Power(congruence)))
        }
        None => {
            let congruence = formula_operand(alloc, congruence)?;
            Ok(Step::Moves(Expects::Power(congruence)))
        }
    }
}
