ghost use Rattle.std.specs.Prelude.{◌≡◌, Bool, List, [], ◌∷◌, ◌++◌, map, IfOk, IfErr, OnOk};
ghost use Rattle.logic_meaning.specs.Shape.{quantified};
ghost use Rattle.written_syntax.specs.CodeTrees.{term_tree, whole_formula};
ghost use Rattle.language_meaning.specs.Holes.{over};
ghost use Rattle.language_meaning.specs.declared.terminal.Terminal.{Terminal};
ghost use Rattle.redlog_reader.specs.Machine.{Frame, Quantified, Congruence, Wants, Fresh, Moves, Fails, raised_to, binds, first_bound, next_bound, after_bound, scoped, opens, strength, Added, takes, folded, factors, members, listed, grouped, pushed, multiplies, adds, compares, joins, implies, congruence_of, congruence_read, closed, separated, operated, joined, held, fresh, wanted, step, run};
ghost use Rattle.language_meaning.specs.Grammar.{quantified_names};
ghost use Rattle.redlog_reader.specs.Machine as reading;
ghost use Rattle.redlog_reader.specs.Reading.{Refuses};
ghost use Rattle.redlog_reader.specs.View.{reading_of, arguments_of, frame_of, frames, mode_of, outcome_of};

use crate::call::{
    atom, atom_end, begin_command, brace, enclose, end_comparison, end_congruence, end_formula,
    given_end,
};
use crate::ending::{added, ended, multiplied, put};
use crate::operand::{Operand, formula_of, formula_operand, name_operand, term_of, term_operand};
use crate::pending::{Arguments, Arrow, Expects, Pending, Step, level, takes_last};
use language_meaning::{Mark, ReadError, Relation, Terminal, Word};
use logic_meaning::{Junction, Name, Quantifier};
use std::alloc::{AllocError, Global};
use written_syntax::{Formula, Term, equivalence, existential, replication, universal};

/// What is read at the front of the tokens, and the tokens after it: as much as binds at most as loosely as the goal,
/// where 0 is a prime formula, 2 a sum and 8 a formula.
pub fn read(
    alloc: Global,
    goal: usize,
    tokens: &[Terminal],
) -> Result<(Operand, &[Terminal]), ReadError>
    ensures read { IfOk result (λ r. run goal tokens.now [] Wants ≡ Some (reading_of r.0, r.1.now)) }
    ensures refused { IfErr result (λ e. Refuses e (run goal tokens.now [] Wants ≡ None)) }
{
    let mut pending = Vec::new(alloc);
    let mut expects = Expects::Operand;
    let mut left = tokens;
    'terminals: while let Some((terminal, rest)) = left.split_first() {
        match step(alloc, goal, &mut pending, expects, terminal)? {
            Step::Stops(operand) => return Ok((operand, left)),
            Step::Moves(then) => expects = then,
        }
        left = rest;
    }
    Err(ReadError::Syntax)
}

/// One more terminal.
fn step(
    alloc: Global,
    goal: usize,
    pending: &mut Vec<Pending>,
    expects: Expects,
    terminal: &Terminal,
) -> Result<Step, ReadError>
    ensures taken { IfOk result (λ s. step goal (frames pending.old.items) (mode_of expects) terminal.now ≡ outcome_of s (frames pending.new.items)) }
    ensures refused { IfErr result (λ e. Refuses e (step goal (frames pending.old.items) (mode_of expects) terminal.now ≡ Fails)) }
{
    match expects {
        Expects::Operand => begin(alloc, goal, pending, terminal),
        Expects::Power(operand) => raise(alloc, goal, pending, terminal, operand),
        Expects::Operator(operand) => go_on(alloc, goal, pending, terminal, operand),
        Expects::Exponent(base) => exponent(alloc, pending, terminal, base),
        Expects::Binder(quantifier) => binder(pending, terminal, quantifier),
        Expects::Binding(quantifier) => binding(alloc, pending, terminal, quantifier),
        Expects::Name(quantifier, names) => name(pending, terminal, quantifier, names),
        Expects::NameEnd(quantifier, names) => name_end(pending, terminal, quantifier, names),
        Expects::Scope(quantifier, names) => scope(pending, terminal, quantifier, names),
        Expects::Terms(positive) => terms(pending, terminal, positive),
        Expects::Brace(call) => brace(pending, terminal, call),
        Expects::Atom(call) => atom(alloc, goal, pending, terminal, call),
        Expects::AtomEnd(call) => atom_end(pending, terminal, call),
        Expects::GivenEnd(call) => given_end(alloc, pending, terminal, call),
    }
}

/// The first terminal of an operand.
#[tactic(auto, using(crate::proofs::Frames::steps, written_syntax::proofs::TreeEquations::trees, written_syntax::proofs::TreeEquations::wholes))]
pub fn begin(
    alloc: Global,
    goal: usize,
    pending: &mut Vec<Pending>,
    terminal: &Terminal,
) -> Result<Step, ReadError>
    ensures taken { IfOk result (λ s. wanted goal terminal.now (frames pending.old.items) ≡ outcome_of s (frames pending.new.items)) }
    ensures refused { IfErr result (λ e. Refuses e (wanted goal terminal.now (frames pending.old.items) ≡ Fails)) }
{
    match terminal {
        Terminal::Number(number) => {
            let number = term_operand(alloc, Term::Number(*number))?;
            Ok(Step::Moves(Expects::Power(number)))
        }
        Terminal::Name(name) => {
            let name = name_operand(alloc, *name)?;
            Ok(Step::Moves(Expects::Power(name)))
        }
        Terminal::Mark(Mark::Open) => {
            put_pending(pending, Pending::Group)?;
            Ok(Step::Moves(Expects::Operand))
        }
        Terminal::Mark(Mark::Plus) => sign(alloc, goal, pending, false),
        Terminal::Mark(Mark::Minus) => sign(alloc, goal, pending, true),
        Terminal::Word(word) => begin_with(alloc, goal, pending, *word),
        _ => Err(ReadError::Syntax),
    }
}

/// The sign before the first member of a sum.
#[tactic(auto, using(crate::proofs::Frames::steps))]
fn sign(
    alloc: Global,
    goal: usize,
    pending: &mut Vec<Pending>,
    minus: bool,
) -> Result<Step, ReadError>
    ensures taken { IfOk result (λ s. pushed goal (Added minus []) (frames pending.old.items) ≡ outcome_of s (frames pending.new.items)) }
    ensures refused { IfErr result (λ e. Refuses e (pushed goal (Added minus []) (frames pending.old.items) ≡ Fails)) }
{
    push(goal, pending, Pending::Added(minus, Vec::new(alloc)))
}

/// The first word of an operand.
#[tactic(auto, using(crate::proofs::Frames::steps, written_syntax::proofs::TreeEquations::trees, written_syntax::proofs::TreeEquations::wholes))]
fn begin_with(
    alloc: Global,
    goal: usize,
    pending: &mut Vec<Pending>,
    word: Word,
) -> Result<Step, ReadError>
    ensures taken { IfOk result (λ s. wanted goal (Terminal.Word word) (frames pending.old.items) ≡ outcome_of s (frames pending.new.items)) }
    ensures refused { IfErr result (λ e. Refuses e (wanted goal (Terminal.Word word) (frames pending.old.items) ≡ Fails)) }
{
    match word {
        Word::True => truth(alloc, Formula::True),
        Word::False => truth(alloc, Formula::False),
        Word::Not => push(goal, pending, Pending::Negation),
        Word::Ex => Ok(Step::Moves(Expects::Binder(Quantifier::Exists))),
        Word::All => Ok(Step::Moves(Expects::Binder(Quantifier::ForAll))),
        Word::Cong => Ok(Step::Moves(Expects::Terms(true))),
        Word::Ncong => Ok(Step::Moves(Expects::Terms(false))),
        _ => begin_command(pending, word),
    }
}

/// A truth that was read.
fn truth(alloc: Global, formula: Formula) -> Result<Step, ReadError>
    ensures moves { IfOk result (λ s. (fs : List Frame) → outcome_of s fs ≡ Moves fs (Fresh (reading.Formula (whole_formula formula)))) }
    ensures memory { IfErr result (λ e. e ≡ ReadError.Memory) }
{
    let truth = formula_operand(alloc, formula)?;
    Ok(Step::Moves(Expects::Power(truth)))
}

/// A terminal after an operand to which a power may be put.
#[tactic(auto, using(crate::proofs::Frames::steps))]
fn raise(
    alloc: Global,
    goal: usize,
    pending: &mut Vec<Pending>,
    terminal: &Terminal,
    operand: Operand,
) -> Result<Step, ReadError>
    ensures taken { IfOk result (λ s. fresh goal terminal.now (frames pending.old.items) (reading_of operand) ≡ outcome_of s (frames pending.new.items)) }
    ensures refused { IfErr result (λ e. Refuses e (fresh goal terminal.now (frames pending.old.items) (reading_of operand) ≡ Fails)) }
{
    match terminal {
        Terminal::Mark(Mark::Power) => {
            let Some(base) = term_of(operand) else {
                return Err(ReadError::Syntax);
            };
            Ok(Step::Moves(Expects::Exponent(base)))
        }
        _ => go_on(alloc, goal, pending, terminal, operand),
    }
}

/// The exponent of a power.
#[tactic(auto, using(crate::proofs::Frames::steps, written_syntax::proofs::TreeEquations::trees, written_syntax::proofs::TreeEquations::wholes))]
fn exponent(
    alloc: Global,
    pending: &mut Vec<Pending>,
    terminal: &Terminal,
    base: Box<Term>,
) -> Result<Step, ReadError>
    ensures taken { IfOk result (λ s. raised_to (term_tree base.value) terminal.now (frames pending.old.items) ≡ outcome_of s (frames pending.new.items)) }
    ensures refused { IfErr result (λ e. Refuses e (raised_to (term_tree base.value) terminal.now (frames pending.old.items) ≡ Fails)) }
{
    match terminal {
        Terminal::Number(number) => {
            let power = term_operand(alloc, Term::Power(base, *number))?;
            Ok(Step::Moves(Expects::Operator(power)))
        }
        _ => Err(ReadError::Syntax),
    }
}

/// The bracket of a quantifier.
#[tactic(auto, using(crate::proofs::Frames::steps))]
fn binder(
    pending: &mut Vec<Pending>,
    terminal: &Terminal,
    quantifier: Quantifier,
) -> Result<Step, ReadError>
    ensures taken { IfOk result (λ s. binds quantifier terminal.now (frames pending.old.items) ≡ outcome_of s (frames pending.new.items)) }
    ensures refused { IfErr result (λ e. Refuses e (binds quantifier terminal.now (frames pending.old.items) ≡ Fails)) }
{
    match terminal {
        Terminal::Mark(Mark::Open) => Ok(Step::Moves(Expects::Binding(quantifier))),
        _ => Err(ReadError::Syntax),
    }
}

/// The first terminal of the names of a quantifier.
#[tactic(auto, using(crate::proofs::Frames::steps))]
fn binding(
    alloc: Global,
    pending: &mut Vec<Pending>,
    terminal: &Terminal,
    quantifier: Quantifier,
) -> Result<Step, ReadError>
    ensures taken { IfOk result (λ s. first_bound quantifier terminal.now (frames pending.old.items) ≡ outcome_of s (frames pending.new.items)) }
    ensures refused { IfErr result (λ e. Refuses e (first_bound quantifier terminal.now (frames pending.old.items) ≡ Fails)) }
{
    match terminal {
        Terminal::Name(name) => {
            let mut names = Vec::new(alloc);
            names.push(*name)?;
            Ok(Step::Moves(Expects::Scope(quantifier, names)))
        }
        Terminal::Mark(Mark::OpenBrace) => {
            Ok(Step::Moves(Expects::Name(quantifier, Vec::new(alloc))))
        }
        _ => Err(ReadError::Syntax),
    }
}

/// One more name of a quantifier.
#[tactic(auto, using(crate::proofs::Frames::steps))]
fn name(
    pending: &mut Vec<Pending>,
    terminal: &Terminal,
    quantifier: Quantifier,
    mut names: Vec<Name>,
) -> Result<Step, ReadError>
    ensures taken { IfOk result (λ s. next_bound quantifier names.items terminal.now (frames pending.old.items) ≡ outcome_of s (frames pending.new.items)) }
    ensures refused { IfErr result (λ e. Refuses e (next_bound quantifier names.items terminal.now (frames pending.old.items) ≡ Fails)) }
{
    match terminal {
        Terminal::Name(name) => {
            names.push(*name)?;
            Ok(Step::Moves(Expects::NameEnd(quantifier, names)))
        }
        _ => Err(ReadError::Syntax),
    }
}

/// What stands after a name of a quantifier.
#[tactic(auto, using(crate::proofs::Frames::steps))]
fn name_end(
    pending: &mut Vec<Pending>,
    terminal: &Terminal,
    quantifier: Quantifier,
    names: Vec<Name>,
) -> Result<Step, ReadError>
    ensures taken { IfOk result (λ s. after_bound quantifier names.items terminal.now (frames pending.old.items) ≡ outcome_of s (frames pending.new.items)) }
    ensures refused { IfErr result (λ e. Refuses e (after_bound quantifier names.items terminal.now (frames pending.old.items) ≡ Fails)) }
{
    match terminal {
        Terminal::Mark(Mark::Comma) => Ok(Step::Moves(Expects::Name(quantifier, names))),
        Terminal::Mark(Mark::CloseBrace) => Ok(Step::Moves(Expects::Scope(quantifier, names))),
        _ => Err(ReadError::Syntax),
    }
}

/// The comma before the formula of a quantifier.
#[tactic(auto, using(crate::proofs::Frames::steps))]
fn scope(
    pending: &mut Vec<Pending>,
    terminal: &Terminal,
    quantifier: Quantifier,
    names: Vec<Name>,
) -> Result<Step, ReadError>
    ensures taken { IfOk result (λ s. scoped quantifier names.items terminal.now (frames pending.old.items) ≡ outcome_of s (frames pending.new.items)) }
    ensures refused { IfErr result (λ e. Refuses e (scoped quantifier names.items terminal.now (frames pending.old.items) ≡ Fails)) }
{
    match terminal {
        Terminal::Mark(Mark::Comma) => {
            put_pending(pending, Pending::Quantified(quantifier, names))?;
            Ok(Step::Moves(Expects::Operand))
        }
        _ => Err(ReadError::Syntax),
    }
}

/// The bracket of a congruence.
#[tactic(auto, using(crate::proofs::Frames::steps))]
fn terms(pending: &mut Vec<Pending>, terminal: &Terminal, positive: bool) -> Result<Step, ReadError>
    ensures taken { IfOk result (λ s. opens positive terminal.now (frames pending.old.items) ≡ outcome_of s (frames pending.new.items)) }
    ensures refused { IfErr result (λ e. Refuses e (opens positive terminal.now (frames pending.old.items) ≡ Fails)) }
{
    match terminal {
        Terminal::Mark(Mark::Open) => {
            put_pending(pending, Pending::Congruence(positive, Arguments::First))?;
            Ok(Step::Moves(Expects::Operand))
        }
        _ => Err(ReadError::Syntax),
    }
}

/// A terminal after an operand.
#[tactic(auto, using(crate::proofs::Frames::steps))]
fn go_on(
    alloc: Global,
    goal: usize,
    pending: &mut Vec<Pending>,
    terminal: &Terminal,
    operand: Operand,
) -> Result<Step, ReadError>
    ensures taken { IfOk result (λ s. held goal terminal.now (frames pending.old.items) (reading_of operand) ≡ outcome_of s (frames pending.new.items)) }
    ensures refused { IfErr result (λ e. Refuses e (held goal terminal.now (frames pending.old.items) (reading_of operand) ≡ Fails)) }
{
    let operand = fold(alloc, pending, strength(terminal), operand)?;
    join(alloc, goal, pending, terminal, operand)
}

/// How loosely an operator binds. A power binds before all of them, and what is no operator after them.
fn strength(terminal: &Terminal) -> usize
    ensures { result ≡ strength terminal.now }
{
    match terminal {
        Terminal::Mark(Mark::Power) => 0,
        Terminal::Mark(Mark::Times | Mark::Slash) => 1,
        Terminal::Mark(Mark::Plus | Mark::Minus) => 2,
        Terminal::Relation(_) | Terminal::Word(Word::Neq) => 3,
        Terminal::Word(Word::And) => 4,
        Terminal::Word(Word::Or) => 5,
        Terminal::Word(Word::Impl) => 6,
        Terminal::Word(Word::Repl) => 7,
        Terminal::Word(Word::Equiv) => 8,
        _ => 9,
    }
}

/// Ends what binds tighter, with the operand as its last part.
#[tactic(auto, using(crate::proofs::Frames::folds))]
fn fold(
    alloc: Global,
    pending: &mut Vec<Pending>,
    strength: usize,
    operand: Operand,
) -> Result<Operand, ReadError>
    ensures folded { IfOk result (λ o. folded strength (frames pending.old.items) (reading_of operand) ≡ Some (frames pending.new.items, reading_of o)) }
    ensures refused { IfErr result (λ e. Refuses e (folded strength (frames pending.old.items) (reading_of operand) ≡ None)) }
{
    let mut operand = operand;
    'tighter: while let Some(top) = pending.pop() {
        if level(&top) >= strength {
            pending.push(top)?;
            return Ok(operand);
        }
        operand = ended(alloc, top, operand)?;
    }
    Ok(operand)
}

/// A terminal after an operand, where what binds tighter has ended. With nothing begun, what binds looser than the
/// goal ends what is read.
#[tactic(auto, using(crate::proofs::Frames::steps))]
fn join(
    alloc: Global,
    goal: usize,
    pending: &mut Vec<Pending>,
    terminal: &Terminal,
    operand: Operand,
) -> Result<Step, ReadError>
    ensures taken { IfOk result (λ s. joined goal terminal.now (frames pending.old.items) (reading_of operand) ≡ outcome_of s (frames pending.new.items)) }
    ensures refused { IfErr result (λ e. Refuses e (joined goal terminal.now (frames pending.old.items) (reading_of operand) ≡ Fails)) }
{
    if pending.is_empty() && goal < strength(terminal) {
        return Ok(Step::Stops(operand));
    }
    operate(alloc, goal, pending, terminal, operand)
}

fn operate(
    alloc: Global,
    goal: usize,
    pending: &mut Vec<Pending>,
    terminal: &Terminal,
    operand: Operand,
) -> Result<Step, ReadError>
    ensures taken { IfOk result (λ s. operated goal terminal.now (frames pending.old.items) (reading_of operand) ≡ outcome_of s (frames pending.new.items)) }
    ensures refused { IfErr result (λ e. Refuses e (operated goal terminal.now (frames pending.old.items) (reading_of operand) ≡ Fails)) }
{
    match terminal {
        Terminal::Mark(Mark::Times) => multiply(alloc, goal, pending, false, operand),
        Terminal::Mark(Mark::Slash) => multiply(alloc, goal, pending, true, operand),
        Terminal::Mark(Mark::Plus) => add(alloc, goal, pending, false, operand),
        Terminal::Mark(Mark::Minus) => add(alloc, goal, pending, true, operand),
        Terminal::Mark(Mark::Close) => close(alloc, pending, operand),
        Terminal::Mark(Mark::Comma) => separate(alloc, pending, operand),
        Terminal::Mark(Mark::CloseBrace) => enclose(pending, operand),
        Terminal::Relation(relation) => compare(goal, pending, *relation, operand),
        Terminal::Word(word) => operate_word(alloc, goal, pending, *word, operand),
        _ => Err(ReadError::Syntax),
    }
}

fn operate_word(
    alloc: Global,
    goal: usize,
    pending: &mut Vec<Pending>,
    word: Word,
    operand: Operand,
) -> Result<Step, ReadError>
    ensures taken { IfOk result (λ s. operated goal (Terminal.Word word) (frames pending.old.items) (reading_of operand) ≡ outcome_of s (frames pending.new.items)) }
    ensures refused { IfErr result (λ e. Refuses e (operated goal (Terminal.Word word) (frames pending.old.items) (reading_of operand) ≡ Fails)) }
{
    match word {
        Word::Neq => compare(goal, pending, Relation::Differs, operand),
        Word::And => list(alloc, goal, pending, Junction::Conjunction, operand),
        Word::Or => list(alloc, goal, pending, Junction::Disjunction, operand),
        Word::Impl => imply(alloc, goal, pending, Arrow::Impl, operand),
        Word::Repl => imply(alloc, goal, pending, Arrow::Repl, operand),
        Word::Equiv => imply(alloc, goal, pending, Arrow::Equiv, operand),
        _ => Err(ReadError::Syntax),
    }
}

/// Begins what takes one more part, where what it makes may stand there.
#[tactic(auto, using(crate::proofs::Frames::steps))]
fn push(goal: usize, pending: &mut Vec<Pending>, next: Pending) -> Result<Step, ReadError>
    ensures taken { IfOk result (λ s. pushed goal (frame_of next) (frames pending.old.items) ≡ outcome_of s (frames pending.new.items)) }
    ensures refused { IfErr result (λ e. Refuses e (pushed goal (frame_of next) (frames pending.old.items) ≡ Fails)) }
{
    if level(&next) > takes(goal, pending) {
        return Err(ReadError::Syntax);
    }
    put_pending(pending, next)?;
    Ok(Step::Moves(Expects::Operand))
}

/// How loosely what is read next may bind.
#[tactic(auto, using(crate::proofs::Frames::tops))]
fn takes(goal: usize, pending: &[Pending]) -> usize
    ensures { result ≡ takes goal (frames pending.now) }
{
    match pending.last() {
        Some(top) => takes_last(top),
        None => goal,
    }
}

/// Puts what has begun on the others.
#[tactic(auto, using(crate::proofs::Frames::steps))]
pub fn put_pending(pending: &mut Vec<Pending>, next: Pending) -> Result<(), AllocError>
    ensures { OnOk result (frames pending.new.items ≡ frame_of next ∷ frames pending.old.items) }
{
    pending.push(next)?;
    Ok(())
}

#[tactic(auto, using(crate::proofs::Frames::steps))]
fn multiply(
    alloc: Global,
    goal: usize,
    pending: &mut Vec<Pending>,
    over: bool,
    operand: Operand,
) -> Result<Step, ReadError>
    ensures taken { IfOk result (λ s. multiplies goal over (frames pending.old.items) (reading_of operand) ≡ outcome_of s (frames pending.new.items)) }
    ensures refused { IfErr result (λ e. Refuses e (multiplies goal over (frames pending.old.items) (reading_of operand) ≡ Fails)) }
{
    let Some(term) = term_of(operand) else {
        return Err(ReadError::Syntax);
    };
    let factors = factors(alloc, pending, term)?;
    push(goal, pending, Pending::Multiplied(over, factors))
}

/// The factors so far, with the term as the last one. A product that they stand in is taken away.
#[tactic(auto, using(crate::proofs::Frames::steps))]
fn factors(
    alloc: Global,
    pending: &mut Vec<Pending>,
    term: Box<Term>,
) -> Result<Vec<Term>, AllocError>
    ensures { IfOk result (λ ts. factors (frames pending.old.items) (term_tree term.value) ≡ (map term_tree ts.items, frames pending.new.items)) }
{
    match pending.pop() {
        Some(Pending::Multiplied(over, factors)) => multiplied(alloc, over, factors, term),
        Some(other) => {
            put_pending(pending, other)?;
            multiplied(alloc, false, Vec::new(alloc), term)
        }
        None => multiplied(alloc, false, Vec::new(alloc), term),
    }
}

#[tactic(auto, using(crate::proofs::Frames::steps))]
fn add(
    alloc: Global,
    goal: usize,
    pending: &mut Vec<Pending>,
    minus: bool,
    operand: Operand,
) -> Result<Step, ReadError>
    ensures taken { IfOk result (λ s. adds goal minus (frames pending.old.items) (reading_of operand) ≡ outcome_of s (frames pending.new.items)) }
    ensures refused { IfErr result (λ e. Refuses e (adds goal minus (frames pending.old.items) (reading_of operand) ≡ Fails)) }
{
    let Some(term) = term_of(operand) else {
        return Err(ReadError::Syntax);
    };
    let members = members(alloc, pending, term)?;
    push(goal, pending, Pending::Added(minus, members))
}

/// The members so far, with the term as the last one. A sum that they stand in is taken away.
#[tactic(auto, using(crate::proofs::Frames::steps))]
fn members(
    alloc: Global,
    pending: &mut Vec<Pending>,
    term: Box<Term>,
) -> Result<Vec<Term>, AllocError>
    ensures { IfOk result (λ ts. members (frames pending.old.items) (term_tree term.value) ≡ (map term_tree ts.items, frames pending.new.items)) }
{
    match pending.pop() {
        Some(Pending::Added(minus, members)) => added(minus, members, term),
        Some(other) => {
            put_pending(pending, other)?;
            added(false, Vec::new(alloc), term)
        }
        None => added(false, Vec::new(alloc), term),
    }
}

#[tactic(auto, using(crate::proofs::Frames::steps))]
fn compare(
    goal: usize,
    pending: &mut Vec<Pending>,
    relation: Relation,
    operand: Operand,
) -> Result<Step, ReadError>
    ensures taken { IfOk result (λ s. compares goal relation (frames pending.old.items) (reading_of operand) ≡ outcome_of s (frames pending.new.items)) }
    ensures refused { IfErr result (λ e. Refuses e (compares goal relation (frames pending.old.items) (reading_of operand) ≡ Fails)) }
{
    let Some(term) = term_of(operand) else {
        return Err(ReadError::Syntax);
    };
    match pending.pop() {
        Some(Pending::Assumes(call)) => {
            put_pending(pending, Pending::Relates(call, relation, term))?;
            Ok(Step::Moves(Expects::Operand))
        }
        Some(other) => {
            put_pending(pending, other)?;
            push(goal, pending, Pending::Compares(relation, term))
        }
        None => push(goal, pending, Pending::Compares(relation, term)),
    }
}

#[tactic(auto, using(crate::proofs::Frames::steps))]
fn list(
    alloc: Global,
    goal: usize,
    pending: &mut Vec<Pending>,
    junction: Junction,
    operand: Operand,
) -> Result<Step, ReadError>
    ensures taken { IfOk result (λ s. joins goal junction (frames pending.old.items) (reading_of operand) ≡ outcome_of s (frames pending.new.items)) }
    ensures refused { IfErr result (λ e. Refuses e (joins goal junction (frames pending.old.items) (reading_of operand) ≡ Fails)) }
{
    let Some(formula) = formula_of(operand) else {
        return Err(ReadError::Syntax);
    };
    let members = listed(alloc, pending, junction, formula)?;
    push(goal, pending, Pending::Listed(junction, members))
}

/// The members so far, with the formula as the last one. A list of this kind that they stand in is taken away.
#[tactic(auto, using(crate::proofs::Frames::steps))]
fn listed(
    alloc: Global,
    pending: &mut Vec<Pending>,
    junction: Junction,
    formula: Formula,
) -> Result<Vec<Formula>, AllocError>
    ensures { IfOk result (λ fs. listed junction (frames pending.old.items) (whole_formula formula) ≡ (map whole_formula fs.items, frames pending.new.items)) }
{
    match (junction, pending.pop()) {
        (Junction::Conjunction, Some(Pending::Listed(Junction::Conjunction, members))) => {
            with(members, formula)
        }
        (Junction::Disjunction, Some(Pending::Listed(Junction::Disjunction, members))) => with(
            members, formula,
        ),
        (_, Some(other)) => {
            put_pending(pending, other)?;
            with(Vec::new(alloc), formula)
        }
        (_, None) => with(Vec::new(alloc), formula),
    }
}

/// The members with one more.
fn with(mut members: Vec<Formula>, formula: Formula) -> Result<Vec<Formula>, AllocError>
    ensures { IfOk result (λ fs. map whole_formula fs.items ≡ map whole_formula members.items ++ whole_formula formula ∷ []) }
{
    put(&mut members, formula)?;
    Ok(members)
}

#[tactic(auto, using(crate::proofs::Frames::steps))]
fn imply(
    alloc: Global,
    goal: usize,
    pending: &mut Vec<Pending>,
    arrow: Arrow,
    operand: Operand,
) -> Result<Step, ReadError>
    ensures taken { IfOk result (λ s. implies goal arrow (frames pending.old.items) (reading_of operand) ≡ outcome_of s (frames pending.new.items)) }
    ensures refused { IfErr result (λ e. Refuses e (implies goal arrow (frames pending.old.items) (reading_of operand) ≡ Fails)) }
{
    let Some(formula) = formula_of(operand) else {
        return Err(ReadError::Syntax);
    };
    let left = grouped(alloc, pending, arrow, formula)?;
    let left = Box::new(alloc, left)?;
    push(goal, pending, Pending::Arrows(arrow, left))
}

/// What stands to the left of the word: `repl` and `equiv` group to the left.
#[tactic(auto, using(crate::proofs::Frames::steps))]
fn grouped(
    alloc: Global,
    pending: &mut Vec<Pending>,
    arrow: Arrow,
    formula: Formula,
) -> Result<Formula, AllocError>
    ensures { IfOk result (λ f. grouped arrow (frames pending.old.items) (whole_formula formula) ≡ (whole_formula f, frames pending.new.items)) }
{
    match (arrow, pending.pop()) {
        (Arrow::Repl, Some(Pending::Arrows(Arrow::Repl, left))) => {
            replication(alloc, Box::into_inner(left), formula)
        }
        (Arrow::Equiv, Some(Pending::Arrows(Arrow::Equiv, left))) => {
            equivalence(alloc, Box::into_inner(left), formula)
        }
        (_, Some(other)) => {
            put_pending(pending, other)?;
            Ok(formula)
        }
        (_, None) => Ok(formula),
    }
}

/// A closing bracket.
#[tactic(auto, using(crate::proofs::Frames::steps))]
fn close(alloc: Global, pending: &mut Vec<Pending>, operand: Operand) -> Result<Step, ReadError>
    ensures taken { IfOk result (λ s. closed (frames pending.old.items) (reading_of operand) ≡ outcome_of s (frames pending.new.items)) }
    ensures refused { IfErr result (λ e. Refuses e (closed (frames pending.old.items) (reading_of operand) ≡ Fails)) }
{
    match pending.pop() {
        Some(Pending::Group) => Ok(Step::Moves(Expects::Power(operand))),
        Some(Pending::Quantified(quantifier, names)) => {
            let formula = close_quantifier(alloc, quantifier, names, operand)?;
            let formula = formula_operand(alloc, formula)?;
            Ok(Step::Moves(Expects::Power(formula)))
        }
        Some(Pending::Congruence(positive, terms)) => {
            let formula = close_congruence(positive, terms, operand)?;
            end_congruence(alloc, pending, formula)
        }
        _ => Err(ReadError::Syntax),
    }
}

/// What a quantifier makes with its formula.
#[tactic(auto, using(crate::proofs::Frames::steps))]
fn close_quantifier(
    alloc: Global,
    quantifier: Quantifier,
    names: Vec<Name>,
    operand: Operand,
) -> Result<Formula, ReadError>
    ensures made { IfOk result (λ f. (fs : List Frame) → closed (Quantified quantifier names.items ∷ fs) (reading_of operand) ≡ Moves fs (Fresh (reading.Formula (whole_formula f)))) }
    ensures refused { IfErr result (λ e. (fs : List Frame) → Refuses e (closed (Quantified quantifier names.items ∷ fs) (reading_of operand) ≡ Fails)) }
{
    let Some(formula) = formula_of(operand) else {
        return Err(ReadError::Syntax);
    };
    let quantified = quantified(alloc, quantifier, names, formula)?;
    Ok(quantified)
}

/// What a congruence makes with its third term.
#[tactic(auto, using(crate::proofs::Frames::steps))]
fn close_congruence(
    positive: bool,
    terms: Arguments,
    operand: Operand,
) -> Result<Formula, ReadError>
    ensures made { IfOk result (λ f. (fs : List Frame) → closed (Congruence positive (arguments_of terms) ∷ fs) (reading_of operand) ≡ congruence_read fs (whole_formula f)) }
    ensures refused { IfErr result (λ e. (fs : List Frame) → Refuses e (closed (Congruence positive (arguments_of terms) ∷ fs) (reading_of operand) ≡ Fails)) }
{
    let Arguments::Third(left, right) = terms else {
        return Err(ReadError::Syntax);
    };
    let Some(modulus) = term_of(operand) else {
        return Err(ReadError::Syntax);
    };
    Ok(congruence_of(positive, left, right, modulus))
}

/// A quantifier for each name, the first one outermost.
#[tactic(auto, using(crate::proofs::Frames::quantified_more))]
fn quantified(
    alloc: Global,
    quantifier: Quantifier,
    mut names: Vec<Name>,
    formula: Formula,
) -> Result<Formula, AllocError>
    ensures { IfOk result (λ f. whole_formula f ≡ quantified_names quantifier names.items (whole_formula formula)) }
{
    let mut whole = formula;
    'names: while let Some(name) = names.pop() {
        whole = bound(alloc, quantifier, name, whole)?;
    }
    Ok(whole)
}

fn bound(
    alloc: Global,
    quantifier: Quantifier,
    name: Name,
    formula: Formula,
) -> Result<Formula, AllocError>
    ensures { IfOk result (λ f. whole_formula f ≡ over (quantified quantifier name) (whole_formula formula)) }
{
    match quantifier {
        Quantifier::Exists => existential(alloc, name, formula),
        Quantifier::ForAll => universal(alloc, name, formula),
    }
}

/// The congruence of two terms modulo a third, or its negation.
#[tactic(auto, using(written_syntax::proofs::TreeEquations::trees, written_syntax::proofs::TreeEquations::wholes))]
fn congruence_of(positive: bool, left: Box<Term>, right: Box<Term>, modulus: Box<Term>) -> Formula
    ensures { whole_formula result ≡ congruence_of positive (term_tree left.value) (term_tree right.value) (term_tree modulus.value) }
{
    if positive {
        Formula::Cong(left, right, modulus)
    } else {
        Formula::Ncong(left, right, modulus)
    }
}

/// A comma: it ends one of the first two terms of a congruence, the formula of a command, or an atom that one may assume.
#[tactic(auto, using(crate::proofs::Frames::steps))]
fn separate(alloc: Global, pending: &mut Vec<Pending>, operand: Operand) -> Result<Step, ReadError>
    ensures taken { IfOk result (λ s. separated (frames pending.old.items) (reading_of operand) ≡ outcome_of s (frames pending.new.items)) }
    ensures refused { IfErr result (λ e. Refuses e (separated (frames pending.old.items) (reading_of operand) ≡ Fails)) }
{
    match pending.pop() {
        Some(Pending::Congruence(positive, terms)) => {
            let terms = one_more(terms, operand)?;
            put_pending(pending, Pending::Congruence(positive, terms))?;
            Ok(Step::Moves(Expects::Operand))
        }
        Some(Pending::Group) => end_formula(alloc, pending, operand),
        Some(Pending::Relates(call, relation, left)) => {
            let call = end_comparison(call, relation, left, operand)?;
            Ok(Step::Moves(Expects::Atom(call)))
        }
        _ => Err(ReadError::Syntax),
    }
}

/// The terms of a congruence with one more, which stands before a comma.
#[tactic(auto, using(crate::proofs::Frames::steps))]
fn one_more(terms: Arguments, operand: Operand) -> Result<Arguments, ReadError>
    ensures made { IfOk result (λ more. (positive : Bool) (fs : List Frame) → separated (Congruence positive (arguments_of terms) ∷ fs) (reading_of operand) ≡ Moves (Congruence positive (arguments_of more) ∷ fs) Wants) }
    ensures refused { IfErr result (λ e. (positive : Bool) (fs : List Frame) → Refuses e (separated (Congruence positive (arguments_of terms) ∷ fs) (reading_of operand) ≡ Fails)) }
{
    match terms {
        Arguments::First => {
            let Some(first) = term_of(operand) else {
                return Err(ReadError::Syntax);
            };
            Ok(Arguments::Second(first))
        }
        Arguments::Second(first) => {
            let Some(second) = term_of(operand) else {
                return Err(ReadError::Syntax);
            };
            Ok(Arguments::Third(first, second))
        }
        Arguments::Third(_first, _second) => Err(ReadError::Syntax),
    }
}
