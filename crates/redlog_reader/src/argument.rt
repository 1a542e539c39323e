ghost use Rattle.std.specs.Prelude.{◌≡◌, map, IfOk, IfErr, Some, None};
ghost use Rattle.written_syntax.specs.CodeTrees.{term_tree, whole_formula};
ghost use Rattle.language_meaning.specs.Constraints.{is_constraint, is_weak_constraint};
ghost use Rattle.redlog_reader.specs.Reader.{formula_read, sum_read, comparison_read, begins_congruence, atom_read, bound_read, weak_read, kind_read, items_read, braced_read, argument_read};
ghost use Rattle.redlog_reader.specs.Reading.{Refuses};

use crate::ending::put;
use crate::machine::read;
use crate::operand::{formula_of, term_of};
use crate::peek::{after, next, relation};
use language_meaning::{Mark, ReadError, Relation, Terminal, Word};
use std::alloc::Global;
use written_syntax::{Formula, Term, comparison as comparison_of};

/// What may stand in a list of atoms.
#[derive(Clone, Copy, Debug, PartialEq, Eq)]
pub enum AtomKind {
    /// A comparison or a congruence.
    Any,
    /// A comparison, but for `<>`.
    Constraint,
    /// A comparison by `=`, `<=` or `>=`.
    Weak,
}

/// How loosely what is read may bind: a prime formula.
pub const PRIME: usize = 0;

/// A sum.
const SUM: usize = 2;

/// A formula.
pub const FORMULA: usize = 8;

/// A formula that binds at most as loosely as the goal, and the tokens after it.
#[tactic(auto, using(crate::proofs::Options::options))]
pub fn formula(
    alloc: Global,
    goal: usize,
    tokens: &[Terminal],
) -> Result<(Formula, &[Terminal]), ReadError>
    ensures read { IfOk result (λ r. formula_read goal tokens.now ≡ Some (whole_formula r.0, r.1.now)) }
    ensures refused { IfErr result (λ e. Refuses e (formula_read goal tokens.now ≡ None)) }
{
    let (operand, rest) = read(alloc, goal, tokens)?;
    let Some(formula) = formula_of(operand) else {
        return Err(ReadError::Syntax);
    };
    Ok((formula, rest))
}

/// A sum, and the tokens after it.
#[tactic(auto, using(crate::proofs::Options::options))]
pub fn sum(alloc: Global, tokens: &[Terminal]) -> Result<(Term, &[Terminal]), ReadError>
    ensures read { IfOk result (λ r. sum_read tokens.now ≡ Some (term_tree r.0, r.1.now)) }
    ensures refused { IfErr result (λ e. Refuses e (sum_read tokens.now ≡ None)) }
{
    let (operand, rest) = read(alloc, SUM, tokens)?;
    let Some(term) = term_of(operand) else {
        return Err(ReadError::Syntax);
    };
    Ok((Box::into_inner(term), rest))
}

/// A relation between two sums.
#[tactic(auto, using(crate::proofs::Options::options))]
fn comparison(alloc: Global, tokens: &[Terminal]) -> Result<(Formula, &[Terminal]), ReadError>
    ensures read { IfOk result (λ r. comparison_read tokens.now ≡ Some (whole_formula r.0, r.1.now)) }
    ensures refused { IfErr result (λ e. Refuses e (comparison_read tokens.now ≡ None)) }
{
    let (left, middle) = sum(alloc, tokens)?;
    let Some((relation, start)) = relation(middle) else {
        return Err(ReadError::Syntax);
    };
    let (right, rest) = sum(alloc, start)?;
    let comparison = comparison_of(alloc, relation, left, right)?;
    Ok((comparison, rest))
}

/// A comparison or a congruence.
#[tactic(auto, using(crate::proofs::Options::options))]
fn atom(alloc: Global, tokens: &[Terminal]) -> Result<(Formula, &[Terminal]), ReadError>
    ensures read { IfOk result (λ r. atom_read tokens.now ≡ Some (whole_formula r.0, r.1.now)) }
    ensures refused { IfErr result (λ e. Refuses e (atom_read tokens.now ≡ None)) }
{
    if begins_congruence(tokens) {
        formula(alloc, PRIME, tokens)
    } else {
        comparison(alloc, tokens)
    }
}

/// Whether the first token is `cong` or `ncong`.
fn begins_congruence(tokens: &[Terminal]) -> bool
    ensures { result ≡ begins_congruence tokens.now }
{
    matches!(
        next(tokens),
        Some((Terminal::Word(Word::Cong | Word::Ncong), _))
    )
}

/// A comparison that a constraint may be: one but for `<>`.
#[tactic(auto, using(crate::proofs::Options::options))]
fn constraint(alloc: Global, tokens: &[Terminal]) -> Result<(Formula, &[Terminal]), ReadError>
    ensures read { IfOk result (λ r. bound_read tokens.now ≡ Some (whole_formula r.0, r.1.now)) }
    ensures refused { IfErr result (λ e. Refuses e (bound_read tokens.now ≡ None)) }
{
    let (comparison, rest) = comparison(alloc, tokens)?;
    if !is_constraint(&comparison) {
        return Err(ReadError::Syntax);
    }
    Ok((comparison, rest))
}

/// Whether a formula is a comparison, but for `<>`.
#[tactic(auto, using(written_syntax::proofs::TreeEquations::trees, written_syntax::proofs::TreeEquations::wholes))]
fn is_constraint(formula: &Formula) -> bool
    ensures { result ≡ is_constraint (whole_formula formula.now).tree }
{
    match formula {
        Formula::Compare(relation, _, _) => *relation != Relation::Differs,
        _ => false,
    }
}

/// A comparison by `=`, `<=` or `>=`.
#[tactic(auto, using(crate::proofs::Options::options))]
fn weak(alloc: Global, tokens: &[Terminal]) -> Result<(Formula, &[Terminal]), ReadError>
    ensures read { IfOk result (λ r. weak_read tokens.now ≡ Some (whole_formula r.0, r.1.now)) }
    ensures refused { IfErr result (λ e. Refuses e (weak_read tokens.now ≡ None)) }
{
    let (comparison, rest) = comparison(alloc, tokens)?;
    if !is_weak(&comparison) {
        return Err(ReadError::Syntax);
    }
    Ok((comparison, rest))
}

/// Whether a formula is a comparison by `=`, `<=` or `>=`.
#[tactic(auto, using(written_syntax::proofs::TreeEquations::trees, written_syntax::proofs::TreeEquations::wholes))]
fn is_weak(formula: &Formula) -> bool
    ensures { result ≡ is_weak_constraint (whole_formula formula.now).tree }
{
    match formula {
        Formula::Compare(relation, _, _) => matches!(
            relation,
            Relation::Equal | Relation::AtMost | Relation::AtLeast
        ),
        _ => false,
    }
}

/// An atom of this kind.
fn atom_of(
    alloc: Global,
    kind: AtomKind,
    tokens: &[Terminal],
) -> Result<(Formula, &[Terminal]), ReadError>
    ensures read { IfOk result (λ r. kind_read kind tokens.now ≡ Some (whole_formula r.0, r.1.now)) }
    ensures refused { IfErr result (λ e. Refuses e (kind_read kind tokens.now ≡ None)) }
{
    match kind {
        AtomKind::Any => atom(alloc, tokens),
        AtomKind::Constraint => constraint(alloc, tokens),
        AtomKind::Weak => weak(alloc, tokens),
    }
}

/// Atoms of this kind in braces.
#[tactic(auto, using(crate::proofs::Options::options))]
pub fn atoms(
    alloc: Global,
    kind: AtomKind,
    tokens: &[Terminal],
) -> Result<(Vec<Formula>, &[Terminal]), ReadError>
    ensures read { IfOk result (λ r. braced_read (kind_read kind) tokens.now ≡ Some (map whole_formula r.0.items, r.1.now)) }
    ensures refused { IfErr result (λ e. Refuses e (braced_read (kind_read kind) tokens.now ≡ None)) }
{
    let Some(start) = after(tokens, Mark::OpenBrace) else {
        return Err(ReadError::Syntax);
    };
    if let Some(rest) = after(start, Mark::CloseBrace) {
        return Ok((Vec::new(alloc), rest));
    }
    let (atoms, end) = listed(alloc, kind, start)?;
    let Some(rest) = after(end, Mark::CloseBrace) else {
        return Err(ReadError::Syntax);
    };
    Ok((atoms, rest))
}

/// One atom of this kind or more, with commas between them.
#[tactic(auto, using(crate::proofs::Items::atoms))]
fn listed(
    alloc: Global,
    kind: AtomKind,
    tokens: &[Terminal],
) -> Result<(Vec<Formula>, &[Terminal]), ReadError>
    ensures read { IfOk result (λ r. items_read (kind_read kind) tokens.now ≡ Some (map whole_formula r.0.items, r.1.now)) }
    ensures refused { IfErr result (λ e. Refuses e (items_read (kind_read kind) tokens.now ≡ None)) }
{
    let mut atoms = Vec::new(alloc);
    let mut start = tokens;
    'atoms: loop {
        let (atom, rest) = atom_of(alloc, kind, start)?;
        put(&mut atoms, atom)?;
        let Some(more) = after(rest, Mark::Comma) else {
            return Ok((atoms, rest));
        };
        start = more;
    }
}

/// A prime formula, or a formula and assumptions in brackets.
#[tactic(auto, using(crate::proofs::Options::options))]
pub fn argument(
    alloc: Global,
    tokens: &[Terminal],
) -> Result<(Formula, Vec<Formula>, &[Terminal]), ReadError>
    ensures read { IfOk result (λ r. argument_read tokens.now ≡ Some ((whole_formula r.0, map whole_formula r.1.items), r.2.now)) }
    ensures refused { IfErr result (λ e. Refuses e (argument_read tokens.now ≡ None)) }
{
    let Some(start) = after(tokens, Mark::Open) else {
        let (prime, rest) = formula(alloc, PRIME, tokens)?;
        return Ok((prime, Vec::new(alloc), rest));
    };
    let (formula, middle) = formula(alloc, FORMULA, start)?;
    if let Some(rest) = after(middle, Mark::Close) {
        return Ok((formula, Vec::new(alloc), rest));
    }
    let Some(given) = after(middle, Mark::Comma) else {
        return Err(ReadError::Syntax);
    };
    let (atoms, end) = atoms(alloc, AtomKind::Any, given)?;
    let Some(rest) = after(end, Mark::Close) else {
        return Err(ReadError::Syntax);
    };
    Ok((formula, atoms, rest))
}
