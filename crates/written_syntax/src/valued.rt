ghost use Rattle.std.specs.Prelude.{◌≡◌, ◌↔◌, ◌≤◌, ℕ, List, map, IsTrue, IfOk, OnOk};
ghost use Rattle.std.specs.Bool.{MatchBool};
ghost use Rattle.std.specs.Ordering.{nat_cmp};
ghost use Rattle.std.specs.Cmp.Lexicographic.{slice_cmp};
ghost use Rattle.std.specs.BTreeSet.{contains, IsSameSet};
ghost use Rattle.written_syntax.specs.declared.tree.Formula.{size-Formula};
ghost use Rattle.language_meaning.specs.Trees.{terms_of, formulas_of};
ghost use Rattle.written_syntax.specs.CodeTrees.{term_tree, formula_tree};
ghost use Rattle.language_meaning.specs.Point.{HasEntry};
ghost use Rattle.language_meaning.specs.Value.{HasName, HaveName};
ghost use Rattle.written_syntax.specs.FreeNames.{IsFree};
ghost use Rattle.written_syntax.specs.Valued.{AreAmong, AreFree, prefix_of, matrix_of, IsUnquantified, IsOpened, IsClosed};

use crate::tree::{Formula, Term};
use language_meaning::PointEntry;
use logic_meaning::Name;
use std::alloc::{AllocError, Global};
use std::collections::BTreeSet;

/// Whether each free name of the formula has an entry. An `Err` is want of memory.
pub fn is_valued(
    alloc: Global,
    formula: &Formula,
    entries: &[PointEntry],
) -> Result<bool, AllocError>
    ensures { IfOk result (λ valued. MatchBool valued
        ((x : List ℕ) → IsFree (formula_tree formula.now) x → HasEntry x entries.now)
        ((x : List ℕ) × IsFree (formula_tree formula.now) x × (¬ (HasEntry x entries.now)))) }
{
    let mut names = names_of(alloc, entries)?;
    in_formula(alloc, formula, &mut names)
}

/// The names that the entries have.
fn names_of(alloc: Global, entries: &[PointEntry]) -> Result<BTreeSet<Name>, AllocError>
    ensures { IfOk result (λ names. (x : List ℕ) → IsTrue (contains (slice_cmp nat_cmp) names x) ↔ HasEntry x entries.now) }
{
    let mut names = BTreeSet::new(alloc);
    for entry in entries {
        names.insert(entry.name)?;
    }
    Ok(names)
}

/// Whether the names of a term are among these.
#[tactic(auto, using(crate::proofs::TreeEquations::trees))]
#[cycle(terms)]
fn in_term(term: &Term, names: &BTreeSet<Name>) -> bool
    ensures { AreAmong (HasName (term_tree term.now)) (contains (slice_cmp nat_cmp) names.now) result }
{
    match term {
        Term::Number(_) => true,
        Term::Name(name) => names.contains(name),
        Term::Sum(terms) => in_terms(&terms.list, names),
        Term::Product(terms) => in_terms(&terms.list, names),
        Term::Negative(inner) => in_term(inner, names),
        Term::Quotient(left, right) => in_term(left, names) && in_term(right, names),
        Term::Power(base, _) => in_term(base, names),
    }
}

/// Whether the names of the terms are among these.
#[cycle(terms)]
fn in_terms(terms: &[Term], names: &BTreeSet<Name>) -> bool
    ensures { AreAmong (HaveName (terms_of (map term_tree terms.now))) (contains (slice_cmp nat_cmp) names.now) result }
{
    for term in terms {
        if !in_term(term, names) {
            return false;
        }
    }
    true
}

/// The formula after the quantifiers with which this one begins.
#[tactic(auto, using(crate::proofs::TreeEquations::trees))]
pub fn matrix(formula: &Formula) -> &Formula
    ensures matrix { formula_tree result.now ≡ matrix_of (formula_tree formula.now) }
    ensures no_deeper { size-Formula result.now ≤ size-Formula formula.now }
{
    let mut inner = formula;
    'prefix: while let Formula::Ex(_, body) | Formula::All(_, body) = inner {
        inner = body;
    }
    inner
}

/// Puts in the names of the quantifiers with which the formula begins, and answers those that were not there.
#[tactic(auto, using(crate::proofs::TreeEquations::trees))]
fn open_scope(
    alloc: Global,
    formula: &Formula,
    names: &mut BTreeSet<Name>,
) -> Result<Vec<Name>, AllocError>
    ensures { IfOk result (λ opened. IsOpened (prefix_of (formula_tree formula.now)) (contains (slice_cmp nat_cmp) names.old) (contains (slice_cmp nat_cmp) names.new) opened.items) }
{
    let mut opened = Vec::new(alloc);
    let mut inner = formula;
    'prefix: while let Formula::Ex(name, body) | Formula::All(name, body) = inner {
        if names.insert(*name)? {
            opened.push(*name)?;
        }
        inner = body;
    }
    Ok(opened)
}

/// Takes these names out.
fn close_scope(opened: &[Name], names: &mut BTreeSet<Name>)
    ensures { IsClosed (contains (slice_cmp nat_cmp) names.old) (contains (slice_cmp nat_cmp) names.new) opened.now }
{
    for name in opened {
        names.remove(name);
    }
}

/// Whether the free names of a formula are among these. The set is as before.
#[cycle(formulas)]
fn in_formula(
    alloc: Global,
    formula: &Formula,
    names: &mut BTreeSet<Name>,
) -> Result<bool, AllocError>
    ensures among { IfOk result (AreAmong (IsFree (formula_tree formula.now)) (contains (slice_cmp nat_cmp) names.old)) }
    ensures kept { OnOk result (IsSameSet (slice_cmp nat_cmp) names.old names.new) }
{
    let opened = open_scope(alloc, formula, names)?;
    let valued = in_matrix(alloc, matrix(formula), names)?;
    close_scope(&opened, names);
    Ok(valued)
}

/// Whether the free names of a formula that begins with no quantifier are among these. The set is as before.
#[tactic(auto, using(crate::proofs::TreeEquations::trees))]
#[cycle(formulas)]
fn in_matrix(
    alloc: Global,
    formula: &Formula,
    names: &mut BTreeSet<Name>,
) -> Result<bool, AllocError>
    requires { IsUnquantified (formula_tree formula.now) }
    ensures among { IfOk result (AreAmong (IsFree (formula_tree formula.now)) (contains (slice_cmp nat_cmp) names.old)) }
    ensures kept { OnOk result (IsSameSet (slice_cmp nat_cmp) names.old names.new) }
{
    match formula {
        Formula::True | Formula::False | Formula::Named(_) | Formula::Computed(_) => Ok(true),
        Formula::Compare(_, left, right) => Ok(in_term(left, names) && in_term(right, names)),
        Formula::Cong(left, right, modulus) | Formula::Ncong(left, right, modulus) => {
            Ok(in_term(left, names) && in_term(right, names) && in_term(modulus, names))
        }
        Formula::Not(inner) => in_formula(alloc, inner, names),
        Formula::And(formulas) | Formula::Or(formulas) => in_formulas(alloc, &formulas.list, names),
        Formula::Impl(left, right) | Formula::Repl(left, right) | Formula::Equiv(left, right) => {
            let left = in_formula(alloc, left, names)?;
            let right = in_formula(alloc, right, names)?;
            Ok(left && right)
        }
        Formula::Ex(..) | Formula::All(..) => unreachable!(),
    }
}

/// Whether the free names of the formulas are among these. The set is as before.
#[cycle(formulas)]
fn in_formulas(
    alloc: Global,
    formulas: &[Formula],
    names: &mut BTreeSet<Name>,
) -> Result<bool, AllocError>
    ensures among { IfOk result (AreAmong (AreFree (formulas_of (map formula_tree formulas.now))) (contains (slice_cmp nat_cmp) names.old)) }
    ensures kept { OnOk result (IsSameSet (slice_cmp nat_cmp) names.old names.new) }
{
    for formula in formulas {
        if !in_formula(alloc, formula, names)? {
            return Ok(false);
        }
    }
    Ok(true)
}
