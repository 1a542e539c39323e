//! Whether each free number of a formula has an entry.

ghost use Rattle.std.specs.Prelude.{◌≡◌, ◌≤◌, ◌<◌, ◌+◌, ◌↔◌, ℕ, length, map, true, IsTrue, IfOk, OnOk};
ghost use Rattle.std.specs.Bool.{MatchBool};
ghost use Rattle.std.specs.List.{AllByRecursion};
ghost use Rattle.std.specs.Ordering.{nat_cmp};
ghost use Rattle.std.specs.BTreeSet.{contains, IsSameSet};
ghost use Rattle.logic_meaning.specs.Tree.{IsFree};
ghost use Rattle.language_meaning.specs.Trees.{terms_of, Bound};
ghost use Rattle.language_meaning.specs.Holes.{command_count, inner_name, all_of};
ghost use Rattle.written_syntax.specs.CodeTrees.{term_tree, whole_formula, formula_tree, named_tree, inner_of};
ghost use Rattle.language_meaning.specs.Value.{HasName, HaveName};
ghost use Rattle.written_syntax.specs.Valued.{prefix_of, matrix_of, IsUnquantified};
ghost use Rattle.language_meaning.specs.Resolving.{IsFreeInPlace, MentionsNumber};
ghost use Rattle.logic_meaning.specs.Names.{place};
ghost use Rattle.formula_store.specs.Nodes.{tree, IsId};
ghost use Rattle.formula_resolving.specs.BoundIds.{AreIds, answered_trees};
ghost use Rattle.language_meaning.specs.Entries.{HasEntryAt};
ghost use Rattle.free_names.specs.Missing.{IsSound};
ghost use Rattle.free_names.specs.Places.{IsFreeHere, IsFreeInEither, AreFreeHere, in_scope, name_in_scope};
ghost use Rattle.free_names.specs.Scopes.{AreAmong, IsIn, IsOpened, IsClosed};

use crate::missing::{Table, look_into, numbers};
use formula_resolving::bound_formula;
use formula_store::{FormulaId, Store};
use formula_tree::{Bindings, Names};
use language_meaning::PointEntry;
use logic_meaning::Name;
use std::alloc::{AllocError, Global};
use std::collections::{BTreeSet, HashMap};
use written_syntax::{Formula, Term};

/// What a formula is searched with: the numbers that have an entry, what names stand for, and the answers of the commands
/// inside the formula in the order of the text.
#[derive(Drop)]
struct Around<'a> {
    alloc: Global,
    valued: &'a BTreeSet<usize>,
    bound: &'a Bindings<FormulaId>,
    inner: &'a [FormulaId],
    names: &'a Names,
    store: &'a Store,
}

/// Whether each number that is free in the formula, with the bound formulas and the answers in their places, is that of a
/// name with an entry. `inner` has the answers of the commands inside the formula, in the order of the text. An `Err` is want
/// of memory.
pub fn is_valued(
    alloc: Global,
    formula: &Formula,
    entries: &[PointEntry],
    bound: &Bindings<FormulaId>,
    inner: &[FormulaId],
    names: &Names,
    store: &Store,
) -> Result<bool, AllocError>
    requires ids { AreIds (IsId store.now) bound.now }
    requires answers { AllByRecursion (IsId store.now) inner.now }
    requires places { command_count (inner_of formula.now) ≤ length inner.now }
    ensures { IfOk result (λ valued. MatchBool valued
        ((n : ℕ) → IsFreeInPlace (answered_trees (tree store.now) inner.now bound.now) (place names.now) (named_tree 0 formula.now) n → HasEntryAt (place names.now) entries.now n)
        ((n : ℕ) × IsFreeInPlace (answered_trees (tree store.now) inner.now bound.now) (place names.now) (named_tree 0 formula.now) n × (¬ (HasEntryAt (place names.now) entries.now n)))) }
{
    let valued = numbers_of(alloc, entries, names)?;
    let around = Around {
        alloc,
        valued: &valued,
        bound,
        inner,
        names,
        store,
    };
    let mut opened = BTreeSet::new(alloc);
    let mut taken = 0;
    let mut table = HashMap::new(alloc);
    in_formula(&around, formula, &mut opened, &mut taken, &mut table)
}

/// The numbers of the names that have entries.
fn numbers_of(
    alloc: Global,
    entries: &[PointEntry],
    names: &Names,
) -> Result<BTreeSet<usize>, AllocError>
    ensures { IfOk result (λ valued. (n : ℕ) → IsTrue (contains nat_cmp valued n) ↔ HasEntryAt (place names.now) entries.now n) }
{
    let mut valued = BTreeSet::new(alloc);
    for entry in entries {
        valued.insert(names.place(&entry.name).number)?;
    }
    Ok(valued)
}

/// Whether the number has an entry, or a quantifier around has it.
fn is_in_scope(around: &Around<'_>, name: &Name, opened: &BTreeSet<usize>) -> bool
    ensures { result ≡ name_in_scope around.now.names.now around.now.valued.now opened.now name.now }
{
    let number = around.names.place(name).number;
    around.valued.contains(&number) || opened.contains(&number)
}

/// Whether the names of a term are in scope.
#[tactic(auto, using(written_syntax::proofs::TreeEquations::trees))]
#[cycle(terms)]
fn in_term(around: &Around<'_>, term: &Term, opened: &BTreeSet<usize>) -> bool
    ensures { AreAmong (HasName (term_tree term.now)) (name_in_scope around.now.names.now around.now.valued.now opened.now) result }
{
    match term {
        Term::Number(_) => true,
        Term::Name(name) => is_in_scope(around, name, opened),
        Term::Sum(terms) => in_terms(around, terms.items(), opened),
        Term::Product(terms) => in_terms(around, terms.items(), opened),
        Term::Negative(inner) => in_term(around, inner, opened),
        Term::Quotient(left, right) => {
            in_term(around, left, opened) && in_term(around, right, opened)
        }
        Term::Power(base, _) => in_term(around, base, opened),
    }
}

/// Whether the names of the terms are in scope.
#[cycle(terms)]
fn in_terms(around: &Around<'_>, terms: &[Term], opened: &BTreeSet<usize>) -> bool
    ensures { AreAmong (HaveName (terms_of (map term_tree terms.now))) (name_in_scope around.now.names.now around.now.valued.now opened.now) result }
{
    for term in terms {
        if !in_term(around, term, opened) {
            return false;
        }
    }
    true
}

/// Puts in the numbers of the quantifiers with which the formula begins, and answers those that were not there.
#[tactic(auto, using(written_syntax::proofs::TreeEquations::trees))]
fn open_scope(
    around: &Around<'_>,
    formula: &Formula,
    opened: &mut BTreeSet<usize>,
) -> Result<Vec<usize>, AllocError>
    ensures { IfOk result (λ new. IsOpened (map (place around.now.names.now) (prefix_of (formula_tree formula.now))) (contains nat_cmp opened.old) (contains nat_cmp opened.new) new.items) }
{
    let mut new = Vec::new(around.alloc);
    let mut inner = formula;
    'prefix: while let Formula::Ex(name, body) | Formula::All(name, body) = inner {
        let number = around.names.place(name).number;
        if opened.insert(number)? {
            new.push(number)?;
        }
        inner = body;
    }
    Ok(new)
}

/// Takes these numbers out.
fn close_scope(new: &[usize], opened: &mut BTreeSet<usize>)
    ensures { IsClosed (contains nat_cmp opened.old) (contains nat_cmp opened.new) new.now }
{
    for number in new {
        opened.remove(number);
    }
}

/// Whether the numbers are among these.
fn are_in(numbers: &[usize], opened: &BTreeSet<usize>) -> bool
    ensures { AreAmong (λ n. IsIn n numbers.now) (contains nat_cmp opened.now) result }
{
    for number in numbers {
        if !opened.contains(number) {
            return false;
        }
    }
    true
}

/// The formula after the quantifiers with which this one begins.
#[tactic(auto, using(written_syntax::proofs::TreeEquations::trees))]
fn after_quantifiers(formula: &Formula) -> &Formula
    ensures matrix { formula_tree result.now ≡ matrix_of (formula_tree formula.now) }
    ensures named { (k : ℕ) → named_tree k result.now ≡ matrix_of (named_tree k formula.now) }
    ensures inner { inner_of result.now ≡ inner_of formula.now }
{
    let mut inner = formula;
    'prefix: while let Formula::Ex(_, body) | Formula::All(_, body) = inner {
        inner = body;
    }
    inner
}

/// Whether the free numbers of a formula of the store are in scope.
fn in_made(
    around: &Around<'_>,
    id: FormulaId,
    opened: &BTreeSet<usize>,
    table: &mut Table,
) -> Result<bool, AllocError>
    requires id { IsId around.now.store.now id }
    requires sound { IsSound around.now.store.now (contains nat_cmp around.now.valued.now) table.old }
    ensures among { IfOk result (AreAmong (IsFree (tree around.now.store.now id)) (in_scope around.now.valued.now opened.now)) }
    ensures sound { OnOk result (IsSound around.now.store.now (contains nat_cmp around.now.valued.now) table.new) }
{
    if !table.contains_key(&id) {
        look_into(around.alloc, around.store, id, around.valued, table)?;
    }
    Ok(are_in(numbers(table, id), opened))
}

/// Whether the free numbers of what is bound to a name are in scope.
fn in_bound(
    around: &Around<'_>,
    name: &Name,
    opened: &BTreeSet<usize>,
    table: &mut Table,
) -> Result<bool, AllocError>
    requires ids { AreIds (IsId around.now.store.now) around.now.bound.now }
    requires sound { IsSound around.now.store.now (contains nat_cmp around.now.valued.now) table.old }
    ensures among { IfOk result (AreAmong (MentionsNumber (answered_trees (tree around.now.store.now) around.now.inner.now around.now.bound.now) (place around.now.names.now) (Bound name.now)) (in_scope around.now.valued.now opened.now)) }
    ensures sound { OnOk result (IsSound around.now.store.now (contains nat_cmp around.now.valued.now) table.new) }
{
    match bound_formula(name, around.bound) {
        Some(id) => in_made(around, id, opened, table),
        None => Ok(true),
    }
}

/// Whether the free numbers of the next answer are in scope. It is taken.
fn in_answer(
    around: &Around<'_>,
    opened: &BTreeSet<usize>,
    taken: &mut usize,
    table: &mut Table,
) -> Result<bool, AllocError>
    requires answers { AllByRecursion (IsId around.now.store.now) around.now.inner.now }
    requires room { taken.old < length around.now.inner.now }
    requires sound { IsSound around.now.store.now (contains nat_cmp around.now.valued.now) table.old }
    ensures among { IfOk result (AreAmong (MentionsNumber (answered_trees (tree around.now.store.now) around.now.inner.now around.now.bound.now) (place around.now.names.now) (Bound (inner_name taken.old))) (in_scope around.now.valued.now opened.now)) }
    ensures taken { taken.new ≡ taken.old + 1 }
    ensures sound { OnOk result (IsSound around.now.store.now (contains nat_cmp around.now.valued.now) table.new) }
{
    let id = around.inner[*taken];
    *taken += 1;
    in_made(around, id, opened, table)
}

/// Whether the free numbers of a formula are in scope, with the answers from the place `taken` on. Where they are, these are
/// taken. The scope is as before.
#[cycle(formulas)]
fn in_formula(
    around: &Around<'_>,
    formula: &Formula,
    opened: &mut BTreeSet<usize>,
    taken: &mut usize,
    table: &mut Table,
) -> Result<bool, AllocError>
    requires ids { AreIds (IsId around.now.store.now) around.now.bound.now }
    requires answers { AllByRecursion (IsId around.now.store.now) around.now.inner.now }
    requires room { taken.old + command_count (inner_of formula.now) ≤ length around.now.inner.now }
    requires sound { IsSound around.now.store.now (contains nat_cmp around.now.valued.now) table.old }
    ensures among { IfOk result (AreAmong (IsFreeHere around.now.store.now around.now.inner.now around.now.bound.now around.now.names.now (named_tree taken.old formula.now)) (in_scope around.now.valued.now opened.old)) }
    ensures taken { IfOk result (λ valued. valued ≡ true → taken.new ≡ taken.old + command_count (inner_of formula.now)) }
    ensures kept { OnOk result (IsSameSet nat_cmp opened.old opened.new) }
    ensures sound { OnOk result (IsSound around.now.store.now (contains nat_cmp around.now.valued.now) table.new) }
{
    let new = open_scope(around, formula, opened)?;
    let valued = in_matrix(around, after_quantifiers(formula), opened, taken, table)?;
    close_scope(&new, opened);
    Ok(valued)
}

/// Whether the free numbers of a formula that begins with no quantifier are in scope. The scope is as before.
#[tactic(auto, using(written_syntax::proofs::TreeEquations::trees, written_syntax::proofs::TreeEquations::inners, written_syntax::proofs::TreeEquations::nameds))]
#[cycle(formulas)]
fn in_matrix(
    around: &Around<'_>,
    formula: &Formula,
    opened: &mut BTreeSet<usize>,
    taken: &mut usize,
    table: &mut Table,
) -> Result<bool, AllocError>
    requires unquantified { IsUnquantified (formula_tree formula.now) }
    requires ids { AreIds (IsId around.now.store.now) around.now.bound.now }
    requires answers { AllByRecursion (IsId around.now.store.now) around.now.inner.now }
    requires room { taken.old + command_count (inner_of formula.now) ≤ length around.now.inner.now }
    requires sound { IsSound around.now.store.now (contains nat_cmp around.now.valued.now) table.old }
    ensures among { IfOk result (AreAmong (IsFreeHere around.now.store.now around.now.inner.now around.now.bound.now around.now.names.now (named_tree taken.old formula.now)) (in_scope around.now.valued.now opened.old)) }
    ensures taken { IfOk result (λ valued. valued ≡ true → taken.new ≡ taken.old + command_count (inner_of formula.now)) }
    ensures kept { OnOk result (IsSameSet nat_cmp opened.old opened.new) }
    ensures sound { OnOk result (IsSound around.now.store.now (contains nat_cmp around.now.valued.now) table.new) }
{
    match formula {
        Formula::True | Formula::False => Ok(true),
        Formula::Named(name) => in_bound(around, name, opened, table),
        Formula::Computed(_) => in_answer(around, opened, taken, table),
        Formula::Compare(_, left, right) => {
            Ok(in_term(around, left, opened) && in_term(around, right, opened))
        }
        Formula::Cong(left, right, modulus) | Formula::Ncong(left, right, modulus) => {
            Ok(
                in_term(around, left, opened)
                    && in_term(around, right, opened)
                    && in_term(around, modulus, opened),
            )
        }
        Formula::Not(inner) => in_formula(around, inner, opened, taken, table),
        Formula::And(members) | Formula::Or(members) => {
            in_formulas(around, members.items(), opened, taken, table)
        }
        Formula::Impl(left, right) | Formula::Repl(left, right) | Formula::Equiv(left, right) => {
            in_pair(around, left, right, opened, taken, table)
        }
        Formula::Ex(..) | Formula::All(..) => unreachable!(),
    }
}

/// Whether the free numbers of two formulas are in scope. The scope is as before.
#[cycle(formulas)]
fn in_pair(
    around: &Around<'_>,
    left: &Formula,
    right: &Formula,
    opened: &mut BTreeSet<usize>,
    taken: &mut usize,
    table: &mut Table,
) -> Result<bool, AllocError>
    requires ids { AreIds (IsId around.now.store.now) around.now.bound.now }
    requires answers { AllByRecursion (IsId around.now.store.now) around.now.inner.now }
    requires room { taken.old + (command_count (inner_of left.now) + command_count (inner_of right.now)) ≤ length around.now.inner.now }
    requires sound { IsSound around.now.store.now (contains nat_cmp around.now.valued.now) table.old }
    ensures among { IfOk result (AreAmong (IsFreeInEither around.now.store.now around.now.inner.now around.now.bound.now around.now.names.now (named_tree taken.old left.now) (named_tree (taken.old + command_count (inner_of left.now)) right.now)) (in_scope around.now.valued.now opened.old)) }
    ensures taken { IfOk result (λ valued. valued ≡ true → taken.new ≡ taken.old + (command_count (inner_of left.now) + command_count (inner_of right.now))) }
    ensures kept { OnOk result (IsSameSet nat_cmp opened.old opened.new) }
    ensures sound { OnOk result (IsSound around.now.store.now (contains nat_cmp around.now.valued.now) table.new) }
{
    if !in_formula(around, left, opened, taken, table)? {
        return Ok(false);
    }
    in_formula(around, right, opened, taken, table)
}

/// Whether the free numbers of the formulas are in scope. The scope is as before.
#[cycle(formulas)]
fn in_formulas(
    around: &Around<'_>,
    formulas: &[Formula],
    opened: &mut BTreeSet<usize>,
    taken: &mut usize,
    table: &mut Table,
) -> Result<bool, AllocError>
    requires ids { AreIds (IsId around.now.store.now) around.now.bound.now }
    requires answers { AllByRecursion (IsId around.now.store.now) around.now.inner.now }
    requires room { taken.old + command_count (all_of (map whole_formula formulas.now)).inner ≤ length around.now.inner.now }
    requires sound { IsSound around.now.store.now (contains nat_cmp around.now.valued.now) table.old }
    ensures among { IfOk result (AreAmong (AreFreeHere around.now.store.now around.now.inner.now around.now.bound.now around.now.names.now ((all_of (map whole_formula formulas.now)).named taken.old)) (in_scope around.now.valued.now opened.old)) }
    ensures taken { IfOk result (λ valued. valued ≡ true → taken.new ≡ taken.old + command_count (all_of (map whole_formula formulas.now)).inner) }
    ensures kept { OnOk result (IsSameSet nat_cmp opened.old opened.new) }
    ensures sound { OnOk result (IsSound around.now.store.now (contains nat_cmp around.now.valued.now) table.new) }
{
    for formula in formulas {
        if !in_formula(around, formula, opened, taken, table)? {
            return Ok(false);
        }
    }
    Ok(true)
}
