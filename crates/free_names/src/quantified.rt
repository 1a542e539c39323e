//! Whether a quantifier stands in a formula.

ghost use Rattle.std.specs.Prelude.{◌≡◌, ◌≤◌, ◌<◌, ◌+◌, ◌||◌, ℕ, List, length, map, false};
ghost use Rattle.std.specs.List.{AllByRecursion};
ghost use Rattle.logic_meaning.specs.Replaced.{all_replaced};
ghost use Rattle.language_meaning.specs.Trees.{Bound};
ghost use Rattle.language_meaning.specs.Holes.{command_count, inner_name, all_of};
ghost use Rattle.written_syntax.specs.CodeTrees.{whole_formula, named_tree, inner_of};
ghost use Rattle.language_meaning.specs.Causes.{atom_in_place};
ghost use Rattle.logic_meaning.specs.Quantified.{has_quantifier, some_quantifier};
ghost use Rattle.formula_store.specs.declared.id.FormulaId.{FormulaId};
ghost use Rattle.formula_store.specs.Nodes.{tree, IsId};
ghost use Rattle.formula_resolving.specs.BoundIds.{AreIds, answered_trees};
ghost use Rattle.free_names.specs.Places.{is_quantified_here};

use formula_resolving::bound_formula;
use formula_store::{FormulaId, Store};
use formula_tree::Bindings;
use logic_meaning::Name;
use written_syntax::Formula;

/// Whether a quantifier stands in the formula, with the bound formulas and the answers in their places. `inner` has the
/// answers of the commands inside the formula, in the order of the text. It takes no memory.
pub fn is_quantified(
    formula: &Formula,
    bound: &Bindings<FormulaId>,
    inner: &[FormulaId],
    store: &Store,
) -> bool
    requires ids { AreIds (IsId store.now) bound.now }
    requires answers { AllByRecursion (IsId store.now) inner.now }
    requires places { command_count (inner_of formula.now) ≤ length inner.now }
    ensures { result ≡ is_quantified_here store.now inner.now bound.now (named_tree 0 formula.now) }
{
    let mut taken = 0;
    in_formula(formula, bound, inner, &mut taken, store)
}

/// Whether a quantifier stands in the formula, with the answers from the place `taken` on. Where none does, these are taken.
#[tactic(auto, using(written_syntax::proofs::TreeEquations::trees, written_syntax::proofs::TreeEquations::inners, written_syntax::proofs::TreeEquations::nameds))]
#[cycle(quantified)]
fn in_formula(
    formula: &Formula,
    bound: &Bindings<FormulaId>,
    inner: &[FormulaId],
    taken: &mut usize,
    store: &Store,
) -> bool
    requires ids { AreIds (IsId store.now) bound.now }
    requires answers { AllByRecursion (IsId store.now) inner.now }
    requires room { taken.old + command_count (inner_of formula.now) ≤ length inner.now }
    ensures found { result ≡ is_quantified_here store.now inner.now bound.now (named_tree taken.old formula.now) }
    ensures taken { result ≡ false → taken.new ≡ taken.old + command_count (inner_of formula.now) }
{
    match formula {
        Formula::True | Formula::False | Formula::Compare(..) => false,
        Formula::Cong(..) | Formula::Ncong(..) => false,
        Formula::Named(name) => in_name(name, bound, store),
        Formula::Computed(_) => in_answer(inner, taken, store),
        Formula::Not(negated) => in_formula(negated, bound, inner, taken, store),
        Formula::And(members) | Formula::Or(members) => {
            in_formulas(members.items(), bound, inner, taken, store)
        }
        Formula::Impl(left, right) | Formula::Repl(left, right) | Formula::Equiv(left, right) => {
            in_pair(left, right, bound, inner, taken, store)
        }
        Formula::Ex(..) | Formula::All(..) => true,
    }
}

/// Whether a quantifier stands in one of two formulas.
#[cycle(quantified)]
fn in_pair(
    left: &Formula,
    right: &Formula,
    bound: &Bindings<FormulaId>,
    inner: &[FormulaId],
    taken: &mut usize,
    store: &Store,
) -> bool
    requires ids { AreIds (IsId store.now) bound.now }
    requires answers { AllByRecursion (IsId store.now) inner.now }
    requires room { taken.old + (command_count (inner_of left.now) + command_count (inner_of right.now)) ≤ length inner.now }
    ensures found { result ≡ (is_quantified_here store.now inner.now bound.now (named_tree taken.old left.now) || is_quantified_here store.now inner.now bound.now (named_tree (taken.old + command_count (inner_of left.now)) right.now)) }
    ensures taken { result ≡ false → taken.new ≡ taken.old + (command_count (inner_of left.now) + command_count (inner_of right.now)) }
{
    if in_formula(left, bound, inner, taken, store) {
        return true;
    }
    in_formula(right, bound, inner, taken, store)
}

/// Whether a quantifier stands in some of the formulas.
#[cycle(quantified)]
fn in_formulas(
    formulas: &[Formula],
    bound: &Bindings<FormulaId>,
    inner: &[FormulaId],
    taken: &mut usize,
    store: &Store,
) -> bool
    requires ids { AreIds (IsId store.now) bound.now }
    requires answers { AllByRecursion (IsId store.now) inner.now }
    requires room { taken.old + command_count (all_of (map whole_formula formulas.now)).inner ≤ length inner.now }
    ensures found { result ≡ some_quantifier (all_replaced (atom_in_place (answered_trees (tree store.now) inner.now bound.now)) (λ x. 0) ((all_of (map whole_formula formulas.now)).named taken.old)) }
    ensures taken { result ≡ false → taken.new ≡ taken.old + command_count (all_of (map whole_formula formulas.now)).inner }
{
    for formula in formulas {
        if in_formula(formula, bound, inner, taken, store) {
            return true;
        }
    }
    false
}

/// Whether a quantifier stands in the formula that is bound to the name, whatever the answers are.
fn in_name(name: &Name, bound: &Bindings<FormulaId>, store: &Store) -> bool
    requires { AreIds (IsId store.now) bound.now }
    ensures { (inner : List FormulaId) → result ≡ has_quantifier (atom_in_place (answered_trees (tree store.now) inner bound.now) (Bound name.now)) }
{
    match bound_formula(name, bound) {
        Some(id) => store.facts(id).quantified,
        None => false,
    }
}

/// Whether a quantifier stands in the next answer, which is taken.
fn in_answer(inner: &[FormulaId], taken: &mut usize, store: &Store) -> bool
    requires answers { AllByRecursion (IsId store.now) inner.now }
    requires room { taken.old < length inner.now }
    ensures found { (bound : List (List ℕ × FormulaId)) → result ≡ has_quantifier (atom_in_place (answered_trees (tree store.now) inner.now bound) (Bound (inner_name taken.old))) }
    ensures taken { taken.new ≡ taken.old + 1 }
{
    let id = inner[*taken];
    *taken += 1;
    store.facts(id).quantified
}
