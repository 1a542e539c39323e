//! Lists that a pass leaves as they are, told without making anything.

ghost use Rattle.std.specs.Prelude.{◌≡◌, ◌++◌, ◌∷◌, [], ℕ, List, Some, IfOk, IsTrue, map, nat_eq};
ghost use Rattle.std.specs.List.{AllByRecursion};
ghost use Rattle.std.specs.HashMap.{get};
ghost use Rattle.std.specs.HashSet.{contains};
ghost use Rattle.logic_meaning.specs.Atom.{Atom as Meant, form_of};
ghost use Rattle.logic_meaning.specs.Formula.{One};
ghost use Rattle.logic_meaning.specs.Tree.{Tree};
ghost use Rattle.normal_atoms.specs.Atoms.{atom_of, context_of, IsWellFormed};
ghost use Rattle.normal_atoms.specs.Computed.{IsNormalWithin, Kept, merged};
ghost use Rattle.shape_theory.specs.AtomKit.{atom_kit};
ghost use Rattle.shape_theory.specs.Orderly.{AreOrderly};
ghost use Rattle.shape_theory.specs.Pass.{pass};
ghost use Rattle.shape_theory.specs.Simplifiable.{IsSimplifiable};
ghost use Rattle.formula_tree.specs.Trees.{members};
ghost use Rattle.formula_store.specs.declared.id.FormulaId.{FormulaId};
ghost use Rattle.formula_store.specs.Nodes.{IsId, tree};
ghost use Rattle.theory_simplifier.specs.Known.{known_atoms};
ghost use Rattle.theory_simplifier.specs.Unchanged.{key_of, AreTaken, AreSeen};
ghost use Rattle.theory_simplifier.specs.VariableParts.{mixed};

use crate::joined::merged;
use crate::known::Known;
use formula_store::{FormulaId, Store};
use formula_tree::Shape;
use linear_forms::Linear;
use logic_meaning::Junction;
use normal_atoms::{Atom, Context, Merged};
use std::alloc::{AllocError, Global};
use std::collections::{HashMap, HashSet};

/// Whether it is seen at once that a pass leaves the formula as it is: nothing is known, and it is a list of atoms of which none
/// merges with one before it, and at most two have the same names. It looks at each member once.
pub(crate) fn is_unchanged(
    alloc: Global,
    store: &Store,
    context: Context,
    known: &Known,
    id: FormulaId,
) -> Result<bool, AllocError>
    requires id { IsId store.now id }
    requires formula { IsSimplifiable (context_of context) (tree store.now id) }
    ensures { IfOk result (λ same. IsTrue same → tree store.now id ≡ pass (atom_kit (context_of context)) (tree store.now id) (known_atoms known.now)) }
{
    match store.shape(id) {
        Shape::And(ids) if known.is_empty() => are_apart(
            alloc,
            store,
            context,
            Junction::Conjunction,
            ids.items(),
        ),
        Shape::Or(ids) if known.is_empty() => are_apart(
            alloc,
            store,
            context,
            Junction::Disjunction,
            ids.items(),
        ),
        _ => Ok(false),
    }
}

// The first atom with some names, by the number of the names.
type Firsts = HashMap<u64, FormulaId>;

// Whether it is seen at once that the formulas are atoms of which none merges with one before it: at most two have the same names.
fn are_apart(
    alloc: Global,
    store: &Store,
    context: Context,
    junction: Junction,
    ids: &[FormulaId],
) -> Result<bool, AllocError>
    requires ids { AllByRecursion (IsId store.now) ids.now }
    requires formulas { AreOrderly (IsNormalWithin (context_of context)) (members (map (tree store.now) ids.now)) }
    ensures { IfOk result (λ apart. IsTrue apart → AreTaken (context_of context) junction (map (tree store.now) ids.now)) }
{
    let mut firsts = HashMap::with_capacity(alloc, ids.len())?;
    let mut seconds = HashSet::new(alloc);
    for id in ids {
        if !joins(
            alloc,
            store,
            context,
            junction,
            &mut firsts,
            &mut seconds,
            *id,
        )? {
            return Ok(false);
        }
    }
    Ok(true)
}

// Whether the formula is an atom that merges with none of those that were seen, and is then seen itself: with its names there is
// none yet, or one that it does not merge with.
fn joins(
    alloc: Global,
    store: &Store,
    context: Context,
    junction: Junction,
    firsts: &mut Firsts,
    seconds: &mut HashSet<u64>,
    id: FormulaId,
) -> Result<bool, AllocError>
    requires id { IsId store.now id }
    requires formula { IsSimplifiable (context_of context) (tree store.now id) }
    requires firsts { (k : ℕ) (x : FormulaId) → get nat_eq firsts.old k ≡ Some x → IsId store.now x × IsSimplifiable (context_of context) (tree store.now x) }
    ensures { IfOk result (λ joins. IsTrue joins → (fs : List Tree) → AreSeen (context_of context) junction store.now fs (get nat_eq firsts.old) (contains nat_eq seconds.old) →
        AreSeen (context_of context) junction store.now (fs ++ tree store.now id ∷ []) (get nat_eq firsts.new) (contains nat_eq seconds.new)) }
{
    let Shape::One(atom) = store.shape(id) else {
        return Ok(false);
    };
    let key = key_of(atom);
    let Some(first) = firsts.get(&key).copied() else {
        let Ok(_none) = firsts.insert(key, id) else {
            return Err(AllocError);
        };
        return Ok(true);
    };
    if !seconds.insert(key)? {
        return Ok(false);
    }
    stay_apart(alloc, store, context, junction, first, atom)
}

// Whether the first formula is an atom that does not merge with the second.
fn stay_apart(
    alloc: Global,
    store: &Store,
    context: Context,
    junction: Junction,
    first: FormulaId,
    second: &Atom,
) -> Result<bool, AllocError>
    requires id { IsId store.now first }
    requires formula { IsSimplifiable (context_of context) (tree store.now first) }
    requires well_formed { IsWellFormed second.now }
    requires normal { IsNormalWithin (context_of context) (atom_of second.now) }
    ensures { IfOk result (λ apart. IsTrue apart → (b : Meant) → tree store.now first ≡ One b → merged (context_of context) junction b (atom_of second.now) ≡ Kept) }
{
    match store.shape(first) {
        Shape::One(other) => {
            let merged = merged(alloc, context, junction, other, second)?;
            Ok(matches!(merged, Merged::Keep))
        }
        _ => Ok(false),
    }
}

// A number that atoms with the same names share; with others it is another one as a rule.
fn key_of(atom: &Atom) -> u64
    ensures { result ≡ key_of (atom_of atom.now) }
{
    let form = form_of(atom);
    let mut key = 0;
    for place in 0..form.places() {
        if let Some((name, _)) = form.term(place) {
            key = mixed(key, name.number as u64);
        }
    }
    key
}

// The linear form of the atom.
fn form_of(atom: &Atom) -> &Linear
    ensures { result.now ≡ form_of (atom_of atom.now) }
{
    match atom {
        Atom::Compare(_, form) | Atom::Congruent { form, .. } => form,
    }
}

/// A number with another one mixed in.
pub(crate) fn mixed(key: u64, next: u64) -> u64
    ensures { result ≡ mixed key next }
{
    key.wrapping_mul(1_000_003).wrapping_add(next)
}
