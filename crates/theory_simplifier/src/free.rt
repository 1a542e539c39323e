//! Whether a name is free in a shared formula.

ghost use Rattle.std.specs.Prelude.{◌≡◌, map};
ghost use Rattle.std.specs.List.{AllByRecursion};
ghost use Rattle.normal_atoms.specs.Atoms.{context_of, atom_of};
ghost use Rattle.logic_meaning.specs.Context.{Context};
ghost use Rattle.shape_theory.specs.AtomKit.{atom_kit};
ghost use Rattle.logic_meaning.specs.Contained.{contains};
ghost use Rattle.shape_theory.specs.Pass.{is_free, is_free_in_some};
ghost use Rattle.formula_tree.specs.Trees.{members};
ghost use Rattle.formula_store.specs.Nodes.{IsId, tree};

use formula_store::{FormulaId, Store};
use formula_tree::Shape;
use logic_meaning::VarId;
use normal_atoms::Atom;

/// Whether the name stands in the atom. It takes no memory.
pub(crate) fn has_name(atom: &Atom, x: VarId) -> bool
    ensures { result ≡ contains (atom_of atom.now) x.number }
{
    match atom {
        Atom::Compare(_, form) | Atom::Congruent { form, .. } => {
            !form.coefficient(x).cmp(&0).is_eq()
        }
    }
}

/// Whether the name is free in the formula. The recursion is as deep as the formula is high. It takes no memory.
#[cycle(free)]
pub(crate) fn is_free(store: &Store, x: VarId, id: FormulaId) -> bool
    requires { IsId store.now id }
    ensures { (c : Context) → result ≡ is_free (atom_kit c) x.number (tree store.now id) }
{
    match store.shape(id) {
        Shape::True | Shape::False => false,
        Shape::One(atom) => has_name(atom, x),
        Shape::And(ids) | Shape::Or(ids) => is_free_in_some(store, x, ids.items()),
        Shape::Not(f) => is_free(store, x, *f),
        Shape::Impl(f, g) | Shape::Repl(f, g) | Shape::Equiv(f, g) => {
            is_free(store, x, *f) || is_free(store, x, *g)
        }
        Shape::Ex(y, f) | Shape::All(y, f) => y.number != x.number && is_free(store, x, *f),
    }
}

// Whether the name is free in some of the formulas.
#[cycle(free)]
fn is_free_in_some(store: &Store, x: VarId, ids: &[FormulaId]) -> bool
    requires { AllByRecursion (IsId store.now) ids.now }
    ensures { (c : Context) → result ≡ is_free_in_some (atom_kit c) x.number (members (map (tree store.now) ids.now)) }
{
    for id in ids {
        if is_free(store, x, *id) {
            return true;
        }
    }
    false
}
