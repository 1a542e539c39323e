//! The constraint that a resolved comparison is.

ghost use Rattle.std.specs.Prelude.{◌≡◌, negsuc, IfOk};
ghost use Rattle.logic_meaning.specs.Form.{scale};
ghost use Rattle.logic_meaning.specs.Atom as meant;
ghost use Rattle.normal_atoms.specs.Atoms.{atom_of as meant_atom, relation_of};
ghost use Rattle.formula_store.specs.Nodes.{tree, IsId};
ghost use Rattle.certificates.specs.Constraints.{constraint_of as meant_constraint};
ghost use Rattle.program_meaning.specs.Certificates.{tree_constraint, atom_constraint};

use certificates::{Bound, Constraint};
use formula_store::{FormulaId, Store};
use formula_tree::Shape;
use linear_forms::Linear;
use normal_atoms::{Atom, Rel};
use std::alloc::{AllocError, Global};

/// The constraint that a resolved comparison is. One that is true by itself is that 0 is at most 0, and one that is false that 1 is.
pub fn tree_constraint(
    alloc: Global,
    store: &Store,
    id: FormulaId,
) -> Result<Constraint, AllocError>
    requires { IsId store.now id }
    ensures { IfOk result (λ c. meant_constraint c ≡ tree_constraint (tree store.now id)) }
{
    match store.shape(id) {
        Shape::One(atom) => atom_constraint(alloc, atom),
        Shape::False => Ok(at_most(Linear::constant(alloc, 1))),
        _ => Ok(at_most(Linear::constant(alloc, 0))),
    }
}

/// The form is to be at most 0.
fn at_most(form: Linear) -> Constraint
    ensures form { (meant_constraint result).form ≡ form }
    ensures bound { result.bound ≡ Bound.AtMost }
{
    Constraint {
        form,
        bound: Bound::AtMost,
    }
}

/// The constraint that an atom is. One that is to be above or at least 0 is negated.
fn atom_constraint(alloc: Global, atom: &Atom) -> Result<Constraint, AllocError>
    ensures { IfOk result (λ c. meant_constraint c ≡ atom_constraint (meant_atom atom.now)) }
{
    match atom {
        Atom::Compare(relation, form) => compared(alloc, *relation, form),
        Atom::Congruent { form, .. } => compared(alloc, Rel::Equal, form),
    }
}

/// The constraint that a comparison of a form with 0 is.
fn compared(alloc: Global, relation: Rel, form: &Linear) -> Result<Constraint, AllocError>
    ensures { IfOk result (λ c. meant_constraint c ≡ atom_constraint (meant.Compare (relation_of relation) form.now)) }
{
    let bound = match relation {
        Rel::Equal | Rel::Differs => Bound::Equal,
        Rel::AtMost | Rel::AtLeast => Bound::AtMost,
        Rel::Less | Rel::Greater => Bound::Below,
    };
    let form = match relation {
        Rel::Greater | Rel::AtLeast => negated(alloc, form)?,
        Rel::Equal | Rel::Differs | Rel::AtMost | Rel::Less => form.copy(alloc)?,
    };
    Ok(Constraint { form, bound })
}

/// The form with the other sign.
fn negated(alloc: Global, form: &Linear) -> Result<Linear, AllocError>
    ensures { IfOk result (λ f. f ≡ scale (negsuc 0) form.now) }
{
    match form.divide_exact(alloc, -1) {
        Ok(form) => Ok(form),
        Err(_) => Err(AllocError),
    }
}
