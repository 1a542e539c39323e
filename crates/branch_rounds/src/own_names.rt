//! Which names a formula has.

ghost use Rattle.formula_store.specs.Nodes.{IsId};

use formula_store::{FormulaId, Store};
use formula_tree::Shape;
use linear_forms::Linear;
use logic_meaning::VarId;
use normal_atoms::Atom;
use std::alloc::AllocError;

/// Whether each name of the formula is one of these. Its only error is want of memory.
pub fn is_over(store: &Store, id: FormulaId, names: &[VarId]) -> Result<bool, AllocError>
    requires { IsId store.now id }
{
    let Ok(ids) = store.subformulas(id) else {
        return Err(AllocError);
    };
    for id in &ids {
        if let Shape::One(atom) = store.shape(*id)
            && !is_atom_over(atom, names)
        {
            return Ok(false);
        }
    }
    Ok(true)
}

// Whether each name of the atom is one of these.
fn is_atom_over(atom: &Atom, names: &[VarId]) -> bool {
    let form = form_of(atom);
    for place in 0..form.places() {
        if let Some((name, _)) = form.term(place)
            && !names.contains(&name)
        {
            return false;
        }
    }
    true
}

fn form_of(atom: &Atom) -> &Linear {
    match atom {
        Atom::Compare(_, form) | Atom::Congruent { form, .. } => form,
    }
}
