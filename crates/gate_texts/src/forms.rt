//! Forms and atoms as texts in which names are numbers: `v0`, `v1`.

use linear_forms::Linear;
use normal_atoms::{Atom, Rel};
use std::alloc::{AllocError, Global};

/// The text of an atom.
pub fn atom_text(alloc: Global, atom: &Atom) -> Result<String, AllocError> {
    match atom {
        Atom::Compare(relation, form) => {
            let form = form_text(alloc, form)?;
            let sign = sign_of(*relation);
            format!(in alloc; "{form} {sign} 0")
        }
        Atom::Congruent {
            holds,
            modulus,
            form,
        } => {
            let form = form_text(alloc, form)?;
            format!(in alloc; "{form} congruent to 0 modulo {modulus}, {holds}")
        }
    }
}

/// The sign of a relation.
fn sign_of(relation: Rel) -> &'static str {
    match relation {
        Rel::Equal => "=",
        Rel::Differs => "<>",
        Rel::Less => "<",
        Rel::AtMost => "<=",
        Rel::Greater => ">",
        Rel::AtLeast => ">=",
    }
}

/// The text of a form: its places, and then its constant.
pub fn form_text(alloc: Global, form: &Linear) -> Result<String, AllocError> {
    let mut text = String::new(alloc);
    for place in 0..form.places() {
        if let Some((name, factor)) = form.term(place) {
            let number = name.number;
            text.push_str(&format!(in alloc; "{factor}*v{number} + ")?)?;
        }
    }
    let constant = form.constant_part();
    text.push_str(&format!(in alloc; "{constant}")?)?;
    Ok(text)
}
