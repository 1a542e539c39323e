// Forms and atoms with the numbers of a point for the names that no quantifier around them binds.
ghost use Rattle.std.specs.Prelude.{◌≡◌, true, pos, ◌<ℤ◌, MatchResult, IfOk};
ghost use Rattle.formula_laws.specs.TheoryAtoms.{AtomIn};
ghost use Rattle.logic_meaning.specs.PutIn.{form_put_within};
ghost use Rattle.normal_atoms.specs.Atoms.{atom_of, context_of, IsWellFormed};
ghost use Rattle.linear_forms.specs.Combinations.{IsLinear};
ghost use Rattle.linear_forms.specs.Values.{point_of};
ghost use Rattle.linear_forms.specs.Linear.{terms_of};
ghost use Rattle.nnf_trees.specs.Placed.{Fails};
ghost use Rattle.reference_engine.specs.Put.{around, kept_within, atom_put_within, IsParted, IsFormPut, IsAtomPut};

use crate::parts::stands_in;
use exact_numbers::product;
use linear_forms::{Linear, Values};
use logic_meaning::VarId;
use normal_atoms::{Atom, Context, Normal};
use std::alloc::Global;
use test_points::{PointError, in_normal_form};

// The places of a form: those of the names that stay, times the denominator, and those that become a number.
#[derive(Drop)]
struct Parts {
    kept: Vec<(VarId, i128)>,
    out: Vec<(VarId, i128)>,
}

// The places of the form, parted by whether a quantifier around it binds the name.
fn parted(alloc: Global, names: &[VarId], form: &Linear, at: &Values) -> Result<Parts, PointError>
    ensures positive { pos 0 <ℤ at.now.denominator }
    ensures parted { MatchResult result (λ r. IsParted (point_of at.now) (around names.now) form.now.terms (terms_of r.kept.items) (terms_of r.out.items)) (λ e. Fails e (kept_within (point_of at.now) (around names.now) form.now.terms)) }
{
    let denominator = at.denominator();
    let mut kept = Vec::new(alloc);
    let mut out = Vec::new(alloc);
    for place in 0..form.places() {
        let Some((name, times)) = form.term(place) else {
            unreachable!()
        };
        if stands_in(names, name) {
            let Some(number) = product(denominator, times) else {
                return Err(PointError::Overflow);
            };
            kept.push((name, number)).map_err(|_| PointError::Memory)?;
        } else {
            out.push((name, times)).map_err(|_| PointError::Memory)?;
        }
    }
    Ok(Parts { kept, out })
}

// The form times the denominator of the point, with the point's numbers for the names that do not stay. `Overflow` comes exactly
// where a number that is formed passes 2^127 - 1, else `Memory`.
fn form_put(
    alloc: Global,
    names: &[VarId],
    form: &Linear,
    at: &Values,
) -> Result<Linear, PointError>
    ensures put { MatchResult result (IsFormPut (point_of at.now) (around names.now) form.now) (λ e. Fails e (form_put_within (point_of at.now) (around names.now) form.now)) }
    ensures linear { IfOk result IsLinear }
{
    let Parts { kept, out } = parted(alloc, names, form, at)?;
    let others = Linear::of(out, form.constant_part());
    match others.value(at) {
        Some(constant) => Ok(Linear::of(kept, constant)),
        None => Err(PointError::Overflow),
    }
}

/// The atom with the numbers of the point for its names, but for those of the quantifiers around it, the innermost last, and in
/// normal form. `Overflow` comes exactly where a number that is formed passes 2^127 - 1, else `Memory`.
pub fn atom_put(
    alloc: Global,
    context: Context,
    names: &[VarId],
    atom: &Atom,
    at: &Values,
) -> Result<Normal, PointError>
    requires well_formed { IsWellFormed atom.now }
    requires in_context { AtomIn (context_of context) (atom_of atom.now) }
    ensures { MatchResult result (IsAtomPut (context_of context) (point_of at.now) (around names.now) (atom_of atom.now)) (λ e. Fails e (atom_put_within (context_of context) (point_of at.now) (around names.now) (atom_of atom.now))) }
{
    match atom {
        Atom::Compare(relation, form) => {
            let form = form_put(alloc, names, form, at)?;
            in_normal_form(alloc, context, Atom::Compare(*relation, form))
        }
        Atom::Congruent {
            holds,
            modulus,
            form,
        } => {
            let put = Atom::Congruent {
                holds: *holds,
                modulus: *modulus,
                form: form_put(alloc, names, form, at)?,
            };
            in_normal_form(alloc, context, put)
        }
    }
}
