//! Atoms with other names, in normal form.

ghost use Rattle.std.specs.Prelude.{◌≡◌, ℕ, Bool, false, take, IfOk, OnOk, IsErrOf};
ghost use Rattle.logic_meaning.specs.Context.{Context as Theory};
ghost use Rattle.logic_meaning.specs.Form.{coefficient};
ghost use Rattle.logic_meaning.specs.Atom.{form_of};
ghost use Rattle.formula_laws.specs.TheoryAtoms.{AtomIn};
ghost use Rattle.logic_meaning.specs.Sorted.{gathered};
ghost use Rattle.linear_forms.specs.Combinations.{IsLinear};
ghost use Rattle.normal_atoms.specs.Atoms.{context_of, atom_of, IsWellFormed};
ghost use Rattle.logic_meaning.specs.NormalForm.{normal_atom, IsNormal, ConstantPasses};
ghost use Rattle.nnf_trees.specs.Nnfs.{nnf_of, IsProper};
ghost use Rattle.shape_theory.specs.Links.{IsOneToOne};
ghost use Rattle.logic_meaning.specs.Renaming.{terms_named, form_named, atom_named};
ghost use Rattle.prenex_forms.specs.Named.{now_of, IsOneToOneForm};

use linear_forms::Linear;
use logic_meaning::VarId;
use nnf_trees::Nnf;
use normal_atoms::{Atom, AtomError, Context, Normal, normal};
use std::alloc::{AllocError, Global};
use written_atoms::WholeSum;

/// An atom with each name as the list says, in normal form; an atom whose names all stay is copied. `Overflow` comes exactly
/// where the constant of the normal form passes 2^127 - 1, else `Memory`.
#[tactic(auto, using(nnf_trees::proofs::NnfEquations::nnfs))]
pub(crate) fn renamed_atom(
    alloc: Global,
    context: Context,
    now: &[usize],
    atom: &Atom,
) -> Result<Nnf, AtomError>
    requires well_formed { IsWellFormed atom.now }
    requires normal { IsNormal (context_of context) (atom_of atom.now) }
    requires one { IsOneToOne (now_of now.now) (atom_of atom.now) }
    ensures made { IfOk result (λ r. nnf_of r ≡ normal_atom (context_of context) (atom_named (now_of now.now) (atom_of atom.now))) }
    ensures proper { IfOk result IsProper }
    ensures fits { OnOk result (¬ (ConstantPasses (normal_atom (context_of context) (atom_named (now_of now.now) (atom_of atom.now))))) }
    ensures overflow { IsErrOf result AtomError.Overflow → ConstantPasses (normal_atom (context_of context) (atom_named (now_of now.now) (atom_of atom.now))) }
{
    // Its clause says that the numbers of the form are within the limit.
    let _constant = form(atom).constant_part();
    if !is_changed(now, form(atom)) {
        return Ok(Nnf::One(atom.copy(alloc)?));
    }
    let atom = changed(alloc, now, atom)?;
    match normal(alloc, context, atom)? {
        Normal::True => Ok(Nnf::Constant(true)),
        Normal::False => Ok(Nnf::Constant(false)),
        Normal::One(atom) => Ok(Nnf::One(atom)),
    }
}

// The form of an atom.
pub(crate) fn form(atom: &Atom) -> &Linear
    ensures { result.now ≡ form_of (atom_of atom.now) }
{
    match atom {
        Atom::Compare(_, form) => form,
        Atom::Congruent { form, .. } => form,
    }
}

// What a name has become.
fn named(now: &[usize], name: VarId) -> VarId
    ensures { result.number ≡ now_of now.now name.number }
{
    match now.get(name.number) {
        Some(number) => VarId { number: *number },
        None => name,
    }
}

// Whether a name of the form has become another.
fn is_changed(now: &[usize], form: &Linear) -> bool
    ensures { result ≡ false → terms_named (now_of now.now) form.now.terms ≡ form.now.terms }
{
    for place in 0..form.places() {
        let Some((name, _)) = form.term(place) else {
            return true;
        };
        if named(now, name) != name {
            return true;
        }
    }
    false
}

// The atom with each name as the list says; its terms are sorted again.
fn changed(alloc: Global, now: &[usize], atom: &Atom) -> Result<Atom, AllocError>
    requires well_formed { IsWellFormed atom.now }
    requires one { IsOneToOne (now_of now.now) (atom_of atom.now) }
    ensures same { IfOk result (λ r. (c : Theory) → normal_atom c (atom_of r) ≡ normal_atom c (atom_named (now_of now.now) (atom_of atom.now))) }
    ensures well_formed { IfOk result IsWellFormed }
    ensures in_context { IfOk result (λ r. (c : Theory) → AtomIn c (atom_of atom.now) → AtomIn c (atom_of r)) }
{
    match atom {
        Atom::Compare(relation, form) => {
            let form = changed_form(alloc, now, form)?;
            Ok(Atom::Compare(*relation, form))
        }
        Atom::Congruent {
            holds,
            modulus,
            form,
        } => {
            let form = changed_form(alloc, now, form)?;
            Ok(Atom::Congruent {
                holds: *holds,
                modulus: *modulus,
                form,
            })
        }
    }
}

// The form with each name as the list says, where no two become one.
fn changed_form(alloc: Global, now: &[usize], form: &Linear) -> Result<Linear, AllocError>
    requires { IsOneToOneForm (now_of now.now) form.now }
    ensures same { IfOk result (λ r. gathered r ≡ gathered (form_named (now_of now.now) form.now)) }
    ensures linear { IfOk result IsLinear }
{
    let mut sum = WholeSum::of(alloc, form.constant_part());
    for place in 0..form.places() {
        let Some((name, times)) = form.term(place) else {
            return Err(AllocError);
        };
        sum.put(named(now, name), times)?;
    }
    sum.into_form(alloc)
}
