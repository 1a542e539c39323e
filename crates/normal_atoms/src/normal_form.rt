// The normal form of an atom, its negation, and its truth.
ghost use Rattle.std.specs.Prelude.{◌≡◌, ℤ, pos, ◌<ℤ◌, unsigned_abs, IfOk, IfErr, IsErrOf, MatchOption, MatchBool, option_map};
ghost use Rattle.std.specs.Ordering.{int_eq};
ghost use Rattle.linear_forms.specs.FromFormulaLaws.{AtomIn};
ghost use Rattle.logic_meaning.specs.Atom.{Says, form_of};
ghost use Rattle.logic_meaning.specs.Every.{Every};
ghost use Rattle.exact_numbers.specs.Divides.{residue_of};
ghost use Rattle.logic_meaning.specs.Terms.{ValuePasses, value_steps};
ghost use Rattle.linear_forms.specs.Combinations.{IsLinear};
ghost use Rattle.linear_forms.specs.Values.{number_at, point_of};
ghost use Rattle.logic_meaning.specs.NormalForm.{normal_atom, negated_normal, ConstantPasses};
ghost use Rattle.normal_atoms.specs.AtomTruth.{is_true_at};
ghost use Rattle.normal_atoms.specs.Atoms.{context_of, atom_of, tree_of, IsWellFormed, IsWellFormedNormal, IsAskedWhole};

use crate::atoms::{Atom, Context, Normal};
use crate::comparison::{in_fields, over_integers};
use crate::congruence::{congruent, divides, told};
use crate::error::AtomError;
use crate::parts::{holds, opposite};
use linear_forms::{Linear, Values};
use std::alloc::Global;

/// The normal form of an atom of the theory: it has the atom's truth at every point of the theory.
///
/// Over the fields all numbers of the form are divided by their greatest common divisor; over the integers the coefficients
/// are divided and the bound is rounded; a congruence's numbers are residues without a common divisor. The first coefficient
/// is positive. `Overflow` comes exactly where the constant of the normal form passes 2^127 - 1, else `Memory`.
pub fn normal(alloc: Global, context: Context, atom: Atom) -> Result<Normal, AtomError>
    requires well_formed { IsWellFormed atom }
    requires in_context { AtomIn (context_of context) (atom_of atom) }
    ensures normal { IfOk result (λ n. tree_of n ≡ normal_atom (context_of context) (atom_of atom)) }
    ensures well_formed { IfOk result IsWellFormedNormal }
    ensures linear { IfOk result (λ n. Every (λ a. IsLinear (form_of a)) (tree_of n)) }
    ensures overflow { IsErrOf result AtomError.Overflow → ConstantPasses (normal_atom (context_of context) (atom_of atom)) }
{
    match atom {
        Atom::Compare(relation, form) => match context {
            Context::Fields => Ok(in_fields(alloc, relation, form)?),
            Context::Integers => over_integers(alloc, relation, form),
        },
        Atom::Congruent {
            holds,
            modulus,
            form,
        } => Ok(congruent(alloc, holds, modulus, form)?),
    }
}

/// The atom of the opposite truth, which is normal where the atom is. Its only error is `Memory`.
pub fn negate(alloc: Global, atom: &Atom) -> Result<Atom, AtomError>
    requires { IsWellFormed atom.now }
    ensures negated { IfOk result (λ a. atom_of a ≡ negated_normal (atom_of atom.now)) }
    ensures well_formed { IfOk result IsWellFormed }
    ensures memory { IfErr result (λ e. e ≡ AtomError.Memory) }
{
    match atom {
        Atom::Compare(relation, form) => {
            let form = form.copy(alloc)?;
            Ok(Atom::Compare(opposite(*relation), form))
        }
        Atom::Congruent {
            holds,
            modulus,
            form,
        } => {
            let form = form.copy(alloc)?;
            Ok(told(!*holds, *modulus, form))
        }
    }
}

/// Whether the atom is true at the numbers; of a congruence it is asked at whole numbers alone, over the denominator 1.
/// `None` exactly where the form's value is `None`. It takes no memory.
pub fn truth(atom: &Atom, at: &Values) -> Option<bool>
    requires well_formed { IsWellFormed atom.now }
    requires whole { IsAskedWhole atom.now at.now.denominator }
    ensures rule { result ≡ option_map (is_true_at (atom_of atom.now)) (value_steps (form_of (atom_of atom.now)) (number_at at.now) at.now.denominator) }
    ensures outcome { MatchOption result (ValuePasses (form_of (atom_of atom.now)) (number_at at.now) at.now.denominator)
        (λ b. MatchBool b (Says (atom_of atom.now) (point_of at.now)) (¬ (Says (atom_of atom.now) (point_of at.now)))) }
{
    let _denominator = at.denominator();
    match atom {
        Atom::Compare(relation, form) => {
            let value = form.value(at)?;
            Some(holds(*relation, value.cmp(&0)))
        }
        Atom::Congruent {
            holds,
            modulus,
            form,
        } => {
            let value = form.value(at)?;
            Some(divides(*modulus, value) == *holds)
        }
    }
}
