// Congruences in normal form.
ghost use Rattle.std.specs.Prelude.{◌≡◌, ℤ, pos, negsuc, ◌<ℤ◌, ◌≤ℤ◌, ◌-ℤ◌, ◌∷◌, unsigned_abs, int_div, IfOk};
ghost use Rattle.std.specs.Ordering.{int_cmp, int_eq, is_gt};
ghost use Rattle.exact_numbers.specs.Limit.{InLimit};
ghost use Rattle.exact_numbers.specs.Divides.{Divides, content_of, residue_of};
ghost use Rattle.exact_numbers.specs.Division.{DividesAll};
ghost use Rattle.logic_meaning.specs.Form.{scale};
ghost use Rattle.logic_meaning.specs.Atom.{form_of};
ghost use Rattle.logic_meaning.specs.Every.{Every};
ghost use Rattle.logic_meaning.specs.Reduction.{residue_form};
ghost use Rattle.logic_meaning.specs.Terms.{coefficients};
ghost use Rattle.linear_forms.specs.Combinations.{IsLinear};
ghost use Rattle.logic_meaning.specs.NormalForm.{first, smaller, congruence, coprime_congruence, congruent};
ghost use Rattle.normal_atoms.specs.Atoms.{atom_of, tree_of, IsWellFormed, IsWellFormedNormal};

use crate::atoms::{Atom, Normal};
use crate::parts::{constant, divided, first_coefficient};
use exact_numbers::{gcd, residue};
use linear_forms::Linear;
use std::alloc::{AllocError, Global};

// The congruence, or its negation; modulo 2 the negation is the congruence of the form with the other constant.
pub(crate) fn told(holds: bool, modulus: i128, form: Linear) -> Atom
    requires { pos 0 <ℤ modulus }
    ensures value { atom_of result ≡ congruence holds (unsigned_abs modulus) form }
    ensures well_formed { IsWellFormed result }
    ensures linear { IsLinear (form_of (atom_of result)) }
{
    let number = form.constant_part();
    if holds {
        Atom::Congruent {
            holds: true,
            modulus,
            form,
        }
    } else if modulus == 2 {
        Atom::Congruent {
            holds: true,
            modulus: 2,
            form: form.with_constant(1 - residue(number, 2)),
        }
    } else {
        Atom::Congruent {
            holds: false,
            modulus,
            form,
        }
    }
}

// Whether the first coefficient is larger than that of the negative modulo a number.
fn is_larger(modulus: i128, form: &Linear) -> bool
    requires positive { pos 0 <ℤ modulus }
    requires reduced { pos 0 ≤ℤ first form.now.terms }
    ensures { result ≡ is_gt (int_cmp (first form.now.terms) (modulus -ℤ first form.now.terms)) }
{
    let first = first_coefficient(form);
    first.cmp(&(modulus - first)).is_gt()
}

// The negative of a form.
fn negative(alloc: Global, form: &Linear) -> Result<Linear, AllocError>
    ensures { IfOk result (λ r. r ≡ scale (negsuc 0) form.now) }
{
    match form.divide_exact(alloc, -1) {
        Ok(form) => Ok(form),
        Err(_) => Err(AllocError),
    }
}

// Of a form and its negative modulo a number, the one whose first coefficient is the smaller.
fn smaller(alloc: Global, modulus: i128, form: Linear) -> Result<Linear, AllocError>
    requires positive { pos 0 <ℤ modulus }
    requires reduced { pos 0 ≤ℤ first form.terms }
    ensures { IfOk result (λ r. r ≡ smaller modulus form) }
{
    if is_larger(modulus, &form) {
        let negative = negative(alloc, &form)?;
        negative.residues(alloc, modulus)
    } else {
        Ok(form)
    }
}

// The greatest common divisor of the modulus and all coefficients.
fn common_divisor(modulus: i128, form: &Linear) -> i128
    requires { pos 0 <ℤ modulus }
    ensures value { result ≡ content_of (modulus ∷ coefficients form.now.terms) }
    ensures positive { pos 0 <ℤ result }
    ensures modulus { Divides result modulus }
    ensures terms { DividesAll result (coefficients form.now.terms) }
    ensures within { InLimit result }
{
    gcd(modulus, form.content())
}

// Whether a positive number divides another.
pub(crate) fn divides(divisor: i128, number: i128) -> bool
    requires { pos 0 <ℤ divisor }
    ensures { result ≡ int_eq (residue_of number divisor) (pos 0) }
{
    residue(number, divisor).cmp(&0).is_eq()
}

// The quotient of two positive numbers, of which one divides the other.
fn quotient(number: i128, divisor: i128) -> i128
    requires number_positive { pos 0 <ℤ number }
    requires divisor_positive { pos 0 <ℤ divisor }
    requires divides { Divides divisor number }
    ensures value { result ≡ int_div number divisor }
    ensures positive { pos 0 <ℤ result }
{
    number / divisor
}

// A congruence whose coefficients have no common divisor with the modulus.
fn coprime(alloc: Global, holds: bool, modulus: i128, form: Linear) -> Result<Normal, AllocError>
    requires positive { pos 0 <ℤ modulus }
    requires reduced { pos 0 ≤ℤ first form.terms }
    ensures normal { IfOk result (λ n. tree_of n ≡ coprime_congruence holds modulus form) }
    ensures well_formed { IfOk result IsWellFormedNormal }
    ensures linear { IfOk result (λ n. Every (λ a. IsLinear (form_of a)) (tree_of n)) }
{
    if modulus.cmp(&1).is_eq() {
        return Ok(constant(holds));
    }
    match smaller(alloc, modulus, form) {
        Ok(form) => Ok(Normal::One(told(holds, modulus, form))),
        Err(error) => Err(error),
    }
}

// The numbers are reduced modulo the modulus, and all are divided by the greatest common divisor of the modulus and the
// coefficients.
pub(crate) fn congruent(
    alloc: Global,
    holds: bool,
    modulus: i128,
    form: Linear,
) -> Result<Normal, AllocError>
    requires { pos 0 <ℤ modulus }
    ensures normal { IfOk result (λ n. tree_of n ≡ congruent holds modulus form) }
    ensures well_formed { IfOk result IsWellFormedNormal }
    ensures linear { IfOk result (λ n. Every (λ a. IsLinear (form_of a)) (tree_of n)) }
    ensures given { IsLinear form }
{
    let _number = form.constant_part();
    let reduced = form.residues(alloc, modulus)?;
    let divisor = common_divisor(modulus, &reduced);
    if divides(divisor, reduced.constant_part()) {
        let form = divided(alloc, reduced, divisor)?;
        coprime(alloc, holds, quotient(modulus, divisor), form)
    } else {
        Ok(constant(!holds))
    }
}
