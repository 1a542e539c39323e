//! The variable part of an atom, told by a number: only atoms with one variable part merge or decide each other.

ghost use Rattle.std.specs.Prelude.{◌≡◌, ◌∷◌, pos, IfOk};
ghost use Rattle.logic_meaning.specs.Terms.{coefficients};
ghost use Rattle.exact_numbers.specs.Divides.{content_of};
ghost use Rattle.exact_numbers.specs.Division.{DividesAll};
ghost use Rattle.normal_atoms.specs.Atoms.{atom_of, IsWellFormed};
ghost use Rattle.theory_simplifier.specs.VariableParts.{part_number, number_from, magnitude, sign_of, part_terms};

use crate::unchanged::mixed;
use linear_forms::Linear;
use normal_atoms::Atom;
use std::alloc::{AllocError, Global};

/// A number that atoms with one variable part share; with others it is another one as a rule. The variable part is of a comparison
/// its terms divided by their content, of a congruence its terms and its modulus.
pub(crate) fn part_number(alloc: Global, atom: &Atom) -> Result<u64, AllocError>
    requires { IsWellFormed atom.now }
    ensures { IfOk result (λ n. n ≡ part_number (atom_of atom.now)) }
{
    match atom {
        Atom::Compare(_, form) => divided_number(alloc, form),
        Atom::Congruent { modulus, form, .. } => Ok(number_of(magnitude(*modulus), form)),
    }
}

// The number of the terms divided by their content, if that is not 0.
fn divided_number(alloc: Global, form: &Linear) -> Result<u64, AllocError>
    ensures { IfOk result (λ n. n ≡ number_from 0 (part_terms form.now.terms)) }
{
    let content = form.content();
    if matches!(content, 0 | 1) {
        return Ok(number_of(0, form));
    }
    let copy = form.copy(alloc).map_err(|_| AllocError)?;
    quotient_number(alloc, copy.with_constant(0), content)
}

// The number of the terms divided by their content, which is not 0.
fn quotient_number(alloc: Global, form: Linear, content: i128) -> Result<u64, AllocError>
    requires content { content ≡ content_of (coefficients form.terms) }
    requires divides { DividesAll content (form.constant ∷ coefficients form.terms) }
    requires nonzero { ¬ (content ≡ pos 0) }
    ensures { IfOk result (λ n. n ≡ number_from 0 (part_terms form.terms)) }
{
    match form.divide_exact(alloc, content) {
        Ok(quotient) => Ok(number_of(0, &quotient)),
        Err(_) => Err(AllocError),
    }
}

// The number of the terms, which goes on from another one.
fn number_of(start: u64, form: &Linear) -> u64
    ensures { result ≡ number_from start form.now.terms }
{
    let mut number = start;
    for place in 0..form.places() {
        if let Some((name, coefficient)) = form.term(place) {
            number = mixed(number, name.number as u64);
            number = mixed(number, sign_of(coefficient));
            number = mixed(number, magnitude(coefficient));
        }
    }
    number
}

// The last 64 bits of the absolute value.
fn magnitude(n: i128) -> u64
    ensures { result ≡ magnitude n }
{
    (n.unsigned_abs() % (1 << 64)) as u64
}

// 1 for a negative number, else 0.
fn sign_of(n: i128) -> u64
    ensures { result ≡ sign_of n }
{
    (n < 0) as u64
}
