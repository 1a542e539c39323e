// The scale and the span of a name, from the atoms in which it stands.
ghost use Rattle.std.specs.Prelude.{◌≡◌, ℕ, pos, ◌<ℤ◌, unsigned_abs, All, map, MatchOption, MatchResult};
ghost use Rattle.exact_numbers.specs.Limit.{InLimit, PastLimit};
ghost use Rattle.logic_meaning.specs.Form.{coefficient};
ghost use Rattle.logic_meaning.specs.Atom.{form_of};
ghost use Rattle.logic_meaning.specs.IntegersPoints.{with_coefficient, with_modulus, scale_of, span_of, own_span};
ghost use Rattle.normal_atoms.specs.Atoms.{atom_of, IsWellFormed};
ghost use Rattle.test_points.specs.Periods.{IsPeriodOf, IsReached, with_span};

use crate::ends::quotient;
use crate::error::PointError;
use crate::scales::Period;
use exact_numbers::{lcm, product};
use logic_meaning::VarId;
use normal_atoms::Atom;

// The least common multiple of a number and of the absolute value of a coefficient, if that is not 0.
fn with_coefficient(times: i128, number: i128) -> Option<i128>
    requires times_within { InLimit times }
    requires positive { pos 0 <ℤ number }
    requires within { InLimit number }
    ensures { MatchOption result (PastLimit (pos (with_coefficient times (unsigned_abs number)))) (λ n. (n ≡ pos (with_coefficient times (unsigned_abs number))) × InLimit n) }
{
    if times == 0 {
        Some(number)
    } else {
        lcm(times.abs(), number)
    }
}

// The least common multiple of a number and of a modulus, multiplied as a coefficient that is not 0 is to the scale.
fn with_modulus(scale: i128, modulus: i128, times: i128, number: i128) -> Option<i128>
    requires scale_positive { pos 0 <ℤ scale }
    requires scale_within { InLimit scale }
    requires modulus_positive { pos 0 <ℤ modulus }
    requires modulus_within { InLimit modulus }
    requires times_within { InLimit times }
    requires reached { IsReached (unsigned_abs scale) times }
    requires positive { pos 0 <ℤ number }
    requires within { InLimit number }
    ensures { MatchOption result (PastLimit (pos (with_modulus (unsigned_abs scale) (unsigned_abs modulus) times (unsigned_abs number)))) (λ n. (n ≡ pos (with_modulus (unsigned_abs scale) (unsigned_abs modulus) times (unsigned_abs number))) × InLimit n) }
{
    if times == 0 {
        return Some(number);
    }
    let factor = quotient(scale, times.abs());
    match product(modulus, factor) {
        Some(multiplied) => lcm(multiplied, number),
        None => None,
    }
}

// The coefficient of a name in an atom.
fn coefficient(atom: &Atom, x: VarId) -> i128
    ensures value { result ≡ coefficient x.number (form_of (atom_of atom.now)) }
    ensures within { InLimit result }
{
    match atom {
        Atom::Compare(_, form) | Atom::Congruent { form, .. } => form.coefficient(x),
    }
}

// The least common multiple of all coefficients of a name, or `None` exactly where it passes the limit.
fn scale(atoms: &[Atom], x: VarId) -> Option<i128>
    ensures { MatchOption result (PastLimit (pos (scale_of x.number (map atom_of atoms.now)))) (λ n. (n ≡ pos (scale_of x.number (map atom_of atoms.now))) × InLimit n) }
{
    let mut scale = 1;
    let mut left = atoms;
    while let Some((atom, before)) = left.split_last() {
        scale = with_coefficient(coefficient(atom, x), scale)?;
        left = before;
    }
    Some(scale)
}

// The number with the modulus of a congruence in a name, multiplied as the name is to the scale.
fn spanned(atom: &Atom, x: VarId, scale: i128, number: i128) -> Option<i128>
    requires well_formed { IsWellFormed atom.now }
    requires scale_positive { pos 0 <ℤ scale }
    requires scale_within { InLimit scale }
    requires reached { IsReached (unsigned_abs scale) (coefficient x.number (form_of (atom_of atom.now))) }
    requires positive { pos 0 <ℤ number }
    requires within { InLimit number }
    ensures { MatchOption result (PastLimit (pos (with_span (unsigned_abs scale) x.number (atom_of atom.now) (unsigned_abs number)))) (λ n. (n ≡ pos (with_span (unsigned_abs scale) x.number (atom_of atom.now) (unsigned_abs number))) × InLimit n) }
{
    match atom {
        Atom::Compare(..) => Some(number),
        Atom::Congruent { modulus, form, .. } => {
            with_modulus(scale, *modulus, form.coefficient(x), number)
        }
    }
}

// The least common multiple of the scale and of the multiplied moduli of all congruences in a name, or `None` exactly where it
// passes the limit.
fn span(atoms: &[Atom], x: VarId, scale: i128) -> Option<i128>
    requires well_formed { All IsWellFormed atoms.now }
    requires scale { scale ≡ pos (scale_of x.number (map atom_of atoms.now)) }
    requires within { InLimit scale }
    ensures { MatchOption result (PastLimit (pos (own_span x.number (map atom_of atoms.now)))) (λ n. (n ≡ pos (own_span x.number (map atom_of atoms.now))) × InLimit n) }
{
    let mut span = scale;
    let mut left = atoms;
    while let Some((atom, before)) = left.split_last() {
        span = spanned(atom, x, scale, span)?;
        left = before;
    }
    Some(span)
}

/// The scale and the span of `x` in the atoms (Cooper 1972): the least common multiple of the absolute values of all
/// coefficients of `x`, and that of the scale and of all moduli of congruences in `x`, multiplied as `x` is to the scale.
/// Its only error is `Overflow`, exactly where the span passes 2^127 - 1. It takes no memory.
pub fn period(atoms: &[Atom], x: VarId) -> Result<Period, PointError>
    requires { All IsWellFormed atoms.now }
    ensures { MatchResult result (IsPeriodOf x.number (map atom_of atoms.now)) (λ e. (e ≡ PointError.Overflow) × PastLimit (pos (own_span x.number (map atom_of atoms.now)))) }
{
    let Some(scale) = scale(atoms, x) else {
        return Err(PointError::Overflow);
    };
    match span(atoms, x, scale) {
        Some(span) => Ok(Period { scale, span }),
        None => Err(PointError::Overflow),
    }
}
