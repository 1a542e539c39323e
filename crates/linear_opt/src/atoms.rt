// The truth of an atom where a name has a value and all others are 0, and the critical value of an atom.
ghost use Rattle.std.specs.Prelude.{◌≡◌, ◌+ℤ◌, ◌*ℤ◌, pos, option_map};
ghost use Rattle.std.specs.Ordering.{int_cmp};
ghost use Rattle.exact_numbers.specs.Fraction.{frac_of};
ghost use Rattle.exact_numbers.specs.Limit.{InLimit};
ghost use Rattle.normal_atoms.specs.Atoms.{atom_of};
ghost use Rattle.logic_meaning.specs.Calculated.{atom_root};
ghost use Rattle.linear_theory.specs.Answer.{far_order};
ghost use Rattle.linear_opt.specs.Values.{told};

use engine_answers::least_with_atom;
use exact_numbers::{Fraction, compare_fractions};
use logic_meaning::{Side, VarId};
use normal_atoms::{Atom, holds};
use std::cmp::Ordering;

/// A value of a name.
#[derive(Clone, Copy)]
pub(crate) enum Value {
    /// Below all numbers.
    FarBelow,
    /// A number.
    At(Fraction),
}

// How `factor * z + constant` is to 0 where `z` is below all numbers.
fn far_order(factor: i128, constant: i128) -> Ordering
    ensures { result ≡ far_order factor constant }
{
    match factor.cmp(&0) {
        Ordering::Less => Ordering::Greater,
        Ordering::Equal => constant.cmp(&0),
        Ordering::Greater => Ordering::Less,
    }
}

// How `factor * z + constant` is to 0 where `z` is the number: `z` is compared with `-constant / factor`, so that no product is
// formed.
fn order_at(z: Fraction, factor: i128, constant: i128) -> Ordering
    requires factor { InLimit factor }
    requires constant { InLimit constant }
    ensures { result ≡ int_cmp (factor *ℤ z.numerator +ℤ constant *ℤ z.denominator) (pos 0) }
{
    match factor.cmp(&0) {
        Ordering::Less => compare_fractions(constant, -factor, z.numerator, z.denominator),
        Ordering::Equal => constant.cmp(&0),
        Ordering::Greater => compare_fractions(z.numerator, z.denominator, -constant, factor),
    }
}

/// Whether the atom is true where the name has the value and all others are 0; a congruence is not.
pub(crate) fn is_true(z: VarId, value: Value, atom: &Atom) -> bool
    ensures { result ≡ told z.number value (atom_of atom.now) }
{
    let Atom::Compare(relation, form) = atom else {
        return false;
    };
    let factor = form.coefficient(z);
    let constant = form.constant_part();
    let order = match value {
        Value::FarBelow => far_order(factor, constant),
        Value::At(number) => order_at(number, factor, constant),
    };
    holds(*relation, order)
}

/// The value of the name at which the form of a comparison is 0 where all other names are 0, if the name stands in it.
pub(crate) fn critical_value(z: VarId, atom: &Atom) -> Option<Fraction>
    ensures { option_map frac_of result ≡ atom_root z.number (atom_of atom.now) }
{
    least_with_atom(Side::Lower, z, None, None, atom)
}
