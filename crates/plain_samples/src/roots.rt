// Where an atom in one name is 0.
ghost use Rattle.std.specs.Prelude.{◌≡◌, [], ◌∷◌, option_map};
ghost use Rattle.exact_numbers.specs.Fraction.{frac_of};
ghost use Rattle.exact_numbers.specs.Limit.{InLimit};
ghost use Rattle.normal_atoms.specs.Atoms.{atom_of};
ghost use Rattle.logic_meaning.specs.Calculated.{root_of, atom_root};
ghost use Rattle.plain_samples.specs.Roots.{least_among};

use crate::numbers::{is_above, lesser, seen};
use exact_numbers::Fraction;
use logic_meaning::{Side, VarId};
use normal_atoms::Atom;

// Where a multiple of a name and a constant are 0 together; there is no such number where the factor is 0.
fn root(factor: i128, constant: i128) -> Option<Fraction>
    requires factor { InLimit factor }
    requires constant { InLimit constant }
    ensures { option_map frac_of result ≡ root_of factor constant }
{
    if factor == 0 {
        None
    } else if factor < 0 {
        Some(Fraction::reduced(constant, -factor))
    } else {
        Some(Fraction::reduced(-constant, factor))
    }
}

// Where the form of a comparison is 0, if `x` stands in it and no other name; a congruence has no such number.
fn atom_root(x: VarId, atom: &Atom) -> Option<Fraction>
    ensures { option_map frac_of result ≡ atom_root x.number (atom_of atom.now) }
{
    match atom {
        Atom::Compare(_, form) => root(form.coefficient(x), form.constant_part()),
        Atom::Congruent { .. } => None,
    }
}

/// The lesser of what may be there and of the atom's critical value as the side sees it, if it has one above the bound.
pub fn least_with_atom(
    side: Side,
    x: VarId,
    bound: Option<Fraction>,
    least: Option<Fraction>,
    atom: &Atom,
) -> Option<Fraction>
    ensures { option_map frac_of result ≡ least_among side x.number (option_map frac_of bound) (option_map frac_of least) (atom_of atom.now ∷ []) }
{
    let Some(root) = atom_root(x, atom) else {
        return least;
    };
    let number = seen(side, root);
    if is_above(bound, number) {
        Some(lesser(number, least))
    } else {
        least
    }
}
