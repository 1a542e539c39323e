// A congruence with a name put at a test point of the integers.
ghost use Rattle.std.specs.Prelude.{◌≡◌, pos, ◌<ℤ◌, ◌*ℤ◌, ◌+ℤ◌, unsigned_abs, true, false, MatchOption, IfOk, IsErrOf};
ghost use Rattle.exact_numbers.specs.Limit.{InLimit};
ghost use Rattle.logic_meaning.specs.Context.{Integers};
ghost use Rattle.logic_meaning.specs.Form.{coefficient};
ghost use Rattle.logic_meaning.specs.Combining.{AddWithin, AddPasses};
ghost use Rattle.logic_meaning.specs.Atom.{Congruent};
ghost use Rattle.logic_meaning.specs.Answer.{Exact, Periodic};
ghost use Rattle.normal_atoms.specs.Atoms.{tree_of, IsWellFormedNormal};
ghost use Rattle.test_points.specs.Points.{IsTestPoint};
ghost use Rattle.test_points.specs.Substituted.{put_at, put_within};

use crate::comparing::in_normal_form;
use crate::error::PointError;
use crate::parts::{form_at, rest};
use crate::points::TestPoint;
use exact_numbers::{product, sum};
use linear_forms::{LinError, Linear};
use logic_meaning::VarId;
use normal_atoms::{Atom, Context, Normal};
use std::alloc::Global;

// The congruence with the point's form over its number for the point's name, in normal form: the modulus is multiplied too.
pub(crate) fn over_number(
    alloc: Global,
    holds: bool,
    modulus: i128,
    form: &Linear,
    point: &TestPoint,
) -> Result<Normal, PointError>
    requires positive { pos 0 <ℤ modulus }
    requires within { InLimit modulus }
    requires test_point { IsTestPoint point.now }
    requires stands { ¬ (coefficient point.now.name.number form.now ≡ pos 0) }
    ensures substituted { IfOk result (λ n. tree_of n ≡ put_at Integers point.now.name.number (Exact point.now.form (unsigned_abs point.now.over)) (Congruent holds (unsigned_abs modulus) form.now)) }
    ensures well_formed { IfOk result IsWellFormedNormal }
    ensures within { IfOk result (λ n. put_within Integers point.now.name.number (Exact point.now.form (unsigned_abs point.now.over)) (Congruent holds (unsigned_abs modulus) form.now) ≡ true) }
    ensures overflow { IsErrOf result PointError.Overflow → put_within Integers point.now.name.number (Exact point.now.form (unsigned_abs point.now.over)) (Congruent holds (unsigned_abs modulus) form.now) ≡ false }
    ensures counted { IsErrOf result PointError.Nodes → ⊥ }
{
    let Some(multiplied) = product(point.over, modulus) else {
        return Err(PointError::Overflow);
    };
    match form_at(alloc, form, point.name, &point.form, point.over) {
        Ok(form) => in_normal_form(
            alloc,
            Context::Integers,
            Atom::Congruent {
                holds,
                modulus: multiplied,
                form,
            },
        ),
        Err(LinError::Overflow) => Err(PointError::Overflow),
        Err(LinError::Memory) => Err(PointError::Memory),
    }
}

// The number that the constant becomes with a number for the name, or `None` exactly where it or the product passes the limit.
fn constant_at(form: &Linear, x: VarId, number: i128) -> Option<i128>
    ensures { MatchOption result (AddPasses (coefficient x.number form.now *ℤ number) form.now.constant) (λ k. (k ≡ coefficient x.number form.now *ℤ number +ℤ form.now.constant) × AddWithin (coefficient x.number form.now *ℤ number) form.now.constant) }
{
    sum(product(form.coefficient(x), number)?, form.constant_part())
}

// The congruence with the number of the point's residue class for the point's name, in normal form.
pub(crate) fn in_class(
    alloc: Global,
    holds: bool,
    modulus: i128,
    form: &Linear,
    point: &TestPoint,
) -> Result<Normal, PointError>
    requires positive { pos 0 <ℤ modulus }
    requires within { InLimit modulus }
    requires test_point { IsTestPoint point.now }
    requires stands { ¬ (coefficient point.now.name.number form.now ≡ pos 0) }
    ensures substituted { IfOk result (λ n. tree_of n ≡ put_at Integers point.now.name.number (Periodic point.now.form.constant point.now.period) (Congruent holds (unsigned_abs modulus) form.now)) }
    ensures well_formed { IfOk result IsWellFormedNormal }
    ensures within { IfOk result (λ n. put_within Integers point.now.name.number (Periodic point.now.form.constant point.now.period) (Congruent holds (unsigned_abs modulus) form.now) ≡ true) }
    ensures overflow { IsErrOf result PointError.Overflow → put_within Integers point.now.name.number (Periodic point.now.form.constant point.now.period) (Congruent holds (unsigned_abs modulus) form.now) ≡ false }
    ensures counted { IsErrOf result PointError.Nodes → ⊥ }
{
    let Some(constant) = constant_at(form, point.name, point.form.constant_part()) else {
        return Err(PointError::Overflow);
    };
    let rest = rest(alloc, form, point.name, false)?;
    in_normal_form(
        alloc,
        Context::Integers,
        Atom::Congruent {
            holds,
            modulus,
            form: rest.with_constant(constant),
        },
    )
}
