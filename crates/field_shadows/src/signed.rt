//! Forms with a sign, and sums in which a name cancels.

ghost use Rattle.std.specs.Prelude.{◌≡◌, pos, ◌+ℤ◌, ◌*ℤ◌, ◌<ℤ◌, int_div, IfOk};
ghost use Rattle.exact_numbers.specs.Divides.{gcd_of};
ghost use Rattle.exact_numbers.specs.Limit.{InLimit};
ghost use Rattle.logic_meaning.specs.Form.{coefficient};
ghost use Rattle.field_shadows.specs.Signed.{signed_by, form_of_signed, IsCancelled};

use exact_numbers::gcd;
use linear_forms::{LinError, Linear};
use logic_meaning::VarId;
use std::alloc::Global;

/// A form, with the other sign where it is turned.
#[derive(Clone, Copy, Debug)]
pub(crate) struct Signed<'a> {
    pub(crate) form: &'a Linear,
    pub(crate) turned: bool,
}

impl Signed<'_> {
    /// The coefficient of a name.
    pub(crate) fn coefficient(self, name: VarId) -> i128
        ensures value { result ≡ coefficient name.number (form_of_signed self.entry) }
        ensures within { InLimit result }
    {
        self.with_sign(self.form.coefficient(name))
    }

    // A number, with the other sign where the form is turned.
    fn with_sign(self, number: i128) -> i128
        requires { InLimit number }
        ensures value { result ≡ signed_by self.entry.turned number }
        ensures within { InLimit result }
    {
        if self.turned { -number } else { number }
    }

    /// A positive multiple of the form and a multiple of another in which the name stands, added up: the name cancels. `Overflow` comes only
    /// where a number passes 2^127 - 1, else `Memory`.
    pub(crate) fn cancel(
        self,
        alloc: Global,
        name: VarId,
        other: Signed<'_>,
    ) -> Result<Linear, LinError>
        requires { ¬ (coefficient name.number (form_of_signed other) ≡ pos 0) }
        ensures { IfOk result (IsCancelled name.number (form_of_signed self.entry) (form_of_signed other.entry)) }
    {
        let (times, by) = factors(self.coefficient(name), other.coefficient(name));
        self.form.combine(
            alloc,
            self.with_sign(times),
            other.form,
            other.with_sign(by),
        )
    }
}

// Numbers by which two others add up to 0, without a common divisor: the first is positive.
fn factors(own: i128, other: i128) -> (i128, i128)
    requires nonzero { ¬ (other ≡ pos 0) }
    requires own_within { InLimit own }
    requires other_within { InLimit other }
    ensures positive { pos 0 <ℤ result.0 }
    ensures cancel { result.0 *ℤ own +ℤ result.1 *ℤ other ≡ pos 0 }
    ensures within { InLimit result.0 }
    ensures other_within { InLimit result.1 }
{
    let (by, times) = quotients(own, other);
    if times > 0 {
        (times, -by)
    } else {
        (-times, by)
    }
}

// Two numbers, the second of which is not 0, divided by their greatest common divisor.
fn quotients(own: i128, other: i128) -> (i128, i128)
    requires nonzero { ¬ (other ≡ pos 0) }
    requires own_within { InLimit own }
    requires other_within { InLimit other }
    ensures own { result.0 ≡ int_div own (gcd_of own other) }
    ensures other { result.1 ≡ int_div other (gcd_of own other) }
    ensures own_quotient_within { InLimit result.0 }
    ensures other_quotient_within { InLimit result.1 }
{
    let divisor = gcd(own, other);
    (own / divisor, other / divisor)
}
