// Formulas in which the critical values of a name can be found.
ghost use Rattle.std.specs.Prelude.{option_map, MatchResult};
ghost use Rattle.exact_numbers.specs.Fraction.{frac_of};
ghost use Rattle.logic_meaning.specs.Context.{Context as Theory};
ghost use Rattle.logic_meaning.specs.Tree.{Tree};
ghost use Rattle.linear_forms.specs.Values.{point_of};
ghost use Rattle.logic_meaning.specs.Calculated.{criticals};
ghost use Rattle.plain_samples.specs.Told.{Lacks};
ghost use Rattle.plain_samples.specs.Roots.{IsNextCritical};

use exact_numbers::Fraction;
use linear_forms::Values;
use logic_meaning::{Side, VarId};
use std::alloc::Global;
use test_points::PointError;

/// A formula of a theory, in which a name may be put at a place.
pub trait Branch {
    ghost context: { Self → Theory };

    ghost tree: { Self → Tree };

    ghost is_formula: { Self → Type 0 };

    /// The least above a bound, if there is one, of the critical values of `x` as the side sees them, with the numbers of the point
    /// for the other names. `Overflow` comes exactly where a number that is formed passes 2^127 - 1, else `Memory`.
    fn next_critical(
        &self,
        alloc: Global,
        side: Side,
        x: VarId,
        bound: Option<Fraction>,
        at: &Values,
    ) -> Result<Option<Fraction>, PointError>
        requires { is_formula self.now }
        ensures { MatchResult result (IsNextCritical side (option_map frac_of bound) (criticals (context self.now) x.number (tree self.now) (point_of at.now))) (λ e. Lacks e (criticals (context self.now) x.number (tree self.now) (point_of at.now))) };
}
