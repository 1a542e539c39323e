//! The integers: test points over a common scale, and residue classes far out.

ghost use Rattle.elimination_theory.specs.IntegersExamples.{ClassesAreNeeded, PointsOfTwoXIsA, SubstitutionOfTwoXIsA, PointsOfEvenAboveA, SpanIsNeeded, GuardIsNeeded};
ghost use Rattle.elimination_theory.specs.IntegersSample.{IntegerSampleIsTrue, IntegerSampleExists, IntegerSampleIsUnique};
ghost use Rattle.elimination_theory.specs.SpanLimits.{SpanLimits};
ghost use Rattle.elimination_theory.specs.IntegersTheorems.{IntegerPointsAreCounted, ScaleIsLeast, SpanIsLeast, IntegerScaleIsLeast, IntegerSpanIsLeast, IntegerTestPointsSuffice, IntegerTestPointsSuit, IntegerAtomIsExact, IntegerSubstitutionIsExact, IntegerEliminationIsExact};

/// For a formula built by `and` and `or`, `ex(x, f)` is true exactly where some test point of the side makes `f` true.
pub fn integer_test_points_suffice()
    ensures { IntegerTestPointsSuffice }
{}

/// The scale is the least common multiple of all coefficients of `x`, in a list of atoms and in a formula.
pub fn integer_scale_is_least()
    ensures atoms { ScaleIsLeast }
    ensures formula { IntegerScaleIsLeast }
{}

/// The span is the least common multiple of the scale and of the moduli of all congruences, multiplied as `x` is to the scale,
/// in a list of atoms and in a formula.
pub fn integer_span_is_least()
    ensures atoms { SpanIsLeast }
    ensures formula { IntegerSpanIsLeast }
{}

/// There are as many test points as the period, and as many as the span for each atom at which a comparison starts.
pub fn integer_points_are_counted()
    ensures { IntegerPointsAreCounted }
{}

/// Each test point of a formula is a place of the integers for each atom of it, so that its substitution is exact.
pub fn integer_test_points_suit()
    ensures { IntegerTestPointsSuit }
{}

/// The guard and an atom with `x` at a place are true exactly where the place makes the atom true.
pub fn integer_atom_is_exact()
    ensures { IntegerAtomIsExact }
{}

/// The guard and a formula built by `and` and `or`, with `x` at a place, are true exactly where the place makes the formula true.
pub fn integer_substitution_is_exact()
    ensures { IntegerSubstitutionIsExact }
{}

/// `ex(x, f)` is equivalent to `f` with the test points of a side put in, each with its guard.
pub fn integer_elimination_is_exact()
    ensures { IntegerEliminationIsExact }
{}

/// Where a place makes a formula true, the formula is true at the sample of the place.
pub fn integer_sample_is_true()
    ensures { IntegerSampleIsTrue }
{}

/// Where a place makes a formula true it has a sample: the number that it is, or the member of its residue class nearest
/// to the critical values among those beyond all of them.
pub fn integer_sample_exists()
    ensures { IntegerSampleExists }
{}

/// A place has at most one sample.
pub fn integer_sample_is_unique()
    ensures { IntegerSampleIsUnique }
{}

/// The points of `2*x = a` on both sides: a residue class, and two numbers over the scale 2.
pub fn integer_points_of_two_x_is_a()
    ensures { PointsOfTwoXIsA }
{}

/// `2*x = a` with `a/2` for `x`, and the guard that `a/2` is a whole number.
pub fn integer_substitution_of_two_x_is_a()
    ensures { SubstitutionOfTwoXIsA }
{}

/// The points of `x > a and cong(x, 0, 2)`, whose span is greater than its scale.
pub fn integer_points_of_even_above_a()
    ensures { PointsOfEvenAboveA }
{}

/// With the scale in place of the span a number that meets a congruence would be missed.
pub fn span_is_needed()
    ensures { SpanIsNeeded }
{}

/// Without the residue classes `ex(x, x <= a)` would be false.
pub fn residue_classes_are_needed()
    ensures { ClassesAreNeeded }
{}

/// Without the guard `2*x = a` would be true at `a = 1`.
pub fn guard_is_needed()
    ensures { GuardIsNeeded }
{}

/// Where the span is within the limit on numbers, so are the scale and each multiplied modulus.
pub fn span_limits_all()
    ensures { SpanLimits }
{}
