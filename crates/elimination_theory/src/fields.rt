//! Ordered fields: test points with infinitesimals and infinities.

ghost use Rattle.elimination_theory.specs.FieldsTheorems.{FieldTestPointsSuffice, FieldAtomIsExact, FieldSubstitutionIsExact};
ghost use Rattle.elimination_theory.specs.Decided.{FieldEliminationIsExact};
ghost use Rattle.elimination_theory.specs.FieldsSamples.{FieldSampleIsTrue, FieldSampleExists, FieldSampleIsUnique};
ghost use Rattle.elimination_theory.specs.FieldsExample.{OpenIntervalPoints, OpenIntervalSubstitutions, EpsilonIsNeeded};

/// For a formula built by `and` and `or`, `ex(x, f)` is true exactly where some test point of the side makes `f` true.
pub fn field_test_points_suffice()
    ensures { FieldTestPointsSuffice }
{}

/// An atom with `x` at a place is true exactly where the place makes the atom true.
pub fn field_atom_is_exact()
    ensures { FieldAtomIsExact }
{}

/// A formula built by `and` and `or`, with `x` at a place, is true exactly where the place makes the formula true.
pub fn field_substitution_is_exact()
    ensures { FieldSubstitutionIsExact }
{}

/// For a formula built by `and` and `or`, `ex(x, f)` is equivalent to the disjunction over its test points.
pub fn field_elimination_is_exact()
    ensures { FieldEliminationIsExact }
{}

/// The test points of `x > a and x < b`, on both sides.
pub fn points_of_an_open_interval()
    ensures { OpenIntervalPoints }
{}

/// What `x > a and x < b` becomes at each test point of the lower side.
pub fn substitutions_of_an_open_interval()
    ensures { OpenIntervalSubstitutions }
{}

/// `x > a and x < b` is true somewhere at `a = 0` and `b = 1`, but neither far below nor at `a` itself.
pub fn epsilon_is_needed()
    ensures { EpsilonIsNeeded }
{}

/// A formula that holds at a place is true at the place's sample: half way to the next critical value, or one beyond all.
pub fn field_sample_is_true()
    ensures { FieldSampleIsTrue }
{}

/// Each place has a sample.
pub fn field_sample_exists()
    ensures { FieldSampleExists }
{}

/// A place has one sample alone, as a fraction.
pub fn field_sample_is_unique()
    ensures { FieldSampleIsUnique }
{}
