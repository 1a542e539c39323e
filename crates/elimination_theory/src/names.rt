//! Which names stand in a formula after elimination.

ghost use Rattle.elimination_theory.specs.NamesTheorems.{SubstitutionKeepsNames, PointsHaveNamesOfFormula, EliminationKeepsNames};

/// With `x` at a place a formula has its own other names and those of the place alone.
pub fn substitution_keeps_names()
    ensures { SubstitutionKeepsNames }
{}

/// The test points of `x` have free names of `ex(x, f)` alone.
pub fn points_have_names_of_formula()
    ensures { PointsHaveNamesOfFormula }
{}

/// What elimination makes of `ex(x, f)` has free names of `ex(x, f)` alone.
pub fn elimination_keeps_names()
    ensures { EliminationKeepsNames }
{}
