//! The lists of test points.

ghost use Rattle.logic_meaning.specs.Context.{Context};
ghost use Rattle.elimination_theory.specs.PointsTheorems.{PointsStandOnce, AtomsMayRepeat, PointsAreSorted};
ghost use Rattle.elimination_theory.specs.LowestPoints.{FieldPointsAreInLowestTerms};

/// Each atom of a formula and each of its test points stands once in its list, in both theories.
pub fn points_stand_once()
    ensures { PointsStandOnce }
{}

/// Each test point of the ordered fields is in lowest terms.
pub fn field_points_are_in_lowest_terms()
    ensures { FieldPointsAreInLowestTerms }
{}

/// Over the ordered fields the test points are those of the atoms as they stand in the text: repeats of atoms need not be dropped.
pub fn atoms_may_repeat()
    ensures { AtomsMayRepeat }
{}

/// Where the forms of atoms are sorted, so is the form of each of their test points, in both theories.
pub fn points_are_sorted()
    ensures { (c : Context) → PointsAreSorted c }
{}
