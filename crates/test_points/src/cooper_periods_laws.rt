// What test points of the integers are good for. Each function does nothing; its contract is a law.
ghost use Rattle.test_points.specs.CooperPeriodsLaws.{PointsSuffice, PointsSuit, PointsKeepNames, SubstitutionHolds, SubstitutionKeepsNames};

/// For a formula built by `and` and `or` over the atoms that `integer_points` was given, `ex(x, F)` is true exactly where some
/// point of its list makes `F` true (Cooper 1972). Each point suits each atom, and has free names of `ex(x, F)` alone.
pub fn integer_points_suffice()
    ensures suffice { PointsSuffice }
    ensures suit { PointsSuit }
    ensures names { PointsKeepNames }
{}

/// What `guard` and `substitute_integer` make is true exactly where the point makes the atom true, and has the atom's other
/// names and those of the point alone.
pub fn integer_substitution_is_exact()
    ensures holds { SubstitutionHolds }
    ensures names { SubstitutionKeepsNames }
{}
