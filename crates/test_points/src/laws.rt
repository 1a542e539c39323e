// What test points of the ordered fields are good for. Each function does nothing; its contract is a law.
ghost use Rattle.test_points.specs.Laws.{FieldPointsSuffice, FieldPointsKeepNames, FieldSubstitutionHolds, FieldSubstitutionKeepsNames};

/// For a formula built by `and` and `or` over the atoms that `field_points` was given, `ex(x, F)` is true exactly where some
/// point of its list makes `F` true (Loos and Weispfenning 1993). The points have free names of `ex(x, F)` alone.
pub fn field_points_suffice()
    ensures suffice { FieldPointsSuffice }
    ensures names { FieldPointsKeepNames }
{}

/// What `substitute_field` makes of an atom is true exactly where the point makes the atom true, and has the atom's other
/// names and those of the point alone.
pub fn field_substitution_is_exact()
    ensures holds { FieldSubstitutionHolds }
    ensures names { FieldSubstitutionKeepsNames }
{}
