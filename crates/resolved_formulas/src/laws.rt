// The laws of the fraction rule and of resolving. Each function does nothing; its contract is a law.
ghost use Rattle.resolved_formulas.specs.ResolvedLaws.{CalculatedByRule, FormHasValue, FormIsLowest, MissingHasCause, ResolvingKeepsTruth, ResolvingIsNormal, ResolvingBringsNoName, ResolvingKeepsHeight};

/// What is calculated for a term at a point is the fraction rule taken for fractions.
pub fn fractions_go_by_the_rule()
    ensures { CalculatedByRule }
{}

/// A form that is there has the value of its term at every point, and is in lowest terms. Where none is there though no
/// number passes the limit, the term multiplies names or has a quotient that is not allowed.
pub fn forms_have_values()
    ensures value { FormHasValue }
    ensures lowest { FormIsLowest }
    ensures missing { MissingHasCause }
{}

/// Where no cause applies, a resolved formula has the truth of the written one at every point of the theory, its atoms
/// are in normal form, and it has no other free names. It is as high as the written one with the bound trees in place.
pub fn resolving_keeps_truth()
    ensures truth { ResolvingKeepsTruth }
    ensures normal { ResolvingIsNormal }
    ensures names { ResolvingBringsNoName }
    ensures height { ResolvingKeepsHeight }
{}
