//! Linear constraints over the ordered fields, and multipliers that show that no point meets them. Each function does nothing;
//! its contract is a theorem.
#![tactic(auto)]

ghost use Rattle.linear_theory.specs.Refutes.{FarkasRefutes};
ghost use Rattle.linear_theory.specs.Theorems.{StepIsExact, SearchIsSound};
ghost use Rattle.linear_theory.specs.Laws.{WeakStaysWeak, WeakTargetsHaveLeast, WeakTargetsSuit, LeastIsFound, TargetIsFound, AnswersExclude};

/// No point meets constraints for which there are Farkas multipliers (Farkas, "Theorie der einfachen Ungleichungen", Journal für
/// die reine und angewandte Mathematik 124, 1902).
pub fn farkas_refutes()
    ensures { FarkasRefutes }
{}

/// The rows that are left after a name is eliminated hold at a rational point exactly where some value of the name makes the rows before hold.
pub fn step_is_exact()
    ensures { StepIsExact }
{}

/// What the search gives is a certificate: values of the names with which all constraints are met, or multipliers that show that no point meets them.
pub fn search_is_sound()
    ensures { SearchIsSound }
{}

/// Formulas built by `and` and `or` from comparisons by `=`, `<=` and `>=` keep such an equivalent where names are eliminated.
pub fn weak_stays_weak()
    ensures { WeakStaysWeak }
{}

/// Under such constraints, some names of which are eliminated, a name has no value, or unboundedly small values, or a least value.
pub fn weak_targets_have_least()
    ensures { WeakTargetsHaveLeast }
{}

/// Under such constraints a name has a least value wherever it has a value and no small enough number is one.
pub fn weak_targets_suit()
    ensures { WeakTargetsSuit }
{}

/// The calculated answer for a formula without quantifiers that has a least true value wherever it is true somewhere and false
/// at every small enough number: it says that the formula is true nowhere, or at every small enough number, or which fraction is
/// the least at which it is true.
pub fn least_is_found()
    ensures { LeastIsFound }
{}

/// Of a name under such constraints, some other names of which are eliminated, the calculated answer for any equivalent formula
/// without quantifiers says whether the name has no value, unboundedly small values, or which is the least.
pub fn target_is_found()
    ensures { TargetIsFound }
{}

/// A formula has one answer alone, so each answer is given exactly where it holds.
pub fn answers_exclude()
    ensures { AnswersExclude }
{}
