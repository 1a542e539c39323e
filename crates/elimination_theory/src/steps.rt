//! Elimination step by step, as a program takes it, in both theories.

ghost use Rattle.logic_meaning.specs.Context.{Context};
ghost use Rattle.elimination_theory.specs.StepTheorems.{StepsAreExact};
ghost use Rattle.elimination_theory.specs.AnswersTheorems.{AnswersHold, AbsentNameIsZero};
ghost use Rattle.elimination_theory.specs.AnswersExample.{PeriodOfTheBranch};
ghost use Rattle.elimination_theory.specs.Samples.{SamplesAreTrue, SamplesExist};

/// One step is exact for every normal form of atoms that keeps truth: `ex(x, f)` is equivalent to the disjunction of what the
/// step leaves, and each result is equivalent to the substitution at its place, over the free names of `ex(x, f)`.
pub fn steps_are_exact()
    ensures { (c : Context) → StepsAreExact c }
{}

/// Where each branch is equivalent to the substitution into the branch before it, the answers make the first formula true
/// exactly where the last branch is true.
pub fn answers_hold()
    ensures { (c : Context) → AnswersHold c }
{}

/// A name that does not stand in a branch may be put at 0: the branch stays.
pub fn absent_name_is_zero()
    ensures { (c : Context) → AbsentNameIsZero c }
{}

/// Where the last branch is true, the first formula is true at the samples of the answers, taken one after the other.
pub fn samples_are_true()
    ensures { (c : Context) → SamplesAreTrue c }
{}

/// Where the last branch is true there are samples.
pub fn samples_exist()
    ensures { (c : Context) → SamplesExist c }
{}

/// `y = 3 - 3*infinity, x = y` are answers of `x = y and (cong(x+y+1,0,4) or cong(y,0,3))`: the period is one of the branch
/// that is left when `y` is put in for `x`.
pub fn period_of_the_branch()
    ensures { PeriodOfTheBranch }
{}
