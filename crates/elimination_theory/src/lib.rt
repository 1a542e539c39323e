//! Test points suffice: the theorems of quantifier elimination, each the contract of a function that does nothing.
#![tactic(auto)]

pub mod fields;
pub mod integers;
pub mod names;
pub mod points;
pub mod steps;
pub mod truth;

ghost use Rattle.logic_meaning.specs.Context.{Context as Theory};
ghost use Rattle.std.specs.Prelude.{ℕ};
ghost use Rattle.logic_meaning.specs.Tree.{Tree};
ghost use Rattle.elimination_theory.specs.LimitLaws.{LimitsAreTested};
ghost use Rattle.elimination_theory.specs.Turned.{AllIsNegatedEx};
ghost use Rattle.elimination_theory.specs.CasesOver.{CasesHaveAnswers, CasesAreOver};
ghost use Rattle.elimination_theory.specs.Theorems.{ReferenceIsExact, CostBoundsNodes, CasesAreExact, PuttingInIsExact, TruthIsTold, SamplesAreExact};

use normal_atoms::Context;

/// Of a formula over normal atoms, the reference elimination gives an equivalent one without quantifiers, over its free names,
/// built by `and` and `or` with two members at least from normal atoms.
pub fn reference_is_exact()
    ensures { (c : Theory) → ReferenceIsExact c }
{}

/// What the reference elimination gives has at most as many nodes as it cost, and that is within the limit.
pub fn cost_bounds_nodes()
    ensures { (c : Theory) → CostBoundsNodes c }
{}

/// The guard of each case is true exactly where its answers make the matrix behind the leading quantifiers true. Together the
/// guards are equivalent to the formula, or to its negation where it begins with `all`.
pub fn cases_are_exact()
    ensures { (c : Theory) → CasesAreExact c }
{}

/// The place of each answer of a case is one of the theory, its form is sorted, and its numbers are within the limit.
pub fn answers_are_places()
    ensures { (c : Theory) → CasesHaveAnswers c }
{}

/// The form of each answer of a case has no names but free names of the formula and names that are answered before it.
pub fn answers_have_names_before()
    ensures { (c : Theory) → CasesAreOver c }
{}

/// With a point put in, a formula has the truth that it has there, no free names, normal atoms, and the nodes of its negation
/// normal form.
pub fn putting_in_is_exact()
    ensures { (c : Theory) → PuttingInIsExact c }
{}

/// At a point the reference elimination gives `true` exactly where the formula is true there, and else `false`.
pub fn truth_is_told()
    ensures { (c : Theory) → TruthIsTold c }
{}

/// Steps are chosen exactly where the formula, or its negation where it begins with `all`, is true at the point. Then there is
/// a sample of them, and every sample makes the matrix behind the leading quantifiers true; over the integers it is whole.
pub fn samples_are_exact()
    ensures { (c : Theory) → SamplesAreExact c }
{}

/// The tests by which the reference elimination stops with `Overflow` are true exactly where the numbers that a step forms are
/// within the limit.
pub fn limits_are_tested()
    ensures { (c : Theory) (x : ℕ) (f : Tree) → LimitsAreTested c x f }
{}

/// The reference elimination of `all(x, f)` is the negation of that of `ex(x, not f)`: its sign stands for a negation.
pub fn all_is_negated_ex()
    ensures { AllIsNegatedEx }
{}
