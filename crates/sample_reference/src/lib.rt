//! The reference sample: values for the names of the leading block, calculated from the first case whose guard is true, and its
//! theorems. Each function does nothing; its contract is a theorem.
#![tactic(auto)]

ghost use Rattle.logic_meaning.specs.Context.{Context};
ghost use Rattle.sample_reference.specs.Theorems.{SampleIsTrue, ClosedSampleIsTrue};
ghost use Rattle.sample_reference.specs.SentenceTheoryTheorems.{SampleGivesWitnesses, ClosedTidyIsConstant};

/// Where the reference sample gives values, they are those of the names of the leading block, in lowest terms and over the integers
/// whole, and the matrix behind the block is true at the point with them. It gives none exactly where the formula, or its negation
/// where it begins with `all`, is false at the point.
pub fn sample_is_true()
    ensures { (c : Context) → SampleIsTrue c }
{}

/// The same of a formula without free names, whose sample is taken at no point.
pub fn closed_sample_is_true()
    ensures { (c : Context) → ClosedSampleIsTrue c }
{}

/// The first values of a sample are witnesses.
pub fn sample_gives_witnesses()
    ensures { (c : Context) → SampleGivesWitnesses c }
{}

/// A tidy formula without free names is `true` or `false`.
pub fn closed_tidy_is_constant()
    ensures { (c : Context) → ClosedTidyIsConstant c }
{}
