// What is proved of samples of answers. Each function does nothing: its contract is the law, and its check is the proof.
ghost use Rattle.logic_meaning.specs.Context.{Context};
ghost use Rattle.case_theory.specs.Samples.{ValueIsTrue, ValueIsSample, SampleOfAnswersIsTrue, LeadIsSampleable};
ghost use Rattle.case_theory.specs.CriticalSet.{ValueIsOfAtoms};
ghost use Rattle.case_theory.specs.Known.{KnownAreThePoint};
ghost use Rattle.case_theory.specs.Reordered.{CaseGivesSample, CaseIsSampleable, CaseTreeGivesSample};

/// Where a place makes a formula true, the value calculated for the place makes it true: at every place of the ordered fields, and
/// of the integers in the residue classes of any period, up or down, though it is perhaps one of none of the formula's congruences.
pub fn value_is_true()
    ensures { (c : Context) → ValueIsTrue c }
{}

/// The value calculated for a place is the place's one sample in the branch with the point put in: half way to the next critical value
/// or one further, one beyond all critical values, or the first number of the class beyond them.
pub fn value_is_sample()
    ensures { (c : Context) → ValueIsSample c }
{}

/// The value at a place depends on the set of the branch's atoms alone, with the point put in: so a formula whose parts are shared may
/// be walked in any order, each part once.
pub fn value_is_of_atoms()
    ensures { (c : Context) → ValueIsOfAtoms c }
{}

/// The values calculated for answers one after the other, each from the formula with the answers after it put in, make the formula
/// true. Over the integers their periods have to fit the formula where answered names move; over the ordered fields nothing is asked.
pub fn sample_of_answers_is_true()
    ensures { (c : Context) → SampleOfAnswersIsTrue c }
{}

/// Answers found one after the other under assumptions can be sampled where the assumptions and the last branch are true.
pub fn lead_is_sampleable()
    ensures { (c : Context) → LeadIsSampleable c }
{}

/// The numbers of a point, in lowest terms, are known values, where each other name is at 0.
pub fn known_are_the_point()
    ensures { (c : Context) → KnownAreThePoint c }
{}

/// Values that make the matrix true are a sample of the formula, in the order of its block.
pub fn case_gives_sample()
    ensures { (c : Context) → CaseGivesSample c }
{}

/// A case of a case tree can be sampled where the theory and its guard are true.
pub fn case_is_sampleable()
    ensures { (c : Context) → CaseIsSampleable c }
{}

/// The values calculated for such a case, in the order of the block, are a sample of the formula.
pub fn case_tree_gives_sample()
    ensures { (c : Context) → CaseTreeGivesSample c }
{}
