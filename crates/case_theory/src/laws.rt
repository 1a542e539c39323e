// What is proved of elimination by cases. Each function does nothing: its contract is the law, and its check is the proof.
ghost use Rattle.logic_meaning.specs.Context.{Context};
ghost use Rattle.logic_meaning.specs.Atom.{Atom};
ghost use Rattle.logic_meaning.specs.Tree.{Tree};
ghost use Rattle.case_theory.specs.CaseTree.{CasesFitAt};
ghost use Rattle.case_theory.specs.Under.{AnswersHoldUnder, AnswersFit};
ghost use Rattle.case_theory.specs.Block.{BlockHasNoOrder};
ghost use Rattle.case_theory.specs.Points.{SidePointsSuffice, ZeroSuffices, RootSuffices};
ghost use Rattle.case_theory.specs.Children.{ChildrenAreMade};
ghost use Rattle.case_theory.specs.Worked.{WorkingGoesOn};
ghost use Rattle.case_theory.specs.Pending.{PendingBegins, TakingOutLeavesRest, PendingGoesOn, CoveredMayGo, OtherMayCover, PendingEnds, BlockIsWorked};
ghost use Rattle.case_theory.specs.Inside.{PendingIsInside, InsideGoesOn, InsideIsSplit, InsideCoveredMayGo, InsideIsWorked};
ghost use Rattle.case_theory.specs.Leading.{LeadingBlockIsSplit};
ghost use Rattle.case_theory.specs.Fallback.{ReferenceIsCaseTree, MatrixIsNormal, ReferenceGivesMatrix, MatrixIsDone, StopsAreOne};
ghost use Rattle.case_theory.specs.Simplified.{TidyIsSimplifiable, ReducedIsTidy, SimplifyingIsWork};
ghost use Rattle.case_theory.specs.DirectTheorems.{DirectAnswerIsExact, DirectAnswerIsWithin};
ghost use Rattle.case_theory.specs.ClassSample.{ClassSampleIsTrue};
ghost use Rattle.std.specs.Prelude.{ℕ, List};

/// Where each branch is, under the assumptions, the substitution into the branch before it, the answers make the first formula
/// true exactly where the last branch is true, at the points where the assumptions are true. None of these has an answered name.
pub fn answers_hold_under_assumptions()
    ensures { (c : Context) → AnswersHoldUnder c }
{}

/// Then the periods of the answers fit the first formula too, though each is a period of its branch alone.
pub fn answers_fit()
    ensures { (c : Context) → AnswersFit c }
{}

/// A block of `ex` is true exactly where its formula is true at some point that differs in the names of the block alone: the
/// order of the names does not matter.
pub fn block_has_no_order()
    ensures { (c : Context) → BlockHasNoOrder c }
{}

/// The test points of a side are enough for a name, in whatever order the atoms are listed (Loos and Weispfenning 1993, Cooper
/// 1972).
pub fn side_points_suffice()
    ensures { (c : Context) → SidePointsSuffice c }
{}

/// The place 0 is enough for a name that does not stand in the formula.
pub fn zero_suffices()
    ensures { (c : Context) → ZeroSuffices c }
{}

/// The root of an equation that the formula has as a conjunct is enough for a name of the equation.
pub fn root_suffices()
    ensures { (c : Context) → RootSuffices c }
{}

/// The children of a branch are made point by point; a point at which the branch is never true has none.
pub fn children_are_made()
    ensures { (c : Context) (ks : List Atom) (x : ℕ) (f : Tree) → ChildrenAreMade c ks x f }
{}

/// A formula is worked on list by list, and through negations.
pub fn working_goes_on()
    ensures { (c : Context) (ks : List Atom) → WorkingGoesOn c ks }
{}

/// The list of branches of a block begins as the matrix.
pub fn pending_begins()
    ensures { (c : Context) → PendingBegins c }
{}

/// A name taken out of a list leaves the rest of the list.
pub fn taking_out_leaves_rest()
    ensures { TakingOutLeavesRest }
{}

/// Any branch of the list may be replaced by its children at the points of any name that is left in it.
pub fn pending_goes_on()
    ensures { (c : Context) → PendingGoesOn c }
{}

/// A branch that is true only where some other branch of the list is may go: one with the formula and the names of another, and
/// each where another is true.
pub fn covered_branch_may_go()
    ensures goes { (c : Context) → CoveredMayGo c }
    ensures covers { (c : Context) → OtherMayCover c }
{}

/// With no name left the branches are cases as elimination promises them: each guard is true exactly where its answers make the
/// matrix true, and together the guards say the formula, or its negation where that begins with `all`.
pub fn pending_ends()
    ensures { (c : Context) → PendingEnds c }
{}

/// Where the theory is true at a point, the periods of each case fit the matrix there and at the points that differ from it in
/// answered names alone.
pub fn cases_fit_at_points()
    ensures { (c : Context) → CasesFitAt c }
{}

/// A block of `ex` inside a formula is worked on to the disjunction of its branches.
pub fn block_is_worked()
    ensures { (c : Context) → BlockIsWorked c }
{}

/// The branches of a block inside a formula, where no answers are owed: they begin as those whose steps lead from the matrix.
pub fn inside_begins()
    ensures { (c : Context) → PendingIsInside c }
{}

/// Any of them may be replaced by its children at the points of any name that is left in it.
pub fn inside_goes_on()
    ensures { (c : Context) → InsideGoesOn c }
{}

/// One that is a disjunction may be split into its members.
pub fn inside_is_split()
    ensures { (c : Context) → InsideIsSplit c }
{}

/// One that is true only where some other branch of the list is may go.
pub fn inside_covered_may_go()
    ensures { (c : Context) → InsideCoveredMayGo c }
{}

/// With no name left the block is worked on to the disjunction of them.
pub fn inside_is_worked()
    ensures { (c : Context) → InsideIsWorked c }
{}

/// The leading block of a formula is that of its negation normal form, each name once; where it is one of `all`, the case matrix
/// is the negation of what stands behind it.
pub fn leading_block_is_split()
    ensures { (f : Tree) → LeadingBlockIsSplit f }
{}

/// The cases of the reference elimination are such cases under every theory, with every tidy matrix that is equivalent to the case
/// matrix, as with the one that it gives itself.
pub fn reference_is_case_tree()
    ensures cases { (c : Context) → ReferenceIsCaseTree c }
    ensures normal { (c : Context) → MatrixIsNormal c }
    ensures matrix { (c : Context) → ReferenceGivesMatrix c }
{}

/// Where the reference elimination gives cases it eliminates the case matrix too, within the same limit.
pub fn matrix_is_done()
    ensures { (c : Context) → MatrixIsDone c }
{}

/// The case list of a formula and its elimination stop with the same word, if at all.
pub fn stops_are_one()
    ensures { (c : Context) → StopsAreOne c }
{}

/// A tidy formula within the limit can be simplified, and what is reduced and has no quantifier is tidy: simplifying under the
/// assumptions is one way to work on a formula.
pub fn simplifying_is_work()
    ensures simplifiable { (c : Context) → TidyIsSimplifiable c }
    ensures tidy { (c : Context) → ReducedIsTidy c }
    ensures work { (c : Context) → SimplifyingIsWork c }
{}

/// The answer of a direct formula, its conjunction with the name at the root of the first equation, is equivalent to it, tidy and
/// over its free names. Its constants are within the limit where those of the formula are.
pub fn direct_answer_is_exact()
    ensures exact { DirectAnswerIsExact }
    ensures within { DirectAnswerIsWithin }
{}

/// Where a residue class makes a formula true over the integers, the formula is true at the sample of the class, though the period
/// is perhaps one of none of its congruences.
pub fn class_sample_is_true()
    ensures { ClassSampleIsTrue }
{}
