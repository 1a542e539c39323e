//! What is proved of all branches of a block. The function does nothing; its contract is a law.

ghost use Rattle.branch_rounds.specs.declared.work.Work.{Work};
ghost use Rattle.branch_rounds.specs.Cases.{BranchesAreCases};

/// The branches of the leading block of a formula are cases as elimination promises them, where the matrix is what stands behind
/// the block, worked on under the assumptions without a name of the block: the guard of a case is what is left in its branch, and
/// its answers are the points of the branch, the last one first.
pub fn branches_are_cases()
    ensures { (w : Work) → BranchesAreCases w }
{}
