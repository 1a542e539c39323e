//! The cases of the leading block of a formula.

use formula_store::FormulaId;
use logic_meaning::VarId;
use test_points::TestPoint;

/// Where the guard is true, the answers make the matrix true; the answer that is put in last comes first.
#[derive(Drop)]
pub struct Case {
    pub guard: FormulaId,
    pub answers: Vec<TestPoint>,
}

/// The cases of the leading block of a formula, or of its negation where that block is one of `all`.
#[derive(Drop)]
pub struct CaseTree {
    pub universal: bool,
    pub block: Vec<VarId>,
    pub matrix: FormulaId,
    pub cases: Vec<Case>,
}
