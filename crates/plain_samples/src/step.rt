// A step of elimination.
use nnf_trees::Nnf;
use test_points::TestPoint;

/// A step of elimination: the test point of a name, and the formula into which it was put.
#[derive(Drop)]
pub struct Step {
    pub point: TestPoint,
    pub branch: Nnf,
}
