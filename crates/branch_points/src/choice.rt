//! A name and its test points.

use logic_meaning::VarId;
use test_points::TestPoint;

/// A name of a branch, and the test points that are to be put for it.
#[derive(Drop)]
pub struct Chosen {
    pub name: VarId,
    pub points: Vec<TestPoint>,
}
