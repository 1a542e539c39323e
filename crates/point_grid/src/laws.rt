//! What is proved of grids and of the lists of truths. The functions do nothing; their contracts are laws.

ghost use Rattle.std.specs.Prelude.{◌≡◌, ℕ, ◌<◌, List, Bool, Some, length, slice_get};
ghost use Rattle.std.specs.List.{AllByRecursion};
ghost use Rattle.logic_meaning.specs.Point.{Point};
ghost use Rattle.logic_meaning.specs.Tree.{Tree};
ghost use Rattle.program_meaning.specs.declared.axis.Axis.{Axis};
ghost use Rattle.program_meaning.specs.Scales.{size};
ghost use Rattle.program_meaning.specs.Frames.{Frame, points_of};
ghost use Rattle.point_grid.specs.FramePoints.{point_at};
ghost use Rattle.program_meaning.specs.GridPoints.{common, GridFits, GridPasses};
ghost use Rattle.point_grid.specs.Steps.{IsRising};
ghost use Rattle.point_grid.specs.Truths.{IsTruthList};
ghost use Rattle.point_grid.specs.Laws.{HasValues};

/// A grid has as many points as the product of the counts of its scales, each at its index.
#[tactic(auto, using(crate::proofs::Numbering::points_are_counted, crate::proofs::Numbering::point_place))]
pub fn points_stand_at_their_indices()
    ensures count { (grid : Frame) → length (points_of grid) ≡ size grid.scales }
    ensures place { (grid : Frame) (index : ℕ) → index < size grid.scales → slice_get (points_of grid) index ≡ Some (point_at grid index) }
{}

/// Each axis of a grid has the values from `low` on, one step above the other, that are at most `high`.
#[tactic(auto, using(crate::proofs::Values::all_have_values))]
pub fn axes_have_their_values()
    ensures { (axes : List Axis) → AllByRecursion IsRising axes → AllByRecursion (HasValues (common axes)) axes }
{}

/// Where the numbers of a grid are within 2^127 - 1, none passes it.
#[tactic(auto, using(crate::proofs::Fitting::fits_or_passes))]
pub fn grid_fits_or_passes()
    ensures { (axes : List Axis) → GridFits axes → ¬ (GridPasses axes) }
{}

/// There is one list of truths, however many threads it comes from.
pub fn every_division_gives_one_list()
    ensures { (f : Tree) (points : List (Point ℕ)) (a b : List Bool) → IsTruthList f points a → IsTruthList f points b → a ≡ b }
{}
