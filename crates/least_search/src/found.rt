//! What is found of a target.

use exact_numbers::Fraction;
use logic_meaning::VarId;

/// What is found of a target.
#[derive(Drop)]
pub enum Found {
    Infeasible,
    Unbounded,
    /// The least value, and values of the names with which the target has it.
    Attained(Fraction, Vec<(VarId, Fraction)>),
}
