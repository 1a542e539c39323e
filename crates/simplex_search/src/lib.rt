//! A search for Farkas multipliers: numbers by which linear inequalities add up to a contradiction, by an exact simplex method.
//! What it finds is to be checked: no clause says more of it than its length. The same search finds points.
#![tactic(auto)]

mod corner;
mod numbers;
mod pair;
mod reduction;
mod search;
mod system;
mod tableau;

pub use system::{Point, Sense, System};
