//! Linear conditions that come into force and out again, and a simplex method that finds values that meet them or conditions that are not
//! met together. What it finds is to be checked: no clause says anything of it.
#![tactic(auto)]

mod check;
mod column;
mod halt;
mod line;
mod point;
mod row;
mod tableau;

pub use check::Verdict;
pub use point::{Gap, Point};
pub use row::{Bound, Domain, Row, Term};
pub use tableau::Simplex;
