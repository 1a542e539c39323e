//! The queries about linear constraints: a point that meets them all or multipliers by which none does, and whether multipliers are such.
#![tactic(auto)]

mod certify;
mod check;
mod constraints;
mod copies;
mod found;
mod least;
mod least_queries_lines;
mod lines;
mod problem;

pub use certify::answer_certificate;
pub use check::answer_check;
pub use least::answer_least;
