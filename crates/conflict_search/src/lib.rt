//! A search for signs of variables at which clauses hold and linear rows are met, by learned clauses and a simplex method. It tells its
//! steps, each with what is needed to check it; no clause says what it finds.
#![tactic(auto)]

mod analysis;
mod clauses;
mod order;
mod pace;
mod search;
mod trail;

pub use bound_simplex::{Bound, Row, Term};
pub use search::{Search, Step};
