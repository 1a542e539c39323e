//! What a script says: terms, formulas and points as plain trees, and what they mean.
#![tactic(auto)]

mod commands;
mod entries;
mod grid;
mod laws;
mod literals;
mod point;
mod statement;
mod tree;
mod truth;
mod value;
mod valued;

pub use entries::Entries;
pub use grid::GridAxes;
pub use laws::one_point;
pub use literals::Literals;
pub use point::{Point, PointFault};
pub use statement::{Action, Command, Statement};
pub use tree::{
    Formula, Formulas, InnerCommand, Term, Terms, answered, comparison, equivalence, existential,
    implication, negation, negative, power, quotient, replication, universal,
};
pub use truth::truth_at;
pub use value::{EvalError, value_at};
pub use valued::{is_valued, matrix};
