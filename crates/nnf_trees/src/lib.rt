//! Formulas in negation normal form as trees that are taken apart by value: counted, negated, folded and made.
#![tactic(auto)]

mod atoms;
mod folding;
mod forms;
mod negation;
mod nnf;
mod results;
mod sizes;
mod substitution;
mod trees;

pub use atoms::distinct_atoms;
pub use folding::fold;
pub use forms::normal_form;
pub use negation::negated;
pub use nnf::{Members, Nnf};
pub use results::{formula_at, formulas_at, is_false, stands_in_some};
pub use sizes::{Sizes, form_sizes, nodes};
pub use substitution::{of_normal, substituted};
pub use trees::into_tree;
