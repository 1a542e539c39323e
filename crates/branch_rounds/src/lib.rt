//! A block of quantifiers, branch by branch: in each round every branch loses one name, and what is left is pruned under the
//! assumptions.
#![tactic(auto)]

mod block;
mod branch;
mod budget;
mod children;
mod error;
mod laws;
mod left_branches;
mod ordering;
mod own_names;
mod past;
mod rounds;
mod searching;
mod spread;
mod thinning;
mod work;

pub use block::block_branches;
pub use branch::{Branch, formulas_of};
pub use branch_pruning::{Reach, pruned};
pub use budget::Budget;
pub use error::RoundError;
pub use laws::branches_are_cases;
pub use own_names::is_over;
pub use virtual_subst::{SubstError, fold, result_shared};
pub use work::Work;
