//! Shared formulas: each distinct formula is kept once, under one id. New ones can be made beside a store that is only read, and
//! taken in later.
#![tactic(auto)]

mod absorb;
mod delta;
mod error;
mod facts;
mod forms;
mod formulas;
mod id;
mod keep;
mod known;
mod laws;
mod negation;
mod order;
mod overlay;
mod plan;
mod port;
mod steps;
mod store;
mod truth;
mod unfold;

pub use delta::Delta;
pub use error::{EvalStop, StoreError, Unfold};
pub use facts::Facts;
pub use formulas::Formulas;
pub use id::FormulaId;
pub use laws::{
    change_stays, one_formula_has_one_id, one_formula_has_one_id_beside, stored_numbers_are_within,
};
pub use negation::nnf;
pub use overlay::Overlay;
pub use steps::Steps;
pub use store::Store;
