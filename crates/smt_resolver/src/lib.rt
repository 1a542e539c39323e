//! What is read of an expression of a script in SMT-LIB 2.6, from what is read of its members, with its nodes. A value of a `let` is
//! read once, so no `let` is written out.
#![tactic(auto)]

mod asserting;
mod chains;
mod error;
mod formulas;
mod frames;
mod operators;
mod parts;
mod reading;
mod setting;
mod sized;
mod smt_resolving_reading;
mod terms;
mod unknown;
mod value;

pub use asserting::asserted;
pub use error::AssertError;
pub use formulas::constant;
pub use frames::{Frame, Frames};
pub use operators::applied;
pub use parts::FormulaValue;
pub use reading::{
    Symbols, add_member, are_numbers, closed_over, decimal_term, divided_by, named, opened_frame,
    value_copied,
};
pub use setting::Setting;
pub use sized::Sized;
pub use terms::{TermValue, numeral};
pub use value::{MemberValues, Value};
