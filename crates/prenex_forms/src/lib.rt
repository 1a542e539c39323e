//! Prenex forms of shared formulas.
#![tactic(auto)]

mod atoms;
mod chooser;
mod form;
mod free;
mod front;
mod new_names;
mod prefix;
mod prenex;
mod renaming;
mod start;
mod whole;

pub use prenex::pnf;
