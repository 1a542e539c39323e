//! Written comparisons and congruences: their normal atoms, and which causes of a refusal stand in them.
#![tactic(auto)]

mod rational;
mod read;
mod sum;
mod term;

pub use read::{
    AtomCauses, ReadAtom, comparison_of, congruence_of, read_comparison, read_congruence,
};
pub use sum::WholeSum;
pub use term::{ReadSum, ReadTerm};
