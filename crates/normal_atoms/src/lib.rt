// Normal forms of atoms over both theories: what an atom becomes, its negation and its truth.
#![tactic(auto)]

mod answers;
mod atom_merging_comparison;
mod atom_merging_congruence;
mod atom_merging_laws;
mod atoms;
mod comparison;
mod congruence;
mod error;
mod junction;
mod laws;
mod merging;
mod normal_form;
mod parts;
mod quotients;

pub use answers::Merged;
pub use atom_merging_laws::{
    atom_merges_with_itself, deciding_is_sound, merging_brings_no_name, merging_is_computed,
    merging_keeps_truth,
};
pub use atoms::{Atom, Context, Normal, Rel};
pub use error::AtomError;
pub use laws::{
    atom_numbers_are_within, atoms_are_decided, meaning_determines_atom, negation_is_opposite,
    normal_atom_stays, normal_form_keeps_truth,
};
pub use linear_forms::Values;
pub use merging::{decides, merge_and, merge_or};
pub use normal_form::{negate, normal, truth};
pub use parts::{holds, opposite};
