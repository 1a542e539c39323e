//! The leading block of a formula of a store: its quantifier, its names, and the matrix whose cases are asked.
#![tactic(auto)]

mod answer;
mod answers;
mod assumed;
mod block;
mod branched;
mod branches;
mod case_tree;
mod cases;
mod chain;
mod eliminating;
mod engine;
mod error;
mod guards;
mod inner_blocks_block;
mod kind;
mod known;
mod laws;
mod limits;
mod listed;
mod reference_samples;
mod referred;
mod samples;
mod sampling;
mod search;
mod short;
mod task;
mod truths;
mod verdict;
mod working;

pub use answer::Answer;
pub use assumed::without_names;
pub use block::{LeadingBlock, asked, leading_block};
pub use case_tree::{Case, CaseTree};
pub use chain::split;
pub use eliminating::eliminate;
pub use engine::Engine;
pub use error::SampleError;
pub use guards::guards_together;
pub use laws::guards_joined_are_their_disjunction;
pub use limits::Limits;
pub use plain_samples::least_with_atom;
pub use sampling::concrete;
pub use verdict::{Verdict, decided};
pub use working::worked;
