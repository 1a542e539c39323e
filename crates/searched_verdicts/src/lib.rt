//! What is found of a formula that begins with `ex` of names: by a search with learned clauses, where there are many cases.
#![tactic(auto)]

mod matrix;
mod search_verdict;
mod verdict;
mod witnesses;

pub use engine_answers::Verdict;
pub use verdict::verdict_of;
