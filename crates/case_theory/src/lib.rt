//! What elimination by cases promises, and why steps in any order keep the promise, under assumptions. No function does anything;
//! the contract of each is a theorem.
#![tactic(auto)]

mod laws;
mod sample_theory_laws;

pub use laws::{
    answers_fit, answers_hold_under_assumptions, block_has_no_order, block_is_worked,
    cases_fit_at_points, children_are_made, class_sample_is_true, covered_branch_may_go,
    direct_answer_is_exact, inside_begins, inside_covered_may_go, inside_goes_on, inside_is_split,
    inside_is_worked, leading_block_is_split, matrix_is_done, pending_begins, pending_ends,
    pending_goes_on, reference_is_case_tree, root_suffices, side_points_suffice,
    simplifying_is_work, stops_are_one, taking_out_leaves_rest, working_goes_on, zero_suffices,
};
pub use sample_theory_laws::{
    case_gives_sample, case_is_sampleable, case_tree_gives_sample, known_are_the_point,
    lead_is_sampleable, sample_of_answers_is_true, value_is_of_atoms, value_is_sample,
    value_is_true,
};
