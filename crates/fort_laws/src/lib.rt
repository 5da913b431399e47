//! Laws of runs and walks: what holds of every deck.
#![tactic(auto)]

mod calls;
mod clocks;
mod decks;
mod errors;
mod exactness;
mod expressions;
mod frames;
mod judged;
mod lazy;
mod places;
mod programs;
mod segments;
mod statements;
mod symbols;
mod trails;
mod units;
mod ways;
mod witnesses;

pub use calls::{calls_are_matched, unit_calls_match};
pub use clocks::clocks_fall_only_so_often;
pub use decks::{
    blocks_are_common, calls_agree, decks_are_correct, ends_are_returns, statements_are_typed,
    well_formed_is_declared,
};
pub use errors::{
    choices_are_decided, erring_runs_are_blamed, errors_are_those_of_walks, failing_paths_err,
    failing_paths_have_false_conditions, runs_arrive_or_err, runs_err_whatever_calls_answer,
    units_err_as_walks_do,
};
pub use exactness::{
    checks_do_not_depend_on_values, conditions_are_exact, numerals_are_decimal,
    valid_conditions_make_paths_safe, words_tell_symbols,
};
pub use expressions::expressions_match;
pub use frames::{
    evaluation_changes_nothing, rules_make_sound, rules_pass_smashed_alone,
    runs_change_only_smashed, runs_without_smashing_change_nothing,
};
pub use judged::calls_are_judged_by_units;
pub use lazy::lazy_runs_follow_strict_ones;
pub use places::elements_lie_in_arrays;
pub use programs::{programs_are_correct, strict_programs_are_correct};
pub use segments::{safe_runs_arrive, safe_runs_end, statements_keep};
pub use statements::statements_match;
pub use symbols::{
    paths_make_asserts_safe, paths_make_entries_safe, safe_paths_end, walks_read_few_symbols,
};
pub use trails::{
    all_paths_are_one, choices_end, flat_choices_tell_paths, paths_are_one, paths_lead_through,
};
pub use units::{safe_units_are_right, safe_units_end, smashed_have_types};
pub use ways::{statements_lead_on, ways_can_be_completed};
pub use witnesses::{
    loop_may_run, loop_meets_premises, rot_has_call_facts, rot_may_run, rot_meets_premises,
};
