//! What a processor does with a deck, and what its conditions are.
#![tactic(auto)]

mod bounds;
mod call_facts;
mod check_rows;
mod condition_rows;
mod exact_rows;
mod flow_rows;
mod flow_rule_rows;
mod form_check_rows;
mod form_rows;
mod graph;
mod graph_rows;
mod path_rows;
mod plain_graph;
mod rows;
mod rule_rows;
mod smash_rows;
mod unit_rule_rows;
mod verdict_rows;
mod walk_rows;

pub use bounds::{Bounds, processor};
pub use call_facts::CallFacts;
pub use check_rows::{
    checks_of_loop, checks_of_nest, checks_of_pick, checks_of_quotients, checks_of_sign,
    checks_of_subscripts, checks_of_twice, checks_of_up_to,
};
pub use condition_rows::{
    conditions_of_adjustable, conditions_of_rotate, conditions_of_round, goals_of_subscripts,
    goals_past_loops,
};
pub use exact_rows::{exact_for_adjustable, exact_for_inc, exact_for_loop};
pub use flow_rows::{flow_of_blocks, flow_of_choices, flow_of_loops, flow_past_loops};
pub use flow_rule_rows::{
    jumps_stay_outside, last_statements_of_loops, loops_keep_their_names, passed_over_in_a_round,
    ranges_nest, units_end,
};
pub use form_check_rows::{
    checks_of_actuals, checks_of_results, checks_of_values, condition_of_zero, goal_of_input,
};
pub use form_rows::{
    arrays_are_passed_whole, blocks_nest, calls_are_numbered_by_the_text, intrinsic_functions,
    loops_count_by_steps, passed_over_loops, powers_are_products, signs_choose,
};
pub use graph::{Fork, Graph, Target};
pub use graph_rows::{graph_of_twice, graphs_lead};
pub use path_rows::{paths_ascend, paths_of_loop, paths_of_twice};
pub use rows::{
    choices_in_both_dialects, common_by_reference_and_by_copy, elements_are_written_back,
    first_subscript_varies_fastest, functions_answer_their_value, inc_takes_three_steps,
    lazy_leaves_out, locals_forget, loops_in_both_dialects, loops_that_share_their_end,
    ninth_place_of_four_dimensions, one_branch_is_performed, quotients_are_cut,
    rotated_in_any_manner, subscripts_keep_to_their_dimensions,
};
pub use rule_rows::{
    actuals_match_dummies, callers_declare_blocks, calls_of_itself,
    common_is_not_passed_to_be_smashed, smashed_actuals_are_names, smashed_actuals_stand_once,
};
pub use smash_rows::{smashed_by_calls, smashed_in_common};
pub use unit_rule_rows::{
    adjustable_dimensions_agree, calls_have_units, calls_in_ranges, clocks_have_one_length,
    dimensions_stay, functions_smash_nothing, names_of_units,
};
pub use verdict_rows::{
    calls_keep_what_is_not_smashed, calls_take_output, clocks_fall_by_their_first_part,
    functions_in_one_another, walks_keep_the_bound, walks_of_inc, walks_past_loops,
};
pub use walk_rows::conditions_of_inc;
