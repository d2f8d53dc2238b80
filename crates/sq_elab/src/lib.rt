//! From a process to its actions.
#![tactic(auto)]

mod declare;
mod fault;
mod formula;
mod laws;
mod step;
mod ways;
mod worked;

pub use declare::{Declared, declare_all};
pub use fault::ElabFault;
pub use formula::{Judged, judge_formula};
pub use laws::{
    a_refusal_is_that_of_the_first_place, a_walk_goes_on_where_it_stood,
    actions_are_numbered_in_order, an_input_is_that_of_the_first_action_behind_it,
    branches_exclude_each_other, calls_go_no_deeper_than_there_are_declarations,
    fresh_names_are_first, names_stay_apart, parents_go_before,
    parts_of_a_parallel_do_not_exclude_each_other, systems_are_within_limits,
    systems_keep_their_facts, tests_stand_in_conditions, values_are_read_off_the_line,
    what_is_left_goes_on,
};
pub use worked::{
    small_processes_are_refused, small_processes_have_these_actions,
    where_a_find_found_and_where_not_clash,
};
