//! Trace models, ground lines and derivations: what it means that a sequent holds at a model.
#![tactic(auto)]

mod building;
mod built;
mod call;
mod ground_copy;
mod instances;
mod instant;
mod keeping;
mod laws;
mod macros;
mod model;
mod reading;
mod replacing;
mod row;
mod table;
mod translation;

pub use call::translate;
pub use laws::{
    derivations_compose, earlier_goals_still_hold, every_system_has_a_model,
    further_variable_changes_nothing, goals_hold_in_order, instances_are_derivable,
    more_axioms_derive_no_less, records_meet_the_table, trace_formulas_have_one_truth,
    translations_keep_sorts, truth_tables_derive,
};
pub use model::valid_model;
pub use replacing::{replacing_equals_is_congruent, replacing_replaces_the_meaning};
pub use sq_term::{Assign, GTerm, Inst, Model, Value};
