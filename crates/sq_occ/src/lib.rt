//! Where a name can stand in any run of a protocol.
#![tactic(auto)]

mod bodies;
mod call;
mod laws;
mod list;
mod place;
mod scan;
mod schema;

pub use call::occurrences;
pub use laws::{
    absent_where_no_entry, entries_are_in_scope, every_occurrence_is_listed,
    formula_says_what_is_met, keys_alone, meanings_hold_no_atom, messages_are_listed,
};
pub use sq_system::{KeyUse, Occ, OccFault, Role, RuleFault};
