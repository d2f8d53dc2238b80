//! From syntax trees to well-sorted terms.
#![tactic(auto)]

mod built;
mod fault;
mod head;
mod judge;
mod laws;
mod leaves;
mod names;
mod places;
mod resolving;
mod row;
mod scope;
mod shape;
mod sized;
mod sort_laws;
mod stopped;
mod stops;
mod times;
mod walk;

pub use built::{MOST_FORMULA_DEPTH, MOST_FORMULA_NODES, is_within};
pub use fault::ResolveFault;
pub use head::{Head, Resolver, meaning};
pub use judge::own_sort;
pub use laws::{
    a_formula_has_a_place_at_each_node, a_refusal_is_that_of_the_first_place,
    a_tree_has_at_most_one_index_or_timestamp, a_tree_has_at_most_one_term,
};
pub use places::first_fault_among;
pub use resolving::{resolve, resolve_arg, wanted_sort};
pub use scope::{Given, Scope};
pub use sized::{Built, SizedTerm};
pub use sort_laws::a_resolved_term_is_well_sorted;
pub use stopped::Stopped;
pub use stops::stop;
pub use times::index;
pub use walk::{Around, resolve_term};
