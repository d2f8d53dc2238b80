//! Substitution in terms. Each call answers the whole result, or refuses where it would have more
//! nodes than its room or a depth above 1,024, and changes nothing.
#![tactic(auto)]

mod calls;
mod change;
mod meaning;
mod room;
mod walk;
mod walk_room;

pub use calls::{
    bind_indices, close_var, instance, open_with, project, replace_idx, replace_term, replace_ts,
};
pub use meaning::{
    instance_is_at_the_values, opening_is_the_value, opening_undoes_closing,
    projecting_keeps_the_side, replacing_keeps_the_value,
};
pub use sq_term::SizeFault;
