//! Formulas as the rows of the calculus read them: the shape of a term, and what is known of a term
//! by its shape; and that changes of terms keep sorts.
#![tactic(auto)]

mod equality;
mod facts;
mod shapes;
mod signatures;

pub use equality::{is_same, is_same_index, is_same_time};
pub use facts::{fact_of, fact_sort};
pub use shapes::{Shape, shape_of};
