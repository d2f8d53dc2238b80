//! Shared terms: a pool holds each term once, and an id names one.
#![tactic(auto)]

mod node;
mod pool;

pub use node::{Node, TermId};
pub use pool::{Mark, Pool};
