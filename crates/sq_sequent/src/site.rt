// Where a step stands: a sequent of a goal of an environment.
use sq_system::{Env, Sequent};

/// A sequent with the environment and the number of the goal that it belongs to.
#[derive(Clone, Copy)]
pub struct Site<'a> {
    pub env: &'a Env,
    pub goal: u32,
    pub sequent: &'a Sequent,
}
