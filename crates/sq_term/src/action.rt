// What a protocol is made of.
use crate::term::Term;
use sq_base::Seq;

/// A step of an action's path through its process: the side of a parallel, a replication, the
/// branch of a test, a find that found this many indices or nothing, or a closed action.
#[derive(Clone, Copy, Debug, PartialEq, Eq)]
pub enum PathStep {
    Side(bool),
    Rep,
    Branch(bool),
    Found(u32),
    NotFound,
    Done,
}

/// An action: how many indices it has, the action before it on its line, the path to it, its
/// condition and its output. Both are read at its indices, `Idx::Free(0)` and so on.
#[derive(Debug, Drop)]
pub struct Action {
    pub arity: u32,
    pub parent: Option<u32>,
    pub path: Seq<PathStep>,
    pub cond: Term,
    pub output: Term,
}
