// Nodes of shared terms.
use sq_base::{Seq, Sort};
use sq_term::{Idx, Macro, Ts};

/// The place of a term in its pool.
#[derive(Clone, Copy, Debug, PartialEq, Eq, Hash)]
pub struct TermId {
    pub at: usize,
}

/// One constructor of a term, with ids for the terms below it.
///
/// Timestamps and indices are not shared: a node holds its own. The variants are those of a `Term`.
#[derive(Debug, PartialEq, Eq, Hash, Drop)]
pub enum Node {
    Name(u32, Seq<Idx>),
    Fun(u32, Seq<Idx>, Seq<TermId>),
    Macro(Macro, Ts),
    Schema(u32),
    Diff(TermId, TermId),
    Le(Ts, Ts),
    TsEq(Ts, Ts),
    IdxEq(Idx, Idx),
    Happens(Ts),
    Forall(Sort, TermId),
    Exists(Sort, TermId),
    Find(u32, TermId, TermId, TermId),
}
