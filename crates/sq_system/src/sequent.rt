use sq_base::{Seq, Sort, Text};
use sq_term::{Side, Term};

/// The two sides of an item of an equivalence.
#[derive(Debug, Drop)]
pub struct Both {
    pub left: Term,
    pub right: Term,
}

/// What is to be shown. `Free(k)` in its terms is variable k of `vars`.
///
/// A Trace sequent speaks of the trace alone. A Local sequent speaks of one side or of both. An
/// Equiv sequent has hypotheses on the trace, lists of items that are known to be
/// indistinguishable, and the items to be shown so.
#[derive(Debug, Drop)]
pub enum Sequent {
    Trace {
        vars: Seq<Sort>,
        hyps: Seq<Term>,
        goal: Term,
    },
    Local {
        side: Side,
        vars: Seq<Sort>,
        hyps: Seq<Term>,
        goal: Term,
    },
    Equiv {
        vars: Seq<Sort>,
        hyps: Seq<Term>,
        known: Seq<Seq<Both>>,
        items: Seq<Both>,
    },
}

/// A sequent that is still to be shown, with the names of its schema variables, variables,
/// hypotheses and known lists.
#[derive(Debug, Drop)]
pub struct OpenGoal {
    pub sequent: Sequent,
    pub schemas: Seq<Text>,
    pub vars: Seq<Text>,
    pub labels: Seq<Text>,
    pub known: Seq<Text>,
}
