// `==` and a hash of timestamps.
ghost use Rattle.std.specs.Prelude.{◌≡◌, fold};
ghost use Rattle.sq_term.specs.TsEquality.{idx_fed, indices_fed, ts_fed};

use crate::equality::same_ts;
use crate::term::{Idx, Ts};
use std::hash::{Hash, Hasher};

impl PartialEq for Ts {
    ghost use Rattle.sq_term.specs.TsEquality.{is_same_ts, is_same_ts-equivalence};
    ghost use Rattle.std.specs.Cmp.{partial_equiv_from_equiv};

    ghost eq = { is_same_ts };

    ghost laws = { partial_equiv_from_equiv is_same_ts-equivalence };

    fn eq(&self, other: &Ts) -> bool {
        same_ts(self, other)
    }
}

impl Eq for Ts {
    ghost use Rattle.sq_term.specs.TsEquality.{is_same_ts-equivalence};

    ghost laws = { is_same_ts-equivalence };
}

impl Hash for Ts {
    ghost use Rattle.sq_term.specs.TsEquality.{ts_fed-respects};

    ghost hash_input = { ts_fed };

    ghost respects_eq = { ts_fed-respects };

    fn hash<H: Hasher>(&self, state: &mut H) {
        feed_ts(self, state);
    }
}

#[tactic(auto, using(crate::proofs::Views::tree_rules))]
fn feed_ts<H: Hasher>(t: &Ts, state: &mut H)
    ensures { state.new ≡ fold H.write state.old (ts_fed t.now) }
{
    match t {
        Ts::Free(n) => {
            state.write_u8(0);
            n.hash(state);
        }
        Ts::Bound(n) => {
            state.write_u8(1);
            n.hash(state);
        }
        Ts::Init => state.write_u8(2),
        Ts::Pred(inner) => {
            state.write_u8(3);
            feed_ts(inner.get(), state);
        }
        Ts::Act(action, indices) => {
            state.write_u8(4);
            action.hash(state);
            indices.len().hash(state);
            feed_indices(indices.as_slice(), state);
        }
    }
}

fn feed_indices<H: Hasher>(indices: &[Idx], state: &mut H)
    ensures { state.new ≡ fold H.write state.old (indices_fed indices.now) }
{
    for i in indices {
        feed_idx(*i, state);
    }
}

fn feed_idx<H: Hasher>(i: Idx, state: &mut H)
    ensures { state.new ≡ fold H.write state.old (idx_fed i) }
{
    match i {
        Idx::Free(n) => {
            state.write_u8(0);
            n.hash(state);
        }
        Idx::Bound(n) => {
            state.write_u8(1);
            n.hash(state);
        }
    }
}
