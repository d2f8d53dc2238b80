// Tests of equality.
ghost use Rattle.std.specs.Prelude.{◌≡◌};
ghost use Rattle.sq_term.specs.TreeEquality.{is_same_tree};
ghost use Rattle.sq_term.specs.TsEquality.{is_same_idx, is_same_ts_tree};
ghost use Rattle.sq_term.specs.View.{ts_tree, term_tree};

use sq_term::{Idx, Term, Ts, same, same_ts};

/// Whether the terms are the same.
pub fn is_same(a: &Term, b: &Term) -> bool
    ensures { result ≡ is_same_tree (term_tree a.now) (term_tree b.now) }
{
    same(a, b)
}

/// Whether the timestamps are the same.
pub fn is_same_time(a: &Ts, b: &Ts) -> bool
    ensures { result ≡ is_same_ts_tree (ts_tree a.now) (ts_tree b.now) }
{
    same_ts(a, b)
}

/// Whether the indices are the same.
pub fn is_same_index(i: Idx, j: Idx) -> bool
    ensures { result ≡ is_same_idx i j }
{
    match (i, j) {
        (Idx::Free(m), Idx::Free(n)) | (Idx::Bound(m), Idx::Bound(n)) => m == n,
        _ => false,
    }
}
