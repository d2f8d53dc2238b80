// What a term may speak of, and the binders around it.
ghost use Rattle.std.specs.Prelude.{◌≡◌};
ghost use Rattle.sq_term.specs.TreeEquality.{is_same_sort};
ghost use Rattle.sq_typing.specs.Typing as spec;

use sq_base::Sort;
use sq_term::{Action, FunDecl, Idx, Ts};
use sqlite_items::at;

/// What a term may speak of: names by their counts of indices, functions, the actions of a system,
/// so many schema variables, and variables by their sorts.
#[derive(Clone, Copy)]
pub struct Signature<'a> {
    pub names: &'a [u32],
    pub funs: &'a [FunDecl],
    pub actions: &'a [Action],
    pub schemas: usize,
    pub vars: &'a [Sort],
}

/// The binders around a term, the innermost one first. A find binds several indices at once.
#[derive(Clone, Copy)]
pub enum Binders<'a> {
    Outermost,
    Around(Sort, u32, &'a Binders<'a>),
}

/// Whether the sorts are the same.
pub fn is_sort(a: Sort, b: Sort) -> bool
    ensures { result ≡ is_same_sort a b }
{
    match (a, b) {
        (Sort::Message, Sort::Message) | (Sort::Boolean, Sort::Boolean) => true,
        (Sort::Index, Sort::Index) | (Sort::Timestamp, Sort::Timestamp) => true,
        _ => false,
    }
}

#[tactic(auto, using(crate::proofs::Sorting::sort_rules))]
fn has_sort_at(sorts: &[Sort], k: u32, sort: Sort) -> bool
    ensures { result ≡ spec.has_sort_at sorts.now k sort }
{
    match at(sorts, k as usize) {
        Some(other) => is_sort(*other, sort),
        None => false,
    }
}

impl Binders<'_> {
    ghost use Rattle.sq_typing.specs.Views.{binder_sorts};

    // Whether a binder binds this variable, with this sort.
    #[tactic(auto, using(crate::proofs::Sorting::binder_rules))]
    fn bind(&self, k: u32, sort: Sort) -> bool
        ensures { result ≡ spec.has_sort_at (binder_sorts self.now) k sort }
    {
        match self {
            Binders::Outermost => false,
            Binders::Around(bound, count, outer) => {
                if k < *count {
                    is_sort(*bound, sort)
                } else {
                    outer.bind(k - *count, sort)
                }
            }
        }
    }
}

impl Signature<'_> {
    ghost use Rattle.std.specs.Prelude.{slice_get};
    ghost use Rattle.sq_term.specs.Symbols.{kind_of, function_number};
    ghost use Rattle.sq_term.specs.View.{ts_tree};
    ghost use Rattle.sq_typing.specs.Views.{signature_tree, binder_sorts};

    /// Whether there is a name with this number, and so many indices.
    #[tactic(auto, using(crate::proofs::Sorting::sort_rules))]
    pub fn has_name(&self, name: u32, indices: usize) -> bool
        ensures { result ≡ spec.has_count_at (signature_tree self.now).names name indices }
    {
        match at(self.names, name as usize) {
            Some(arity) => *arity as usize == indices,
            None => false,
        }
    }

    /// Whether there is an action with this number, and so many indices.
    #[tactic(auto, using(crate::proofs::Sorting::sort_rules))]
    pub fn has_action(&self, action: u32, indices: usize) -> bool
        ensures { result ≡ spec.has_count_at (signature_tree self.now).actions action indices }
    {
        match at(self.actions, action as usize) {
            Some(action) => action.arity as usize == indices,
            None => false,
        }
    }

    /// Whether the function gives this sort; one that is not there gives none of a term.
    #[tactic(auto, using(crate::proofs::Sorting::number_rules))]
    pub fn gives(&self, function: u32, sort: Sort) -> bool
        ensures { result ≡ is_same_sort (spec.result_sort
            (slice_get self.now.funs.now (function_number (kind_of function)))) sort }
    {
        match at(self.funs, function as usize) {
            Some(d) => is_sort(d.result, sort),
            None => is_sort(Sort::Index, sort),
        }
    }

    /// Whether there is this function, with so many indices and arguments.
    #[tactic(auto, using(crate::proofs::Sorting::number_rules))]
    pub fn takes(&self, function: u32, indices: usize, args: usize) -> bool
        ensures { result ≡ spec.applies
            (slice_get self.now.funs.now (function_number (kind_of function))) indices args }
    {
        match at(self.funs, function as usize) {
            Some(d) => d.idx as usize == indices && d.args as usize == args,
            None => false,
        }
    }

    /// Whether this is an index, below these binders.
    pub fn is_index(&self, binders: &Binders, i: Idx) -> bool
        ensures { result ≡ spec.is_index (signature_tree self.now) (binder_sorts binders.now) i }
    {
        match i {
            Idx::Free(k) => has_sort_at(self.vars, k, Sort::Index),
            Idx::Bound(k) => binders.bind(k, Sort::Index),
        }
    }

    /// Whether each of these is an index, below these binders.
    pub fn are_indices(&self, binders: &Binders, indices: &[Idx]) -> bool
        ensures { result
            ≡ spec.are_indices (signature_tree self.now) (binder_sorts binders.now) indices.now }
    {
        for i in indices {
            if !self.is_index(binders, *i) {
                return false;
            }
        }
        true
    }

    /// Whether this is a timestamp, below these binders.
    #[tactic(auto, using(sq_term::proofs::Views::open_rules))]
    pub fn is_timestamp(&self, binders: &Binders, t: &Ts) -> bool
        ensures { result ≡ spec.is_timestamp (signature_tree self.now) (binder_sorts binders.now)
            (ts_tree t.now) }
    {
        match t {
            Ts::Free(k) => has_sort_at(self.vars, *k, Sort::Timestamp),
            Ts::Bound(k) => binders.bind(*k, Sort::Timestamp),
            Ts::Init => true,
            Ts::Pred(inner) => self.is_timestamp(binders, inner.get()),
            Ts::Act(action, indices) => self.has_action(*action, indices.len())
                && self.are_indices(binders, indices.as_slice()),
        }
    }
}
