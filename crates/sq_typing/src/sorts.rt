// Sorts of terms.
ghost use Rattle.std.specs.Prelude.{◌≡◌};
ghost use Rattle.sq_term.specs.Builtins as builtins;
ghost use Rattle.sq_term.specs.Symbols.{kind_of};
ghost use Rattle.sq_typing.specs.Typing as spec;

use crate::signature::{Binders, Signature, is_sort};
use sq_base::Sort;
use sq_term::{Builtin, Macro, Term, is_binder_sort};

fn macro_sort(m: Macro) -> Sort
    ensures { result ≡ spec.macro_sort m }
{
    match m {
        Macro::Input | Macro::Output | Macro::Frame => Sort::Message,
        Macro::Cond | Macro::Exec => Sort::Boolean,
    }
}

/// Whether argument `k` of the function, counted from 0, is a Boolean.
#[tactic(auto, using(crate::proofs::Sorting::declared_takes_messages))]
pub fn takes_boolean(function: u32, k: usize) -> bool
    ensures { result ≡ builtins.takes_boolean (kind_of function) k }
{
    match Builtin::of(function) {
        Some(builtin) => builtin.takes_boolean(k),
        None => false,
    }
}

fn argument_sort(function: u32, k: usize) -> Sort
    ensures { result ≡ spec.argument_sort (kind_of function) k }
{
    if takes_boolean(function, k) {
        Sort::Boolean
    } else {
        Sort::Message
    }
}

impl Signature<'_> {
    ghost use Rattle.sq_term.specs.View.{term_tree, term_trees};
    ghost use Rattle.sq_typing.specs.Views.{signature_tree, binder_sorts};

    /// Whether the term has the sort, below these binders.
    #[cycle(sorts)]
    #[tactic(auto, using(crate::proofs::Sorting::typing_rules))]
    pub fn has_sort<'b>(&self, t: &Term, binders: &'b Binders<'b>, sort: Sort) -> bool
        ensures { result ≡ spec.has_sort (signature_tree self.now) (binder_sorts binders.now) sort
            (term_tree t.now) }
    {
        match t {
            Term::Name(n, indices) => is_sort(Sort::Message, sort)
                && self.has_name(*n, indices.len())
                && self.are_indices(binders, indices.as_slice()),
            Term::Fun(f, indices, args) => self.gives(*f, sort)
                && self.takes(*f, indices.len(), args.len())
                && self.are_indices(binders, indices.as_slice())
                && self.have_sorts(args.as_slice(), binders, *f),
            Term::Macro(m, time) => {
                is_sort(macro_sort(*m), sort) && self.is_timestamp(binders, time)
            }
            Term::Schema(k) => is_sort(Sort::Message, sort) && (*k as usize) < self.schemas,
            Term::Diff(left, right) => self.has_sort(left.get(), binders, sort)
                && self.has_sort(right.get(), binders, sort),
            Term::Le(a, b) | Term::TsEq(a, b) => is_sort(Sort::Boolean, sort)
                && self.is_timestamp(binders, a)
                && self.is_timestamp(binders, b),
            Term::IdxEq(i, j) => is_sort(Sort::Boolean, sort)
                && self.is_index(binders, *i)
                && self.is_index(binders, *j),
            Term::Happens(time) => {
                is_sort(Sort::Boolean, sort) && self.is_timestamp(binders, time)
            }
            Term::Forall(bound, body) | Term::Exists(bound, body) => {
                let around = Binders::Around(*bound, 1, binders);
                is_sort(Sort::Boolean, sort)
                    && is_binder_sort(*bound)
                    && self.has_sort(body.get(), &around, Sort::Boolean)
            }
            Term::Find(count, test, found, other) => {
                let around = Binders::Around(Sort::Index, *count, binders);
                is_sort(Sort::Message, sort)
                    && self.has_sort(test.get(), &around, Sort::Boolean)
                    && self.has_sort(found.get(), &around, Sort::Message)
                    && self.has_sort(other.get(), binders, Sort::Message)
            }
        }
    }

    // Whether each argument of the function has its sort.
    #[cycle(sorts)]
    #[tactic(auto, using(crate::proofs::Sorting::typing_rules))]
    fn have_sorts<'b>(&self, args: &[Term], binders: &'b Binders<'b>, function: u32) -> bool
        ensures { result ≡ spec.have_sorts (signature_tree self.now) (binder_sorts binders.now)
            (kind_of function) 0 (term_trees args.now) }
    {
        let mut k: usize = 0;
        for arg in args {
            if !self.has_sort(arg, binders, argument_sort(function, k)) {
                return false;
            }
            k += 1;
        }
        true
    }
}
