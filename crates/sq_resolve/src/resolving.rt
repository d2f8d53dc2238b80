// The public calls.
ghost use Rattle.std.specs.Prelude.{◌≡◌, [], IfOk, IsTrue};
ghost use Rattle.sq_base.specs.Gives.{Gives};
ghost use Rattle.sq_ast.specs.View.{formula_tree};
ghost use Rattle.sq_term.specs.View.{term_tree};
ghost use Rattle.sq_typing.specs.Functions.{is_value_sort};
ghost use Rattle.sq_term.specs.Pure.{is_binder_sort};
ghost use Rattle.sq_resolve.specs.Scopes.{context};
ghost use Rattle.sq_resolve.specs.Resolved as spec;
ghost use Rattle.sq_resolve.specs.Resolved.{term_of, wanted_by_itself};
ghost use Rattle.sq_resolve.specs.Typed.{IsTerm};
ghost use Rattle.sq_resolve.specs.Built.{limited_term, limited_arg, arg_of};
ghost use Rattle.sq_term.specs.Arguments.{arg_tree};

use crate::built::is_within;
use crate::fault::ResolveFault;
use crate::head::Resolver;
use crate::judge::own_sort;
use crate::scope::Scope;
use crate::sized::Built;
use crate::times::{index, time};
use crate::walk::resolve_term;
use sq_ast::Formula;
use sq_base::{Seq, Sort};
use sq_sym::Table;
use sq_system::Env;
use sq_term::{Arg, Term, ts_depth, ts_size};
use std::alloc::Global;

/// The term of a formula where a message or a Boolean is wanted.
pub fn resolve(
    alloc: Global,
    f: &Formula,
    want: Sort,
    scope: &Scope,
    table: &Table,
    env: &Env,
) -> Result<Term, ResolveFault>
    requires { IsTrue (is_value_sort want) }
    ensures exact { Gives ResolveFault.NoMemory term_tree result
        (limited_term
        (term_of (context scope.now table.now env.now) [] want (formula_tree f.now))) }
    ensures typed { IfOk result
        (λ u. IsTerm (context scope.now table.now env.now) [] want (formula_tree f.now)
        (term_tree u)) }
{
    let resolver = Resolver {
        alloc,
        scope,
        table,
        env,
    };
    let mut around = Seq::new(alloc);
    match resolve_term(&resolver, &mut around, want, f) {
        Ok(Built::Within(term)) => Ok(term.term),
        Ok(Built::TooLarge) => Err(ResolveFault::TooLarge),
        Err(fault) => Err(fault),
    }
}

/// The index or the timestamp of a formula where such a one is wanted.
pub fn resolve_arg(
    alloc: Global,
    f: &Formula,
    want: Sort,
    scope: &Scope,
    table: &Table,
    env: &Env,
) -> Result<Arg, ResolveFault>
    requires { IsTrue (is_binder_sort want) }
    ensures { Gives ResolveFault.NoMemory arg_tree result
        (limited_arg (arg_of (context scope.now table.now env.now) want (formula_tree f.now))) }
{
    let resolver = Resolver {
        alloc,
        scope,
        table,
        env,
    };
    if want == Sort::Index {
        let i = index(&resolver, &[], f)?;
        return Ok(Arg::Index(i));
    }
    let at = time(&resolver, &[], f)?;
    if is_within(ts_size(&at), ts_depth(&at)) {
        Ok(Arg::Time(at))
    } else {
        Err(ResolveFault::TooLarge)
    }
}

/// The sort at which the term of a `let` and an item of an equivalence are wanted: Boolean where
/// that is the own sort of the tree, and message otherwise.
pub fn wanted_sort(alloc: Global, f: &Formula, scope: &Scope, table: &Table, env: &Env) -> Sort
    ensures { result
        ≡ wanted_by_itself
        (spec.own_sort (context scope.now table.now env.now) [] (formula_tree f.now)) }
{
    let resolver = Resolver {
        alloc,
        scope,
        table,
        env,
    };
    match own_sort(&resolver, &[], f) {
        Sort::Boolean => Sort::Boolean,
        Sort::Message | Sort::Index | Sort::Timestamp => Sort::Message,
    }
}
