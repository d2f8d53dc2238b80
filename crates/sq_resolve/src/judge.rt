// What an identifier is at a place where a sort is wanted.
ghost use Rattle.std.specs.Prelude.{◌≡◌, ◌≢◌, ℕ, IfOk};
ghost use Rattle.sq_base.specs.Gives.{Gives};
ghost use Rattle.sq_ast.specs.View.{formula_tree};
ghost use Rattle.sq_resolve.specs.Heads.{context_of, moment_of, value_of};
ghost use Rattle.sq_resolve.specs.Scopes as scopes;
ghost use Rattle.sq_resolve.specs.Resolved as spec;
ghost use Rattle.sq_resolve.specs.Resolved.{judged, as_index, as_moment, as_value};
ghost use Rattle.sq_typing.specs.Typing as typing;

use crate::fault::ResolveFault;
use crate::head::{Head, Resolver, meaning};
use crate::shape::{Shape, shape_of};
use sq_ast::{Constant, Formula, MacroWord, Unary};
use sq_base::{NoMemory, Sort, Text};
use sq_term::{Idx, Macro, Ts};
use std::alloc::Global;

/// A timestamp variable, or an action that waits for its indices.
#[derive(Debug, Drop)]
pub enum Moment {
    Time(Ts),
    Instance(u32),
}

/// What gives a message or a Boolean. A function stands with its count of indices.
#[derive(Clone, Copy, Debug)]
pub enum Value {
    Schema(u32),
    Name(u32),
    Function(u32, u32),
}

// Numbers of variables are below 2^32.
pub fn number(n: usize) -> Result<u32, NoMemory>
    ensures { IfOk result (λ k. k ≡ n) }
{
    match u32::try_from(n) {
        Ok(k) => Ok(k),
        Err(_) => Err(NoMemory),
    }
}

fn arity_fault(alloc: Global, name: &Text, wanted: u64, has: u64) -> ResolveFault
    ensures { result ≢ ResolveFault.NoMemory → result ≡ ResolveFault.Arity name.now wanted has }
{
    let (Ok(wanted), Ok(has)) = (u32::try_from(wanted), u32::try_from(has)) else {
        return ResolveFault::NoMemory;
    };
    match name.copy(alloc) {
        Ok(name) => ResolveFault::Arity(name, wanted, has),
        Err(_) => ResolveFault::NoMemory,
    }
}

fn unknown_fault(alloc: Global, name: &Text) -> ResolveFault
    ensures { result ≢ ResolveFault.NoMemory → result ≡ ResolveFault.Unknown name.now }
{
    match name.copy(alloc) {
        Ok(name) => ResolveFault::Unknown(name),
        Err(_) => ResolveFault::NoMemory,
    }
}

// The meaning of an identifier with so many arguments.
fn known(
    r: &Resolver<'_>,
    binders: &[(Text, Sort)],
    name: &Text,
    args: usize,
) -> Result<Head, ResolveFault>
    ensures { Gives ResolveFault.NoMemory (λ h. h) result
        (spec.known name.now args (scopes.meaning (context_of r.now) binders.now name.now)) }
{
    let Some(head) = meaning(r, binders, name.as_str()) else {
        return Err(unknown_fault(r.alloc, name));
    };
    let arity = head.arity();
    if arity == args as u64 {
        Ok(head)
    } else {
        Err(arity_fault(r.alloc, name, arity, args as u64))
    }
}

/// An identifier where an index is wanted.
pub fn index_head(
    r: &Resolver<'_>,
    binders: &[(Text, Sort)],
    name: &Text,
    args: usize,
) -> Result<Idx, ResolveFault>
    ensures { Gives ResolveFault.NoMemory (λ i. i) result
        (judged as_index Sort.Index name.now args
        (scopes.meaning (context_of r.now) binders.now name.now)) }
{
    match known(r, binders, name, args)? {
        Head::Bound(k, Sort::Index) => Ok(Idx::Bound(number(k)?)),
        Head::Free(k, Sort::Index) => Ok(Idx::Free(number(k)?)),
        head => Err(ResolveFault::SortClash(Sort::Index, head.sort())),
    }
}

/// An identifier where a timestamp is wanted.
#[tactic(auto, using(sq_term::proofs::Views::tree_rules))]
pub fn moment_head(
    r: &Resolver<'_>,
    binders: &[(Text, Sort)],
    name: &Text,
    args: usize,
) -> Result<Moment, ResolveFault>
    ensures { Gives ResolveFault.NoMemory moment_of result
        (judged as_moment Sort.Timestamp name.now args
        (scopes.meaning (context_of r.now) binders.now name.now)) }
{
    match known(r, binders, name, args)? {
        Head::Bound(k, Sort::Timestamp) => Ok(Moment::Time(Ts::Bound(number(k)?))),
        Head::Free(k, Sort::Timestamp) => Ok(Moment::Time(Ts::Free(number(k)?))),
        Head::Action(a, _) => Ok(Moment::Instance(a)),
        head => Err(ResolveFault::SortClash(Sort::Timestamp, head.sort())),
    }
}

/// An identifier where a message or a Boolean is wanted.
pub fn value_head(
    r: &Resolver<'_>,
    binders: &[(Text, Sort)],
    want: Sort,
    name: &Text,
    args: usize,
) -> Result<Value, ResolveFault>
    ensures { Gives ResolveFault.NoMemory value_of result
        (judged (as_value want) want name.now args
        (scopes.meaning (context_of r.now) binders.now name.now)) }
{
    match known(r, binders, name, args)? {
        Head::Schema(k, sort) if want == sort => Ok(Value::Schema(number(k)?)),
        Head::Name(n, _) if want == Sort::Message => Ok(Value::Name(n)),
        Head::Function(f, indices, _, result) if want == result => Ok(Value::Function(f, indices)),
        head => Err(ResolveFault::SortClash(want, head.sort())),
    }
}

pub fn constant_sort(k: Constant) -> Sort
    ensures { result ≡ spec.constant_sort k }
{
    match k {
        Constant::True | Constant::False => Sort::Boolean,
        Constant::Empty => Sort::Message,
        Constant::Init => Sort::Timestamp,
    }
}

pub fn unary_sort(u: Unary) -> Sort
    ensures { result ≡ spec.unary_sort u }
{
    match u {
        Unary::Not | Unary::Happens => Sort::Boolean,
        Unary::Fst | Unary::Snd | Unary::OfBool => Sort::Message,
        Unary::Pred => Sort::Timestamp,
    }
}

pub fn macro_of(word: MacroWord) -> Macro
    ensures { result ≡ spec.macro_of word }
{
    match word {
        MacroWord::Input => Macro::Input,
        MacroWord::Output => Macro::Output,
        MacroWord::Cond => Macro::Cond,
        MacroWord::Exec => Macro::Exec,
        MacroWord::Frame => Macro::Frame,
    }
}

pub fn macro_sort(m: Macro) -> Sort
    ensures { result ≡ typing.macro_sort m }
{
    match m {
        Macro::Input | Macro::Output | Macro::Frame => Sort::Message,
        Macro::Cond | Macro::Exec => Sort::Boolean,
    }
}

/// The own sort of a tree, read off its outermost form.
pub fn own_sort(r: &Resolver<'_>, binders: &[(Text, Sort)], f: &Formula) -> Sort
    ensures { result ≡ spec.own_sort (context_of r.now) binders.now (formula_tree f.now) }
{
    match shape_of(f) {
        Shape::Quantified(_, _, _) | Shape::Binary(_, _, _) => Sort::Boolean,
        Shape::Pair(_, _) | Shape::Conditional(_, _, _) | Shape::Find(_, _, _, _) => Sort::Message,
        Shape::Group(a) => own_sort(r, binders, a),
        Shape::Constant(k) => constant_sort(k),
        Shape::Diff(a, _) => match own_sort(r, binders, a) {
            Sort::Boolean => Sort::Boolean,
            _ => Sort::Message,
        },
        Shape::Unary(u, _) => unary_sort(u),
        Shape::Value(word, _) => macro_sort(macro_of(word)),
        Shape::Name(name) | Shape::Apply(name, _) => match meaning(r, binders, name.as_str()) {
            Some(head) => head.sort(),
            None => Sort::Message,
        },
    }
}
