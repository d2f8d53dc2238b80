// What an identifier means.
ghost use Rattle.std.specs.Prelude.{◌≡◌, ◌+◌, None, Some, option_map, length};
ghost use Rattle.sq_resolve.specs.Scopes as spec;
ghost use Rattle.sq_resolve.specs.Scopes.{context, head_sort, head_arity};
ghost use Rattle.std.specs.Str.{bytes_eq};
ghost use Rattle.sq_sym.specs.Declarations.{found};

use crate::scope::{Given, Scope};
use sq_base::{Seq, Sort, Text};
use sq_sym::{Symbol, Table};
use sq_system::Env;
use std::alloc::Global;

/// What an identifier means.
#[derive(Clone, Copy, Debug, PartialEq, Eq)]
pub enum Head {
    /// A variable of a binder, counted from the innermost one, and its sort.
    Bound(usize, Sort),
    /// A variable of the scope and its sort.
    Free(usize, Sort),
    /// A schema variable and its sort. That of a statement is a message.
    Schema(usize, Sort),
    /// A name and its count of indices.
    Name(u32, u32),
    /// A function with its counts of indices and of arguments, and the sort of its result.
    Function(u32, u32, u32, Sort),
    /// An action of the scope's system and its count of indices.
    Action(u32, u32),
}

impl Head {
    pub fn sort(&self) -> Sort
        ensures { result ≡ head_sort self.now }
    {
        match *self {
            Head::Bound(_, sort) | Head::Free(_, sort) | Head::Schema(_, sort) => sort,
            Head::Name(_, _) => Sort::Message,
            Head::Function(_, _, _, result) => result,
            Head::Action(_, _) => Sort::Timestamp,
        }
    }

    /// How many arguments it takes, indices and messages together.
    pub fn arity(&self) -> u64
        ensures { result ≡ head_arity self.now }
    {
        match *self {
            Head::Bound(_, _) | Head::Free(_, _) | Head::Schema(_, _) => 0,
            Head::Name(_, indices) | Head::Action(_, indices) => u64::from(indices),
            Head::Function(_, indices, args, _) => u64::from(indices) + u64::from(args),
        }
    }
}

/// What a tree is resolved in: its scope, and the declarations of the file.
#[derive(Clone, Copy)]
pub struct Resolver<'a> {
    pub alloc: Global,
    pub scope: &'a Scope,
    pub table: &'a Table,
    pub env: &'a Env,
}

fn is_named(text: &Text, name: &str) -> bool
    ensures { result ≡ bytes_eq name.now text.now }
{
    name == text.as_str()
}

fn last_of(vars: &[(Text, Sort)], name: &str) -> Option<(usize, Sort)>
    ensures { result ≡ spec.last_of name.now vars.now }
{
    let mut best = None;
    for (at, var) in vars.iter().enumerate() {
        if is_named(&var.0, name) {
            best = Some((at, var.1));
        }
    }
    best
}

fn last_name(names: &[Text], name: &str) -> Option<usize>
    ensures { result ≡ spec.last_name name.now names.now }
{
    let mut best = None;
    for (at, other) in names.iter().enumerate() {
        if is_named(other, name) {
            best = Some(at);
        }
    }
    best
}

fn last_given(given: &[(Text, Given)], name: &str) -> Option<Given>
    ensures { result ≡ spec.last_given None name.now given.now }
{
    let mut best = None;
    for entry in given {
        if is_named(&entry.0, name) {
            best = Some(entry.1);
        }
    }
    best
}

fn given_head(given: Given) -> Head
    ensures { Some result ≡ spec.given_head (Some given) }
{
    match given {
        Given::Index(k) => Head::Free(k as usize, Sort::Index),
        Given::Value(k, sort) => Head::Schema(k as usize, sort),
    }
}

fn symbol_head(r: &Resolver<'_>, name: &str) -> Option<Head>
    ensures { result ≡ spec.symbol_head (context r.now.scope.now r.now.table.now r.now.env.now)
        (found name.now r.now.table.now) }
{
    let (_, symbol) = r.table.find(name)?;
    match symbol {
        Symbol::Name(n) => {
            let indices = r.env.names.as_slice().get(n as usize)?;
            Some(Head::Name(n, *indices))
        }
        Symbol::Fun(f) => {
            let decl = r.env.funs.as_slice().get(f as usize)?;
            Some(Head::Function(f, decl.idx, decl.args, decl.result))
        }
        Symbol::Action(system, a) if system == r.scope.system => {
            let actions = r.env.systems.as_slice().get(system as usize)?;
            let action = actions.action(a)?;
            Some(Head::Action(a, action.arity))
        }
        _ => None,
    }
}

/// The meaning of an identifier behind these binders, the outermost first.
pub fn meaning(r: &Resolver<'_>, binders: &[(Text, Sort)], name: &str) -> Option<Head>
    ensures { result
        ≡ spec.meaning
        (context r.now.scope.now r.now.table.now r.now.env.now) binders.now name.now }
{
    if let Some((at, sort)) = last_of(binders, name) {
        return Some(Head::Bound(binders.len().saturating_sub(1).saturating_sub(at), sort));
    }
    if let Some(given) = last_given(r.scope.given.as_slice(), name) {
        return Some(given_head(given));
    }
    if let Some((at, sort)) = last_of(r.scope.vars.as_slice(), name) {
        return Some(Head::Free(at, sort));
    }
    if let Some(at) = last_name(r.scope.schemas.as_slice(), name) {
        return Some(Head::Schema(at, Sort::Message));
    }
    symbol_head(r, name)
}
