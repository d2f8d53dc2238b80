// The names that a text is printed with.
ghost use Rattle.std.specs.Prelude.{◌≡◌, nat_eq, option_map, reverse};
ghost use Rattle.std.specs.HashMap.{get};
ghost use Rattle.sq_term.specs.Builtins.{word};
ghost use Rattle.sq_term.specs.Symbols.{kind_of};
ghost use Rattle.sq_print.specs.Spellings.{Tells, word_at};
ghost use Rattle.sq_print.specs.Taken.{HasNames};
ghost use Rattle.sq_print.specs.Names as spec;

use crate::spelling::Spellings;
use sq_base::{Seq, Text};
use sq_sym::Table;
use sq_term::Builtin;
use std::collections::{HashMap, HashSet};

/// The names of schema variables and variables, and those of a table's symbols.
#[derive(Drop)]
pub struct Scope<'a> {
    pub schemas: &'a Seq<Text>,
    pub vars: &'a Seq<Text>,
    /// The system whose actions are named.
    pub system: u32,
    pub table: &'a Table,
    pub spellings: &'a Spellings,
    /// The names of the variables and schema variables.
    pub taken: &'a HashSet<String>,
    ghost knows: { HasNames vars.now schemas.now taken.now },
    ghost told: { Tells table.now system spellings.now },
}

impl<'a> Scope<'a> {
    ghost use Rattle.sq_print.specs.Scopes.{names_of};

    #[tactic(auto, unfolding(crate::specs::Names::name_word))]
    pub fn name(&self, n: u32) -> &str
        ensures { result.now ≡ spec.name_word (names_of self.now) n }
    {
        declared(&self.spellings.names, self.table, n)
    }

    #[tactic(auto, unfolding(crate::specs::Names::action_word))]
    pub fn action(&self, a: u32) -> &str
        ensures { result.now ≡ spec.action_word (names_of self.now) a }
    {
        declared(&self.spellings.actions, self.table, a)
    }

    /// The word of a function: its own for a built-in function that has one.
    #[tactic(auto, unfolding(crate::specs::Names::function_word))]
    pub fn function(&self, f: u32) -> &str
        ensures { result.now ≡ spec.function_word (names_of self.now) (kind_of f) }
    {
        match own_word(f) {
            Some(word) => word,
            None => declared(&self.spellings.functions, self.table, f),
        }
    }

    /// Whether a name is a symbol, a variable or a schema variable, so that no binder may have it.
    pub fn is_used(&self, name: &str) -> bool
        ensures { result ≡ spec.is_used (names_of self.now) name.now }
    {
        self.table.find(name).is_some() || self.taken.contains(name)
    }
}

/// The word of a built-in function that is written as one.
#[tactic(auto, using(crate::proofs::Rows::declared_word))]
fn own_word(function: u32) -> Option<&'static str>
    ensures { option_map (λ w. w.now) result ≡ word (kind_of function) }
{
    match Builtin::of(function) {
        Some(builtin) => builtin.word(),
        None => None,
    }
}

/// The name of the k-th binder around, counted from the innermost, or nothing where there is none.
pub fn bound_name(around: &Seq<Text>, k: u32) -> &str
    ensures { result.now ≡ spec.text_at (reverse around.now) k }
{
    let k = k as usize;
    let depth = around.len();
    if k < depth {
        text_at(around, depth - 1 - k)
    } else {
        ""
    }
}

/// The name at a place, or nothing past the end.
pub fn text_at(names: &Seq<Text>, at: usize) -> &str
    ensures { result.now ≡ spec.text_at names.now at }
{
    match names.as_slice().get(at) {
        Some(name) => name.as_str(),
        None => "",
    }
}

fn declared<'a>(places: &HashMap<u32, u32>, table: &'a Table, number: u32) -> &'a str
    ensures { result.now ≡ word_at table.now (get nat_eq places.now number) }
{
    match places.get(&number) {
        Some(at) => table.name_of(*at).unwrap_or(""),
        None => "",
    }
}
