// The table of symbols, seen as the list of its declarations.
ghost use Rattle.std.specs.Prelude.{◌≡◌, ◌≢◌, ◌+◌, ◌<◌, ◌^◌, ◌↔◌, ℕ, [], ◌∷◌, ◌++◌, Some, None, length, take, slice_get, option_map, IfOk, OnOk, OnErr, IsSome, IsTrue, IsErrOf, MatchOption, All};
ghost use Rattle.indexmap.specs.IndexMap.{get_by_text};
ghost use Rattle.sq_sym.specs.Declarations.{found, seen, IsTable};

use crate::{SymFault, Symbol};
use indexmap::IndexMap;
use std::alloc::{AllocError, Global};
use std::marker::Model;

/// The names of one file, which all kinds of symbols share.
#[derive(Drop)]
pub struct Table {
    symbols: IndexMap<String, Symbol>,
}

impl Model for Table {
    ghost use Rattle.std.specs.Prelude.{ℕ, List, length, ◌<◌, ◌^◌};
    ghost use Rattle.sq_sym.specs.declared.symbol.Symbol.{Symbol};

    ghost Value = { List (List ℕ × Symbol) };

    ghost use Rattle.sq_sym.specs.Declarations.{seen, NamesDiffer};

    ghost view = { λ t. seen t.symbols.entries };

    ghost invariant = { λ t. (length t.symbols.entries < 2 ^ 32) × NamesDiffer (seen t.symbols.entries) };
}

impl Table {
    /// A table without declarations. It takes no memory.
    pub fn new(alloc: Global) -> Table
        ensures { result ≡ [] }
    {
        Table {
            symbols: IndexMap::new(alloc),
        }
    }

    /// How many declarations there are.
    pub fn len(&self) -> usize
        ensures count { result ≡ length self.now }
        ensures table { IsTable self.now }
    {
        self.symbols.len()
    }

    /// Whether nothing is declared.
    pub fn is_empty(&self) -> bool
        ensures { IsTrue result ↔ (length self.now ≡ 0) }
    {
        self.symbols.is_empty()
    }

    /// Declares a name, and answers its position.
    pub fn declare(&mut self, alloc: Global, name: &str, what: Symbol) -> Result<u32, SymFault>
        ensures ok { IfOk result (λ at. (at ≡ length self.old) ×
            (self.new ≡ self.old ++ (name.now, what) ∷ [])) }
        ensures twice { IsErrOf result SymFault.Twice ↔ IsSome (found name.now self.old) }
        ensures err { OnErr result (self.new ≡ self.old) }
    {
        if self.symbols.contains_key(name) {
            return Err(SymFault::Twice);
        }
        let at = self.symbols.len();
        if at >= u32::MAX as usize {
            return Err(SymFault::NoMemory);
        }
        match add(&mut self.symbols, alloc, name, what) {
            Ok(()) => Ok(at as u32),
            Err(_) => Err(SymFault::NoMemory),
        }
    }

    /// The position and the symbol of a name.
    pub fn find(&self, name: &str) -> Option<(u32, Symbol)>
        ensures first { result ≡ found name.now self.now }
        ensures stands { MatchOption result (All (λ d. d.0 ≢ name.now) self.now)
            (λ r. slice_get self.now r.0 ≡ Some (name.now, r.1)) }
    {
        match self.symbols.get_full(name) {
            Some((at, _, symbol)) => Some((at as u32, *symbol)),
            None => None,
        }
    }

    /// The name that stands at a position.
    pub fn name_of(&self, at: u32) -> Option<&str>
        ensures { option_map (λ n. n.now) result ≡ option_map (λ d. d.0) (slice_get self.now at) }
    {
        let (name, _) = self.symbols.get_index(at as usize)?;
        Some(name.as_str())
    }

    /// The symbol that stands at a position.
    pub fn symbol_at(&self, at: u32) -> Option<Symbol>
        ensures { result ≡ option_map (λ d. d.1) (slice_get self.now at) }
    {
        let (_, symbol) = self.symbols.get_index(at as usize)?;
        Some(*symbol)
    }

    /// Keeps the first `len` declarations.
    pub fn truncate(&mut self, len: usize)
        ensures { self.new ≡ take len self.old }
    {
        self.symbols.truncate(len);
    }
}

fn add(
    symbols: &mut IndexMap<String, Symbol>,
    alloc: Global,
    name: &str,
    what: Symbol,
) -> Result<(), AllocError>
    requires { get_by_text symbols.old name.now ≡ None }
    ensures ok { OnOk result (seen symbols.new.entries
        ≡ seen symbols.old.entries ++ (name.now, what) ∷ []) }
    ensures err { OnErr result (symbols.new.entries ≡ symbols.old.entries) }
    ensures length { OnOk result (length symbols.new.entries ≡ length symbols.old.entries + 1) }
{
    let owned = String::from_str(alloc, name)?;
    match symbols.insert(owned, what) {
        Ok(_) => Ok(()),
        Err(_) => Err(AllocError),
    }
}
