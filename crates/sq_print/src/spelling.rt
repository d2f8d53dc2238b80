// Where the names of symbols stand in a table.
ghost use Rattle.std.specs.Prelude.{◌≡◌, ◌<◌, ◌^◌, IfOk, OnOk};
ghost use Rattle.sq_print.specs.Spellings.{Tells, Notes};

use sq_base::NoMemory;
use sq_sym::{Symbol, Table};
use std::alloc::Global;
use std::collections::HashMap;

/// The positions of the first declarations of names, of functions, and of the actions of one
/// system, by their numbers. So the name of a symbol is found without a search of the table.
#[derive(Drop)]
pub struct Spellings {
    pub names: HashMap<u32, u32>,
    pub functions: HashMap<u32, u32>,
    pub actions: HashMap<u32, u32>,
}

impl Spellings {
    /// The positions in a table.
    pub fn of(alloc: Global, table: &Table, system: u32) -> Result<Spellings, NoMemory>
        ensures { IfOk result (λ s. Tells table.now system s) }
    {
        let mut spellings = Spellings {
            names: HashMap::new(alloc),
            functions: HashMap::new(alloc),
            actions: HashMap::new(alloc),
        };
        let mut at = table.len();
        'declarations: while at > 0 {
            at -= 1;
            let place = at as u32;
            spellings.note(table.symbol_at(place), system, place)?;
        }
        Ok(spellings)
    }

    /// Notes the place of a symbol, over a later one that was noted before.
    fn note(&mut self, what: Option<Symbol>, system: u32, place: u32) -> Result<(), NoMemory>
        ensures { OnOk result (Notes self.old self.new what system place) }
    {
        match what {
            Some(Symbol::Name(n)) => {
                self.names.insert(n, place)?;
                Ok(())
            }
            Some(Symbol::Fun(f)) => {
                self.functions.insert(f, place)?;
                Ok(())
            }
            Some(Symbol::Action(other, a)) if other == system => {
                self.actions.insert(a, place)?;
                Ok(())
            }
            _ => Ok(()),
        }
    }
}
