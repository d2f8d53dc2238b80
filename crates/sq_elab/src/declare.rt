// The names of what a process declares: each symbol under the first name that is free.
ghost use Rattle.std.specs.Prelude.{◌≡◌, ◌++◌, ◌∷◌, [], map, take, length, IfOk, OnOk, OnErr};
ghost use Rattle.std.specs.Prelude.{◌+◌, unwrap_or};
ghost use Rattle.std.specs.HashMap.{get_by_text};
ghost use Rattle.sq_elab.specs.Declarations.{declaration, AreTaken, IsTried};
ghost use Rattle.sq_elab.specs.FreshNames.{fresh_name, with_fresh};

use sq_base::{NoMemory, Text};
use sq_sym::{Symbol, Table, candidate};
use std::alloc::Global;
use std::collections::HashMap;

/// A symbol, with the name that it has where that is free.
#[derive(Clone, Copy)]
pub struct Declared<'a> {
    pub name: &'a Text,
    pub what: Symbol,
}

/// Declares each symbol under the first of its name, the name and 1, the name and 2 and so on that
/// is free so far, or declares none. Candidates that were seen to be taken are not looked at again.
pub fn declare_all(alloc: Global, table: &mut Table, declared: &[Declared]) -> Result<(), NoMemory>
    ensures ok { OnOk result (table.new ≡ with_fresh table.old (map declaration declared.now)) }
    ensures err { OnErr result (table.new ≡ table.old) }
{
    let count = table.len();
    let result = add_all(alloc, table, declared);
    if result.is_err() {
        table.truncate(count);
    }
    result
}

fn add_all(alloc: Global, table: &mut Table, declared: &[Declared]) -> Result<(), NoMemory>
    ensures ok { OnOk result (table.new ≡ with_fresh table.old (map declaration declared.now)) }
    ensures front { take (length table.old) table.new ≡ table.old }
{
    let mut tried = HashMap::new(alloc);
    for one in declared {
        add(alloc, table, &mut tried, one)?;
    }
    Ok(())
}

// `tried` has for each name how many of its candidates are known to be taken
fn add(
    alloc: Global,
    table: &mut Table,
    tried: &mut HashMap<String, u32>,
    one: &Declared,
) -> Result<(), NoMemory>
    requires { IsTried table.old tried.old }
    ensures ok { OnOk result
        (table.new ≡ table.old ++ (fresh_name table.old one.now.name.now, one.now.what) ∷ []) }
    ensures tried { OnOk result (IsTried table.new tried.new) }
    ensures err { OnErr result (table.new ≡ table.old) }
{
    let from = known(tried, one.name);
    let (name, number) = first_free(alloc, table, one.name, from)?;
    tried.insert(String::from_str(alloc, one.name.as_str())?, number)?;
    match table.declare(alloc, name.as_str(), one.what) {
        Ok(_) => Ok(()),
        Err(_) => Err(NoMemory),
    }
}

fn known(tried: &HashMap<String, u32>, name: &Text) -> u32
    ensures { result ≡ unwrap_or (get_by_text tried.now name.now) 0 }
{
    match tried.get(name.as_str()) {
        Some(number) => *number,
        None => 0,
    }
}

// The first candidate that is free, and its number. So many are known to be taken.
fn first_free(alloc: Global, table: &Table, name: &Text, from: u32) -> Result<(Text, u32), NoMemory>
    requires { AreTaken table.now name.now from }
    ensures name { IfOk result (λ r. r.0 ≡ fresh_name table.now name.now) }
    ensures taken { IfOk result (λ r. AreTaken table.now name.now r.1) }
{
    let _declared = table.len();
    let mut number = from;
    'candidates: loop {
        let text = candidate(alloc, name.as_str(), number)?;
        if table.find(text.as_str()).is_none() {
            return Ok((text, number));
        }
        number = next_number(number)?;
    }
}

fn next_number(number: u32) -> Result<u32, NoMemory>
    ensures { IfOk result (λ n. n ≡ number + 1) }
{
    match number.checked_add(1) {
        Some(next) => Ok(next),
        None => Err(NoMemory),
    }
}
