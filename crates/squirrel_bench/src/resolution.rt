// As many names declared as turns, and an equation over each.
use crate::fault::Fault;
use sq_ast::{Binary, Formula};
use sq_resolve::{ResolveFault, Scope, resolve};
use sq_sym::{Symbol, Table};
use sq_system::Env;
use sq_term::{NoMemory, Seq, Sort, Term, Text};
use std::alloc::Global;

/// Declares so many names, and resolves an equation over each (`names`), or leaves it (`nothing`).
pub fn turned(alloc: Global, word: &str, turns: u32) -> Result<u32, Fault> {
    match word {
        "names" => declared(alloc, turns),
        "nothing" => Ok(turns),
        _ => Err(Fault::Usage),
    }
}

fn declared(alloc: Global, count: u32) -> Result<u32, Fault> {
    let mut env = Env::new(alloc)?;
    let mut table = Table::new(alloc);
    for k in 0..count {
        let name = name_of(alloc, k)?;
        let number = env.add_name(0)?;
        table.declare(alloc, name.as_str(), Symbol::Name(number))?;
    }
    resolved(alloc, &table, &env, count)
}

fn resolved(alloc: Global, table: &Table, env: &Env, count: u32) -> Result<u32, Fault> {
    let scope = Scope {
        system: 0,
        given: Seq::new(alloc),
        vars: Seq::new(alloc),
        schemas: Seq::new(alloc),
    };
    let mut done: u32 = 0;
    for k in 0..count {
        if is_term(alloc, k, &scope, table, env)? {
            done = done.saturating_add(1);
        }
    }
    Ok(done)
}

// Whether the equation over the name with this number has a term.
fn is_term(alloc: Global, k: u32, scope: &Scope, table: &Table, env: &Env) -> Result<bool, Fault> {
    let formula = equation(alloc, k)?;
    told(resolve(alloc, &formula, Sort::Boolean, scope, table, env))
}

fn told(answer: Result<Term, ResolveFault>) -> Result<bool, Fault> {
    match answer {
        Ok(_) => Ok(true),
        Err(fault) => Err(Fault::from(fault)),
    }
}

// The name with this number.
fn name_of(alloc: Global, k: u32) -> Result<Text, NoMemory> {
    let name = format!(in alloc; "n{k}")?;
    Ok(Text::from_str(alloc, name.as_str())?)
}

// The name is itself.
fn equation(alloc: Global, k: u32) -> Result<Formula, NoMemory> {
    let left = name_of(alloc, k)?;
    let right = name_of(alloc, k)?;
    Formula::binary(
        alloc,
        Binary::Equal,
        Formula::name(left),
        Formula::name(right),
    )
}
