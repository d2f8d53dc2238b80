// What a file has declared.
ghost use Rattle.std.specs.Prelude.{◌≡◌, ◌+◌, ◌≤◌, true, map, IfOk};
ghost use Rattle.sq_term.specs.Systems.{system_tree};
ghost use Rattle.sq_system.specs.Limits.{most_entries};
ghost use Rattle.sq_system.specs.Statements.{stmt_tree};
ghost use Rattle.sq_system.specs.WellFormed.{is_environment};

use crate::sequent::Sequent;
use crate::system::System;
use sq_base::{NoMemory, Seq, Text};
use sq_term::FunDecl;
use sq_typing::builtin_functions;
use std::alloc::Global;

/// How many entries each list of an environment has at most, so that each has a number.
const MOST_ENTRIES: usize = 4_294_967_295;

/// What a statement is.
#[derive(Clone, Copy, Debug, PartialEq, Eq)]
pub enum StmtKind {
    Axiom,
    Lemma,
    Equiv,
}

/// An axiom, a lemma or an equivalence: the system that it belongs to, the names of its schema
/// variables and of the variables of its starting sequent, and that sequent.
#[derive(Debug, Drop)]
pub struct Stmt {
    pub kind: StmtKind,
    pub system: u32,
    pub schemas: Seq<Text>,
    pub vars: Seq<Text>,
    pub start: Sequent,
}

/// What a file has declared: the index arity of each name, the functions with the built-in ones
/// first, the systems with the one without actions first, and the statements. Functions, bodies of
/// actions and statements are well-formed, and no list has more than 4,294,967,295 entries.
#[derive(Debug, Drop)]
pub struct Env {
    pub names: Seq<u32>,
    pub funs: Seq<FunDecl>,
    pub systems: Seq<System>,
    pub stmts: Seq<Stmt>,
    ghost well_formed: { is_environment (record {
      names = names;
      funs = funs;
      systems = map system_tree systems;
      stmts = map stmt_tree stmts;
    }) ≡ true },
}

// The number of the first of some more entries.
fn number_of(count: usize, more: usize) -> Result<u32, NoMemory>
    ensures { IfOk result (λ n. (n ≡ count) × (count + more ≤ most_entries)) }
{
    if count > MOST_ENTRIES || more > MOST_ENTRIES - count {
        return Err(NoMemory);
    }
    Ok(count as u32)
}

impl Env {
    ghost use Rattle.std.specs.Prelude.{OnErr, length, ◌++◌, ◌∷◌, []};
    ghost use Rattle.sq_typing.specs.Functions.{any_function, are_declared};
    ghost use Rattle.sq_system.specs.Environments.{env_tree, without_declarations, truncated};
    ghost use Rattle.sq_system.specs.WellFormed.{is_statement, is_well_sorted, IsEnvironment};

    /// The environment before the first declaration: it has the built-in functions and the system
    /// without actions.
    pub fn new(alloc: Global) -> Result<Env, NoMemory>
        ensures { IfOk result (λ env. env_tree env ≡ without_declarations) }
    {
        let funs = builtin_functions(alloc)?;
        let mut systems = Seq::new(alloc);
        systems.push(System::empty(alloc))?;
        Ok(Env {
            names: Seq::new(alloc),
            funs,
            systems,
            stmts: Seq::new(alloc),
        })
    }

    /// Adds a name with this count of indices, and answers its number. NoMemory comes also where
    /// there are 4,294,967,295 names, and likewise below.
    pub fn add_name(&mut self, arity: u32) -> Result<u32, NoMemory>
        ensures ok { IfOk result (λ k. (k ≡ length self.old.names)
            × (env_tree self.new
            ≡ record (env_tree self.old) { names = self.old.names ++ arity ∷ [] })) }
        ensures err { OnErr result (self.new ≡ self.old) }
    {
        let number = number_of(self.names.len(), 1)?;
        self.names.push(arity)?;
        Ok(number)
    }

    /// Adds names with these counts of indices, all or none, and answers the number of the first
    /// one.
    pub fn add_names(&mut self, arities: &[u32]) -> Result<u32, NoMemory>
        ensures ok { IfOk result (λ k. (k ≡ length self.old.names)
            × (env_tree self.new
            ≡ record (env_tree self.old) { names = self.old.names ++ arities.now })) }
        ensures err { OnErr result (self.new ≡ self.old) }
    {
        let number = number_of(self.names.len(), arities.len())?;
        self.names.extend_from_slice(arities)?;
        Ok(number)
    }

    /// Adds functions, and answers the number of the first one. The three of a signature are added
    /// together.
    pub fn add_functions(&mut self, more: &[FunDecl]) -> Result<u32, NoMemory>
        requires { are_declared any_function more.now ≡ true }
        ensures ok { IfOk result (λ k. (k ≡ length self.old.funs)
            × (env_tree self.new
            ≡ record (env_tree self.old) { funs = self.old.funs ++ more.now })) }
        ensures err { OnErr result (self.new ≡ self.old) }
    {
        let number = number_of(self.funs.len(), more.len())?;
        self.funs.extend_from_slice(more)?;
        Ok(number)
    }

    /// Adds a system, and answers its number. A refused system is dropped.
    pub fn add_system(&mut self, system: System) -> Result<u32, NoMemory>
        requires { is_well_sorted (env_tree self.old) (system_tree system) ≡ true }
        ensures ok { IfOk result (λ k. (k ≡ length self.old.systems)
            × (env_tree self.new ≡ record (env_tree self.old) {
              systems = (env_tree self.old).systems ++ system_tree system ∷ [];
            })) }
        ensures err { OnErr result (self.new ≡ self.old) }
    {
        let number = number_of(self.systems.len(), 1)?;
        self.systems.push(system)?;
        Ok(number)
    }

    /// Adds a statement, and answers its number. A refused statement is dropped.
    pub fn add_statement(&mut self, stmt: Stmt) -> Result<u32, NoMemory>
        requires { is_statement (env_tree self.old) (stmt_tree stmt) ≡ true }
        ensures ok { IfOk result (λ k. (k ≡ length self.old.stmts)
            × (env_tree self.new ≡ record (env_tree self.old) {
              stmts = (env_tree self.old).stmts ++ stmt_tree stmt ∷ [];
            })) }
        ensures err { OnErr result (self.new ≡ self.old) }
    {
        let number = number_of(self.stmts.len(), 1)?;
        self.stmts.push(stmt)?;
        Ok(number)
    }

    /// Takes back what was added last: the first names and the first systems stay. A caller that
    /// added names and a system since the environment was such a one may go back to it.
    pub fn truncate(&mut self, names: usize, systems: usize)
        requires { is_environment (truncated names systems (env_tree self.old)) ≡ true }
        ensures { env_tree self.new ≡ truncated names systems (env_tree self.old) }
    {
        self.names.truncate(names);
        self.systems.truncate(systems);
    }

    /// What every environment keeps, for a caller's proof: its systems are ones, no body is deeper
    /// than 1,024, and all its parts are well-formed. It passes over the systems once.
    pub fn facts(&self)
        ensures { IsEnvironment (env_tree self.now) }
    {
        let systems = self.systems.as_slice();
        for system in systems {
            let _count = system.count();
        }
    }
}
