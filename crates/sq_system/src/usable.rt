// Which statements a goal may use.
ghost use Rattle.std.specs.Prelude.{◌≡◌};
ghost use Rattle.std.specs.Option.{option_copied};
ghost use Rattle.sq_term.specs.View.{term_tree, term_trees};
ghost use Rattle.sq_system.specs.Environments.{env_tree};
ghost use Rattle.sq_system.specs.Sequents.{sequent_tree};
ghost use Rattle.sq_system.specs.Usable as spec;
ghost use Rattle.sq_system.specs.Usable.{formula_of, statement_at, statement_or_none};

use crate::env::{Env, Stmt, StmtKind};
use crate::sequent::Sequent;
use sq_base::Sort;
use sq_term::Term;

/// The statement with this number.
#[tactic(auto, using(crate::proofs::Lookups::statement_rules))]
pub fn statement(env: &Env, k: u32) -> Option<&Stmt>
    ensures { statement_or_none (option_copied result) ≡ statement_at (env_tree env.now) k }
{
    sqlite_items::at(env.stmts.as_slice(), k as usize)
}

fn is_timestamp(sort: Sort) -> bool
    ensures { result ≡ spec.is_timestamp sort }
{
    match sort {
        Sort::Timestamp => true,
        Sort::Message | Sort::Boolean | Sort::Index => false,
    }
}

/// Whether a timestamp, a macro or a binder of a timestamp stands in the term.
#[cycle(time)]
#[tactic(auto, using(sq_term::proofs::Views::tree_rules))]
pub fn speaks_of_time(t: &Term) -> bool
    ensures { result ≡ spec.speaks_of_time (term_tree t.now) }
{
    match t {
        Term::Fun(_, _, args) => speak_of_time(args.as_slice()),
        Term::Diff(left, right) => speaks_of_time(left.get()) || speaks_of_time(right.get()),
        Term::Forall(sort, body) | Term::Exists(sort, body) => {
            is_timestamp(*sort) || speaks_of_time(body.get())
        }
        Term::Find(_, test, found, other) => {
            speaks_of_time(test.get())
                || (speaks_of_time(found.get()) || speaks_of_time(other.get()))
        }
        Term::Macro(_, _) | Term::Le(_, _) | Term::TsEq(_, _) | Term::Happens(_) => true,
        Term::Name(_, _) | Term::Schema(_) | Term::IdxEq(_, _) => false,
    }
}

#[cycle(time)]
#[tactic(auto, using(sq_term::proofs::Views::tree_rules))]
fn speak_of_time(terms: &[Term]) -> bool
    ensures { result ≡ spec.speak_of_time (term_trees terms.now) }
{
    let mut found = false;
    for term in terms {
        found |= speaks_of_time(term);
    }
    found
}

// Whether the formula of a starting sequent does; an equivalence has none.
fn starts_of_time(start: &Sequent) -> bool
    ensures { result ≡ spec.speaks_of_time (formula_of (sequent_tree start.now)) }
{
    match start {
        Sequent::Trace { goal, .. } | Sequent::Local { goal, .. } => speaks_of_time(goal),
        Sequent::Equiv { .. } => false,
    }
}

fn system_number(env: &Env, k: u32) -> u32
    ensures { result ≡ (statement_at (env_tree env.now) k).system }
{
    match statement(env, k) {
        Some(stmt) => stmt.system,
        None => 0,
    }
}

fn is_axiom(kind: StmtKind) -> bool
    ensures { result ≡ spec.is_axiom kind }
{
    match kind {
        StmtKind::Axiom => true,
        StmtKind::Lemma | StmtKind::Equiv => false,
    }
}

fn is_timeless_axiom(env: &Env, k: u32) -> bool
    ensures { result ≡ spec.is_timeless_axiom (statement_at (env_tree env.now) k) }
{
    match statement(env, k) {
        Some(stmt) => is_axiom(stmt.kind) && !starts_of_time(&stmt.start),
        None => false,
    }
}

/// Whether statement k may be used in the proof of a later goal: both belong to one system, or k is
/// an axiom that does not speak of time.
pub fn is_usable(env: &Env, goal: u32, k: u32) -> bool
    ensures { result ≡ spec.usable (env_tree env.now) goal k }
{
    k < goal && (system_number(env, k) == system_number(env, goal) || is_timeless_axiom(env, k))
}

/// Whether a statement of this kind states a formula, as axioms and lemmas do.
pub fn states_a_formula(kind: StmtKind) -> bool
    ensures { result ≡ spec.states_a_formula kind }
{
    match kind {
        StmtKind::Axiom | StmtKind::Lemma => true,
        StmtKind::Equiv => false,
    }
}
