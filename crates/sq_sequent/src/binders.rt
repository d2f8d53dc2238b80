// Quantifiers, and what they leave of a sequent over one more variable.
ghost use Rattle.std.specs.Prelude.{◌≡◌, IfOk};
ghost use Rattle.sq_base.specs.Gives.{Gives};
ghost use Rattle.sq_term.specs.Arguments.{arg_tree};
ghost use Rattle.sq_term.specs.View.{term_tree};
ghost use Rattle.sq_system.specs.Sequents.{sequent_tree};
ghost use Rattle.sq_subst.specs.Substitution.{opened};
ghost use Rattle.sq_sequent.specs.Premises as spec;
ghost use Rattle.sq_sequent.specs.Logic.{held};

use crate::views::vars_of;
use sq_base::{NoMemory, Sort};
use sq_subst::open_with;
use sq_system::{MOST_NODES, RuleFault, Sequent};
use sq_term::{Arg, Idx, Term, Ts};
use std::alloc::Global;

/// The sequent over one more variable of this sort.
#[tactic(auto, unfolding(crate::specs::Premises::with_variable))]
pub fn with_variable(s: Sequent, sort: Sort) -> Result<Sequent, NoMemory>
    ensures { IfOk result (λ p. sequent_tree p ≡ spec.with_variable sort (sequent_tree s)) }
{
    match s {
        Sequent::Trace {
            mut vars,
            hyps,
            goal,
        } => {
            vars.push(sort)?;
            Ok(Sequent::Trace { vars, hyps, goal })
        }
        Sequent::Local {
            side,
            mut vars,
            hyps,
            goal,
        } => {
            vars.push(sort)?;
            Ok(Sequent::Local {
                side,
                vars,
                hyps,
                goal,
            })
        }
        Sequent::Equiv {
            mut vars,
            hyps,
            known,
            items,
        } => {
            vars.push(sort)?;
            Ok(Sequent::Equiv {
                vars,
                hyps,
                known,
                items,
            })
        }
    }
}

fn variable(sort: Sort, number: u32) -> Arg
    ensures { arg_tree result ≡ spec.variable sort number }
{
    match sort {
        Sort::Index => Arg::Index(Idx::Free(number)),
        Sort::Message | Sort::Boolean | Sort::Timestamp => Arg::Time(Ts::Free(number)),
    }
}

// The variable behind those of the sequent. Where its number is past those of variables, no memory
// would hold as many.
fn new_variable(sort: Sort, s: &Sequent) -> Result<Arg, NoMemory>
    ensures { IfOk result (λ w. arg_tree w ≡ spec.new_variable sort (sequent_tree s.now)) }
{
    match u32::try_from(vars_of(s).len()) {
        Ok(number) => Ok(variable(sort, number)),
        Err(_) => Err(NoMemory),
    }
}

/// The body of a quantifier with the variable behind those of the sequent, or TooLarge where no
/// sequent may hold it.
pub fn open_new(alloc: Global, s: &Sequent, sort: Sort, body: &Term) -> Result<Term, RuleFault>
    ensures { Gives RuleFault.NoMemory term_tree result
        (held (opened (spec.new_variable sort (sequent_tree s.now)) (term_tree body.now))) }
{
    let variable = new_variable(sort, s)?;
    open_at(alloc, &variable, body)
}

/// The body of a quantifier with this value, or TooLarge where no sequent may hold it.
pub fn open_at(alloc: Global, value: &Arg, body: &Term) -> Result<Term, RuleFault>
    ensures { Gives RuleFault.NoMemory term_tree result
        (held (opened (arg_tree value.now) (term_tree body.now))) }
{
    Ok(open_with(alloc, body, value, MOST_NODES)?)
}
