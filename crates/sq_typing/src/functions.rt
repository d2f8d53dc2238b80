// The functions that every signature has.
ghost use Rattle.std.specs.Prelude.{◌≡◌, IfOk};
ghost use Rattle.sq_typing.specs.Functions as spec;

use sq_base::{NoMemory, Seq, Sort};
use sq_term::{FunDecl, FunRole};
use std::alloc::Global;

/// A function without indices and without a role.
pub fn plain_function(args: u32, sort: Sort) -> FunDecl
    ensures { result ≡ spec.plain_function args sort }
{
    FunDecl {
        idx: 0,
        args,
        result: sort,
        role: FunRole::Plain,
    }
}

/// The functions that every signature begins with, in the order of their numbers.
pub fn builtin_functions(alloc: Global) -> Result<Seq<FunDecl>, NoMemory>
    ensures { IfOk result (λ funs. funs ≡ spec.builtin_functions) }
{
    let truth = plain_function(0, Sort::Boolean);
    let negation = plain_function(1, Sort::Boolean);
    let connective = plain_function(2, Sort::Boolean);
    let of_one = plain_function(1, Sort::Message);
    Seq::from_slice(
        alloc,
        &[
            plain_function(0, Sort::Message),
            truth,
            truth,
            negation,
            connective,
            connective,
            connective,
            connective,
            plain_function(3, Sort::Message),
            plain_function(2, Sort::Message),
            of_one,
            of_one,
            of_one,
            of_one,
        ],
    )
}
