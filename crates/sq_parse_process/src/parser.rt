// Processes by descent. `depth` is how many nodes may still stand around a place.
ghost use Rattle.std.specs.Prelude.{◌≡◌};
ghost use Rattle.sq_token.specs.Sign.{signs};
ghost use Rattle.sq_ast.specs.ProcTree.{process_tree};
ghost use Rattle.sq_parse_term.specs.Reads.{Reads};
ghost use Rattle.sq_parse_process.specs.Process as spec;

use crate::processes::Processes;
use sq_ast::Proc;
use sq_parse_term::{Found, Stop};
use sq_token::Token;
use std::alloc::Global;

/// The process, read from the front of the tokens as far as it goes. `depth` is how many nodes may
/// still stand around the place: 256 at the outermost, one fewer for each node around it.
#[cycle(parser)]
#[tactic(auto, unfolding(crate::specs::Process::parse_process))]
pub fn parse_process<'a>(alloc: Global, depth: usize, tokens: &'a [Token]) -> Found<'a, Proc>
    ensures { Reads process_tree result (spec.parse_process depth (signs tokens.now)) }
{
    if depth == 0 {
        return Err(Stop::TooDeep);
    }
    let processes = Processes {
        alloc,
        depth: depth - 1,
        parser: parse_process,
    };
    processes.any(tokens)
}
