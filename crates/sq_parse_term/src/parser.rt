// A parser by descent. `depth` is how many nodes may still stand around a place.
ghost use Rattle.std.specs.Prelude.{◌≡◌, ◌≤◌, IfOk, IfSome, IfNone, IsErrOf, drop, length};
ghost use Rattle.sq_token.specs.Sign.{signs};
ghost use Rattle.sq_ast.specs.View.{formula_tree, formula_trees};
ghost use Rattle.sq_parse_term.specs.Parse as spec;
ghost use Rattle.sq_parse_term.specs.Lists.{formula_list};
ghost use Rattle.sq_parse_term.specs.Reads.{Reads};
ghost use Rattle.sq_parse_term.specs.Answers.{IsFormula, HasNone, IsTooDeep};

use crate::ParseFault;
use crate::depth::fits;
use crate::parts::Parts;
use crate::stop::{Found, Stop};
use sq_ast::{Form, Formula};
use sq_base::Seq;
use sq_token::Token;
use std::alloc::Global;

/// The form, read from the front of the tokens as far as it goes. `depth` is how many nodes may
/// still stand around the place: 256 at the outermost, one fewer for each node around it.
#[cycle(parser)]
#[tactic(auto, unfolding(crate::specs::Parse::any, crate::specs::Parse::parse))]
pub fn parse_form<'a>(
    alloc: Global,
    depth: usize,
    form: Form,
    tokens: &'a [Token],
) -> Found<'a, Formula>
    ensures { Reads formula_tree result (spec.parse depth form (signs tokens.now)) }
{
    if depth == 0 {
        return Err(Stop::TooDeep);
    }
    let parts = Parts {
        alloc,
        depth: depth - 1,
        parser: parse_form,
    };
    match form {
        Form::Time => parts.time(tokens),
        Form::Term => parts.ranked(0, tokens),
        Form::Atom => parts.ranked(1, tokens),
        Form::Conj => parts.ranked(2, tokens),
        Form::Disj => parts.ranked(3, tokens),
        Form::Formula => parts.formula(tokens),
    }
}

/// Formulas with commas between them, each with so many nodes still to go.
pub fn parse_formulas(alloc: Global, depth: usize, tokens: &[Token]) -> Found<'_, Seq<Formula>>
    ensures { Reads formula_trees result (formula_list (spec.parse depth) (signs tokens.now)) }
{
    let parts = Parts {
        alloc,
        depth,
        parser: parse_form,
    };
    parts.formulas(tokens)
}

/// The greatest number of nodes around a place, and the greatest depth of a tree.
pub const MAX_DEPTH: usize = 256;

/// The longest formula at the front of the tokens from the place `from` on, and the place behind
/// it. Behind the last token there is none.
pub fn parse_formula(
    alloc: Global,
    tokens: &[Token],
    from: usize,
) -> Result<Option<(Formula, usize)>, ParseFault>
    ensures found { IfOk result (λ o. IfSome o
        (λ x. IsFormula (signs (drop from tokens.now)) (formula_tree x.0)
        (signs (drop x.1 tokens.now)))) }
    ensures within { IfOk result (λ o. IfSome o (λ x. x.1 ≤ length tokens.now)) }
    ensures none { IfOk result (λ o. IfNone o (HasNone (signs (drop from tokens.now)))) }
    ensures deep { IsErrOf result ParseFault.TooDeep → IsTooDeep (signs (drop from tokens.now)) }
{
    if from > tokens.len() {
        return Ok(None);
    }
    let (_, here) = tokens.split_at(from);
    match parse_form(alloc, MAX_DEPTH, Form::Formula, here) {
        Ok((formula, rest)) => {
            if !fits(&formula, MAX_DEPTH) {
                return Err(ParseFault::TooDeep);
            }
            Ok(Some((formula, tokens.len() - rest.len())))
        }
        Err(Stop::None) => Ok(None),
        Err(Stop::TooDeep) => Err(ParseFault::TooDeep),
        Err(Stop::NoMemory) => Err(ParseFault::NoMemory),
    }
}
