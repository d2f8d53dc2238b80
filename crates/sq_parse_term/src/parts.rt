// The parts of a form, each read with so many nodes still to go, and lists of them.
ghost use Rattle.sq_token.specs.Sign.{signs, mark, reserved};
ghost use Rattle.sq_ast.specs.View.{formula_tree, formula_trees};
ghost use Rattle.sq_parse_term.specs.Parse as spec;
ghost use Rattle.sq_parse_term.specs.Ended.{ended};
ghost use Rattle.sq_parse_term.specs.Lists.{formula_list};
ghost use Rattle.sq_parse_term.specs.Reads.{Reads, Parses};

use crate::stop::{Found, Stop};
use crate::tokens::{eat_mark, eat_word};
use sq_ast::{Form, Formula};
use sq_base::Seq;
use sq_token::{Punctuation, Reserved, Token};
use std::alloc::Global;

/// The parser of what stands inside a form.
#[derive(Clone, Copy)]
pub struct Parts<F> {
    pub alloc: Global,
    /// How many nodes may still stand around a part.
    pub depth: usize,
    pub parser: F,
}

impl<'a, F: Fn(Global, usize, Form, &'a [Token]) -> Found<'a, Formula>> Parts<F> {
    pub fn part(&self, form: Form, tokens: &'a [Token]) -> Found<'a, Formula>
        requires { Parses self.now.depth (F.pre self.now.parser) (F.post self.now.parser) }
        ensures { Reads formula_tree result (spec.parse self.now.depth form (signs tokens.now)) }
    {
        (self.parser)(self.alloc, self.depth, form, tokens)
    }

    /// A part, and the symbol behind it.
    #[tactic(auto, unfolding(crate::specs::Ended::ended))]
    pub fn before_mark(
        &self,
        form: Form,
        symbol: Punctuation,
        tokens: &'a [Token],
    ) -> Found<'a, Formula>
        requires { Parses self.now.depth (F.pre self.now.parser) (F.post self.now.parser) }
        ensures { Reads formula_tree result
            (ended (mark symbol) (spec.parse self.now.depth form (signs tokens.now))) }
    {
        let (inner, rest) = self.part(form, tokens)?;
        let rest = eat_mark(symbol, rest)?;
        Ok((inner, rest))
    }

    /// A part, and the word behind it.
    #[tactic(auto, unfolding(crate::specs::Ended::ended))]
    pub fn before_word(&self, form: Form, word: Reserved, tokens: &'a [Token]) -> Found<'a, Formula>
        requires { Parses self.now.depth (F.pre self.now.parser) (F.post self.now.parser) }
        ensures { Reads formula_tree result
            (ended (reserved word) (spec.parse self.now.depth form (signs tokens.now))) }
    {
        let (inner, rest) = self.part(form, tokens)?;
        let rest = eat_word(word, rest)?;
        Ok((inner, rest))
    }

    /// Formulas with commas between them.
    #[tactic(auto, unfolding(crate::specs::Parse::formulas))]
    pub fn formulas(&self, tokens: &'a [Token]) -> Found<'a, Seq<Formula>>
        requires { Parses self.now.depth (F.pre self.now.parser) (F.post self.now.parser) }
        ensures { Reads formula_trees result
            (formula_list (spec.parse self.now.depth) (signs tokens.now)) }
    {
        let mut found = Seq::new(self.alloc);
        let mut rest = tokens;
        for _turn in 0..tokens.len() + 1 {
            let (formula, after) = self.part(Form::Formula, rest)?;
            found.push(formula)?;
            let Ok(next) = eat_mark(Punctuation::Comma, after) else {
                return Ok((found, after));
            };
            rest = next;
        }
        Err(Stop::None)
    }
}
