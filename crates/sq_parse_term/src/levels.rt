// The forms of a formula from the tightest to the loosest.
ghost use Rattle.std.specs.Prelude.{◌≡◌, ◌≤◌};
ghost use Rattle.sq_token.specs.Sign.{signs};
ghost use Rattle.sq_ast.specs.View.{formula_tree};
ghost use Rattle.sq_parse_term.specs.Parse as spec;
ghost use Rattle.sq_parse_term.specs.Reads.{Reads, Parses};

use crate::parts::Parts;
use crate::stop::{Found, Stop};
use crate::words::{Start, binary_of, binary_rank, operand_form, start_of};
use sq_ast::{Form, Formula};
use sq_token::{Punctuation, Token, TokenKind};
use std::alloc::Global;

impl<'a, F: Fn(Global, usize, Form, &'a [Token]) -> Found<'a, Formula>> Parts<F> {
    /// The term that begins so.
    pub fn begun(&self, start: Option<Start>, tokens: &'a [Token]) -> Found<'a, Formula>
        requires { Parses self.now.depth (F.pre self.now.parser) (F.post self.now.parser) }
        ensures { Reads formula_tree result
            (spec.begun (spec.parse self.now.depth) start (signs tokens.now)) }
    {
        match start {
            None => Err(Stop::None),
            Some(Start::Quantifier(_)) => Err(Stop::None),
            Some(Start::Constant(constant)) => Ok((Formula::constant(constant), tokens)),
            Some(Start::Unary(word)) => self.call(word, tokens),
            Some(Start::Macro(word)) => self.valuation(word, tokens),
            Some(Start::If) => self.conditional(tokens),
            Some(Start::Find) => self.find(tokens),
            Some(Start::Diff) => self.difference(tokens),
        }
    }

    /// The term that the symbol begins.
    pub fn marked(&self, symbol: Punctuation, tokens: &'a [Token]) -> Found<'a, Formula>
        requires { Parses self.now.depth (F.pre self.now.parser) (F.post self.now.parser) }
        ensures { Reads formula_tree result
            (spec.marked (spec.parse self.now.depth) symbol (signs tokens.now)) }
    {
        match symbol {
            Punctuation::OpenParenthesis => self.group(tokens),
            Punctuation::Less => self.pair(tokens),
            _ => Err(Stop::None),
        }
    }

    #[tactic(auto, unfolding(crate::specs::Parse::term))]
    pub fn term(&self, tokens: &'a [Token]) -> Found<'a, Formula>
        requires { Parses self.now.depth (F.pre self.now.parser) (F.post self.now.parser) }
        ensures { Reads formula_tree result
            (spec.term (spec.parse self.now.depth) (signs tokens.now)) }
    {
        let Some((token, rest)) = tokens.split_first() else {
            return Err(Stop::None);
        };
        match token.kind {
            TokenKind::Identifier => self.application(&token.text, rest),
            TokenKind::Number => Err(Stop::None),
            TokenKind::Reserved(word) => self.begun(start_of(word), rest),
            TokenKind::Punctuation(symbol) => self.marked(symbol, rest),
        }
    }

    /// The left operand with an operator of the rank and its right operand, if they stand there.
    #[tactic(auto, unfolding(crate::specs::Parse::continued))]
    pub fn continued(&self, rank: u8, left: Formula, tokens: &'a [Token]) -> Found<'a, Formula>
        requires { Parses self.now.depth (F.pre self.now.parser) (F.post self.now.parser) }
        ensures { Reads formula_tree result
            (spec.continued (spec.parse self.now.depth) rank (formula_tree left)
            (signs tokens.now)) }
    {
        let Some((token, rest)) = tokens.split_first() else {
            return Ok((left, tokens));
        };
        let TokenKind::Punctuation(symbol) = token.kind else {
            return Ok((left, tokens));
        };
        let Some(operator) = binary_of(symbol) else {
            return Ok((left, tokens));
        };
        if binary_rank(operator) != rank {
            return Ok((left, tokens));
        }
        match self.part(operand_form(operator), rest) {
            Ok((right, end)) => Ok((Formula::binary(self.alloc, operator, left, right)?, end)),
            Err(Stop::None) => Ok((left, tokens)),
            Err(stop) => Err(stop),
        }
    }

    /// A form by its rank: a term, and then what each looser form adds behind it.
    #[tactic(auto, unfolding(crate::specs::Parse::ranked))]
    pub fn ranked(&self, rank: u8, tokens: &'a [Token]) -> Found<'a, Formula>
        requires parses { Parses self.now.depth (F.pre self.now.parser) (F.post self.now.parser) }
        requires rank { rank ≤ 4 }
        ensures { Reads formula_tree result
            (spec.ranked (spec.parse self.now.depth) rank (signs tokens.now)) }
    {
        let (mut left, mut rest) = self.term(tokens)?;
        for below in 0..rank {
            let (longer, end) = self.continued(below + 1, left, rest)?;
            left = longer;
            rest = end;
        }
        Ok((left, rest))
    }

    #[tactic(auto, unfolding(crate::specs::Parse::formula))]
    pub fn formula(&self, tokens: &'a [Token]) -> Found<'a, Formula>
        requires { Parses self.now.depth (F.pre self.now.parser) (F.post self.now.parser) }
        ensures { Reads formula_tree result
            (spec.formula (spec.parse self.now.depth) (signs tokens.now)) }
    {
        let Some((token, rest)) = tokens.split_first() else {
            return self.ranked(4, tokens);
        };
        let TokenKind::Reserved(word) = token.kind else {
            return self.ranked(4, tokens);
        };
        match start_of(word) {
            Some(Start::Quantifier(quantifier)) => self.quantification(quantifier, rest),
            _ => self.ranked(4, tokens),
        }
    }
}
