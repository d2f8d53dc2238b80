// The alternatives of a term and of a timestamp. Each begins behind the tokens that tell which
// alternative it is.
ghost use Rattle.std.specs.Prelude.{◌≡◌, IfOk};
ghost use Rattle.sq_token.specs.Sign.{signs};
ghost use Rattle.sq_ast.specs.View.{formula_tree, formula_trees};
ghost use Rattle.sq_ast.specs.Deep as deep;
ghost use Rattle.sq_parse_term.specs.Parse as spec;
ghost use Rattle.sq_parse_term.specs.Lists.{find_branches, find_last};
ghost use Rattle.sq_parse_term.specs.Reads.{Reads, Parses};

use crate::parts::Parts;
use crate::stop::{Found, Stop};
use crate::tokens::{binders, eat_mark, eat_word, identifiers, instance};
use crate::words::{Start, argument_form, start_of};
use sq_ast::{Constant, Form, Formula, MacroWord, Quantifier, Unary};
use sq_base::{NoMemory, Seq, Text};
use sq_token::{Punctuation, Reserved, Token, TokenKind};
use sqlite_items::Items;
use std::alloc::Global;

impl<'a, F: Fn(Global, usize, Form, &'a [Token]) -> Found<'a, Formula>> Parts<F> {
    /// `formula )`
    #[tactic(auto, unfolding(crate::specs::Parse::run))]
    pub fn group(&self, tokens: &'a [Token]) -> Found<'a, Formula>
        requires { Parses self.now.depth (F.pre self.now.parser) (F.post self.now.parser) }
        ensures { Reads formula_tree result
            (spec.alternative (spec.parse self.now.depth) deep.grouping (signs tokens.now)) }
    {
        let (inner, rest) = self.part(Form::Formula, tokens)?;
        let rest = eat_mark(Punctuation::CloseParenthesis, rest)?;
        Ok((Formula::group(self.alloc, inner)?, rest))
    }

    /// `term , term >`
    pub fn pair(&self, tokens: &'a [Token]) -> Found<'a, Formula>
        requires { Parses self.now.depth (F.pre self.now.parser) (F.post self.now.parser) }
        ensures { Reads formula_tree result
            (spec.alternative (spec.parse self.now.depth) deep.pairing (signs tokens.now)) }
    {
        let (first, rest) = self.before_mark(Form::Term, Punctuation::Comma, tokens)?;
        let (second, rest) = self.before_mark(Form::Term, Punctuation::Greater, rest)?;
        Ok((Formula::pair(self.alloc, first, second)?, rest))
    }

    /// `formula then term else term`
    pub fn conditional(&self, tokens: &'a [Token]) -> Found<'a, Formula>
        requires { Parses self.now.depth (F.pre self.now.parser) (F.post self.now.parser) }
        ensures { Reads formula_tree result
            (spec.alternative (spec.parse self.now.depth) deep.condition (signs tokens.now)) }
    {
        let (test, rest) = self.before_word(Form::Formula, Reserved::Then, tokens)?;
        let (yes, rest) = self.before_word(Form::Term, Reserved::Else, rest)?;
        let (no, rest) = self.part(Form::Term, rest)?;
        Ok((Formula::conditional(self.alloc, test, yes, no)?, rest))
    }

    /// `ID, .. such that formula in term else term`
    #[tactic(auto, unfolding(crate::specs::Parse::found))]
    pub fn find(&self, tokens: &'a [Token]) -> Found<'a, Formula>
        requires { Parses self.now.depth (F.pre self.now.parser) (F.post self.now.parser) }
        ensures { Reads formula_tree result
            (spec.found (spec.parse self.now.depth) (signs tokens.now)) }
    {
        let (names, rest) = identifiers(self.alloc, tokens)?;
        self.finding(names, rest)
    }

    /// `such that formula in term else term`
    #[tactic(auto, unfolding(crate::specs::Parse::run))]
    fn finding(&self, names: Seq<Text>, tokens: &'a [Token]) -> Found<'a, Formula>
        requires { Parses self.now.depth (F.pre self.now.parser) (F.post self.now.parser) }
        ensures { Reads formula_tree result
            (spec.alternative (spec.parse self.now.depth) (deep.finding names) (signs tokens.now)) }
    {
        let rest = eat_word(Reserved::Such, tokens)?;
        let rest = eat_word(Reserved::That, rest)?;
        let (test, rest) = self.part(Form::Formula, rest)?;
        self.branches(names, test, rest)
    }

    /// `in term else term`, behind the test of a find
    fn branches(&self, names: Seq<Text>, test: Formula, tokens: &'a [Token]) -> Found<'a, Formula>
        requires { Parses self.now.depth (F.pre self.now.parser) (F.post self.now.parser) }
        ensures { Reads formula_tree result
            (find_branches (spec.parse self.now.depth) names (formula_tree test)
            (signs tokens.now)) }
    {
        let rest = eat_word(Reserved::In, tokens)?;
        let (yes, rest) = self.before_word(Form::Term, Reserved::Else, rest)?;
        self.otherwise(names, test, yes, rest)
    }

    /// The last term of a find.
    #[tactic(auto, unfolding(crate::specs::Parse::run))]
    fn otherwise(
        &self,
        names: Seq<Text>,
        test: Formula,
        yes: Formula,
        tokens: &'a [Token],
    ) -> Found<'a, Formula>
        requires { Parses self.now.depth (F.pre self.now.parser) (F.post self.now.parser) }
        ensures { Reads formula_tree result
            (find_last (spec.parse self.now.depth) names (formula_tree test) (formula_tree yes)
            (signs tokens.now)) }
    {
        let (no, rest) = self.part(Form::Term, tokens)?;
        Ok((Formula::find(self.alloc, names, test, yes, no)?, rest))
    }

    /// `( formula , formula )`
    pub fn difference(&self, tokens: &'a [Token]) -> Found<'a, Formula>
        requires { Parses self.now.depth (F.pre self.now.parser) (F.post self.now.parser) }
        ensures { Reads formula_tree result
            (spec.alternative (spec.parse self.now.depth) deep.difference (signs tokens.now)) }
    {
        let rest = eat_mark(Punctuation::OpenParenthesis, tokens)?;
        let (left, rest) = self.before_mark(Form::Formula, Punctuation::Comma, rest)?;
        let closing = Punctuation::CloseParenthesis;
        let (right, rest) = self.before_mark(Form::Formula, closing, rest)?;
        Ok((Formula::diff(self.alloc, left, right)?, rest))
    }

    /// The argument of the word, in parentheses.
    #[tactic(auto, unfolding(crate::specs::Parse::run))]
    pub fn call(&self, word: Unary, tokens: &'a [Token]) -> Found<'a, Formula>
        requires { Parses self.now.depth (F.pre self.now.parser) (F.post self.now.parser) }
        ensures { Reads formula_tree result
            (spec.alternative (spec.parse self.now.depth) (deep.call word) (signs tokens.now)) }
    {
        let rest = eat_mark(Punctuation::OpenParenthesis, tokens)?;
        let (argument, rest) = self.part(argument_form(word), rest)?;
        let rest = eat_mark(Punctuation::CloseParenthesis, rest)?;
        Ok((Formula::unary(self.alloc, word, argument)?, rest))
    }

    /// `@ time`
    #[tactic(auto, unfolding(crate::specs::Parse::run))]
    pub fn valuation(&self, word: MacroWord, tokens: &'a [Token]) -> Found<'a, Formula>
        requires { Parses self.now.depth (F.pre self.now.parser) (F.post self.now.parser) }
        ensures { Reads formula_tree result
            (spec.alternative (spec.parse self.now.depth) (deep.valuation word)
            (signs tokens.now)) }
    {
        let rest = eat_mark(Punctuation::At, tokens)?;
        let (time, rest) = self.part(Form::Time, rest)?;
        Ok((Formula::macro_at(self.alloc, word, time)?, rest))
    }

    /// `( binders ) , formula`
    #[tactic(auto, unfolding(crate::specs::Parse::quantifying, crate::specs::Parse::run))]
    pub fn quantification(&self, word: Quantifier, tokens: &'a [Token]) -> Found<'a, Formula>
        requires { Parses self.now.depth (F.pre self.now.parser) (F.post self.now.parser) }
        ensures { Reads formula_tree result
            (spec.quantifying (spec.parse self.now.depth) word (signs tokens.now)) }
    {
        let rest = eat_mark(Punctuation::OpenParenthesis, tokens)?;
        let (groups, rest) = binders(self.alloc, rest)?;
        let rest = eat_mark(Punctuation::CloseParenthesis, rest)?;
        let rest = eat_mark(Punctuation::Comma, rest)?;
        let (body, rest) = self.part(Form::Formula, rest)?;
        Ok((Formula::quantified(self.alloc, word, groups, body)?, rest))
    }

    /// `( formula, .. )`
    #[tactic(auto, unfolding(crate::specs::Parse::arguments))]
    pub fn arguments(&self, tokens: &'a [Token]) -> Found<'a, Items<Formula>>
        requires { Parses self.now.depth (F.pre self.now.parser) (F.post self.now.parser) }
        ensures { Reads formula_trees result
            (spec.arguments (spec.parse self.now.depth) (signs tokens.now)) }
    {
        let rest = eat_mark(Punctuation::OpenParenthesis, tokens)?;
        let (found, rest) = self.formulas(rest)?;
        let rest = eat_mark(Punctuation::CloseParenthesis, rest)?;
        Ok((Items::from_vec(found.into_vec()), rest))
    }

    /// The identifier with its arguments, if it has some.
    #[tactic(auto, unfolding(crate::specs::Parse::applied))]
    pub fn application(&self, name: &Text, tokens: &'a [Token]) -> Found<'a, Formula>
        requires { Parses self.now.depth (F.pre self.now.parser) (F.post self.now.parser) }
        ensures { Reads formula_tree result
            (spec.applied (spec.parse self.now.depth) name.now (signs tokens.now)) }
    {
        match self.arguments(tokens) {
            Ok((found, rest)) => Ok((Formula::apply(name.copy(self.alloc)?, found), rest)),
            Err(Stop::None) => Ok((Formula::name(name.copy(self.alloc)?), tokens)),
            Err(stop) => Err(stop),
        }
    }

    /// A timestamp.
    #[tactic(auto, unfolding(crate::specs::Parse::time))]
    pub fn time(&self, tokens: &'a [Token]) -> Found<'a, Formula>
        requires { Parses self.now.depth (F.pre self.now.parser) (F.post self.now.parser) }
        ensures { Reads formula_tree result
            (spec.time (spec.parse self.now.depth) (signs tokens.now)) }
    {
        let Some((token, rest)) = tokens.split_first() else {
            return Err(Stop::None);
        };
        match token.kind {
            TokenKind::Identifier => action(self.alloc, &token.text, rest),
            TokenKind::Reserved(word) => match start_of(word) {
                Some(Start::Constant(Constant::Init)) => {
                    Ok((Formula::constant(Constant::Init), rest))
                }
                Some(Start::Unary(Unary::Pred)) => self.call(Unary::Pred, rest),
                _ => Err(Stop::None),
            },
            _ => Err(Stop::None),
        }
    }
}

/// Each identifier as a formula.
fn named(alloc: Global, names: Seq<Text>) -> Result<Items<Formula>, NoMemory>
    ensures { IfOk result (λ fs. formula_trees fs ≡ spec.named names) }
{
    let mut found = Items::new(alloc);
    for name in names.as_slice() {
        found.push(Formula::name(name.copy(alloc)?))?;
    }
    Ok(found)
}

/// The action with its indices, if it has some.
#[tactic(auto, unfolding(crate::specs::Parse::action))]
fn action<'a>(alloc: Global, name: &Text, tokens: &'a [Token]) -> Found<'a, Formula>
    ensures { Reads formula_tree result (spec.action name.now (signs tokens.now)) }
{
    match instance(alloc, tokens) {
        Ok((names, rest)) => {
            Ok((
                Formula::apply(name.copy(alloc)?, named(alloc, names)?),
                rest,
            ))
        }
        Err(Stop::None) => Ok((Formula::name(name.copy(alloc)?), tokens)),
        Err(stop) => Err(stop),
    }
}
