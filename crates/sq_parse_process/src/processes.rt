// The parts of a process, each read with so many nodes still to go, and lists of them.
ghost use Rattle.std.specs.Prelude.{◌≡◌, suc, length, option_map};
ghost use Rattle.sq_token.specs.Sign.{signs, mark, reserved};
ghost use Rattle.sq_ast.specs.View.{formula_tree};
ghost use Rattle.sq_ast.specs.ProcTree.{process_tree, process_trees};
ghost use Rattle.sq_parse_term.specs.Reads.{Reads};
ghost use Rattle.sq_parse_process.specs.Process as spec;
ghost use Rattle.sq_parse_process.specs.Parses.{Parses};
ghost use Rattle.sq_parse_process.specs.Spent.{IsSpent};

use crate::openness::is_open;
use sq_ast::{Form, Formula, Proc};
use sq_parse_term::{Found, Stop, eat_mark, eat_word, parse_form};
use sq_token::{Punctuation, Reserved, Token};
use sqlite_items::{Boxed, Items};
use std::alloc::Global;

/// The parser of what stands inside a process.
#[derive(Clone, Copy)]
pub struct Processes<P> {
    pub alloc: Global,
    /// How many nodes may still stand around a part.
    pub depth: usize,
    pub parser: P,
}

impl<'a, P: Fn(Global, usize, &'a [Token]) -> Found<'a, Proc>> Processes<P> {
    pub fn process(&self, tokens: &'a [Token]) -> Found<'a, Proc>
        requires { Parses self.now.depth (P.pre self.now.parser) (P.post self.now.parser) }
        ensures { Reads process_tree result (spec.parse_process self.now.depth (signs tokens.now)) }
    {
        (self.parser)(self.alloc, self.depth, tokens)
    }

    /// A process in a box of its own, as it stands inside another.
    pub fn boxed(&self, tokens: &'a [Token]) -> Found<'a, Boxed<Proc>>
        requires { Parses self.now.depth (P.pre self.now.parser) (P.post self.now.parser) }
        ensures { Reads process_tree result (spec.parse_process self.now.depth (signs tokens.now)) }
    {
        let (process, rest) = self.process(tokens)?;
        Ok((Boxed::new(self.alloc, process)?, rest))
    }

    pub fn formula(&self, tokens: &'a [Token]) -> Found<'a, Formula>
        ensures { Reads formula_tree result (spec.formula_at self.now.depth (signs tokens.now)) }
    {
        parse_form(self.alloc, self.depth, Form::Formula, tokens)
    }

    /// A formula, and the symbol behind it.
    pub fn formula_before(&self, symbol: Punctuation, tokens: &'a [Token]) -> Found<'a, Formula>
        ensures { Reads formula_tree result
            (spec.formula_before (spec.formula_at self.now.depth)
            (spec.parse_process self.now.depth) (mark symbol) (signs tokens.now)) }
    {
        let (formula, rest) = self.formula(tokens)?;
        let rest = eat_mark(symbol, rest)?;
        Ok((formula, rest))
    }

    /// The symbol and a process behind it.
    pub fn behind_mark(&self, symbol: Punctuation, tokens: &'a [Token]) -> Found<'a, Boxed<Proc>>
        requires { Parses self.now.depth (P.pre self.now.parser) (P.post self.now.parser) }
        ensures { Reads process_tree result
            (spec.behind (spec.formula_at self.now.depth) (spec.parse_process self.now.depth)
            (mark symbol) (signs tokens.now)) }
    {
        let rest = eat_mark(symbol, tokens)?;
        self.boxed(rest)
    }

    /// The word and a process behind it.
    pub fn behind_word(&self, word: Reserved, tokens: &'a [Token]) -> Found<'a, Boxed<Proc>>
        requires { Parses self.now.depth (P.pre self.now.parser) (P.post self.now.parser) }
        ensures { Reads process_tree result
            (spec.behind (spec.formula_at self.now.depth) (spec.parse_process self.now.depth)
            (reserved word) (signs tokens.now)) }
    {
        let rest = eat_word(word, tokens)?;
        self.boxed(rest)
    }

    /// What goes on behind a `;`, if there is a process.
    pub fn next(&self, tokens: &'a [Token]) -> Found<'a, Option<Boxed<Proc>>>
        requires { Parses self.now.depth (P.pre self.now.parser) (P.post self.now.parser) }
        ensures { Reads (option_map process_tree) result
            (spec.perhaps (spec.formula_at self.now.depth) (spec.parse_process self.now.depth)
            (mark Punctuation.Semicolon) (signs tokens.now)) }
    {
        match self.behind_mark(Punctuation::Semicolon, tokens) {
            Ok((process, rest)) => Ok((Some(process), rest)),
            Err(Stop::None) => Ok((None, tokens)),
            Err(stop) => Err(stop),
        }
    }

    /// The branch behind an `else`, if there is one. An `else` behind an open process was tried
    /// inside it, and is not tried again.
    pub fn otherwise(&self, yes: &Proc, tokens: &'a [Token]) -> Found<'a, Option<Boxed<Proc>>>
        requires parses { Parses self.now.depth (P.pre self.now.parser) (P.post self.now.parser) }
        requires spent { IsSpent (spec.parse_process self.now.depth) (process_tree yes.now)
            (signs tokens.now) }
        ensures { Reads (option_map process_tree) result
            (spec.perhaps (spec.formula_at self.now.depth) (spec.parse_process self.now.depth)
            (reserved Reserved.Else) (signs tokens.now)) }
    {
        if eat_word(Reserved::Else, tokens).is_ok() && is_open(yes) {
            return Ok((None, tokens));
        }
        match self.behind_word(Reserved::Else, tokens) {
            Ok((process, rest)) => Ok((Some(process), rest)),
            Err(Stop::None) => Ok((None, tokens)),
            Err(stop) => Err(stop),
        }
    }

    /// Processes with `|` between them.
    #[tactic(auto, unfolding(crate::specs::Process::read_processes))]
    pub fn list(&self, tokens: &'a [Token]) -> Found<'a, Items<Proc>>
        requires { Parses self.now.depth (P.pre self.now.parser) (P.post self.now.parser) }
        ensures { Reads process_trees result
            (spec.read_processes (spec.formula_at self.now.depth)
            (spec.parse_process self.now.depth) (suc (length (signs tokens.now)))
            (signs tokens.now)) }
    {
        let mut found = Items::new(self.alloc);
        let mut rest = tokens;
        for _turn in 0..tokens.len() + 1 {
            let (process, after) = self.process(rest)?;
            found.push(process)?;
            let Ok(next) = eat_mark(Punctuation::Bar, after) else {
                return Ok((found, after));
            };
            rest = next;
        }
        Err(Stop::None)
    }
}
