// The alternatives of a process. Each begins behind the token that tells which alternative it is.
ghost use Rattle.std.specs.Prelude.{◌≡◌};
ghost use Rattle.sq_token.specs.Sign.{signs, mark};
ghost use Rattle.sq_ast.specs.ProcTree.{process_tree};
ghost use Rattle.sq_parse_term.specs.Reads.{Reads};
ghost use Rattle.sq_parse_process.specs.Process as spec;
ghost use Rattle.sq_parse_process.specs.Parses.{Parses};

use crate::processes::Processes;
use sq_ast::Proc;
use sq_base::{Seq, Text};
use sq_parse_term::{Found, Stop, eat_mark, eat_word, identifier, identifiers, instance};
use sq_token::{Punctuation, Reserved, Token, TokenKind};
use std::alloc::Global;

impl<'a, P: Fn(Global, usize, &'a [Token]) -> Found<'a, Proc>> Processes<P> {
    /// `ID ; process`
    #[tactic(auto, unfolding(crate::specs::Process::read_new))]
    pub fn new_name(&self, tokens: &'a [Token]) -> Found<'a, Proc>
        requires { Parses self.now.depth (P.pre self.now.parser) (P.post self.now.parser) }
        ensures { Reads process_tree result
            (spec.read_new (spec.formula_at self.now.depth) (spec.parse_process self.now.depth)
            (signs tokens.now)) }
    {
        let (name, rest) = identifier(self.alloc, tokens)?;
        let (body, rest) = self.behind_mark(Punctuation::Semicolon, rest)?;
        Ok((Proc::New(name, body), rest))
    }

    /// `( ID , ID )`, and what goes on behind it
    #[tactic(auto, unfolding(crate::specs::Process::read_in))]
    pub fn input(&self, tokens: &'a [Token]) -> Found<'a, Proc>
        requires { Parses self.now.depth (P.pre self.now.parser) (P.post self.now.parser) }
        ensures { Reads process_tree result
            (spec.read_in (spec.formula_at self.now.depth) (spec.parse_process self.now.depth)
            (signs tokens.now)) }
    {
        let rest = eat_mark(Punctuation::OpenParenthesis, tokens)?;
        let (channel, rest) = name_before(self.alloc, Punctuation::Comma, rest)?;
        let (variable, rest) = name_before(self.alloc, Punctuation::CloseParenthesis, rest)?;
        let (next, rest) = self.next(rest)?;
        Ok((Proc::receive(channel, variable, next), rest))
    }

    /// `( ID , formula )`, and what goes on behind it
    #[tactic(auto, unfolding(crate::specs::Process::read_out))]
    pub fn output(&self, tokens: &'a [Token]) -> Found<'a, Proc>
        requires { Parses self.now.depth (P.pre self.now.parser) (P.post self.now.parser) }
        ensures { Reads process_tree result
            (spec.read_out (spec.formula_at self.now.depth) (spec.parse_process self.now.depth)
            (signs tokens.now)) }
    {
        let rest = eat_mark(Punctuation::OpenParenthesis, tokens)?;
        let (channel, rest) = name_before(self.alloc, Punctuation::Comma, rest)?;
        let (message, rest) = self.formula_before(Punctuation::CloseParenthesis, rest)?;
        let (next, rest) = self.next(rest)?;
        Ok((Proc::send(channel, message, next), rest))
    }

    /// `formula then process`, and the other branch
    pub fn conditional(&self, tokens: &'a [Token]) -> Found<'a, Proc>
        requires { Parses self.now.depth (P.pre self.now.parser) (P.post self.now.parser) }
        ensures { Reads process_tree result
            (spec.read_if (spec.formula_at self.now.depth) (spec.parse_process self.now.depth)
            (signs tokens.now)) }
    {
        let (test, rest) = self.formula(tokens)?;
        let (yes, rest) = self.behind_word(Reserved::Then, rest)?;
        let (no, rest) = self.otherwise(yes.get(), rest)?;
        Ok((Proc::branch(test, yes, no), rest))
    }

    /// `ID, .. such that formula in process`, and the other branch
    #[tactic(auto, unfolding(crate::specs::Process::read_find))]
    pub fn find(&self, tokens: &'a [Token]) -> Found<'a, Proc>
        requires { Parses self.now.depth (P.pre self.now.parser) (P.post self.now.parser) }
        ensures { Reads process_tree result
            (spec.read_find (spec.formula_at self.now.depth) (spec.parse_process self.now.depth)
            (signs tokens.now)) }
    {
        let (names, rest) = identifiers(self.alloc, tokens)?;
        let rest = eat_word(Reserved::Such, rest)?;
        let rest = eat_word(Reserved::That, rest)?;
        self.branches(names, rest)
    }

    /// `formula in process`, and the other branch, behind the names of a find
    fn branches(&self, names: Seq<Text>, tokens: &'a [Token]) -> Found<'a, Proc>
        requires { Parses self.now.depth (P.pre self.now.parser) (P.post self.now.parser) }
        ensures { Reads process_tree result
            (spec.read_branches (spec.formula_at self.now.depth)
            (spec.parse_process self.now.depth) names (signs tokens.now)) }
    {
        let (test, rest) = self.formula(tokens)?;
        let (yes, rest) = self.behind_word(Reserved::In, rest)?;
        let (no, rest) = self.otherwise(yes.get(), rest)?;
        Ok((Proc::find(names, test, yes, no), rest))
    }

    /// `ID = formula in process`
    #[tactic(auto, unfolding(crate::specs::Process::read_let))]
    pub fn definition(&self, tokens: &'a [Token]) -> Found<'a, Proc>
        requires { Parses self.now.depth (P.pre self.now.parser) (P.post self.now.parser) }
        ensures { Reads process_tree result
            (spec.read_let (spec.formula_at self.now.depth) (spec.parse_process self.now.depth)
            (signs tokens.now)) }
    {
        let (name, rest) = name_before(self.alloc, Punctuation::Equals, tokens)?;
        let (value, rest) = self.formula(rest)?;
        let (body, rest) = self.behind_word(Reserved::In, rest)?;
        Ok((Proc::Let(name, value, body), rest))
    }

    /// `ID process`
    #[tactic(auto, unfolding(crate::specs::Process::read_replication))]
    pub fn replication(&self, tokens: &'a [Token]) -> Found<'a, Proc>
        requires { Parses self.now.depth (P.pre self.now.parser) (P.post self.now.parser) }
        ensures { Reads process_tree result
            (spec.read_replication (spec.formula_at self.now.depth)
            (spec.parse_process self.now.depth) (signs tokens.now)) }
    {
        let (index, rest) = identifier(self.alloc, tokens)?;
        let (body, rest) = self.boxed(rest)?;
        Ok((Proc::Replicate(index, body), rest))
    }

    /// What begins with the identifier: a label, a call with arguments, or a call.
    #[tactic(auto, unfolding(crate::specs::Process::read_named))]
    pub fn named(&self, name: &Text, tokens: &'a [Token]) -> Found<'a, Proc>
        requires { Parses self.now.depth (P.pre self.now.parser) (P.post self.now.parser) }
        ensures { Reads process_tree result
            (spec.read_named (spec.formula_at self.now.depth)
            (spec.parse_process self.now.depth) name.now (signs tokens.now)) }
    {
        match self.behind_mark(Punctuation::Colon, tokens) {
            Ok((body, rest)) => Ok((Proc::Label(name.copy(self.alloc)?, body), rest)),
            Err(Stop::None) => call(self.alloc, name, tokens),
            Err(stop) => Err(stop),
        }
    }

    /// `process | .. )`
    #[tactic(auto, unfolding(crate::specs::Process::read_group))]
    pub fn group(&self, tokens: &'a [Token]) -> Found<'a, Proc>
        requires { Parses self.now.depth (P.pre self.now.parser) (P.post self.now.parser) }
        ensures { Reads process_tree result
            (spec.read_group (spec.formula_at self.now.depth) (spec.parse_process self.now.depth)
            (signs tokens.now)) }
    {
        let (parts, rest) = self.list(tokens)?;
        let rest = eat_mark(Punctuation::CloseParenthesis, rest)?;
        Ok((Proc::Parallel(parts), rest))
    }

    /// The process that the word begins.
    pub fn reserved(&self, word: Reserved, tokens: &'a [Token]) -> Found<'a, Proc>
        requires { Parses self.now.depth (P.pre self.now.parser) (P.post self.now.parser) }
        ensures { Reads process_tree result
            (spec.read_reserved (spec.formula_at self.now.depth)
            (spec.parse_process self.now.depth) word (signs tokens.now)) }
    {
        match word {
            Reserved::Null => Ok((Proc::Null, tokens)),
            Reserved::New => self.new_name(tokens),
            Reserved::In => self.input(tokens),
            Reserved::Out => self.output(tokens),
            Reserved::If => self.conditional(tokens),
            Reserved::Find => self.find(tokens),
            Reserved::Let => self.definition(tokens),
            _ => Err(Stop::None),
        }
    }

    /// The process that the symbol begins.
    pub fn marked(&self, symbol: Punctuation, tokens: &'a [Token]) -> Found<'a, Proc>
        requires { Parses self.now.depth (P.pre self.now.parser) (P.post self.now.parser) }
        ensures { Reads process_tree result
            (spec.read_marked (spec.formula_at self.now.depth)
            (spec.parse_process self.now.depth) symbol (signs tokens.now)) }
    {
        match symbol {
            Punctuation::Repeat => self.replication(tokens),
            Punctuation::OpenParenthesis => self.group(tokens),
            _ => Err(Stop::None),
        }
    }

    /// A process with one node around its parts.
    #[tactic(auto, unfolding(crate::specs::Process::process))]
    pub fn any(&self, tokens: &'a [Token]) -> Found<'a, Proc>
        requires { Parses self.now.depth (P.pre self.now.parser) (P.post self.now.parser) }
        ensures { Reads process_tree result
            (spec.process (spec.formula_at self.now.depth) (spec.parse_process self.now.depth)
            (signs tokens.now)) }
    {
        let Some((token, rest)) = tokens.split_first() else {
            return Err(Stop::None);
        };
        match token.kind {
            TokenKind::Identifier => self.named(&token.text, rest),
            TokenKind::Number => Err(Stop::None),
            TokenKind::Reserved(word) => self.reserved(word, rest),
            TokenKind::Punctuation(symbol) => self.marked(symbol, rest),
        }
    }
}

/// An identifier, and the symbol behind it.
fn name_before(alloc: Global, symbol: Punctuation, tokens: &[Token]) -> Found<'_, Text>
    ensures { Reads (λ n. n) result (spec.name_before (mark symbol) (signs tokens.now)) }
{
    let (name, rest) = identifier(alloc, tokens)?;
    let rest = eat_mark(symbol, rest)?;
    Ok((name, rest))
}

/// The call of the process, with its arguments if it has some.
fn call<'a>(alloc: Global, name: &Text, tokens: &'a [Token]) -> Found<'a, Proc>
    ensures { Reads process_tree result (spec.read_call name.now (signs tokens.now)) }
{
    match instance(alloc, tokens) {
        Ok((arguments, rest)) => Ok((Proc::Call(name.copy(alloc)?, Some(arguments)), rest)),
        Err(Stop::None) => Ok((Proc::Call(name.copy(alloc)?, None), tokens)),
        Err(stop) => Err(stop),
    }
}
