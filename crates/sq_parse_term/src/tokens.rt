// Single tokens at the front of a list, and lists of identifiers and binders.
ghost use Rattle.std.specs.Prelude.{◌≡◌, length};
ghost use Rattle.sq_token.specs.Sign.{signs, mark, reserved};
ghost use Rattle.sq_parse_term.specs.Parse as spec;
ghost use Rattle.sq_parse_term.specs.Reads.{Eats, Reads};

use crate::stop::{Found, Stop};
use crate::words::sort_of;
use sq_ast::Binders;
use sq_base::{Seq, Sort, Text};
use sq_token::{Punctuation, Reserved, Token, TokenKind};
use std::alloc::Global;

/// The tokens behind the symbol.
#[tactic(auto, unfolding(crate::specs::Parse::eat))]
pub fn eat_mark(symbol: Punctuation, tokens: &[Token]) -> Result<&[Token], Stop>
    ensures { Eats result (spec.eat (mark symbol) (signs tokens.now)) }
{
    let Some((token, rest)) = tokens.split_first() else {
        return Err(Stop::None);
    };
    if !token.is_mark(symbol) {
        return Err(Stop::None);
    }
    Ok(rest)
}

/// The tokens behind the reserved word.
#[tactic(auto, unfolding(crate::specs::Parse::eat))]
pub fn eat_word(word: Reserved, tokens: &[Token]) -> Result<&[Token], Stop>
    ensures { Eats result (spec.eat (reserved word) (signs tokens.now)) }
{
    let Some((token, rest)) = tokens.split_first() else {
        return Err(Stop::None);
    };
    if !token.is_reserved(word) {
        return Err(Stop::None);
    }
    Ok(rest)
}

/// One identifier.
pub fn identifier(alloc: Global, tokens: &[Token]) -> Found<'_, Text>
    ensures { Reads (λ n. n) result (spec.identifier (signs tokens.now)) }
{
    let Some((token, rest)) = tokens.split_first() else {
        return Err(Stop::None);
    };
    match token.kind {
        TokenKind::Identifier => Ok((token.text.copy(alloc)?, rest)),
        _ => Err(Stop::None),
    }
}

/// Identifiers with commas between them.
pub fn identifiers(alloc: Global, tokens: &[Token]) -> Found<'_, Seq<Text>>
    ensures { Reads (λ ns. ns) result (spec.identifiers (signs tokens.now)) }
{
    let mut names = Seq::new(alloc);
    let mut rest = tokens;
    for _turn in 0..tokens.len() {
        let (name, after) = identifier(alloc, rest)?;
        names.push(name)?;
        let Ok(next) = eat_mark(Punctuation::Comma, after) else {
            return Ok((names, after));
        };
        rest = next;
    }
    Err(Stop::None)
}

fn sort_name(tokens: &[Token]) -> Found<'_, Sort>
    ensures { Reads (λ s. s) result (spec.sort_name (signs tokens.now)) }
{
    let Some((token, rest)) = tokens.split_first() else {
        return Err(Stop::None);
    };
    match token.kind {
        TokenKind::Reserved(word) => match sort_of(word) {
            Some(sort) => Ok((sort, rest)),
            None => Err(Stop::None),
        },
        _ => Err(Stop::None),
    }
}

/// Identifiers with commas between them, and their sort.
fn binder_group(alloc: Global, tokens: &[Token]) -> Found<'_, Binders>
    ensures { Reads (λ g. g) result (spec.binder_group (signs tokens.now)) }
{
    let (names, rest) = identifiers(alloc, tokens)?;
    let rest = eat_mark(Punctuation::Colon, rest)?;
    let (sort, rest) = sort_name(rest)?;
    Ok(((names, sort), rest))
}

/// Groups of binders with commas between them.
pub fn binders(alloc: Global, tokens: &[Token]) -> Found<'_, Seq<Binders>>
    ensures { Reads (λ gs. gs) result (spec.binders (signs tokens.now)) }
{
    let mut groups = Seq::new(alloc);
    let mut rest = tokens;
    for _turn in 0..tokens.len() {
        let (group, after) = binder_group(alloc, rest)?;
        groups.push(group)?;
        let Ok(next) = eat_mark(Punctuation::Comma, after) else {
            return Ok((groups, after));
        };
        rest = next;
    }
    Err(Stop::None)
}

/// `( ID, .. )`
pub fn instance(alloc: Global, tokens: &[Token]) -> Found<'_, Seq<Text>>
    ensures { Reads (λ ns. ns) result (spec.instance (signs tokens.now)) }
{
    let rest = eat_mark(Punctuation::OpenParenthesis, tokens)?;
    let (names, rest) = identifiers(alloc, rest)?;
    let rest = eat_mark(Punctuation::CloseParenthesis, rest)?;
    Ok((names, rest))
}
