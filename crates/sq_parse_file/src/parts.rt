// The parts of sentences.
ghost use Rattle.std.specs.Prelude.{◌≡◌, ◌↔◌, IsTrue};
ghost use Rattle.sq_token.specs.Sign.{sign_of, signs, mark, reserved, word};
ghost use Rattle.sq_ast.specs.View.{formula_trees};
ghost use Rattle.sq_ast.specs.SentenceTrees.{trees_of};
ghost use Rattle.sq_ast.specs.Forms.{side};
ghost use Rattle.sq_parse_term.specs.Parse.{eat};
ghost use Rattle.sq_parse_term.specs.Reads.{Eats, Reads};
ghost use Rattle.sq_parse_file.specs.Read as spec;
ghost use Rattle.sq_parse_file.specs.Told.{Ends};

use sq_ast::{Binders, Formula, MacroWord};
use sq_base::{Seq, Text};
use sq_parse_term::{
    Found, MAX_DEPTH, Start, Stop, binders, eat_mark, eat_word, identifier, parse_formulas,
    start_of,
};
use sq_token::{Punctuation, Reserved, Token, TokenKind};
use std::alloc::Global;

/// No token is left.
pub fn end(tokens: &[Token]) -> Result<(), Stop>
    ensures { Ends result (spec.end (signs tokens.now)) }
{
    match tokens.split_first() {
        None => Ok(()),
        Some(_) => Err(Stop::None),
    }
}

/// Identifiers, one behind the other.
pub fn words(alloc: Global, tokens: &[Token]) -> Found<'_, Seq<Text>>
    ensures { Reads (λ ns. ns) result (spec.read_words (signs tokens.now)) }
{
    let (names, rest) = all_words(alloc, tokens)?;
    if names.is_empty() {
        return Err(Stop::None);
    }
    Ok((names, rest))
}

fn all_words(alloc: Global, tokens: &[Token]) -> Found<'_, Seq<Text>>
    ensures { Reads (λ ns. ns) result (spec.all_words (signs tokens.now)) }
{
    let mut names = Seq::new(alloc);
    let mut rest = tokens;
    for _turn in 0..tokens.len() {
        let Some((token, after)) = rest.split_first() else {
            return Ok((names, rest));
        };
        let TokenKind::Identifier = token.kind else {
            return Ok((names, rest));
        };
        names.push(token.text.copy(alloc)?)?;
        rest = after;
    }
    Ok((names, rest))
}

/// Numbers, one behind the other.
pub fn numbers(alloc: Global, tokens: &[Token]) -> Found<'_, Seq<u128>>
    ensures { Reads (λ ks. ks) result (spec.read_numbers (signs tokens.now)) }
{
    let (found, rest) = all_numbers(alloc, tokens)?;
    if found.is_empty() {
        return Err(Stop::None);
    }
    Ok((found, rest))
}

fn all_numbers(alloc: Global, tokens: &[Token]) -> Found<'_, Seq<u128>>
    ensures { Reads (λ ks. ks) result (spec.all_numbers (signs tokens.now)) }
{
    let mut found = Seq::new(alloc);
    let mut rest = tokens;
    for _turn in 0..tokens.len() {
        let Some((token, after)) = rest.split_first() else {
            return Ok((found, rest));
        };
        let Some(value) = token.number() else {
            return Ok((found, rest));
        };
        found.push(value)?;
        rest = after;
    }
    Ok((found, rest))
}

pub fn number(tokens: &[Token]) -> Found<'_, u128>
    ensures { Reads (λ k. k) result (spec.read_number (signs tokens.now)) }
{
    let Some((token, rest)) = tokens.split_first() else {
        return Err(Stop::None);
    };
    let Some(value) = token.number() else {
        return Err(Stop::None);
    };
    Ok((value, rest))
}

/// An identifier, where one stands there.
pub fn another(alloc: Global, tokens: &[Token]) -> Found<'_, Option<Text>>
    ensures { Reads (λ o. o) result (spec.read_another (signs tokens.now)) }
{
    match identifier(alloc, tokens) {
        Ok((name, rest)) => Ok((Some(name), rest)),
        Err(Stop::None) => Ok((None, tokens)),
        Err(stop) => Err(stop),
    }
}

/// `in` and an identifier, where they stand there.
pub fn place(alloc: Global, tokens: &[Token]) -> Found<'_, Option<Text>>
    ensures { Reads (λ o. o) result (spec.read_place (signs tokens.now)) }
{
    let Ok(rest) = eat_word(Reserved::In, tokens) else {
        return Ok((None, tokens));
    };
    let (name, rest) = identifier(alloc, rest)?;
    Ok((Some(name), rest))
}

/// The word of a macro.
#[tactic(auto, unfolding(sq_parse_term::specs::Parse::start_of))]
pub fn macro_word(tokens: &[Token]) -> Found<'_, MacroWord>
    ensures { Reads (λ m. m) result (spec.read_macro (signs tokens.now)) }
{
    let Some((token, rest)) = tokens.split_first() else {
        return Err(Stop::None);
    };
    match token.kind {
        TokenKind::Reserved(word) => match start_of(word) {
            Some(Start::Macro(value)) => Ok((value, rest)),
            _ => Err(Stop::None),
        },
        _ => Err(Stop::None),
    }
}

/// `left` rather than `right`.
pub fn is_left(tokens: &[Token]) -> Found<'_, bool>
    ensures { Reads (λ b. b) result (spec.read_part 256 side (signs tokens.now)) }
{
    match eat_text("left", tokens) {
        Ok(rest) => Ok((true, rest)),
        Err(_) => {
            let rest = eat_text("right", tokens)?;
            Ok((false, rest))
        }
    }
}

/// The arrow of `rewrite`, where it stands there.
pub fn left_arrow(tokens: &[Token]) -> Found<'_, bool>
    ensures { Reads (λ b. b) result
        (spec.read_optional (mark Punctuation.LeftArrow) (signs tokens.now)) }
{
    match eat_mark(Punctuation::LeftArrow, tokens) {
        Ok(rest) => Ok((true, rest)),
        Err(_) => Ok((false, tokens)),
    }
}

/// The identifier with this text.
#[tactic(auto, unfolding(sq_parse_term::specs::Parse::eat))]
fn eat_text<'a>(text: &str, tokens: &'a [Token]) -> Result<&'a [Token], Stop>
    ensures { Eats result (eat (word text.now) (signs tokens.now)) }
{
    let Some((token, rest)) = tokens.split_first() else {
        return Err(Stop::None);
    };
    if !is_word(token, text) {
        return Err(Stop::None);
    }
    Ok(rest)
}

fn is_word(token: &Token, text: &str) -> bool
    ensures { IsTrue result ↔ (sign_of token.now ≡ word text.now) }
{
    match token.kind {
        TokenKind::Identifier => token.text.is(text),
        _ => false,
    }
}

/// `message` rather than `boolean`.
pub fn is_message(tokens: &[Token]) -> Found<'_, bool>
    ensures { Reads (λ b. b) result
        (spec.read_either (reserved Reserved.Message) (reserved Reserved.Boolean)
        (signs tokens.now)) }
{
    match eat_word(Reserved::Message, tokens) {
        Ok(rest) => Ok((true, rest)),
        Err(_) => {
            let rest = eat_word(Reserved::Boolean, tokens)?;
            Ok((false, rest))
        }
    }
}

fn arrow(word: Reserved, tokens: &[Token]) -> Result<&[Token], Stop>
    ensures { Eats result (spec.arrow word (signs tokens.now)) }
{
    let rest = eat_word(word, tokens)?;
    eat_mark(Punctuation::Arrow, rest)
}

/// How often the word stands there with an arrow behind it.
pub fn arrows(word: Reserved, tokens: &[Token]) -> Found<'_, u32>
    ensures { Reads (λ k. k) result (spec.read_arrows word (signs tokens.now)) }
{
    let mut count = 0u32;
    let mut rest = tokens;
    for _turn in 0..tokens.len() {
        let Ok(next) = arrow(word, rest) else {
            return Ok((count, rest));
        };
        let Some(more) = count.checked_add(1) else {
            return Err(Stop::NoMemory);
        };
        count = more;
        rest = next;
    }
    Ok((count, rest))
}

/// `( binders )`, where they stand there.
pub fn parameters(alloc: Global, tokens: &[Token]) -> Found<'_, Option<Seq<Binders>>>
    ensures { Reads (λ o. o) result (spec.read_parameters (signs tokens.now)) }
{
    let Ok(rest) = eat_mark(Punctuation::OpenParenthesis, tokens) else {
        return Ok((None, tokens));
    };
    let (groups, rest) = binders(alloc, rest)?;
    let rest = eat_mark(Punctuation::CloseParenthesis, rest)?;
    Ok((Some(groups), rest))
}

/// `formula, ..`, where they stand there.
pub fn values(alloc: Global, tokens: &[Token]) -> Found<'_, Option<Seq<Formula>>>
    ensures { Reads trees_of result (spec.read_values 256 (signs tokens.now)) }
{
    match parse_formulas(alloc, MAX_DEPTH, tokens) {
        Ok((found, rest)) => Ok((Some(found), rest)),
        Err(Stop::None) => Ok((None, tokens)),
        Err(stop) => Err(stop),
    }
}

/// `[ formula, .. ]`, where they stand there.
pub fn hypotheses(alloc: Global, tokens: &[Token]) -> Found<'_, Option<Seq<Formula>>>
    ensures { Reads trees_of result (spec.read_hypotheses 256 (signs tokens.now)) }
{
    let Ok(rest) = eat_mark(Punctuation::OpenBracket, tokens) else {
        return Ok((None, tokens));
    };
    let (found, rest) = parse_formulas(alloc, MAX_DEPTH, rest)?;
    let rest = eat_mark(Punctuation::CloseBracket, rest)?;
    Ok((Some(found), rest))
}

/// `formula, ..`
pub fn formulas(alloc: Global, tokens: &[Token]) -> Found<'_, Seq<Formula>>
    ensures { Reads formula_trees result (spec.read_formulas 256 (signs tokens.now)) }
{
    parse_formulas(alloc, MAX_DEPTH, tokens)
}
