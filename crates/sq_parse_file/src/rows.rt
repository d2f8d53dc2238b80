// What several sentences have behind their first word.
ghost use Rattle.std.specs.Prelude.{◌≡◌};
ghost use Rattle.sq_token.specs.Sign.{signs};
ghost use Rattle.sq_ast.specs.View.{formula_tree};
ghost use Rattle.sq_ast.specs.Forms as forms;
ghost use Rattle.sq_parse_term.specs.Reads.{Reads};
ghost use Rattle.sq_parse_file.specs.Read as spec;

use crate::parts::macro_word;
use sq_ast::{Form, Formula, MacroWord};
use sq_base::Text;
use sq_parse_term::{Found, MAX_DEPTH, eat_mark, eat_word, identifier, parse_form};
use sq_token::{Punctuation, Reserved, Token};
use std::alloc::Global;

/// `H as L`
#[tactic(auto, unfolding(crate::specs::Read::read_row))]
pub fn labelled(alloc: Global, tokens: &[Token]) -> Found<'_, (Text, Text)>
    ensures { Reads (λ x. (x.0, (x.1, tt))) result
        (spec.read_row 256 forms.labelled (signs tokens.now)) }
{
    let (subject, rest) = identifier(alloc, tokens)?;
    let rest = eat_word(Reserved::As, rest)?;
    let (label, rest) = identifier(alloc, rest)?;
    Ok(((subject, label), rest))
}

/// `F as L`
#[tactic(auto, unfolding(crate::specs::Read::read_row))]
pub fn formula_labelled(alloc: Global, tokens: &[Token]) -> Found<'_, (Formula, Text)>
    ensures { Reads (λ x. (formula_tree x.0, (x.1, tt))) result
        (spec.read_row 256 forms.formula_labelled (signs tokens.now)) }
{
    let (formula, rest) = parse_form(alloc, MAX_DEPTH, Form::Formula, tokens)?;
    let rest = eat_word(Reserved::As, rest)?;
    let (label, rest) = identifier(alloc, rest)?;
    Ok(((formula, label), rest))
}

/// `T as L`
#[tactic(auto, unfolding(crate::specs::Read::read_row))]
pub fn time_labelled(alloc: Global, tokens: &[Token]) -> Found<'_, (Formula, Text)>
    ensures { Reads (λ x. (formula_tree x.0, (x.1, tt))) result
        (spec.read_row 256 forms.time_labelled (signs tokens.now)) }
{
    let (time, rest) = parse_form(alloc, MAX_DEPTH, Form::Time, tokens)?;
    let rest = eat_word(Reserved::As, rest)?;
    let (label, rest) = identifier(alloc, rest)?;
    Ok(((time, label), rest))
}

/// `M@T as L`
#[tactic(auto, unfolding(crate::specs::Read::read_row))]
pub fn macro_labelled(alloc: Global, tokens: &[Token]) -> Found<'_, (MacroWord, Formula, Text)>
    ensures { Reads (λ x. (x.0, (formula_tree x.1, (x.2, tt)))) result
        (spec.read_row 256 forms.macro_labelled (signs tokens.now)) }
{
    let (word, rest) = macro_word(tokens)?;
    let rest = eat_mark(Punctuation::At, rest)?;
    let ((time, label), rest) = time_labelled(alloc, rest)?;
    Ok(((word, time, label), rest))
}

/// `ID, ID`
#[tactic(auto, unfolding(crate::specs::Read::read_row))]
pub fn two_names(alloc: Global, tokens: &[Token]) -> Found<'_, (Text, Text)>
    ensures { Reads (λ x. (x.0, (x.1, tt))) result
        (spec.read_row 256 forms.two_names (signs tokens.now)) }
{
    let (first, rest) = identifier(alloc, tokens)?;
    let rest = eat_mark(Punctuation::Comma, rest)?;
    let (second, rest) = identifier(alloc, rest)?;
    Ok(((first, second), rest))
}

/// `F by F`
#[tactic(auto, unfolding(crate::specs::Read::read_row))]
pub fn replacement(alloc: Global, tokens: &[Token]) -> Found<'_, (Formula, Formula)>
    ensures { Reads (λ x. (formula_tree x.0, (formula_tree x.1, tt))) result
        (spec.read_row 256 forms.replacement (signs tokens.now)) }
{
    let (old, rest) = parse_form(alloc, MAX_DEPTH, Form::Formula, tokens)?;
    let rest = eat_word(Reserved::By, rest)?;
    let (new, rest) = parse_form(alloc, MAX_DEPTH, Form::Formula, rest)?;
    Ok(((old, new), rest))
}

/// `ID : formula`
#[tactic(auto, unfolding(crate::specs::Read::read_row))]
pub fn statement(alloc: Global, tokens: &[Token]) -> Found<'_, (Text, Formula)>
    ensures { Reads (λ x. (x.0, (formula_tree x.1, tt))) result
        (spec.read_row 256 forms.statement (signs tokens.now)) }
{
    let (name, rest) = identifier(alloc, tokens)?;
    let rest = eat_mark(Punctuation::Colon, rest)?;
    let (formula, rest) = parse_form(alloc, MAX_DEPTH, Form::Formula, rest)?;
    Ok(((name, formula), rest))
}
