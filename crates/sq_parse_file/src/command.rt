// Proof commands, each behind its first word.
ghost use Rattle.std.specs.Prelude.{◌≡◌, Some};
ghost use Rattle.sq_token.specs.Sign.{signs};
ghost use Rattle.sq_ast.specs.declared.command.CommandWord.TheVariants as w;
ghost use Rattle.sq_ast.specs.Forms as forms;
ghost use Rattle.sq_ast.specs.SentenceTrees.{command_tree};
ghost use Rattle.sq_parse_file.specs.Read as spec;
ghost use Rattle.sq_parse_file.specs.Told.{Told};

use crate::parts::{another, end, is_left, left_arrow, number, numbers, place, values, words};
use crate::rows::{
    formula_labelled, labelled, macro_labelled, replacement, statement, time_labelled,
};
use sq_ast::{CommandWord, Form, ProofCommand};
use sq_parse_term::{MAX_DEPTH, Stop, eat_word, identifier, parse_form};
use sq_token::{Reserved, Token};
use std::alloc::Global;

/// The proof command that begins with the word.
#[tactic(auto, unfolding(crate::specs::Read::read_row))]
pub fn command(alloc: Global, word: CommandWord, tokens: &[Token]) -> Result<ProofCommand, Stop>
    ensures { Told command_tree result (spec.read_command 256 (Some word) (signs tokens.now)) }
{
    match word {
        CommandWord::Intro => intro(alloc, tokens),
        CommandWord::Destruct => destruct(alloc, tokens),
        CommandWord::Spec => spec(alloc, tokens),
        CommandWord::Have => have(alloc, tokens),
        CommandWord::Use => use_statement(alloc, tokens),
        CommandWord::Rewrite => rewrite(alloc, tokens),
        CommandWord::Induction => induction(alloc, tokens),
        CommandWord::Fresh => fresh(alloc, tokens),
        CommandWord::Replace => replace(alloc, tokens),
        CommandWord::Prf => prf(alloc, tokens),
        CommandWord::Mp => mp(alloc, tokens),
        CommandWord::Euf => euf(alloc, tokens),
        CommandWord::Collision => collision(alloc, tokens),
        CommandWord::Contra => contra(alloc, tokens),
        CommandWord::Drop => drop_hypothesis(alloc, tokens),
        CommandWord::Assume => assume(alloc, tokens),
        CommandWord::Case => case(alloc, tokens),
        CommandWord::Fact => fact(alloc, tokens),
        CommandWord::Expand => expand(alloc, tokens),
        CommandWord::Undefined => undefined(alloc, tokens),
        CommandWord::Tcases => tcases(alloc, tokens),
        CommandWord::Select => select(alloc, tokens),
        CommandWord::Fa => fa(tokens),
        CommandWord::Atom => atom(tokens),
        CommandWord::IfCase => ifcase(tokens),
        CommandWord::Deduce => deduce(tokens),
        CommandWord::Split => alone(ProofCommand::Split, tokens),
        CommandWord::Left => alone(ProofCommand::Left, tokens),
        CommandWord::Right => alone(ProofCommand::Right, tokens),
        CommandWord::Project => alone(ProofCommand::Project, tokens),
        CommandWord::Trace => alone(ProofCommand::Trace, tokens),
        CommandWord::Assumption => alone(ProofCommand::Assumption, tokens),
        CommandWord::Refl => alone(ProofCommand::Refl, tokens),
        CommandWord::Constraints => alone(ProofCommand::Constraints, tokens),
        CommandWord::Congruence => alone(ProofCommand::Congruence, tokens),
        CommandWord::Auto => alone(ProofCommand::Auto, tokens),
    }
}

/// A word that stands alone.
fn alone(command: ProofCommand, tokens: &[Token]) -> Result<ProofCommand, Stop>
    ensures { Told command_tree result
        (spec.stand_alone (command_tree command) (signs tokens.now)) }
{
    end(tokens)?;
    Ok(command)
}

/// `intro x ..`
#[tactic(auto, unfolding(crate::specs::Read::read_row))]
fn intro(alloc: Global, tokens: &[Token]) -> Result<ProofCommand, Stop>
    ensures { Told command_tree result
        (spec.read_kind 256 (forms.command w.Intro) (signs tokens.now)) }
{
    let (names, rest) = words(alloc, tokens)?;
    end(rest)?;
    Ok(ProofCommand::Intro(names))
}

/// `destruct H as x y`
#[tactic(auto, unfolding(crate::specs::Read::read_row))]
fn destruct(alloc: Global, tokens: &[Token]) -> Result<ProofCommand, Stop>
    ensures { Told command_tree result
        (spec.read_kind 256 (forms.command w.Destruct) (signs tokens.now)) }
{
    let (hypothesis, rest) = identifier(alloc, tokens)?;
    let rest = eat_word(Reserved::As, rest)?;
    let (first, rest) = identifier(alloc, rest)?;
    let (second, rest) = identifier(alloc, rest)?;
    end(rest)?;
    Ok(ProofCommand::Destruct(hypothesis, first, second))
}

/// `spec H t as L`
#[tactic(auto, unfolding(crate::specs::Read::read_row))]
fn spec(alloc: Global, tokens: &[Token]) -> Result<ProofCommand, Stop>
    ensures { Told command_tree result
        (spec.read_kind 256 (forms.command w.Spec) (signs tokens.now)) }
{
    let (hypothesis, rest) = identifier(alloc, tokens)?;
    let ((value, label), rest) = formula_labelled(alloc, rest)?;
    end(rest)?;
    Ok(ProofCommand::Spec(hypothesis, value, label))
}

/// `have L : F`
#[tactic(auto, unfolding(crate::specs::Read::read_row))]
fn have(alloc: Global, tokens: &[Token]) -> Result<ProofCommand, Stop>
    ensures { Told command_tree result
        (spec.read_kind 256 (forms.command w.Have) (signs tokens.now)) }
{
    let ((label, formula), rest) = statement(alloc, tokens)?;
    end(rest)?;
    Ok(ProofCommand::Have(label, formula))
}

/// `use S as L`, `use S t, .. as L`
#[tactic(auto, unfolding(crate::specs::Read::read_row))]
fn use_statement(alloc: Global, tokens: &[Token]) -> Result<ProofCommand, Stop>
    ensures { Told command_tree result
        (spec.read_kind 256 (forms.command w.Use) (signs tokens.now)) }
{
    let (name, rest) = identifier(alloc, tokens)?;
    let (values, rest) = values(alloc, rest)?;
    let rest = eat_word(Reserved::As, rest)?;
    let (label, rest) = identifier(alloc, rest)?;
    end(rest)?;
    Ok(match values {
        None => ProofCommand::Use(name, label),
        Some(values) => ProofCommand::UseWith(name, values, label),
    })
}

/// `rewrite H`, `rewrite <- H`, `rewrite H in K`, `rewrite <- H in K`
#[tactic(auto, unfolding(crate::specs::Read::read_row))]
fn rewrite(alloc: Global, tokens: &[Token]) -> Result<ProofCommand, Stop>
    ensures { Told command_tree result
        (spec.read_kind 256 (forms.command w.Rewrite) (signs tokens.now)) }
{
    let (back, rest) = left_arrow(tokens)?;
    let (hypothesis, rest) = identifier(alloc, rest)?;
    let (place, rest) = place(alloc, rest)?;
    end(rest)?;
    Ok(match place {
        None => ProofCommand::Rewrite(back, hypothesis),
        Some(place) => ProofCommand::RewriteIn(back, hypothesis, place),
    })
}

/// `induction t as IH`, `induction t as IH H`
#[tactic(auto, unfolding(crate::specs::Read::read_row))]
fn induction(alloc: Global, tokens: &[Token]) -> Result<ProofCommand, Stop>
    ensures { Told command_tree result
        (spec.read_kind 256 (forms.command w.Induction) (signs tokens.now)) }
{
    let (variable, rest) = identifier(alloc, tokens)?;
    let rest = eat_word(Reserved::As, rest)?;
    let (label, rest) = identifier(alloc, rest)?;
    let (second, rest) = another(alloc, rest)?;
    end(rest)?;
    Ok(match second {
        None => ProofCommand::Induction(variable, label),
        Some(second) => ProofCommand::InductionWith(variable, label, second),
    })
}

/// `fresh n`, or `fresh H as L`
fn fresh(alloc: Global, tokens: &[Token]) -> Result<ProofCommand, Stop>
    ensures { Told command_tree result (spec.read_fresh 256 (signs tokens.now)) }
{
    match fresh_item(tokens) {
        Ok(command) => Ok(command),
        Err(Stop::None) => fresh_label(alloc, tokens),
        Err(stop) => Err(stop),
    }
}

/// `fresh H as L`
#[tactic(auto, unfolding(crate::specs::Read::read_row))]
fn fresh_label(alloc: Global, tokens: &[Token]) -> Result<ProofCommand, Stop>
    ensures { Told command_tree result
        (spec.read_kind 256 (forms.command w.Fresh) (signs tokens.now)) }
{
    let ((hypothesis, label), rest) = labelled(alloc, tokens)?;
    end(rest)?;
    Ok(ProofCommand::Fresh(hypothesis, label))
}

/// `fresh n`
#[tactic(auto, unfolding(crate::specs::Read::read_row))]
fn fresh_item(tokens: &[Token]) -> Result<ProofCommand, Stop>
    ensures { Told command_tree result (spec.read_kind 256 forms.fresh_item (signs tokens.now)) }
{
    let (item, rest) = number(tokens)?;
    end(rest)?;
    Ok(ProofCommand::FreshItem(item))
}

/// `replace left n by t`, or `right`
#[tactic(auto, unfolding(crate::specs::Read::read_row))]
fn replace(alloc: Global, tokens: &[Token]) -> Result<ProofCommand, Stop>
    ensures { Told command_tree result
        (spec.read_kind 256 (forms.command w.Replace) (signs tokens.now)) }
{
    let (left, rest) = is_left(tokens)?;
    let (item, rest) = number(rest)?;
    let rest = eat_word(Reserved::By, rest)?;
    let (value, rest) = parse_form(alloc, MAX_DEPTH, Form::Formula, rest)?;
    end(rest)?;
    Ok(if left {
        ProofCommand::ReplaceLeft(item, value)
    } else {
        ProofCommand::ReplaceRight(item, value)
    })
}

/// `prf left n t by u`, or `right`
#[tactic(auto, unfolding(crate::specs::Read::read_row))]
fn prf(alloc: Global, tokens: &[Token]) -> Result<ProofCommand, Stop>
    ensures { Told command_tree result
        (spec.read_kind 256 (forms.command w.Prf) (signs tokens.now)) }
{
    let (left, rest) = is_left(tokens)?;
    let (item, rest) = number(rest)?;
    let ((value, other), rest) = replacement(alloc, rest)?;
    end(rest)?;
    Ok(if left {
        ProofCommand::PrfLeft(item, value, other)
    } else {
        ProofCommand::PrfRight(item, value, other)
    })
}

/// `mp H as L`
#[tactic(auto, unfolding(crate::specs::Read::read_row))]
fn mp(alloc: Global, tokens: &[Token]) -> Result<ProofCommand, Stop>
    ensures { Told command_tree result
        (spec.read_kind 256 (forms.command w.Mp) (signs tokens.now)) }
{
    let ((hypothesis, label), rest) = labelled(alloc, tokens)?;
    end(rest)?;
    Ok(ProofCommand::Mp(hypothesis, label))
}

/// `euf H as L`
#[tactic(auto, unfolding(crate::specs::Read::read_row))]
fn euf(alloc: Global, tokens: &[Token]) -> Result<ProofCommand, Stop>
    ensures { Told command_tree result
        (spec.read_kind 256 (forms.command w.Euf) (signs tokens.now)) }
{
    let ((hypothesis, label), rest) = labelled(alloc, tokens)?;
    end(rest)?;
    Ok(ProofCommand::Euf(hypothesis, label))
}

/// `collision H as L`
#[tactic(auto, unfolding(crate::specs::Read::read_row))]
fn collision(alloc: Global, tokens: &[Token]) -> Result<ProofCommand, Stop>
    ensures { Told command_tree result
        (spec.read_kind 256 (forms.command w.Collision) (signs tokens.now)) }
{
    let ((hypothesis, label), rest) = labelled(alloc, tokens)?;
    end(rest)?;
    Ok(ProofCommand::Collision(hypothesis, label))
}

/// `contra H`
#[tactic(auto, unfolding(crate::specs::Read::read_row))]
fn contra(alloc: Global, tokens: &[Token]) -> Result<ProofCommand, Stop>
    ensures { Told command_tree result
        (spec.read_kind 256 (forms.command w.Contra) (signs tokens.now)) }
{
    let (hypothesis, rest) = identifier(alloc, tokens)?;
    end(rest)?;
    Ok(ProofCommand::Contra(hypothesis))
}

/// `drop H`
#[tactic(auto, unfolding(crate::specs::Read::read_row))]
fn drop_hypothesis(alloc: Global, tokens: &[Token]) -> Result<ProofCommand, Stop>
    ensures { Told command_tree result
        (spec.read_kind 256 (forms.command w.Drop) (signs tokens.now)) }
{
    let (hypothesis, rest) = identifier(alloc, tokens)?;
    end(rest)?;
    Ok(ProofCommand::Drop(hypothesis))
}

/// `assume K`
#[tactic(auto, unfolding(crate::specs::Read::read_row))]
fn assume(alloc: Global, tokens: &[Token]) -> Result<ProofCommand, Stop>
    ensures { Told command_tree result
        (spec.read_kind 256 (forms.command w.Assume) (signs tokens.now)) }
{
    let (known, rest) = identifier(alloc, tokens)?;
    end(rest)?;
    Ok(ProofCommand::Assume(known))
}

/// `case F as L`
#[tactic(auto, unfolding(crate::specs::Read::read_row))]
fn case(alloc: Global, tokens: &[Token]) -> Result<ProofCommand, Stop>
    ensures { Told command_tree result
        (spec.read_kind 256 (forms.command w.Case) (signs tokens.now)) }
{
    let ((formula, label), rest) = formula_labelled(alloc, tokens)?;
    end(rest)?;
    Ok(ProofCommand::Case(formula, label))
}

/// `fact t as L`
#[tactic(auto, unfolding(crate::specs::Read::read_row))]
fn fact(alloc: Global, tokens: &[Token]) -> Result<ProofCommand, Stop>
    ensures { Told command_tree result
        (spec.read_kind 256 (forms.command w.Fact) (signs tokens.now)) }
{
    let ((formula, label), rest) = formula_labelled(alloc, tokens)?;
    end(rest)?;
    Ok(ProofCommand::Fact(formula, label))
}

/// `expand M@T as L`
#[tactic(auto, unfolding(crate::specs::Read::read_row))]
fn expand(alloc: Global, tokens: &[Token]) -> Result<ProofCommand, Stop>
    ensures { Told command_tree result
        (spec.read_kind 256 (forms.command w.Expand) (signs tokens.now)) }
{
    let ((word, time, label), rest) = macro_labelled(alloc, tokens)?;
    end(rest)?;
    Ok(ProofCommand::Expand(word, time, label))
}

/// `undefined M@T as L`
#[tactic(auto, unfolding(crate::specs::Read::read_row))]
fn undefined(alloc: Global, tokens: &[Token]) -> Result<ProofCommand, Stop>
    ensures { Told command_tree result
        (spec.read_kind 256 (forms.command w.Undefined) (signs tokens.now)) }
{
    let ((word, time, label), rest) = macro_labelled(alloc, tokens)?;
    end(rest)?;
    Ok(ProofCommand::Undefined(word, time, label))
}

/// `tcases T as L`
#[tactic(auto, unfolding(crate::specs::Read::read_row))]
fn tcases(alloc: Global, tokens: &[Token]) -> Result<ProofCommand, Stop>
    ensures { Told command_tree result
        (spec.read_kind 256 (forms.command w.Tcases) (signs tokens.now)) }
{
    let ((time, label), rest) = time_labelled(alloc, tokens)?;
    end(rest)?;
    Ok(ProofCommand::Tcases(time, label))
}

/// `select n ..`
#[tactic(auto, unfolding(crate::specs::Read::read_row))]
fn select(alloc: Global, tokens: &[Token]) -> Result<ProofCommand, Stop>
    ensures { Told command_tree result
        (spec.read_kind 256 (forms.command w.Select) (signs tokens.now)) }
{
    let (items, rest) = numbers(alloc, tokens)?;
    end(rest)?;
    Ok(ProofCommand::Select(items))
}

/// `fa n`
#[tactic(auto, unfolding(crate::specs::Read::read_row))]
fn fa(tokens: &[Token]) -> Result<ProofCommand, Stop>
    ensures { Told command_tree result
        (spec.read_kind 256 (forms.command w.Fa) (signs tokens.now)) }
{
    let (item, rest) = number(tokens)?;
    end(rest)?;
    Ok(ProofCommand::Fa(item))
}

/// `atom n`
#[tactic(auto, unfolding(crate::specs::Read::read_row))]
fn atom(tokens: &[Token]) -> Result<ProofCommand, Stop>
    ensures { Told command_tree result
        (spec.read_kind 256 (forms.command w.Atom) (signs tokens.now)) }
{
    let (item, rest) = number(tokens)?;
    end(rest)?;
    Ok(ProofCommand::Atom(item))
}

/// `ifcase n m`
#[tactic(auto, unfolding(crate::specs::Read::read_row))]
fn ifcase(tokens: &[Token]) -> Result<ProofCommand, Stop>
    ensures { Told command_tree result
        (spec.read_kind 256 (forms.command w.IfCase) (signs tokens.now)) }
{
    let (item, rest) = number(tokens)?;
    let (place, rest) = number(rest)?;
    end(rest)?;
    Ok(ProofCommand::IfCase(item, place))
}

/// `deduce n from m`
#[tactic(auto, unfolding(crate::specs::Read::read_row))]
fn deduce(tokens: &[Token]) -> Result<ProofCommand, Stop>
    ensures { Told command_tree result
        (spec.read_kind 256 (forms.command w.Deduce) (signs tokens.now)) }
{
    let (item, rest) = number(tokens)?;
    let rest = eat_word(Reserved::From, rest)?;
    let (source, rest) = number(rest)?;
    end(rest)?;
    Ok(ProofCommand::Deduce(item, source))
}

/// `exists t`
#[tactic(auto, unfolding(crate::specs::Read::read_row))]
pub fn exists(alloc: Global, tokens: &[Token]) -> Result<ProofCommand, Stop>
    ensures { Told command_tree result (spec.read_kind 256 forms.exists (signs tokens.now)) }
{
    let (value, rest) = parse_form(alloc, MAX_DEPTH, Form::Formula, tokens)?;
    end(rest)?;
    Ok(ProofCommand::Exists(value))
}
