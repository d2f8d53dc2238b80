// What a token begins, joins or names.
ghost use Rattle.std.specs.Prelude.{◌≡◌, ◌≤◌};
ghost use Rattle.sq_ast.specs.Grammar as g;
ghost use Rattle.sq_parse_term.specs.Parse as p;

use sq_ast::{Binary, Constant, Form, MacroWord, Quantifier, Unary};
use sq_base::Sort;
use sq_token::{Punctuation, Reserved};

/// What a reserved word begins.
#[derive(Clone, Copy, Debug, PartialEq, Eq)]
pub enum Start {
    Quantifier(Quantifier),
    Constant(Constant),
    Unary(Unary),
    Macro(MacroWord),
    If,
    Find,
    Diff,
}

/// What the word begins, where it begins a form.
#[tactic(auto, unfolding(crate::specs::Parse::start_of))]
pub fn start_of(word: Reserved) -> Option<Start>
    ensures { result ≡ p.start_of word }
{
    match word {
        Reserved::Forall => Some(Start::Quantifier(Quantifier::Forall)),
        Reserved::Exists => Some(Start::Quantifier(Quantifier::Exists)),
        Reserved::True => Some(Start::Constant(Constant::True)),
        Reserved::False => Some(Start::Constant(Constant::False)),
        Reserved::Empty => Some(Start::Constant(Constant::Empty)),
        Reserved::Init => Some(Start::Constant(Constant::Init)),
        Reserved::Not => Some(Start::Unary(Unary::Not)),
        Reserved::Fst => Some(Start::Unary(Unary::Fst)),
        Reserved::Snd => Some(Start::Unary(Unary::Snd)),
        Reserved::OfBool => Some(Start::Unary(Unary::OfBool)),
        Reserved::Happens => Some(Start::Unary(Unary::Happens)),
        Reserved::Pred => Some(Start::Unary(Unary::Pred)),
        Reserved::Input => Some(Start::Macro(MacroWord::Input)),
        Reserved::Output => Some(Start::Macro(MacroWord::Output)),
        Reserved::Cond => Some(Start::Macro(MacroWord::Cond)),
        Reserved::Exec => Some(Start::Macro(MacroWord::Exec)),
        Reserved::Frame => Some(Start::Macro(MacroWord::Frame)),
        Reserved::If => Some(Start::If),
        Reserved::Find => Some(Start::Find),
        Reserved::Diff => Some(Start::Diff),
        _ => None,
    }
}

pub fn sort_of(word: Reserved) -> Option<Sort>
    ensures { result ≡ p.sort_of word }
{
    match word {
        Reserved::Index => Some(Sort::Index),
        Reserved::Timestamp => Some(Sort::Timestamp),
        Reserved::Message => Some(Sort::Message),
        _ => None,
    }
}

pub fn binary_of(mark: Punctuation) -> Option<Binary>
    ensures { result ≡ p.binary_of mark }
{
    match mark {
        Punctuation::Implies => Some(Binary::Implies),
        Punctuation::Or => Some(Binary::Or),
        Punctuation::And => Some(Binary::And),
        Punctuation::Equals => Some(Binary::Equal),
        Punctuation::Differs => Some(Binary::NotEqual),
        Punctuation::AtMost => Some(Binary::LessEqual),
        Punctuation::Less => Some(Binary::Less),
        _ => None,
    }
}

/// How loosely the operator binds.
pub fn binary_rank(operator: Binary) -> u8
    ensures { result ≡ g.binary_rank operator }
{
    match operator {
        Binary::Implies => 4,
        Binary::Or => 3,
        Binary::And => 2,
        Binary::Equal | Binary::NotEqual | Binary::LessEqual | Binary::Less => 1,
    }
}

/// The form of the right operand.
pub fn operand_form(operator: Binary) -> Form
    ensures { result ≡ g.operand_form operator }
{
    match operator {
        Binary::Implies => Form::Formula,
        Binary::Or => Form::Disj,
        Binary::And => Form::Conj,
        Binary::Equal | Binary::NotEqual | Binary::LessEqual | Binary::Less => Form::Term,
    }
}

/// The form of the argument in parentheses.
pub fn argument_form(word: Unary) -> Form
    ensures { result ≡ g.argument_form word }
{
    match word {
        Unary::Not | Unary::Fst | Unary::Snd | Unary::OfBool => Form::Formula,
        Unary::Happens | Unary::Pred => Form::Time,
    }
}
