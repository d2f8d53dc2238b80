// The functions that every signature begins with.
ghost use Rattle.std.specs.Prelude.{◌≡◌, MatchOption, option_map};
ghost use Rattle.sq_term.specs.Symbols.{IsDeclared, kind_of, function_number};
ghost use Rattle.sq_term.specs.Builtins as spec;
ghost use Rattle.sq_term.specs.Builtins.{builtin_kind};
ghost use Rattle.sq_term.specs.Pure.{is_connective};

use crate::layout::{Layout, Level};

/// A function that every signature has. Declared functions follow behind these.
///
/// `Eq` compares messages, `Ite` takes a Boolean and two messages, `OfBool` makes a message of a
/// Boolean, and `Att` is the attacker's function on one message.
#[derive(Clone, Copy, Debug, PartialEq, Eq)]
pub enum Builtin {
    Empty,
    True,
    False,
    Not,
    And,
    Or,
    Implies,
    Eq,
    Ite,
    Pair,
    Fst,
    Snd,
    OfBool,
    Att,
}

impl Builtin {
    /// The number under which terms hold the function.
    pub fn number(self) -> u32
        ensures { result ≡ function_number (builtin_kind self) }
    {
        match self {
            Builtin::Empty => 0,
            Builtin::True => 1,
            Builtin::False => 2,
            Builtin::Not => 3,
            Builtin::And => 4,
            Builtin::Or => 5,
            Builtin::Implies => 6,
            Builtin::Eq => 7,
            Builtin::Ite => 8,
            Builtin::Pair => 9,
            Builtin::Fst => 10,
            Builtin::Snd => 11,
            Builtin::OfBool => 12,
            Builtin::Att => 13,
        }
    }

    /// The function of this number, where it is no declared one.
    pub fn of(function: u32) -> Option<Builtin>
        ensures { MatchOption result (IsDeclared (kind_of function))
            (λ b. kind_of function ≡ builtin_kind b) }
    {
        match function {
            0 => Some(Builtin::Empty),
            1 => Some(Builtin::True),
            2 => Some(Builtin::False),
            3 => Some(Builtin::Not),
            4 => Some(Builtin::And),
            5 => Some(Builtin::Or),
            6 => Some(Builtin::Implies),
            7 => Some(Builtin::Eq),
            8 => Some(Builtin::Ite),
            9 => Some(Builtin::Pair),
            10 => Some(Builtin::Fst),
            11 => Some(Builtin::Snd),
            12 => Some(Builtin::OfBool),
            13 => Some(Builtin::Att),
            _ => None,
        }
    }

    /// The word of a function that is written as one.
    pub fn word(self) -> Option<&'static str>
        ensures { option_map (λ w. w.now) result ≡ spec.word (builtin_kind self) }
    {
        match self {
            Builtin::Empty => Some("empty"),
            Builtin::True => Some("true"),
            Builtin::False => Some("false"),
            Builtin::Not => Some("not"),
            Builtin::Fst => Some("fst"),
            Builtin::Snd => Some("snd"),
            Builtin::OfBool => Some("of_bool"),
            Builtin::Att => Some("att"),
            Builtin::And
            | Builtin::Or
            | Builtin::Implies
            | Builtin::Eq
            | Builtin::Ite
            | Builtin::Pair => None,
        }
    }

    /// How an application of the function to its arguments is written.
    pub fn layout(self) -> Layout
        ensures { result ≡ spec.layout (builtin_kind self) }
    {
        match self {
            Builtin::And => Layout::Infix(Level::Conjunction),
            Builtin::Or => Layout::Infix(Level::Disjunction),
            Builtin::Implies => Layout::Infix(Level::Formula),
            Builtin::Eq => Layout::Infix(Level::Atom),
            Builtin::Pair => Layout::Pair,
            Builtin::Ite => Layout::Conditional,
            Builtin::Empty
            | Builtin::True
            | Builtin::False
            | Builtin::Not
            | Builtin::Fst
            | Builtin::Snd
            | Builtin::OfBool
            | Builtin::Att => Layout::Word,
        }
    }

    /// How many arguments the function takes.
    pub fn arguments(self) -> u32
        ensures { result ≡ spec.arguments (builtin_kind self) }
    {
        match self {
            Builtin::Empty | Builtin::True | Builtin::False => 0,
            Builtin::Not | Builtin::Fst | Builtin::Snd | Builtin::OfBool | Builtin::Att => 1,
            Builtin::And | Builtin::Or | Builtin::Implies | Builtin::Eq | Builtin::Pair => 2,
            Builtin::Ite => 3,
        }
    }

    /// Whether argument k, counted from 0, is a Boolean.
    pub fn takes_boolean(self, k: usize) -> bool
        ensures { result ≡ spec.takes_boolean (builtin_kind self) k }
    {
        match self {
            Builtin::Not | Builtin::And | Builtin::Or | Builtin::Implies | Builtin::OfBool => true,
            Builtin::Ite => k == 0,
            _ => false,
        }
    }

    /// Whether the function gives a Boolean.
    pub fn gives_boolean(self) -> bool
        ensures { result ≡ spec.gives_boolean (builtin_kind self) }
    {
        match self {
            Builtin::True
            | Builtin::False
            | Builtin::Not
            | Builtin::And
            | Builtin::Or
            | Builtin::Implies
            | Builtin::Eq => true,
            _ => false,
        }
    }

    /// Whether the function is a connective that takes this many arguments.
    pub fn is_connective(self, args: usize) -> bool
        ensures { result ≡ is_connective (builtin_kind self) args }
    {
        match self {
            Builtin::True | Builtin::False => args == 0,
            Builtin::Not => args == 1,
            Builtin::And | Builtin::Or | Builtin::Implies => args == 2,
            _ => false,
        }
    }
}
