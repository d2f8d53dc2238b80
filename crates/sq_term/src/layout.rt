// How applications of the functions that every file has are written.
ghost use Rattle.std.specs.Prelude.{◌≡◌};
ghost use Rattle.sq_term.specs.Builtins as spec;

/// A level of the grammar of formulas, the tightest first: an atom, a conjunction, a disjunction or
/// any formula.
#[derive(Clone, Copy, Debug, PartialEq, Eq)]
pub enum Level {
    Atom,
    Conjunction,
    Disjunction,
    Formula,
}

impl Level {
    /// The sign between the two sides of an application of this level.
    pub fn sign(self) -> &'static str
        ensures { result.now ≡ spec.sign self }
    {
        match self {
            Level::Atom => "=",
            Level::Conjunction => "&&",
            Level::Disjunction => "||",
            Level::Formula => "=>",
        }
    }
}

/// How an application is written: as a word before its arguments in parentheses, as a sign between
/// its two sides, as `<u,v>`, or as `if b then u else v`.
#[derive(Clone, Copy, Debug, PartialEq, Eq)]
pub enum Layout {
    Word,
    Infix(Level),
    Pair,
    Conditional,
}
