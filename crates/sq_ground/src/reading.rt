// What a term is read in.
use sq_term::{GTerm, Model, Value};

/// What is kept of the macros at one position: each one's term, or nothing where it passes the
/// limits.
#[derive(Debug, Drop)]
pub struct Entry {
    pub input: Option<GTerm>,
    pub output: Option<GTerm>,
    pub cond: Option<GTerm>,
    pub exec: Option<GTerm>,
    pub frame: Option<GTerm>,
}

/// A trace with what is kept of its first positions and of the one behind them, the side that is
/// read, and the values of the variables.
#[derive(Clone, Copy)]
pub struct Reading<'a> {
    pub model: &'a Model,
    pub left: bool,
    pub values: &'a [Value],
    pub entries: &'a [Entry],
    pub own: &'a Entry,
}
