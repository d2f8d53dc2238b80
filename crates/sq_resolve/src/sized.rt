// Terms and rows of terms with their measures.
ghost use Rattle.std.specs.Prelude.{◌≤◌};
ghost use Rattle.sq_resolve.specs.Limits.{most_formula_nodes, most_formula_depth};

use sq_term::Term;

/// A term within the limits of a formula, with its count of nodes and its depth.
#[derive(Debug, Drop)]
pub struct SizedTerm {
    pub term: Term,
    pub nodes: u32,
    pub depth: u32,
    ghost few: { nodes ≤ most_formula_nodes },
    ghost shallow: { depth ≤ most_formula_depth },
}

/// A term within the limits of a formula, or the knowledge that it would pass them.
///
/// A term past the limits is never built, since it may be as deep as a file is long.
#[derive(Debug, Drop)]
pub enum Built {
    Within(SizedTerm),
    TooLarge,
}

/// Terms within the limits together, with their count of nodes and the depth of the deepest one.
#[derive(Debug, Drop)]
pub struct SizedRow {
    pub terms: Vec<Term>,
    pub nodes: u32,
    pub depth: u32,
    ghost few: { nodes ≤ most_formula_nodes },
    ghost shallow: { depth ≤ most_formula_depth },
}

/// Terms within the limits together, or the knowledge that they would pass them.
#[derive(Debug, Drop)]
pub enum Row {
    Within(SizedRow),
    TooLarge,
}

// Dropping a term goes over all of it: that stands here, apart from what else a function does.

pub fn discard(_built: Built) {}

pub fn discard_row(_row: Row) {}
