// Terms that are built within the limits of a formula.
ghost use Rattle.std.specs.Prelude.{◌≡◌, ◌≤◌, ◌<◌, IfOk, List, [], MatchBool, length};
ghost use Rattle.sq_term.specs.Measure as measure;
ghost use Rattle.sq_term.specs.Syntax as t;
ghost use Rattle.sq_term.specs.Syntax.{TermTree};
ghost use Rattle.sq_term.specs.View.{term_tree, row};
ghost use Rattle.sq_resolve.specs.Limits.{most_formula_nodes, most_formula_depth};
ghost use Rattle.sq_resolve.specs.Built.{IsBuilt, IsRow, Measures, MeasuresRow};
ghost use Rattle.sq_term.specs.Builtins.{builtin_kind};
ghost use Rattle.sq_term.specs.Formulas as formula;
ghost use Rattle.sq_term.specs.Symbols.{kind_of};
ghost use Rattle.sq_resolve.specs.Resolved as spec;
ghost use Rattle.sq_resolve.specs.Resolved.{quantifier};

use crate::row::{longer_row, no_row};
use crate::sized::{Built, Row, SizedRow, SizedTerm, discard};
use sq_ast::Quantifier;
use sq_base::{NoMemory, Seq, Sort, Text};
use sq_term::{Builtin, Idx, Term, depth, size};
use sqlite_items::{Boxed, Items};
use std::alloc::Global;

/// The most nodes of a term that a file writes.
pub const MOST_FORMULA_NODES: usize = 65_536;

/// The greatest depth of a term that a file writes.
pub const MOST_FORMULA_DEPTH: usize = 1_000;

/// Whether a formula may have so many nodes and this depth.
pub fn is_within(nodes: usize, depth: usize) -> bool
    ensures { MatchBool result ((nodes ≤ most_formula_nodes) × (depth ≤ most_formula_depth))
        (nodes ≤ most_formula_nodes → most_formula_depth < depth) }
{
    nodes <= MOST_FORMULA_NODES && depth <= MOST_FORMULA_DEPTH
}

/// A term that is shallow by itself, with its measures.
pub fn measured(term: Term) -> Built
    ensures { IsBuilt result (term_tree term) }
{
    let nodes = size(&term);
    let depth = depth(&term);
    if is_within(nodes, depth) {
        Built::Within(SizedTerm {
            term,
            nodes: nodes as u32,
            depth: depth as u32,
        })
    } else {
        Built::TooLarge
    }
}

fn indices_depth(indices: &Seq<Idx>) -> u32
    ensures { result ≡ measure.indices_depth indices.now }
{
    match indices.as_slice() {
        [] => 0,
        [_, ..] => 1,
    }
}

// The term with its measures, where it is within the limits.
fn sized(term: Term, nodes: usize, deep: usize) -> Built
    ensures { (x : TermTree) → term_tree term ≡ x → nodes ≡ measure.size x → deep ≡ measure.depth x
        → IsBuilt result x }
{
    if is_within(nodes, deep) {
        Built::Within(SizedTerm {
            term,
            nodes: nodes as u32,
            depth: deep as u32,
        })
    } else {
        Built::TooLarge
    }
}

/// A function of its arguments.
pub fn call(f: u32, indices: Seq<Idx>, args: Row) -> Built
    ensures { (ts : List TermTree) → IsRow args ts
        → IsBuilt result (t.fun (kind_of f) indices (row ts)) }
{
    match args {
        Row::TooLarge => Built::TooLarge,
        Row::Within(args) => {
            if indices.len() > MOST_FORMULA_NODES {
                Built::TooLarge
            } else {
                call_within(f, indices, args)
            }
        }
    }
}

fn call_within(f: u32, indices: Seq<Idx>, args: SizedRow) -> Built
    requires { length indices ≤ most_formula_nodes }
    ensures { (ts : List TermTree) → MeasuresRow args ts
        → IsBuilt result (t.fun (kind_of f) indices (row ts)) }
{
    let nodes = indices.len() + args.nodes as usize + 1;
    let deep = args.depth.max(indices_depth(&indices)) as usize + 1;
    let items = Items::from_vec(args.terms);
    sized(Term::Fun(f, indices, items), nodes, deep)
}

/// The two sides of a difference.
pub fn difference(alloc: Global, a: Built, b: Built) -> Result<Built, NoMemory>
    ensures { (x y : TermTree) → IsBuilt a x → IsBuilt b y
        → IfOk result (λ r. IsBuilt r (t.diff x y)) }
{
    match a {
        Built::TooLarge => {
            discard(b);
            Ok(Built::TooLarge)
        }
        Built::Within(a) => match b {
            Built::TooLarge => {
                discard(Built::Within(a));
                Ok(Built::TooLarge)
            }
            Built::Within(b) => sides(alloc, a, b),
        },
    }
}

fn sides(alloc: Global, a: SizedTerm, b: SizedTerm) -> Result<Built, NoMemory>
    ensures { (x y : TermTree) → Measures a x → Measures b y
        → IfOk result (λ r. IsBuilt r (t.diff x y)) }
{
    let nodes = a.nodes as usize + b.nodes as usize + 1;
    let deep = a.depth.max(b.depth) as usize + 1;
    let left = Boxed::new(alloc, a.term)?;
    let right = Boxed::new(alloc, b.term)?;
    Ok(sized(Term::Diff(left, right), nodes, deep))
}

/// A quantifier over one variable.
fn quantified(alloc: Global, q: Quantifier, sort: Sort, body: Built) -> Result<Built, NoMemory>
    ensures { (x : TermTree) → IsBuilt body x → IfOk result (λ r. IsBuilt r (quantifier q sort x)) }
{
    match body {
        Built::TooLarge => Ok(Built::TooLarge),
        Built::Within(body) => quantified_within(alloc, q, sort, body),
    }
}

fn quantified_within(
    alloc: Global,
    q: Quantifier,
    sort: Sort,
    body: SizedTerm,
) -> Result<Built, NoMemory>
    ensures { (x : TermTree) → Measures body x
        → IfOk result (λ r. IsBuilt r (quantifier q sort x)) }
{
    let nodes = body.nodes as usize + 1;
    let deep = body.depth as usize + 1;
    let inner = Boxed::new(alloc, body.term)?;
    Ok(sized(with_quantifier(q, sort, inner), nodes, deep))
}

#[tactic(auto, using(sq_term::proofs::Views::tree_rules))]
fn with_quantifier(q: Quantifier, sort: Sort, body: Boxed<Term>) -> Term
    ensures { term_tree result ≡ quantifier q sort (term_tree body) }
{
    match q {
        Quantifier::Forall => Term::Forall(sort, body),
        Quantifier::Exists => Term::Exists(sort, body),
    }
}

/// One quantifier for each variable, the first one outermost.
pub fn quantify(
    alloc: Global,
    q: Quantifier,
    vars: &[(Text, Sort)],
    body: Built,
) -> Result<Built, NoMemory>
    ensures { (x : TermTree) → IsBuilt body x
        → IfOk result (λ r. IsBuilt r (spec.quantify q vars.now x)) }
{
    let mut built = body;
    let mut left = vars.len();
    'outwards: while left > 0 {
        left -= 1;
        built = quantified(alloc, q, vars[left].1, built)?;
    }
    Ok(built)
}

/// A find over so many indices.
pub fn found(
    alloc: Global,
    count: u32,
    test: Built,
    then: Built,
    other: Built,
) -> Result<Built, NoMemory>
    ensures { (x y z : TermTree) → IsBuilt test x → IsBuilt then y → IsBuilt other z
        → IfOk result (λ r. IsBuilt r (t.find count x y z)) }
{
    match test {
        Built::TooLarge => {
            discard(then);
            discard(other);
            Ok(Built::TooLarge)
        }
        Built::Within(test) => found_within(alloc, count, test, then, other),
    }
}

fn found_within(
    alloc: Global,
    count: u32,
    test: SizedTerm,
    then: Built,
    other: Built,
) -> Result<Built, NoMemory>
    ensures { (x y z : TermTree) → Measures test x → IsBuilt then y → IsBuilt other z
        → IfOk result (λ r. IsBuilt r (t.find count x y z)) }
{
    match then {
        Built::TooLarge => {
            discard(Built::Within(test));
            discard(other);
            Ok(Built::TooLarge)
        }
        Built::Within(then) => match other {
            Built::TooLarge => {
                discard(Built::Within(test));
                discard(Built::Within(then));
                Ok(Built::TooLarge)
            }
            Built::Within(other) => branches(alloc, count, test, then, other),
        },
    }
}

fn branches(
    alloc: Global,
    count: u32,
    test: SizedTerm,
    then: SizedTerm,
    other: SizedTerm,
) -> Result<Built, NoMemory>
    ensures { (x y z : TermTree) → Measures test x → Measures then y → Measures other z
        → IfOk result (λ r. IsBuilt r (t.find count x y z)) }
{
    let nodes = test.nodes as usize + then.nodes as usize + other.nodes as usize + 1;
    let deep = test.depth.max(then.depth).max(other.depth) as usize + 1;
    let test = Boxed::new(alloc, test.term)?;
    let then = Boxed::new(alloc, then.term)?;
    let other = Boxed::new(alloc, other.term)?;
    Ok(sized(Term::Find(count, test, then, other), nodes, deep))
}

/// A built-in function of its arguments.
pub fn call_builtin(alloc: Global, function: Builtin, args: Row) -> Built
    ensures { (ts : List TermTree) → IsRow args ts
        → IsBuilt result (t.fun (builtin_kind function) [] (row ts)) }
{
    call(function.number(), Seq::new(alloc), args)
}

/// A function of one argument.
pub fn call_one(alloc: Global, function: Builtin, a: Built) -> Result<Built, NoMemory>
    ensures { (x : TermTree) → IsBuilt a x
        → IfOk result (λ r. IsBuilt r (formula.unary (builtin_kind function) x)) }
{
    let row = longer_row(no_row(alloc), a)?;
    Ok(call_builtin(alloc, function, row))
}

/// A function of two arguments.
pub fn call_two(alloc: Global, function: Builtin, a: Built, b: Built) -> Result<Built, NoMemory>
    ensures { (x y : TermTree) → IsBuilt a x → IsBuilt b y
        → IfOk result (λ r. IsBuilt r (formula.binary (builtin_kind function) x y)) }
{
    let first = longer_row(no_row(alloc), a)?;
    let row = longer_row(first, b)?;
    Ok(call_builtin(alloc, function, row))
}

/// A function of three arguments.
pub fn call_three(
    alloc: Global,
    function: Builtin,
    a: Built,
    b: Built,
    c: Built,
) -> Result<Built, NoMemory>
    ensures { (x y z : TermTree) → IsBuilt a x → IsBuilt b y → IsBuilt c z
        → IfOk result (λ r. IsBuilt r (formula.ternary (builtin_kind function) x y z)) }
{
    let first = longer_row(no_row(alloc), a)?;
    let second = longer_row(first, b)?;
    let row = longer_row(second, c)?;
    Ok(call_builtin(alloc, function, row))
}
