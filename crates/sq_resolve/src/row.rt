// The arguments of a function, built within the limits of a formula.
ghost use Rattle.std.specs.Prelude.{◌≡◌, IfOk, List, [], ◌∷◌, ◌++◌, map};
ghost use Rattle.sq_term.specs.Measure.{sizes, depths};
ghost use Rattle.sq_term.specs.Syntax.{TermTree};
ghost use Rattle.sq_term.specs.View.{term_tree, row};
ghost use Rattle.sq_resolve.specs.Built.{IsBuilt, IsRow, Measures, MeasuresRow};

use crate::built::is_within;
use crate::sized::{Built, Row, SizedRow, SizedTerm, discard, discard_row};
use sq_base::NoMemory;
use sq_term::Term;
use std::alloc::Global;

/// No terms. It takes no memory.
pub fn no_row(alloc: Global) -> Row
    ensures { IsRow result [] }
{
    Row::Within(SizedRow {
        terms: Vec::new(alloc),
        nodes: 0,
        depth: 0,
    })
}

/// One more term at the end.
pub fn longer_row(row: Row, last: Built) -> Result<Row, NoMemory>
    ensures { (ts : List TermTree) (x : TermTree) → IsRow row ts → IsBuilt last x
        → IfOk result (λ r. IsRow r (ts ++ x ∷ [])) }
{
    match row {
        Row::TooLarge => {
            discard(last);
            Ok(Row::TooLarge)
        }
        Row::Within(row) => match last {
            Built::TooLarge => {
                discard_row(Row::Within(row));
                Ok(Row::TooLarge)
            }
            Built::Within(last) => longer(row, last),
        },
    }
}

fn longer(row: SizedRow, last: SizedTerm) -> Result<Row, NoMemory>
    ensures { (ts : List TermTree) (x : TermTree) → MeasuresRow row ts → Measures last x
        → IfOk result (λ r. IsRow r (ts ++ x ∷ [])) }
{
    let nodes = row.nodes as usize + last.nodes as usize;
    let deep = row.depth.max(last.depth) as usize;
    let mut terms = row.terms;
    terms.push(last.term)?;
    Ok(sized_row(terms, nodes, deep))
}

// The terms with their measures, where they are within the limits.
fn sized_row(terms: Vec<Term>, nodes: usize, deep: usize) -> Row
    ensures { (ts : List TermTree) → map term_tree terms.items ≡ ts → nodes ≡ sizes (row ts)
        → deep ≡ depths (row ts) → IsRow result ts }
{
    if is_within(nodes, deep) {
        Row::Within(SizedRow {
            terms,
            nodes: nodes as u32,
            depth: deep as u32,
        })
    } else {
        Row::TooLarge
    }
}
