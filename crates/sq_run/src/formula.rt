// Formulas over declared names.
ghost use Rattle.std.specs.Prelude.{◌≡◌, ◌<◌, ◌+◌, ◌-◌, ◌^◌, ℕ, List, Some, IfOk, option_map};
ghost use Rattle.sq_term.specs.View.{term_tree};
ghost use Rattle.sq_run.specs.Depths as depths;
ghost use Rattle.sq_run.specs.Formulas as spec;
ghost use Rattle.sq_run.specs.Grammar.{Formula, formula_words, formula_tree};

use sq_base::{NoMemory, Seq, Text};
use sq_sym::{Symbol, Table};
use sq_term::Term;
use sq_term::formulas::{both, implies};
use sqlite_items::Items;
use std::alloc::Global;

/// The greatest depth of a formula.
const MOST_DEPTH: usize = 256;

#[derive(Clone, Copy, Debug, PartialEq, Eq)]
pub enum Connective {
    And,
    Implies,
}

/// A name, as the number of its function, and the connective behind it.
#[derive(Clone, Copy, Debug, PartialEq, Eq)]
pub struct Link {
    pub function: u32,
    pub connective: Connective,
}

/// A formula as its names with the connectives between them. Both connectives are nested to the
/// right, and `&&` binds tighter.
#[derive(Debug, Drop)]
pub struct Chain {
    pub links: Seq<Link>,
    pub last: u32,
}

/// The formula that the words spell. None stands for words that are no formula, or for a name that
/// no `abstract` sentence has declared.
pub fn chain_of(alloc: Global, table: &Table, words: &[Text]) -> Result<Option<Chain>, NoMemory>
    ensures { IfOk result (λ chain. chain ≡ spec.chain_of table.now words.now) }
{
    let mut links = Seq::new(alloc);
    let mut rest = words;
    'names: loop {
        match rest {
            [] => return Ok(None),
            [name] => {
                return match function_of(table, name.as_str()) {
                    Some(last) => Ok(Some(Chain { links, last })),
                    None => Ok(None),
                };
            }
            [name, sign, more @ ..] => {
                match (function_of(table, name.as_str()), connective_of(sign)) {
                    (Some(function), Some(connective)) => links.push(Link {
                        function,
                        connective,
                    })?,
                    _ => return Ok(None),
                }
                rest = more;
            }
        }
    }
}

/// The grammar's words and trees agree with chains: a formula has the tree that the grammar gives
/// to its words, and what is read as a formula is spelled by the grammar.
pub fn formulas_have_their_trees()
    ensures trees { (table : spec.Declarations) (f : Formula) (chain : Chain)
        → spec.chain_of table (formula_words f) ≡ Some chain
        → spec.tree_of chain ≡ formula_tree table f }
    ensures spelled { (table : spec.Declarations) (words : List (List ℕ)) (chain : Chain)
        → spec.chain_of table words ≡ Some chain → (f : Formula) × (formula_words f ≡ words) }
{}

fn function_of(table: &Table, name: &str) -> Option<u32>
    ensures { result ≡ spec.function_of table.now name.now }
{
    match table.find(name) {
        Some((_, Symbol::Fun(f))) => Some(f),
        _ => None,
    }
}

fn connective_of(text: &Text) -> Option<Connective>
    ensures { result ≡ spec.connective_of text.now }
{
    if text.is("&&") {
        Some(Connective::And)
    } else if text.is("=>") {
        Some(Connective::Implies)
    } else {
        None
    }
}

/// Whether the formula has at most the depth that one may have.
pub fn is_shallow(chain: &Chain) -> bool
    ensures { result ≡ spec.is_shallow chain.now }
{
    let links = chain.links.as_slice();
    let mut front: usize = 1;
    let mut back: usize = 0;
    let mut at = links.len();
    'links: while at > 0 {
        at -= 1;
        match links[at].connective {
            Connective::And => front += 1,
            Connective::Implies => {
                back = joined_depth(front, back);
                front = 1;
            }
        }
    }
    joined_depth(front, back) <= MOST_DEPTH
}

// The depth of an implication, or that of its front where there is no back.
fn joined_depth(front: usize, back: usize) -> usize
    requires { front + back < 2 ^ 64 - 1 }
    ensures { result ≡ depths.joined_depth front back }
{
    if back == 0 {
        front
    } else {
        front.max(back) + 1
    }
}

/// The formula as a term.
pub fn term_of(alloc: Global, chain: &Chain) -> Result<Term, NoMemory>
    ensures { IfOk result (λ t. term_tree t ≡ spec.tree_of chain.now) }
{
    let links = chain.links.as_slice();
    let mut front = constant(alloc, chain.last);
    let mut back = None;
    let mut at = links.len();
    'links: while at > 0 {
        at -= 1;
        let name = constant(alloc, links[at].function);
        match links[at].connective {
            Connective::And => front = both(alloc, name, front)?,
            Connective::Implies => {
                back = Some(joined(alloc, front, back)?);
                front = name;
            }
        }
    }
    joined(alloc, front, back)
}

// The implication, or its front where there is no back.
fn joined(alloc: Global, front: Term, back: Option<Term>) -> Result<Term, NoMemory>
    ensures { IfOk result (λ t. term_tree t
        ≡ spec.joined (term_tree front) (option_map term_tree back)) }
{
    match back {
        None => Ok(front),
        Some(back) => implies(alloc, front, back),
    }
}

#[tactic(auto, using(sq_term::proofs::Views::open_rules))]
fn constant(alloc: Global, function: u32) -> Term
    ensures { term_tree result ≡ spec.constant function }
{
    Term::Fun(function, Seq::new(alloc), Items::new(alloc))
}
