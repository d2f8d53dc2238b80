// A term that is printed and read back by the calls themselves.
ghost use Rattle.std.specs.Prelude.{◌≡◌, ◌<◌, ◌+◌, ◌^◌, ◌++◌, [], IfOk, length, map, codes};
ghost use Rattle.sq_lex.specs.Answers.{AreSentences};
ghost use Rattle.sq_lex.specs.Lexemes.{line_of};
ghost use Rattle.sq_ast.specs.View.{formula_tree};
ghost use Rattle.sq_term.specs.View.{term_tree};
ghost use Rattle.sq_print.specs.Printed.{term_text};
ghost use Rattle.sq_resolve.specs.Scopes.{Variable, context};
ghost use Rattle.sq_readback.specs.Readable.{IsReadable};
ghost use Rattle.sq_readback.specs.Calls.{IsWithinLimits, IsFormulaOf};

use sq_ast::Formula;
use sq_base::{NoMemory, Seq, Sort, Text};
use sq_lex::{Sentence, lex};
use sq_parse_term::parse_formula;
use sq_print::print_term;
use sq_resolve::{Scope, resolve};
use sq_sym::Table;
use sq_system::Env;
use sq_term::Term;
use std::alloc::Global;

/// Prints a term, and reads the text back in the same scope.
pub fn print_and_read(
    alloc: Global,
    t: &Term,
    want: Sort,
    scope: &Scope,
    table: &Table,
    env: &Env,
) -> Result<Term, NoMemory>
    requires readable { IsReadable (context scope.now table.now env.now) want (term_tree t.now) }
    requires within { IsWithinLimits (context scope.now table.now env.now) (term_tree t.now) }
    ensures { IfOk result (λ u. term_tree u ≡ term_tree t.now) }
{
    let text = printed_sentence(alloc, t, scope, table)?;
    let sentences = read_sentences(alloc, &text)?;
    let formula = read_formula(alloc, &sentences)?;
    match resolve(alloc, &formula, want, scope, table, env) {
        Ok(read) => Ok(read),
        Err(_) => Err(NoMemory),
    }
}

fn variable_names(alloc: Global, vars: &[(Text, Sort)]) -> Result<Seq<Text>, NoMemory>
    ensures { IfOk result (λ names. names ≡ map (λ (v : Variable). v.0) vars.now) }
{
    let mut names = Seq::new(alloc);
    for var in vars {
        names.push(var.0.copy(alloc)?)?;
    }
    Ok(names)
}

// The printed term and a stop.
fn printed_sentence(alloc: Global, t: &Term, scope: &Scope, table: &Table) -> Result<Text, NoMemory>
    ensures text { IfOk result
        (λ text. text
        ≡ term_text
        (record {
          schemas = scope.now.schemas;
          vars = map (λ (v : Variable). v.0) scope.now.vars;
          system = scope.now.system;
          table = table.now;
        }) []
        (term_tree t.now) ++ codes ".") }
    // What is in memory is far too short for a binder to run out of names.
    ensures few { IfOk result (λ text. length table.now
        + (length scope.now.vars + length scope.now.schemas) + length text < 2 ^ 66) }
{
    let names = variable_names(alloc, scope.vars.as_slice())?;
    let mut text = print_term(alloc, t, &scope.schemas, &names, scope.system, table)?;
    text.push_str(".")?;
    let _declared = table.len();
    let _vars = scope.vars.len();
    let _schemas = scope.schemas.len();
    let _bytes = text.len();
    Ok(text)
}

fn read_sentences(alloc: Global, text: &Text) -> Result<Seq<Sentence>, NoMemory>
    ensures { IfOk result (λ found. AreSentences text.now (map line_of found)) }
{
    match lex(alloc, text.as_str().as_bytes()) {
        Ok(found) => Ok(found),
        Err(_) => Err(NoMemory),
    }
}

fn read_formula(alloc: Global, sentences: &Seq<Sentence>) -> Result<Formula, NoMemory>
    ensures { IfOk result (λ f. IsFormulaOf sentences.now (formula_tree f)) }
{
    let Some(first) = sentences.as_slice().first() else {
        return Err(NoMemory);
    };
    match parse_formula(alloc, first.tokens.as_slice(), 0) {
        Ok(Some((found, _))) => Ok(found),
        _ => Err(NoMemory),
    }
}
