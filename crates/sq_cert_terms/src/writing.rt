// The words of terms, timestamps and indices at the end of a text, each with a blank before it.
ghost use Rattle.std.specs.Prelude.{◌≡◌, [], ◌∷◌, ◌++◌, OnOk, codes};
ghost use Rattle.sq_term.specs.View.{ts_tree, term_tree, term_trees};
ghost use Rattle.sq_cert_words.specs.Spelling as spec;
ghost use Rattle.sq_cert_words.specs.Spelling.{blanked};

use sq_base::{NoMemory, Sort, Text};
use sq_cert_words::{write_applied, write_counted, write_numbered, write_word};
use sq_term::{Idx, Macro, Term, Ts};

/// How the macro is written.
pub fn macro_word(word: Macro) -> &'static str
    ensures { result.now ≡ spec.macro_word word }
{
    match word {
        Macro::Input => "input",
        Macro::Output => "output",
        Macro::Cond => "cond",
        Macro::Exec => "exec",
        Macro::Frame => "frame",
    }
}

// A quantifier over a message or a Boolean has no word.
fn universal_word(sort: Sort) -> &'static str
    ensures { result.now ≡ spec.universal_word sort }
{
    match sort {
        Sort::Index => "Ai",
        Sort::Timestamp => "At",
        Sort::Message | Sort::Boolean => "",
    }
}

fn existential_word(sort: Sort) -> &'static str
    ensures { result.now ≡ spec.existential_word sort }
{
    match sort {
        Sort::Index => "Ei",
        Sort::Timestamp => "Et",
        Sort::Message | Sort::Boolean => "",
    }
}

/// Writes an index.
pub fn write_index(out: &mut Text, index: Idx) -> Result<(), NoMemory>
    ensures { OnOk result (out.new ≡ out.old ++ 32 ∷ spec.index_word index) }
{
    match index {
        Idx::Free(number) => write_numbered(out, "x", number),
        Idx::Bound(number) => write_numbered(out, "b", number),
    }
}

#[tactic(auto, using(crate::proofs::Wrote::index_rules))]
fn write_indices(out: &mut Text, indices: &[Idx]) -> Result<(), NoMemory>
    ensures { OnOk result (out.new ≡ out.old ++ blanked (spec.index_words indices.now)) }
{
    for index in indices {
        write_index(out, *index)?;
    }
    Ok(())
}

/// Writes a timestamp.
#[tactic(auto, using(crate::proofs::Wrote::wrote_rules))]
pub fn write_ts(out: &mut Text, t: &Ts) -> Result<(), NoMemory>
    ensures { OnOk result (out.new ≡ out.old ++ blanked (spec.ts_words (ts_tree t.now))) }
{
    match t {
        Ts::Free(number) => write_numbered(out, "x", *number),
        Ts::Bound(number) => write_numbered(out, "b", *number),
        Ts::Init => write_word(out, "init"),
        Ts::Pred(inner) => {
            write_word(out, "pred")?;
            write_ts(out, inner.get())
        }
        Ts::Act(action, indices) => {
            write_counted(out, "a", *action, indices.len())?;
            write_indices(out, indices.as_slice())
        }
    }
}

#[tactic(auto, using(crate::proofs::Wrote::wrote_rules))]
fn write_two_times(out: &mut Text, word: &str, a: &Ts, b: &Ts) -> Result<(), NoMemory>
    ensures { OnOk result
        (out.new ≡ out.old ++ blanked (word.now ∷ (spec.ts_words (ts_tree a.now) ++ spec.ts_words
        (ts_tree b.now)))) }
{
    write_word(out, word)?;
    write_ts(out, a)?;
    write_ts(out, b)
}

#[tactic(auto, using(crate::proofs::Wrote::equation_rules))]
fn write_equation(out: &mut Text, i: Idx, j: Idx) -> Result<(), NoMemory>
    ensures { OnOk result
        (out.new ≡ out.old ++ blanked (codes "ieq" ∷ spec.index_word i ∷ spec.index_word j ∷ [])) }
{
    write_word(out, "ieq")?;
    write_index(out, i)?;
    write_index(out, j)
}

/// Writes a term.
#[cycle(write)]
#[tactic(auto, using(crate::proofs::Wrote::wrote_rules))]
pub fn write_term(out: &mut Text, t: &Term) -> Result<(), NoMemory>
    ensures { OnOk result (out.new ≡ out.old ++ blanked (spec.term_words (term_tree t.now))) }
{
    match t {
        Term::Name(name, indices) => {
            write_counted(out, "n", *name, indices.len())?;
            write_indices(out, indices.as_slice())
        }
        Term::Fun(function, indices, terms) => {
            write_applied(out, *function, indices.len(), terms.len())?;
            write_indices(out, indices.as_slice())?;
            write_terms(out, terms.as_slice())
        }
        Term::Macro(word, at) => {
            write_word(out, macro_word(*word))?;
            write_ts(out, at)
        }
        Term::Schema(number) => write_numbered(out, "s", *number),
        Term::Diff(left, right) => {
            write_word(out, "diff")?;
            write_term(out, left.get())?;
            write_term(out, right.get())
        }
        Term::Le(a, b) => write_two_times(out, "le", a, b),
        Term::TsEq(a, b) => write_two_times(out, "teq", a, b),
        Term::IdxEq(i, j) => write_equation(out, *i, *j),
        Term::Happens(at) => {
            write_word(out, "hap")?;
            write_ts(out, at)
        }
        Term::Forall(sort, body) => {
            write_word(out, universal_word(*sort))?;
            write_term(out, body.get())
        }
        Term::Exists(sort, body) => {
            write_word(out, existential_word(*sort))?;
            write_term(out, body.get())
        }
        Term::Find(count, test, found, other) => {
            write_numbered(out, "find", *count)?;
            write_term(out, test.get())?;
            write_term(out, found.get())?;
            write_term(out, other.get())
        }
    }
}

#[cycle(write)]
#[tactic(auto, using(crate::proofs::Wrote::wrote_rules))]
fn write_terms(out: &mut Text, terms: &[Term]) -> Result<(), NoMemory>
    ensures { OnOk result (out.new ≡ out.old ++ blanked (spec.all_words (term_trees terms.now))) }
{
    for term in terms {
        write_term(out, term)?;
    }
    Ok(())
}
