// The text of a term, written behind what a buffer holds.
ghost use Rattle.std.specs.Prelude.{◌≡◌, OnOk};
ghost use Rattle.sq_term.specs.Symbols.{kind_of};
ghost use Rattle.sq_term.specs.Syntax.{fun};
ghost use Rattle.sq_term.specs.View.{term_tree, term_trees};
ghost use Rattle.sq_print.specs.Written as spec;
ghost use Rattle.sq_print.specs.Scopes.{names_of};
ghost use Rattle.sq_print.specs.Supplies.{IsAround, Kept};

use crate::binders::Binders;
use crate::form::{Form, end, layout_of};
use crate::pieces::{
    close, end_function, enter, enter_find, first_before, open, write_before, write_happens,
    write_head, write_macro, write_name, write_related, write_same_indices,
};
use crate::scope::{Scope, text_at};
use sq_base::{NoMemory, Seq, Sort, Text};
use sq_term::{Idx, Layout, Term};

/// Writes a term. Parentheses around it are the caller's.
#[cycle(write)]
#[tactic(auto, using(crate::proofs::Rows::write_rules))]
pub fn write(out: &mut Text, scope: &Scope, binders: &mut Binders, t: &Term) -> Result<(), NoMemory>
    requires { IsAround (names_of scope.now) binders.old }
    ensures text { OnOk result
        (out.new ≡ spec.wrote (names_of scope.now) binders.old.around out.old (term_tree t.now)) }
    ensures kept { OnOk result (Kept (names_of scope.now) binders.old binders.new) }
{
    match t {
        Term::Name(n, indices) => write_name(out, scope, &binders.around, *n, indices)?,
        Term::Fun(f, indices, arguments) => {
            write_function(out, scope, binders, *f, indices, arguments.as_slice())?
        }
        Term::Macro(word, at) => write_macro(out, scope, &binders.around, *word, at)?,
        Term::Schema(k) => out.push_str(text_at(scope.schemas, *k as usize))?,
        Term::Diff(left, right) => {
            out.push_str("diff(")?;
            write(out, scope, binders, left.get())?;
            out.push_str(",")?;
            write(out, scope, binders, right.get())?;
            out.push_str(")")?
        }
        Term::Le(a, b) => write_related(out, scope, &binders.around, a, " <= ", b)?,
        Term::TsEq(a, b) => write_related(out, scope, &binders.around, a, " = ", b)?,
        Term::IdxEq(i, j) => write_same_indices(out, scope, &binders.around, *i, *j)?,
        Term::Happens(at) => write_happens(out, scope, &binders.around, at)?,
        Term::Forall(sort, body) => {
            write_quantified(out, scope, binders, "forall", *sort, body.get())?
        }
        Term::Exists(sort, body) => {
            write_quantified(out, scope, binders, "exists", *sort, body.get())?
        }
        Term::Find(count, test, found, other) => {
            let mark = binders.mark();
            enter_find(out, scope, binders, *count)?;
            write(out, scope, binders, test.get())?;
            out.push_str(" in ")?;
            write_branch(out, scope, binders, found.get())?;
            binders.release(mark);
            out.push_str(" else ")?;
            write_branch(out, scope, binders, other.get())?
        }
    }
    Ok(())
}

/// Writes an application of a function, by its layout or as a call.
#[cycle(write)]
#[tactic(auto, using(crate::proofs::Rows::write_rules))]
fn write_function(
    out: &mut Text,
    scope: &Scope,
    binders: &mut Binders,
    f: u32,
    indices: &Seq<Idx>,
    arguments: &[Term],
) -> Result<(), NoMemory>
    requires { IsAround (names_of scope.now) binders.old }
    ensures text { OnOk result
        (out.new ≡ spec.wrote (names_of scope.now) binders.old.around out.old
        (fun (kind_of f) indices.now (term_trees arguments.now))) }
    ensures kept { OnOk result (Kept (names_of scope.now) binders.old binders.new) }
{
    let layout = layout_of(f, indices.len(), arguments.len());
    if layout == Layout::Word {
        write_head(out, scope, &binders.around, f, indices)?;
        let first = first_before(indices);
        write_arguments(out, scope, binders, first, arguments)?;
        end_function(out, indices, arguments)
    } else {
        write_parts(out, scope, binders, layout, arguments)?;
        out.push_str(end(layout))
    }
}

/// Writes a quantifier with this word.
#[cycle(write)]
fn write_quantified(
    out: &mut Text,
    scope: &Scope,
    binders: &mut Binders,
    word: &str,
    sort: Sort,
    body: &Term,
) -> Result<(), NoMemory>
    requires { IsAround (names_of scope.now) binders.old }
    ensures text { OnOk result
        (out.new ≡ spec.wrote_quantified
        (names_of scope.now) binders.old.around word.now sort out.old (term_tree body.now)) }
    ensures kept { OnOk result (Kept (names_of scope.now) binders.old binders.new) }
{
    let mark = binders.mark();
    enter(out, scope, binders, word, sort)?;
    write(out, scope, binders, body)?;
    binders.release(mark);
    Ok(())
}

/// Writes a term where a message stands without parentheses.
#[cycle(write)]
fn write_branch(
    out: &mut Text,
    scope: &Scope,
    binders: &mut Binders,
    t: &Term,
) -> Result<(), NoMemory>
    requires { IsAround (names_of scope.now) binders.old }
    ensures text { OnOk result
        (out.new ≡ spec.wrote_branch (names_of scope.now) binders.old.around out.old
        (term_tree t.now)) }
    ensures kept { OnOk result (Kept (names_of scope.now) binders.old binders.new) }
{
    open(out, Form::Term, Form::of(t))?;
    write(out, scope, binders, t)?;
    close(out, Form::Term, Form::of(t))?;
    Ok(())
}

/// Writes the arguments of a function that has a layout, each with what stands before it.
#[cycle(write)]
#[tactic(auto, using(crate::proofs::Rows::write_rules))]
fn write_parts(
    out: &mut Text,
    scope: &Scope,
    binders: &mut Binders,
    layout: Layout,
    parts: &[Term],
) -> Result<(), NoMemory>
    requires { IsAround (names_of scope.now) binders.old }
    ensures text { OnOk result
        (out.new ≡ spec.wrote_parts (names_of scope.now) binders.old.around layout 0 out.old
        (term_trees parts.now)) }
    ensures kept { OnOk result (Kept (names_of scope.now) binders.old binders.new) }
{
    for (k, part) in parts.iter().enumerate() {
        let own = Form::of(part);
        let place = Form::place(layout, k);
        write_before(out, layout, k)?;
        open(out, place, own)?;
        write(out, scope, binders, part)?;
        close(out, place, own)?;
    }
    Ok(())
}

/// Writes the arguments of a call, parted by commas.
#[cycle(write)]
#[tactic(auto, using(crate::proofs::Rows::write_rules))]
fn write_arguments(
    out: &mut Text,
    scope: &Scope,
    binders: &mut Binders,
    first: &str,
    arguments: &[Term],
) -> Result<(), NoMemory>
    requires { IsAround (names_of scope.now) binders.old }
    ensures text { OnOk result
        (out.new ≡ spec.wrote_arguments (names_of scope.now) binders.old.around first.now out.old
        (term_trees arguments.now)) }
    ensures kept { OnOk result (Kept (names_of scope.now) binders.old binders.new) }
{
    let mut before = first;
    for argument in arguments {
        out.push_str(before)?;
        write(out, scope, binders, argument)?;
        before = ",";
    }
    Ok(())
}
