// The lines of a goal's block.
ghost use Rattle.std.specs.Prelude.{◌≡◌, ◌++◌, [], map, OnOk};
ghost use Rattle.sq_term.specs.View.{term_tree};
ghost use Rattle.sq_system.specs.Sequents.{item_of, sequent_tree};
ghost use Rattle.sq_print.specs.Printed.{term_text};
ghost use Rattle.sq_print.specs.GoalTexts as goals;
ghost use Rattle.sq_print.specs.WrittenGoals as spec;
ghost use Rattle.sq_print.specs.WrittenGoals.{StandsAlone};
ghost use Rattle.sq_print.specs.Scopes.{names_of};

use crate::binders::{Binders, number_text};
use crate::pieces::sort_text;
use crate::scope::{Scope, text_at};
use crate::writer::write;
use sq_base::{NoMemory, Seq, Sort, Text};
use sq_system::{Both, Sequent};
use sq_term::{Side, Term, same};
use std::alloc::Global;

/// The words for a sequent's kind.
pub fn kind_text(sequent: &Sequent) -> &'static str
    ensures { result.now ≡ goals.kind_text (sequent_tree sequent.now) }
{
    match sequent {
        Sequent::Trace { .. } => "trace",
        Sequent::Local { side, .. } => match side {
            Side::Left => "local left",
            Side::Right => "local right",
            Side::Both => "local",
        },
        Sequent::Equiv { .. } => "equiv",
    }
}

/// Writes a term that stands below no binder.
pub fn write_whole(
    out: &mut Text,
    scope: &Scope,
    binders: &mut Binders,
    t: &Term,
) -> Result<(), NoMemory>
    requires { StandsAlone (names_of scope.now) binders.old }
    ensures text { OnOk result
        (out.new ≡ out.old ++ term_text (names_of scope.now) [] (term_tree t.now)) }
    ensures kept { OnOk result (StandsAlone (names_of scope.now) binders.new) }
{
    write(out, scope, binders, t)?;
    Ok(())
}

fn write_variable(out: &mut Text, names: &Seq<Text>, k: usize, sort: Sort) -> Result<(), NoMemory>
    ensures { OnOk result (out.new ≡ spec.wrote_variable names.now k sort out.old) }
{
    out.push_str(text_at(names, k))?;
    out.push_str(":")?;
    out.push_str(sort_text(sort))?;
    Ok(())
}

fn write_sorts(out: &mut Text, names: &Seq<Text>, sorts: &[Sort]) -> Result<(), NoMemory>
    ensures { OnOk result (out.new ≡ spec.wrote_sorts names.now 0 [] out.old sorts.now) }
{
    let mut before = "";
    for (k, sort) in sorts.iter().enumerate() {
        out.push_str(before)?;
        write_variable(out, names, k, *sort)?;
        before = ", ";
    }
    Ok(())
}

/// Writes the line of the variables, if there are some.
pub fn write_variables(out: &mut Text, names: &Seq<Text>, sorts: &Seq<Sort>) -> Result<(), NoMemory>
    ensures { OnOk result (out.new ≡ spec.wrote_variables names.now out.old sorts.now) }
{
    if sorts.is_empty() {
        return Ok(());
    }
    write_sorts(out, names, sorts.as_slice())?;
    out.push_str("\n")?;
    Ok(())
}

fn write_hypothesis(
    out: &mut Text,
    scope: &Scope,
    binders: &mut Binders,
    label: &str,
    hypothesis: &Term,
) -> Result<(), NoMemory>
    requires { StandsAlone (names_of scope.now) binders.old }
    ensures text { OnOk result
        (out.new ≡ spec.wrote_hypothesis (names_of scope.now) label.now
        (term_tree hypothesis.now) out.old) }
    ensures kept { OnOk result (StandsAlone (names_of scope.now) binders.new) }
{
    out.push_str(label)?;
    out.push_str(" : ")?;
    write_whole(out, scope, binders, hypothesis)?;
    out.push_str("\n")?;
    Ok(())
}

/// Writes a line for each hypothesis.
pub fn write_hypotheses(
    out: &mut Text,
    scope: &Scope,
    binders: &mut Binders,
    labels: &Seq<Text>,
    hypotheses: &[Term],
) -> Result<(), NoMemory>
    requires { StandsAlone (names_of scope.now) binders.old }
    ensures text { OnOk result
        (out.new ≡ spec.wrote_hypotheses (names_of scope.now) labels.now 0 out.old
        (map term_tree hypotheses.now)) }
    ensures kept { OnOk result (StandsAlone (names_of scope.now) binders.new) }
{
    for (k, hypothesis) in hypotheses.iter().enumerate() {
        write_hypothesis(out, scope, binders, text_at(labels, k), hypothesis)?;
    }
    Ok(())
}

/// Writes an item: one term where its sides are the same, and both otherwise.
fn write_item(
    out: &mut Text,
    scope: &Scope,
    binders: &mut Binders,
    item: &Both,
) -> Result<(), NoMemory>
    requires { StandsAlone (names_of scope.now) binders.old }
    ensures text { OnOk result
        (out.new ≡ spec.wrote_item (names_of scope.now) out.old (item_of item.now)) }
    ensures kept { OnOk result (StandsAlone (names_of scope.now) binders.new) }
{
    if same(&item.left, &item.right) {
        write_whole(out, scope, binders, &item.left)?;
        return Ok(());
    }
    out.push_str("diff(")?;
    write_whole(out, scope, binders, &item.left)?;
    out.push_str(",")?;
    write_whole(out, scope, binders, &item.right)?;
    out.push_str(")")?;
    Ok(())
}

fn write_list(
    out: &mut Text,
    scope: &Scope,
    binders: &mut Binders,
    items: &[Both],
) -> Result<(), NoMemory>
    requires { StandsAlone (names_of scope.now) binders.old }
    ensures text { OnOk result
        (out.new ≡ spec.wrote_list (names_of scope.now) [] out.old (map item_of items.now)) }
    ensures kept { OnOk result (StandsAlone (names_of scope.now) binders.new) }
{
    let mut before = "";
    for item in items {
        out.push_str(before)?;
        write_item(out, scope, binders, item)?;
        before = ", ";
    }
    Ok(())
}

fn write_known_line(
    out: &mut Text,
    scope: &Scope,
    binders: &mut Binders,
    label: &str,
    items: &[Both],
) -> Result<(), NoMemory>
    requires { StandsAlone (names_of scope.now) binders.old }
    ensures text { OnOk result
        (out.new ≡ spec.wrote_known_line (names_of scope.now) label.now
        (map item_of items.now) out.old) }
    ensures kept { OnOk result (StandsAlone (names_of scope.now) binders.new) }
{
    out.push_str(label)?;
    out.push_str(" ~ ")?;
    write_list(out, scope, binders, items)?;
    out.push_str("\n")?;
    Ok(())
}

/// Writes a line for each known list.
pub fn write_known(
    out: &mut Text,
    scope: &Scope,
    binders: &mut Binders,
    labels: &Seq<Text>,
    known: &[Seq<Both>],
) -> Result<(), NoMemory>
    requires { StandsAlone (names_of scope.now) binders.old }
    ensures text { OnOk result
        (out.new ≡ spec.wrote_known (names_of scope.now) labels.now 0 out.old
        (map (map item_of) known.now)) }
    ensures kept { OnOk result (StandsAlone (names_of scope.now) binders.new) }
{
    for (k, items) in known.iter().enumerate() {
        write_known_line(out, scope, binders, text_at(labels, k), items.as_slice())?;
    }
    Ok(())
}

fn write_item_line(
    alloc: Global,
    out: &mut Text,
    scope: &Scope,
    binders: &mut Binders,
    k: usize,
    item: &Both,
) -> Result<(), NoMemory>
    requires { StandsAlone (names_of scope.now) binders.old }
    ensures text { OnOk result
        (out.new ≡ spec.wrote_item_line (names_of scope.now) k (item_of item.now) out.old) }
    ensures kept { OnOk result (StandsAlone (names_of scope.now) binders.new) }
{
    let number = number_text(alloc, k)?;
    out.push_str(number.as_str())?;
    out.push_str(": ")?;
    write_item(out, scope, binders, item)?;
    out.push_str("\n")?;
    Ok(())
}

/// Writes a line for each item.
pub fn write_items(
    alloc: Global,
    out: &mut Text,
    scope: &Scope,
    binders: &mut Binders,
    items: &[Both],
) -> Result<(), NoMemory>
    requires { StandsAlone (names_of scope.now) binders.old }
    ensures text { OnOk result
        (out.new ≡ spec.wrote_items (names_of scope.now) 0 out.old (map item_of items.now)) }
    ensures kept { OnOk result (StandsAlone (names_of scope.now) binders.new) }
{
    for (k, item) in items.iter().enumerate() {
        write_item_line(alloc, out, scope, binders, k, item)?;
    }
    Ok(())
}
