// The pieces of a term's text that hold no term: parentheses, indices, timestamps, names.
ghost use Rattle.std.specs.Prelude.{◌≡◌, ◌++◌, ◌&&◌, ◌-◌, [], ◌∷◌, OnOk, codes};
ghost use Rattle.sq_term.specs.Symbols.{kind_of};
ghost use Rattle.sq_term.specs.View.{ts_tree, term_trees};
ghost use Rattle.sq_print.specs.Names as names;
ghost use Rattle.sq_print.specs.Printed as printed;
ghost use Rattle.sq_print.specs.Written as spec;
ghost use Rattle.sq_print.specs.Scopes.{names_of};
ghost use Rattle.sq_print.specs.Supplies.{IsAround};

use crate::binders::Binders;
use crate::form::Form;
use crate::scope::{Scope, bound_name, text_at};
use sq_base::{NoMemory, Seq, Sort, Text};
use sq_term::{Idx, Layout, Macro, Term, Ts};

pub fn sort_text(sort: Sort) -> &'static str
    ensures { result.now ≡ printed.sort_text sort }
{
    match sort {
        Sort::Message => "message",
        Sort::Boolean => "boolean",
        Sort::Index => "index",
        Sort::Timestamp => "timestamp",
    }
}

pub fn macro_text(word: Macro) -> &'static str
    ensures { result.now ≡ printed.macro_text word }
{
    match word {
        Macro::Input => "input",
        Macro::Output => "output",
        Macro::Cond => "cond",
        Macro::Exec => "exec",
        Macro::Frame => "frame",
    }
}

/// Opens a parenthesis where a term of the second form needs one at a place of the first.
pub fn open(out: &mut Text, place: Form, own: Form) -> Result<(), NoMemory>
    ensures { OnOk result (out.new ≡ spec.opened place own out.old) }
{
    if own.fits(place) {
        return Ok(());
    }
    out.push_str("(")
}

/// Closes what `open` opened.
pub fn close(out: &mut Text, place: Form, own: Form) -> Result<(), NoMemory>
    ensures { OnOk result (out.new ≡ spec.closed place own out.old) }
{
    if own.fits(place) {
        return Ok(());
    }
    out.push_str(")")
}

/// Writes what stands before the k-th argument of a layout.
pub fn write_before(out: &mut Text, layout: Layout, k: usize) -> Result<(), NoMemory>
    ensures { OnOk result (out.new ≡ spec.wrote_before layout k out.old) }
{
    match layout {
        Layout::Word => Ok(()),
        Layout::Infix(_) if k == 0 => Ok(()),
        Layout::Infix(level) => {
            out.push_str(" ")?;
            out.push_str(level.sign())?;
            out.push_str(" ")
        }
        Layout::Pair => out.push_str(if k == 0 { "<" } else { "," }),
        Layout::Conditional => out.push_str(match k {
            0 => "if ",
            1 => " then ",
            _ => " else ",
        }),
    }
}

/// Closes a call, if it has arguments.
pub fn end_call(out: &mut Text, bare: bool) -> Result<(), NoMemory>
    ensures { OnOk result (out.new ≡ spec.ended bare out.old) }
{
    if bare {
        return Ok(());
    }
    out.push_str(")")
}

/// Writes an index.
pub fn write_index(
    out: &mut Text,
    scope: &Scope,
    around: &Seq<Text>,
    index: Idx,
) -> Result<(), NoMemory>
    ensures { OnOk result
        (out.new ≡ out.old ++ printed.idx_text (names_of scope.now) around.now index) }
{
    match index {
        Idx::Free(k) => out.push_str(text_at(scope.vars, k as usize)),
        Idx::Bound(k) => out.push_str(bound_name(around, k)),
    }
}

/// Writes an opening parenthesis and the indices, parted by commas, or nothing if there are none.
pub fn write_indices(
    out: &mut Text,
    scope: &Scope,
    around: &Seq<Text>,
    indices: &[Idx],
) -> Result<(), NoMemory>
    ensures { OnOk result
        (out.new ≡ spec.wrote_indices (names_of scope.now) around.now
        (codes "(") out.old indices.now) }
{
    let mut before = "(";
    for index in indices {
        out.push_str(before)?;
        write_index(out, scope, around, *index)?;
        before = ",";
    }
    Ok(())
}

/// What stands before the first argument of a function with these indices.
pub fn first_before(indices: &Seq<Idx>) -> &'static str
    ensures { result.now ≡ spec.first_before indices.now }
{
    if indices.is_empty() { "(" } else { "," }
}

/// Closes the call of a function, if it has indices or arguments.
pub fn end_function(out: &mut Text, indices: &Seq<Idx>, arguments: &[Term]) -> Result<(), NoMemory>
    ensures { OnOk result
        (out.new ≡ spec.ended
        (spec.is_none indices.now && spec.are_none (term_trees arguments.now)) out.old) }
{
    if !indices.is_empty() {
        return out.push_str(")");
    }
    if !arguments.is_empty() {
        return out.push_str(")");
    }
    Ok(())
}

/// Writes what follows the name of a symbol that takes indices alone.
pub fn write_call(
    out: &mut Text,
    scope: &Scope,
    around: &Seq<Text>,
    indices: &Seq<Idx>,
) -> Result<(), NoMemory>
    ensures { OnOk result
        (out.new ≡ spec.wrote_call (names_of scope.now) around.now out.old indices.now) }
{
    write_indices(out, scope, around, indices.as_slice())?;
    end_call(out, indices.is_empty())?;
    Ok(())
}

/// Writes a name with its indices.
pub fn write_name(
    out: &mut Text,
    scope: &Scope,
    around: &Seq<Text>,
    n: u32,
    indices: &Seq<Idx>,
) -> Result<(), NoMemory>
    ensures { OnOk result
        (out.new ≡ spec.wrote_call (names_of scope.now) around.now
        (out.old ++ names.name_word (names_of scope.now) n) indices.now) }
{
    out.push_str(scope.name(n))?;
    write_call(out, scope, around, indices)?;
    Ok(())
}

/// Writes the word of a function and its indices. The call stays open.
pub fn write_head(
    out: &mut Text,
    scope: &Scope,
    around: &Seq<Text>,
    f: u32,
    indices: &Seq<Idx>,
) -> Result<(), NoMemory>
    ensures { OnOk result
        (out.new ≡ spec.wrote_indices (names_of scope.now) around.now
        (codes "(") (out.old ++ names.function_word (names_of scope.now) (kind_of f)) indices.now) }
{
    out.push_str(scope.function(f))?;
    write_indices(out, scope, around, indices.as_slice())?;
    Ok(())
}

/// Writes a timestamp.
#[tactic(auto, using(crate::proofs::Rows::form_rules))]
pub fn write_ts(out: &mut Text, scope: &Scope, around: &Seq<Text>, t: &Ts) -> Result<(), NoMemory>
    ensures { OnOk result
        (out.new ≡ spec.wrote_ts (names_of scope.now) around.now out.old (ts_tree t.now)) }
{
    match t {
        Ts::Free(k) => out.push_str(text_at(scope.vars, *k as usize)),
        Ts::Bound(k) => out.push_str(bound_name(around, *k)),
        Ts::Init => out.push_str("init"),
        Ts::Pred(inner) => {
            out.push_str("pred(")?;
            write_ts(out, scope, around, inner.get())?;
            out.push_str(")")
        }
        Ts::Act(a, indices) => {
            out.push_str(scope.action(*a))?;
            write_call(out, scope, around, indices)
        }
    }
}

/// Writes two timestamps and what stands between them.
pub fn write_related(
    out: &mut Text,
    scope: &Scope,
    around: &Seq<Text>,
    left: &Ts,
    between: &str,
    right: &Ts,
) -> Result<(), NoMemory>
    ensures { OnOk result
        (out.new ≡ spec.wrote_ts (names_of scope.now) around.now
        (spec.wrote_ts (names_of scope.now) around.now out.old (ts_tree left.now) ++ between.now)
        (ts_tree right.now)) }
{
    write_ts(out, scope, around, left)?;
    out.push_str(between)?;
    write_ts(out, scope, around, right)?;
    Ok(())
}

/// Writes a macro at a timestamp.
pub fn write_macro(
    out: &mut Text,
    scope: &Scope,
    around: &Seq<Text>,
    word: Macro,
    at: &Ts,
) -> Result<(), NoMemory>
    ensures { OnOk result
        (out.new ≡ spec.wrote_ts (names_of scope.now) around.now
        ((out.old ++ printed.macro_text word) ++ codes "@") (ts_tree at.now)) }
{
    out.push_str(macro_text(word))?;
    out.push_str("@")?;
    write_ts(out, scope, around, at)?;
    Ok(())
}

/// Writes that a timestamp happens.
pub fn write_happens(
    out: &mut Text,
    scope: &Scope,
    around: &Seq<Text>,
    at: &Ts,
) -> Result<(), NoMemory>
    ensures { OnOk result
        (out.new ≡ spec.wrote_ts (names_of scope.now) around.now
        (out.old ++ codes "happens(") (ts_tree at.now) ++ codes ")") }
{
    out.push_str("happens(")?;
    write_ts(out, scope, around, at)?;
    out.push_str(")")?;
    Ok(())
}

/// Writes that two indices are equal.
pub fn write_same_indices(
    out: &mut Text,
    scope: &Scope,
    around: &Seq<Text>,
    i: Idx,
    j: Idx,
) -> Result<(), NoMemory>
    ensures { OnOk result
        (out.new ≡ ((out.old ++ printed.idx_text (names_of scope.now) around.now i) ++ codes " = ")
        ++ printed.idx_text (names_of scope.now) around.now j) }
{
    write_index(out, scope, around, i)?;
    out.push_str(" = ")?;
    write_index(out, scope, around, j)?;
    Ok(())
}

/// Writes names, parted by commas and spaces.
pub fn write_names(out: &mut Text, names: &[Text]) -> Result<(), NoMemory>
    ensures { OnOk result (out.new ≡ spec.wrote_names [] out.old names.now) }
{
    let mut before = "";
    for name in names {
        out.push_str(before)?;
        out.push_str(name.as_str())?;
        before = ", ";
    }
    Ok(())
}

/// Enters the binders of a find.
pub fn bind_indices(binders: &mut Binders, scope: &Scope, count: u32) -> Result<(), NoMemory>
    requires { IsAround (names_of scope.now) binders.old }
    ensures names { OnOk result
        (binders.new.around
        ≡ binders.old.around ++ names.bound_names (names_of scope.now) binders.old.around count) }
    ensures kept { OnOk result (IsAround (names_of scope.now) binders.new) }
{
    for turn in 0..count {
        binders.bind(scope, Sort::Index)?;
    }
    Ok(())
}

/// Enters the binder of a quantifier, and writes the word, the variable and its sort.
pub fn enter(
    out: &mut Text,
    scope: &Scope,
    binders: &mut Binders,
    word: &str,
    sort: Sort,
) -> Result<(), NoMemory>
    requires { IsAround (names_of scope.now) binders.old }
    ensures text { OnOk result
        (out.new ≡ spec.wrote_binder word.now
        (names.binder_name (names_of scope.now) binders.old.around sort) sort out.old) }
    ensures name { OnOk result
        (binders.new.around
        ≡ binders.old.around
        ++ names.binder_name (names_of scope.now) binders.old.around sort ∷ []) }
    ensures kept { OnOk result (IsAround (names_of scope.now) binders.new) }
{
    let depth = binders.around.len();
    binders.bind(scope, sort)?;
    out.push_str(word)?;
    out.push_str(" (")?;
    out.push_str(text_at(&binders.around, depth))?;
    out.push_str(":")?;
    out.push_str(sort_text(sort))?;
    out.push_str("), ")?;
    Ok(())
}

/// Enters the binders of a find, and writes them behind its word.
pub fn enter_find(
    out: &mut Text,
    scope: &Scope,
    binders: &mut Binders,
    count: u32,
) -> Result<(), NoMemory>
    requires { IsAround (names_of scope.now) binders.old }
    ensures text { OnOk result
        (out.new ≡ spec.wrote_names [] (out.old ++ codes "find ")
        (names.bound_names (names_of scope.now) binders.old.around count) ++ codes " such that ") }
    ensures names { OnOk result
        (binders.new.around
        ≡ binders.old.around ++ names.bound_names (names_of scope.now) binders.old.around count) }
    ensures kept { OnOk result (IsAround (names_of scope.now) binders.new) }
{
    let depth = binders.around.len();
    bind_indices(binders, scope, count)?;
    out.push_str("find ")?;
    let (_, entered) = binders.around.as_slice().split_at(depth);
    write_names(out, entered)?;
    out.push_str(" such that ")?;
    Ok(())
}
