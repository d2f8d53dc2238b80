// The shape of a term, which rows and facts ask for.
ghost use Rattle.std.specs.Prelude.{[], Some, option_map, option_copied};
ghost use Rattle.sq_term.specs.Formulas as formula;
ghost use Rattle.sq_term.specs.Builtins.{builtin_kind};
ghost use Rattle.sq_term.specs.Symbols.{kind_of};
ghost use Rattle.sq_term.specs.Syntax.{fun};
ghost use Rattle.sq_term.specs.View.{term_tree, term_trees};
ghost use Rattle.sq_formula.specs.Shapes.{Reads};

use sq_base::Sort;
use sq_term::{Builtin, Idx, Term, Ts};

/// A term by its outermost connective, quantifier, equation or built-in function of messages.
/// `Other` is one that has none of these, and one that is not there.
#[derive(Clone, Copy)]
pub enum Shape<'a> {
    True,
    False,
    Not(&'a Term),
    And(&'a Term, &'a Term),
    Or(&'a Term, &'a Term),
    Implies(&'a Term, &'a Term),
    Equal(&'a Term, &'a Term),
    Conditional(&'a Term, &'a Term, &'a Term),
    Pair(&'a Term, &'a Term),
    First(&'a Term),
    Second(&'a Term),
    OfBool(&'a Term),
    EqualTimes(&'a Ts, &'a Ts),
    EqualIndices(Idx, Idx),
    Forall(Sort, &'a Term),
    Exists(Sort, &'a Term),
    Other,
}

#[tactic(auto, using(crate::proofs::ShapeParts::builtin_rules))]
fn constant_shape<'a>(function: Builtin) -> Shape<'a>
    ensures { Reads result (Some (formula.constant (builtin_kind function))) }
{
    match function {
        Builtin::True => Shape::True,
        Builtin::False => Shape::False,
        _ => Shape::Other,
    }
}

#[tactic(auto, using(crate::proofs::ShapeParts::builtin_rules))]
fn unary_shape(function: Builtin, a: &Term) -> Shape<'_>
    ensures { Reads result (Some (formula.unary (builtin_kind function) (term_tree a.now))) }
{
    match function {
        Builtin::Not => Shape::Not(a),
        Builtin::Fst => Shape::First(a),
        Builtin::Snd => Shape::Second(a),
        Builtin::OfBool => Shape::OfBool(a),
        _ => Shape::Other,
    }
}

#[tactic(auto, using(crate::proofs::ShapeParts::builtin_rules))]
fn binary_shape<'a>(function: Builtin, a: &'a Term, b: &'a Term) -> Shape<'a>
    ensures { Reads result
        (Some (formula.binary (builtin_kind function) (term_tree a.now) (term_tree b.now))) }
{
    match function {
        Builtin::And => Shape::And(a, b),
        Builtin::Or => Shape::Or(a, b),
        Builtin::Implies => Shape::Implies(a, b),
        Builtin::Eq => Shape::Equal(a, b),
        Builtin::Pair => Shape::Pair(a, b),
        _ => Shape::Other,
    }
}

#[tactic(auto, using(crate::proofs::ShapeParts::builtin_rules))]
fn ternary_shape<'a>(function: Builtin, a: &'a Term, b: &'a Term, c: &'a Term) -> Shape<'a>
    ensures { Reads result (Some (formula.ternary (builtin_kind function) (term_tree a.now)
        (term_tree b.now) (term_tree c.now))) }
{
    match function {
        Builtin::Ite => Shape::Conditional(a, b, c),
        _ => Shape::Other,
    }
}

#[tactic(auto, using(crate::proofs::ShapeParts::argument_rules))]
fn application_shape(function: Builtin, args: &[Term]) -> Shape<'_>
    ensures { Reads result
        (Some (fun (builtin_kind function) [] (term_trees args.now))) }
{
    match args {
        [] => constant_shape(function),
        [a] => unary_shape(function, a),
        [a, b] => binary_shape(function, a, b),
        [a, b, c] => ternary_shape(function, a, b, c),
        _ => Shape::Other,
    }
}

// An application without indices; one of a declared function has no shape.
#[tactic(auto, using(crate::proofs::ShapeParts::function_rules))]
fn function_shape(function: u32, args: &[Term]) -> Shape<'_>
    ensures { Reads result (Some (fun (kind_of function) [] (term_trees args.now))) }
{
    match Builtin::of(function) {
        Some(builtin) => application_shape(builtin, args),
        None => Shape::Other,
    }
}

#[tactic(auto, using(crate::proofs::ShapeParts::term_rules))]
fn term_shape(t: &Term) -> Shape<'_>
    ensures { Reads result (Some (term_tree t.now)) }
{
    match t {
        Term::Fun(f, indices, args) => {
            if indices.is_empty() {
                function_shape(*f, args.as_slice())
            } else {
                Shape::Other
            }
        }
        Term::TsEq(a, b) => Shape::EqualTimes(a, b),
        Term::IdxEq(i, j) => Shape::EqualIndices(*i, *j),
        Term::Forall(sort, body) => Shape::Forall(*sort, body.get()),
        Term::Exists(sort, body) => Shape::Exists(*sort, body.get()),
        Term::Name(_, _)
        | Term::Macro(_, _)
        | Term::Schema(_)
        | Term::Diff(_, _)
        | Term::Le(_, _)
        | Term::Happens(_)
        | Term::Find(_, _, _, _) => Shape::Other,
    }
}

/// The shape of a term that may not be there.
#[tactic(auto, using(crate::proofs::ShapeParts::nothing_rules))]
pub fn shape_of<'a>(t: Option<&'a Term>) -> Shape<'a>
    ensures { Reads result (option_map term_tree (option_copied t.entry)) }
{
    match t {
        Some(t) => term_shape(t),
        None => Shape::Other,
    }
}
