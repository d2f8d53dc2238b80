// A tree by its outermost form.
ghost use Rattle.std.specs.Prelude.{◌≡◌};
ghost use Rattle.sq_ast.specs.View.{formula_tree};
ghost use Rattle.sq_resolve.specs.Shapes.{shape_tree};

use sq_ast::{Binary, Binders, Constant, Formula, MacroWord, Quantifier, Unary};
use sq_base::Text;

/// The outermost form of a tree, with its parts. Forms that differ in one word are one.
#[derive(Clone, Copy)]
pub enum Shape<'a> {
    Quantified(Quantifier, &'a [Binders], &'a Formula),
    Binary(Binary, &'a Formula, &'a Formula),
    Group(&'a Formula),
    Pair(&'a Formula, &'a Formula),
    Constant(Constant),
    Conditional(&'a Formula, &'a Formula, &'a Formula),
    Find(&'a [Text], &'a Formula, &'a Formula, &'a Formula),
    Diff(&'a Formula, &'a Formula),
    Unary(Unary, &'a Formula),
    Value(MacroWord, &'a Formula),
    Name(&'a Text),
    Apply(&'a Text, &'a [Formula]),
}

pub fn shape_of(f: &Formula) -> Shape<'_>
    ensures { shape_tree result ≡ formula_tree f.now }
{
    match f {
        Formula::Forall(groups, a) => Shape::Quantified(
            Quantifier::Forall,
            groups.as_slice(),
            a.get(),
        ),
        Formula::Exists(groups, a) => Shape::Quantified(
            Quantifier::Exists,
            groups.as_slice(),
            a.get(),
        ),
        Formula::Implies(a, b) => Shape::Binary(Binary::Implies, a.get(), b.get()),
        Formula::Or(a, b) => Shape::Binary(Binary::Or, a.get(), b.get()),
        Formula::And(a, b) => Shape::Binary(Binary::And, a.get(), b.get()),
        Formula::Equal(a, b) => Shape::Binary(Binary::Equal, a.get(), b.get()),
        Formula::NotEqual(a, b) => Shape::Binary(Binary::NotEqual, a.get(), b.get()),
        Formula::LessEqual(a, b) => Shape::Binary(Binary::LessEqual, a.get(), b.get()),
        Formula::Less(a, b) => Shape::Binary(Binary::Less, a.get(), b.get()),
        Formula::Group(a) => Shape::Group(a.get()),
        Formula::Pair(a, b) => Shape::Pair(a.get(), b.get()),
        Formula::True => Shape::Constant(Constant::True),
        Formula::False => Shape::Constant(Constant::False),
        Formula::Empty => Shape::Constant(Constant::Empty),
        Formula::Init => Shape::Constant(Constant::Init),
        Formula::If(a, b, c) => Shape::Conditional(a.get(), b.get(), c.get()),
        Formula::Find(names, a, b, c) => Shape::Find(names.as_slice(), a.get(), b.get(), c.get()),
        Formula::Diff(a, b) => Shape::Diff(a.get(), b.get()),
        Formula::Not(a) => Shape::Unary(Unary::Not, a.get()),
        Formula::Fst(a) => Shape::Unary(Unary::Fst, a.get()),
        Formula::Snd(a) => Shape::Unary(Unary::Snd, a.get()),
        Formula::OfBool(a) => Shape::Unary(Unary::OfBool, a.get()),
        Formula::Happens(a) => Shape::Unary(Unary::Happens, a.get()),
        Formula::Pred(a) => Shape::Unary(Unary::Pred, a.get()),
        Formula::Input(a) => Shape::Value(MacroWord::Input, a.get()),
        Formula::Output(a) => Shape::Value(MacroWord::Output, a.get()),
        Formula::Cond(a) => Shape::Value(MacroWord::Cond, a.get()),
        Formula::Exec(a) => Shape::Value(MacroWord::Exec, a.get()),
        Formula::Frame(a) => Shape::Value(MacroWord::Frame, a.get()),
        Formula::Apply(name, None) => Shape::Name(name),
        Formula::Apply(name, Some(args)) => Shape::Apply(name, args.as_slice()),
    }
}
