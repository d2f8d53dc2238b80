// The walk over a tree: the term of each place, or the fault of the first place in it that has one.
// A node takes the walk of its parts as a parameter, so that each form is proved by itself.
ghost use Rattle.std.specs.Prelude.{◌≡◌, ◌≤◌, ◌<◌, ◌++◌, OnOk, length};
ghost use Rattle.sq_ast.specs.Deep.{height, heights};
ghost use Rattle.sq_ast.specs.Tree as tree;
ghost use Rattle.sq_ast.specs.View.{formula_tree, formula_trees};
ghost use Rattle.sq_term.specs.Syntax as t;
ghost use Rattle.sq_resolve.specs.Below.{WalksBelow};
ghost use Rattle.sq_resolve.specs.Built.{Builds, BuildsRow};
ghost use Rattle.sq_resolve.specs.Heads.{context_of};
ghost use Rattle.sq_resolve.specs.Shapes.{shape_tree};
ghost use Rattle.sq_resolve.specs.Resolved as spec;
ghost use Rattle.sq_resolve.specs.Resolved.{both, three, mapped, term_of, terms_of, with_binders};
ghost use Rattle.sq_resolve.specs.Resolved.{variables, group_variables, equation, application};
ghost use Rattle.sq_resolve.specs.Resolved.{function_term, arguments_of};
ghost use Rattle.sq_term.specs.Builtins.{builtin_kind};
ghost use Rattle.sq_term.specs.Formulas as formula;
ghost use Rattle.sq_term.specs.Symbols.{kind_of};

use crate::built::{call, call_one, call_three, call_two, difference, found, measured, quantify};
use crate::fault::ResolveFault;
use crate::head::Resolver;
use crate::judge::{Value, number, own_sort, value_head};
use crate::leaves::{
    constant, expect, happens, indices_equal, less, less_equal, macro_at, times_equal,
};
use crate::names::{bind_no_message, push_groups, push_names};
use crate::row::{longer_row, no_row};
use crate::shape::{Shape, shape_of};
use crate::sized::{Built, Row};
use crate::times::indices;
use sq_ast::{Binary, Binders, Formula, Quantifier, Unary};
use sq_base::{Seq, Sort, Text};
use sq_term::{Builtin, Term};

/// The variables of the binders around a place, the outermost first.
pub type Around = Seq<(Text, Sort)>;

/// A built-in function, the sort of its result, and the sort of its arguments.
#[derive(Clone, Copy)]
pub struct Call {
    pub function: Builtin,
    pub own: Sort,
    pub part: Sort,
}

fn connective(function: Builtin) -> Call
    ensures function { result.function ≡ function }
    ensures own { result.own ≡ Sort.Boolean }
    ensures part { result.part ≡ Sort.Boolean }
{
    Call {
        function,
        own: Sort::Boolean,
        part: Sort::Boolean,
    }
}

fn of_messages(function: Builtin, own: Sort) -> Call
    ensures function { result.function ≡ function }
    ensures own { result.own ≡ own }
    ensures part { result.part ≡ Sort.Message }
{
    Call {
        function,
        own,
        part: Sort::Message,
    }
}

fn of_boolean() -> Call
    ensures function { result.function ≡ Builtin.OfBool }
    ensures own { result.own ≡ Sort.Message }
    ensures part { result.part ≡ Sort.Boolean }
{
    Call {
        function: Builtin::OfBool,
        own: Sort::Message,
        part: Sort::Boolean,
    }
}

/// What a tree stands for where `want` is wanted.
#[cycle(walk)]
pub fn resolve_term(
    r: &Resolver<'_>,
    around: &mut Around,
    want: Sort,
    f: &Formula,
) -> Result<Built, ResolveFault>
    ensures builds { Builds result
        (term_of (context_of r.now) around.old want (formula_tree f.now)) }
    ensures kept { OnOk result (around.new ≡ around.old) }
{
    // Both are lent again, since the node lives shorter than they do.
    Node {
        resolver: &*r,
        whole: &*f,
        walk: resolve_term,
    }
    .resolve(around, want)
}

/// A tree, and the walk of its parts. It is called at trees lower than the whole one alone.
#[derive(Clone, Copy)]
pub struct Node<'a, F> {
    pub resolver: &'a Resolver<'a>,
    pub whole: &'a Formula,
    pub walk: F,
}

impl<F: Fn(&Resolver<'_>, &mut Around, Sort, &Formula) -> Result<Built, ResolveFault>> Node<'_, F> {
    fn part(&self, around: &mut Around, want: Sort, f: &Formula) -> Result<Built, ResolveFault>
        requires walks { WalksBelow (height (formula_tree self.now.whole.now)) (F.pre self.now.walk)
            (F.post self.now.walk) }
        requires lower { height (formula_tree f.now) < height (formula_tree self.now.whole.now) }
        ensures builds { Builds result
            (term_of (context_of self.now.resolver.now) around.old want (formula_tree f.now)) }
        ensures kept { OnOk result (around.new ≡ around.old) }
    {
        (self.walk)(self.resolver, around, want, f)
    }

    fn resolve(&self, around: &mut Around, want: Sort) -> Result<Built, ResolveFault>
        requires { WalksBelow (height (formula_tree self.now.whole.now)) (F.pre self.now.walk)
            (F.post self.now.walk) }
        ensures builds { Builds result
            (term_of (context_of self.now.resolver.now) around.old want
            (formula_tree self.now.whole.now)) }
        ensures kept { OnOk result (around.new ≡ around.old) }
    {
        self.form(around, want, shape_of(self.whole))
    }

    fn form(&self, around: &mut Around, want: Sort, shape: Shape<'_>) -> Result<Built, ResolveFault>
        requires walks { WalksBelow (height (formula_tree self.now.whole.now)) (F.pre self.now.walk)
            (F.post self.now.walk) }
        requires lower { height (shape_tree shape) ≤ height (formula_tree self.now.whole.now) }
        ensures builds { Builds result
            (term_of (context_of self.now.resolver.now) around.old want (shape_tree shape.entry)) }
        ensures kept { OnOk result (around.new ≡ around.old) }
    {
        match shape {
            Shape::Quantified(q, groups, a) => self.quantified(around, want, q, groups, a),
            Shape::Binary(o, a, b) => self.binary(around, want, o, a, b),
            Shape::Group(a) => self.part(around, want, a),
            Shape::Pair(a, b) => self.with_two(
                around,
                want,
                of_messages(Builtin::Pair, Sort::Message),
                a,
                b,
            ),
            Shape::Constant(k) => constant(self.resolver, want, k),
            Shape::Conditional(a, b, c) => self.conditional(around, want, a, b, c),
            Shape::Find(names, a, b, c) => self.search(around, want, names, a, b, c),
            Shape::Diff(a, b) => self.sides(around, want, a, b),
            Shape::Unary(u, a) => self.unary(around, want, u, a),
            Shape::Value(word, a) => macro_at(self.resolver, around.as_slice(), want, word, a),
            Shape::Name(name) => self.applied(around, want, name, &[]),
            Shape::Apply(name, args) => self.applied(around, want, name, args),
        }
    }

    fn binary(
        &self,
        around: &mut Around,
        want: Sort,
        o: Binary,
        a: &Formula,
        b: &Formula,
    ) -> Result<Built, ResolveFault>
        requires walks { WalksBelow (height (formula_tree self.now.whole.now)) (F.pre self.now.walk)
            (F.post self.now.walk) }
        requires left { height (formula_tree a.now) < height (formula_tree self.now.whole.now) }
        requires right { height (formula_tree b.now) < height (formula_tree self.now.whole.now) }
        ensures builds { Builds result
            (term_of (context_of self.now.resolver.now) around.old want
            (tree.binary o (formula_tree a.now) (formula_tree b.now))) }
        ensures kept { OnOk result (around.new ≡ around.old) }
    {
        match o {
            Binary::Implies => self.with_two(around, want, connective(Builtin::Implies), a, b),
            Binary::Or => self.with_two(around, want, connective(Builtin::Or), a, b),
            Binary::And => self.with_two(around, want, connective(Builtin::And), a, b),
            Binary::Equal => self.equal(around, want, a, b),
            Binary::NotEqual => self.unequal(around, want, a, b),
            Binary::LessEqual => less_equal(self.resolver, around.as_slice(), want, a, b),
            Binary::Less => less(self.resolver, around.as_slice(), want, a, b),
        }
    }

    fn unary(
        &self,
        around: &mut Around,
        want: Sort,
        u: Unary,
        a: &Formula,
    ) -> Result<Built, ResolveFault>
        requires walks { WalksBelow (height (formula_tree self.now.whole.now)) (F.pre self.now.walk)
            (F.post self.now.walk) }
        requires lower { height (formula_tree a.now) < height (formula_tree self.now.whole.now) }
        ensures builds { Builds result
            (term_of (context_of self.now.resolver.now) around.old want
            (tree.unary u (formula_tree a.now))) }
        ensures kept { OnOk result (around.new ≡ around.old) }
    {
        match u {
            Unary::Not => self.with_one(around, want, connective(Builtin::Not), a),
            Unary::Fst => self.with_one(around, want, of_messages(Builtin::Fst, Sort::Message), a),
            Unary::Snd => self.with_one(around, want, of_messages(Builtin::Snd, Sort::Message), a),
            Unary::OfBool => self.with_one(around, want, of_boolean(), a),
            Unary::Happens => happens(self.resolver, around.as_slice(), want, a),
            Unary::Pred => Err(ResolveFault::SortClash(want, Sort::Timestamp)),
        }
    }

    fn with_one(
        &self,
        around: &mut Around,
        want: Sort,
        call: Call,
        a: &Formula,
    ) -> Result<Built, ResolveFault>
        requires walks { WalksBelow (height (formula_tree self.now.whole.now)) (F.pre self.now.walk)
            (F.post self.now.walk) }
        requires lower { height (formula_tree a.now) < height (formula_tree self.now.whole.now) }
        ensures builds { Builds result
            (spec.expect want call.own
            (mapped (formula.unary (builtin_kind call.function))
            (term_of (context_of self.now.resolver.now) around.old call.part
            (formula_tree a.now)))) }
        ensures kept { OnOk result (around.new ≡ around.old) }
    {
        expect(want, call.own)?;
        let a = self.part(around, call.part, a)?;
        Ok(call_one(self.resolver.alloc, call.function, a)?)
    }

    fn with_two(
        &self,
        around: &mut Around,
        want: Sort,
        call: Call,
        a: &Formula,
        b: &Formula,
    ) -> Result<Built, ResolveFault>
        requires walks { WalksBelow (height (formula_tree self.now.whole.now)) (F.pre self.now.walk)
            (F.post self.now.walk) }
        requires left { height (formula_tree a.now) < height (formula_tree self.now.whole.now) }
        requires right { height (formula_tree b.now) < height (formula_tree self.now.whole.now) }
        ensures builds { Builds result
            (spec.expect want call.own (both (formula.binary (builtin_kind call.function))
            (term_of (context_of self.now.resolver.now) around.old call.part (formula_tree a.now))
            (term_of (context_of self.now.resolver.now) around.old call.part
            (formula_tree b.now)))) }
        ensures kept { OnOk result (around.new ≡ around.old) }
    {
        expect(want, call.own)?;
        let a = self.part(around, call.part, a)?;
        let b = self.part(around, call.part, b)?;
        Ok(call_two(self.resolver.alloc, call.function, a, b)?)
    }

    fn equal(
        &self,
        around: &mut Around,
        want: Sort,
        a: &Formula,
        b: &Formula,
    ) -> Result<Built, ResolveFault>
        requires walks { WalksBelow (height (formula_tree self.now.whole.now)) (F.pre self.now.walk)
            (F.post self.now.walk) }
        requires left { height (formula_tree a.now) < height (formula_tree self.now.whole.now) }
        requires right { height (formula_tree b.now) < height (formula_tree self.now.whole.now) }
        ensures builds { Builds result
            (equation (context_of self.now.resolver.now) around.old want (formula_tree a.now)
            (formula_tree b.now)) }
        ensures kept { OnOk result (around.new ≡ around.old) }
    {
        match own_sort(self.resolver, around.as_slice(), a) {
            Sort::Index => indices_equal(self.resolver, around.as_slice(), want, a, b),
            Sort::Timestamp => times_equal(self.resolver, around.as_slice(), want, a, b),
            Sort::Message | Sort::Boolean => self.with_two(
                around,
                want,
                of_messages(Builtin::Eq, Sort::Boolean),
                a,
                b,
            ),
        }
    }

    fn unequal(
        &self,
        around: &mut Around,
        want: Sort,
        a: &Formula,
        b: &Formula,
    ) -> Result<Built, ResolveFault>
        requires walks { WalksBelow (height (formula_tree self.now.whole.now)) (F.pre self.now.walk)
            (F.post self.now.walk) }
        requires left { height (formula_tree a.now) < height (formula_tree self.now.whole.now) }
        requires right { height (formula_tree b.now) < height (formula_tree self.now.whole.now) }
        ensures builds { Builds result
            (mapped formula.negation
            (equation (context_of self.now.resolver.now) around.old want (formula_tree a.now)
            (formula_tree b.now))) }
        ensures kept { OnOk result (around.new ≡ around.old) }
    {
        let whole = self.equal(around, want, a, b)?;
        Ok(call_one(self.resolver.alloc, Builtin::Not, whole)?)
    }

    fn sides(
        &self,
        around: &mut Around,
        want: Sort,
        a: &Formula,
        b: &Formula,
    ) -> Result<Built, ResolveFault>
        requires walks { WalksBelow (height (formula_tree self.now.whole.now)) (F.pre self.now.walk)
            (F.post self.now.walk) }
        requires left { height (formula_tree a.now) < height (formula_tree self.now.whole.now) }
        requires right { height (formula_tree b.now) < height (formula_tree self.now.whole.now) }
        ensures builds { Builds result
            (both t.diff
            (term_of (context_of self.now.resolver.now) around.old want (formula_tree a.now))
            (term_of (context_of self.now.resolver.now) around.old want (formula_tree b.now))) }
        ensures kept { OnOk result (around.new ≡ around.old) }
    {
        let a = self.part(around, want, a)?;
        let b = self.part(around, want, b)?;
        Ok(difference(self.resolver.alloc, a, b)?)
    }

    fn conditional(
        &self,
        around: &mut Around,
        want: Sort,
        a: &Formula,
        b: &Formula,
        c: &Formula,
    ) -> Result<Built, ResolveFault>
        requires walks { WalksBelow (height (formula_tree self.now.whole.now)) (F.pre self.now.walk)
            (F.post self.now.walk) }
        requires test { height (formula_tree a.now) < height (formula_tree self.now.whole.now) }
        requires then { height (formula_tree b.now) < height (formula_tree self.now.whole.now) }
        requires other { height (formula_tree c.now) < height (formula_tree self.now.whole.now) }
        ensures builds { Builds result (spec.expect want Sort.Message (three formula.conditional
            (term_of (context_of self.now.resolver.now) around.old Sort.Boolean
            (formula_tree a.now))
            (term_of (context_of self.now.resolver.now) around.old Sort.Message
            (formula_tree b.now))
            (term_of (context_of self.now.resolver.now) around.old Sort.Message
            (formula_tree c.now)))) }
        ensures kept { OnOk result (around.new ≡ around.old) }
    {
        expect(want, Sort::Message)?;
        let test = self.part(around, Sort::Boolean, a)?;
        let then = self.part(around, Sort::Message, b)?;
        let other = self.part(around, Sort::Message, c)?;
        Ok(call_three(self.resolver.alloc, Builtin::Ite, test, then, other)?)
    }

    fn search(
        &self,
        around: &mut Around,
        want: Sort,
        names: &[Text],
        a: &Formula,
        b: &Formula,
        c: &Formula,
    ) -> Result<Built, ResolveFault>
        requires walks { WalksBelow (height (formula_tree self.now.whole.now)) (F.pre self.now.walk)
            (F.post self.now.walk) }
        requires test { height (formula_tree a.now) < height (formula_tree self.now.whole.now) }
        requires then { height (formula_tree b.now) < height (formula_tree self.now.whole.now) }
        requires other { height (formula_tree c.now) < height (formula_tree self.now.whole.now) }
        ensures builds { Builds result
            (spec.expect want Sort.Message (three (t.find (length names.now))
            (term_of (context_of self.now.resolver.now)
            (around.old ++ group_variables Sort.Index names.now) Sort.Boolean (formula_tree a.now))
            (term_of (context_of self.now.resolver.now)
            (around.old ++ group_variables Sort.Index names.now) Sort.Message (formula_tree b.now))
            (term_of (context_of self.now.resolver.now) around.old Sort.Message
            (formula_tree c.now)))) }
        ensures kept { OnOk result (around.new ≡ around.old) }
    {
        expect(want, Sort::Message)?;
        let outer = around.len();
        push_names(self.resolver.alloc, around, names, Sort::Index)?;
        let test = self.part(around, Sort::Boolean, a)?;
        let then = self.part(around, Sort::Message, b)?;
        around.truncate(outer);
        let other = self.part(around, Sort::Message, c)?;
        let count = number(names.len())?;
        Ok(found(self.resolver.alloc, count, test, then, other)?)
    }

    fn quantified(
        &self,
        around: &mut Around,
        want: Sort,
        q: Quantifier,
        groups: &[Binders],
        a: &Formula,
    ) -> Result<Built, ResolveFault>
        requires walks { WalksBelow (height (formula_tree self.now.whole.now)) (F.pre self.now.walk)
            (F.post self.now.walk) }
        requires lower { height (formula_tree a.now) < height (formula_tree self.now.whole.now) }
        ensures builds { Builds result
            (spec.expect want Sort.Boolean
            (with_binders groups.now (mapped (spec.quantify q (variables groups.now))
            (term_of (context_of self.now.resolver.now)
            (around.old ++ variables groups.now) Sort.Boolean (formula_tree a.now))))) }
        ensures kept { OnOk result (around.new ≡ around.old) }
    {
        expect(want, Sort::Boolean)?;
        if !bind_no_message(groups) {
            return Err(ResolveFault::MessageQuantifier);
        }
        let outer = around.len();
        push_groups(self.resolver.alloc, around, groups)?;
        let inner = self.part(around, Sort::Boolean, a)?;
        let (_, own) = around.as_slice().split_at(outer);
        let built = quantify(self.resolver.alloc, q, own, inner)?;
        around.truncate(outer);
        Ok(built)
    }

    #[tactic(auto, using(sq_term::proofs::Views::tree_rules))]
    fn applied(
        &self,
        around: &mut Around,
        want: Sort,
        name: &Text,
        args: &[Formula],
    ) -> Result<Built, ResolveFault>
        requires walks { WalksBelow (height (formula_tree self.now.whole.now)) (F.pre self.now.walk)
            (F.post self.now.walk) }
        requires lower { heights (formula_trees args.now) < height
            (formula_tree self.now.whole.now) }
        ensures builds { Builds result
            (application (context_of self.now.resolver.now) around.old want name.now
            (length args.now) (formula_trees args.now)) }
        ensures kept { OnOk result (around.new ≡ around.old) }
    {
        match value_head(self.resolver, around.as_slice(), want, name, args.len())? {
            Value::Schema(k) => Ok(measured(Term::Schema(k))),
            Value::Name(n) => {
                let is = indices(self.resolver, around.as_slice(), args)?;
                Ok(measured(Term::Name(n, is)))
            }
            Value::Function(f, count) => self.function_call(around, f, count, args),
        }
    }

    #[tactic(auto, using(crate::proofs::Rows::arguments_split, crate::proofs::Rows::heights_of))]
    fn function_call(
        &self,
        around: &mut Around,
        f: u32,
        count: u32,
        args: &[Formula],
    ) -> Result<Built, ResolveFault>
        requires walks { WalksBelow (height (formula_tree self.now.whole.now)) (F.pre self.now.walk)
            (F.post self.now.walk) }
        requires lower { heights (formula_trees args.now) < height
            (formula_tree self.now.whole.now) }
        ensures builds { Builds result
            (mapped (function_term (kind_of f))
            (arguments_of (context_of self.now.resolver.now) around.old count
            (formula_trees args.now))) }
        ensures kept { OnOk result (around.new ≡ around.old) }
    {
        let (front, back) = args.split_at(args.len().min(count as usize));
        let is = indices(self.resolver, around.as_slice(), front)?;
        let row = self.terms(around, back)?;
        Ok(call(f, is, row))
    }

    fn terms(&self, around: &mut Around, args: &[Formula]) -> Result<Row, ResolveFault>
        requires walks { WalksBelow (height (formula_tree self.now.whole.now)) (F.pre self.now.walk)
            (F.post self.now.walk) }
        requires lower { heights (formula_trees args.now) < height
            (formula_tree self.now.whole.now) }
        ensures builds { BuildsRow result
            (terms_of (context_of self.now.resolver.now) around.old (formula_trees args.now)) }
        ensures kept { OnOk result (around.new ≡ around.old) }
    {
        let mut row = no_row(self.resolver.alloc);
        for arg in args {
            let term = self.part(around, Sort::Message, arg)?;
            row = longer_row(row, term)?;
        }
        Ok(row)
    }
}
