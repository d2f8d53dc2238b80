ghost use Rattle.std.specs.Prelude.{◌≡◌, ◌≢◌, IfOk, Some};
ghost use Rattle.sq_ast.specs.Tree as tree;
ghost use Rattle.sq_ast.specs.View.{formula_tree, formula_trees};

use sq_base::{NoMemory, Seq, Sort, Text};
use sqlite_items::{Boxed, Items};
use std::alloc::Global;

/// A form of the grammar that has formulas as its trees.
#[derive(Clone, Copy, Debug, PartialEq, Eq, Hash)]
pub enum Form {
    Time,
    Term,
    Atom,
    Conj,
    Disj,
    Formula,
}

/// Which quantifier.
#[derive(Clone, Copy, Debug, PartialEq, Eq, Hash)]
pub enum Quantifier {
    Forall,
    Exists,
}

/// What stands between two operands.
#[derive(Clone, Copy, Debug, PartialEq, Eq, Hash)]
pub enum Binary {
    Implies,
    Or,
    And,
    Equal,
    NotEqual,
    LessEqual,
    Less,
}

/// A reserved word that is a term by itself.
#[derive(Clone, Copy, Debug, PartialEq, Eq, Hash)]
pub enum Constant {
    True,
    False,
    Empty,
    Init,
}

/// A reserved word with one argument in parentheses.
#[derive(Clone, Copy, Debug, PartialEq, Eq, Hash)]
pub enum Unary {
    Not,
    Fst,
    Snd,
    OfBool,
    Happens,
    Pred,
}

/// The word of a macro, the value of a protocol at a timestamp.
#[derive(Clone, Copy, Debug, PartialEq, Eq, Hash)]
pub enum MacroWord {
    Input,
    Output,
    Cond,
    Exec,
    Frame,
}

/// A group of binders, as `i, j : index`: the names and their sort.
pub type Binders = (Seq<Text>, Sort);

/// A formula, a term or a timestamp as it is written. There is one variant for each alternative
/// of the grammar, and its fields are the parts of the alternative, in order.
#[derive(Debug, Drop)]
pub enum Formula {
    /// `forall (binders), formula`
    Forall(Seq<Binders>, Boxed<Formula>),
    /// `exists (binders), formula`
    Exists(Seq<Binders>, Boxed<Formula>),
    /// `disj => formula`
    Implies(Boxed<Formula>, Boxed<Formula>),
    /// `conj || disj`
    Or(Boxed<Formula>, Boxed<Formula>),
    /// `atom && conj`
    And(Boxed<Formula>, Boxed<Formula>),
    /// `term = term`
    Equal(Boxed<Formula>, Boxed<Formula>),
    /// `term <> term`
    NotEqual(Boxed<Formula>, Boxed<Formula>),
    /// `term <= term`
    LessEqual(Boxed<Formula>, Boxed<Formula>),
    /// `term < term`
    Less(Boxed<Formula>, Boxed<Formula>),
    /// `(formula)`
    Group(Boxed<Formula>),
    /// `<term, term>`
    Pair(Boxed<Formula>, Boxed<Formula>),
    True,
    False,
    Empty,
    Init,
    /// `if formula then term else term`
    If(Boxed<Formula>, Boxed<Formula>, Boxed<Formula>),
    /// `find i, j such that formula in term else term`
    Find(Seq<Text>, Boxed<Formula>, Boxed<Formula>, Boxed<Formula>),
    /// `diff(formula, formula)`
    Diff(Boxed<Formula>, Boxed<Formula>),
    /// `not(formula)`
    Not(Boxed<Formula>),
    /// `fst(formula)`
    Fst(Boxed<Formula>),
    /// `snd(formula)`
    Snd(Boxed<Formula>),
    /// `of_bool(formula)`
    OfBool(Boxed<Formula>),
    /// `happens(time)`
    Happens(Boxed<Formula>),
    /// `pred(time)`
    Pred(Boxed<Formula>),
    /// `input@time`
    Input(Boxed<Formula>),
    /// `output@time`
    Output(Boxed<Formula>),
    /// `cond@time`
    Cond(Boxed<Formula>),
    /// `exec@time`
    Exec(Boxed<Formula>),
    /// `frame@time`
    Frame(Boxed<Formula>),
    /// `name`, or `name(formula, ..)` with one argument or more
    Apply(Text, Option<Items<Formula>>),
}

impl Formula {
    pub fn quantified(
        alloc: Global,
        quantifier: Quantifier,
        binders: Seq<Binders>,
        body: Formula,
    ) -> Result<Formula, NoMemory>
        ensures { IfOk result (λ f. formula_tree f
            ≡ tree.quantified quantifier binders (formula_tree body)) }
    {
        let body = Boxed::new(alloc, body)?;
        Ok(match quantifier {
            Quantifier::Forall => Formula::Forall(binders, body),
            Quantifier::Exists => Formula::Exists(binders, body),
        })
    }

    pub fn binary(
        alloc: Global,
        word: Binary,
        left: Formula,
        right: Formula,
    ) -> Result<Formula, NoMemory>
        ensures { IfOk result (λ f. formula_tree f
            ≡ tree.binary word (formula_tree left) (formula_tree right)) }
    {
        let left = Boxed::new(alloc, left)?;
        let right = Boxed::new(alloc, right)?;
        Ok(match word {
            Binary::Implies => Formula::Implies(left, right),
            Binary::Or => Formula::Or(left, right),
            Binary::And => Formula::And(left, right),
            Binary::Equal => Formula::Equal(left, right),
            Binary::NotEqual => Formula::NotEqual(left, right),
            Binary::LessEqual => Formula::LessEqual(left, right),
            Binary::Less => Formula::Less(left, right),
        })
    }

    pub fn group(alloc: Global, inner: Formula) -> Result<Formula, NoMemory>
        ensures { IfOk result (λ f. formula_tree f ≡ tree.group (formula_tree inner)) }
    {
        Ok(Formula::Group(Boxed::new(alloc, inner)?))
    }

    pub fn pair(alloc: Global, first: Formula, second: Formula) -> Result<Formula, NoMemory>
        ensures { IfOk result (λ f. formula_tree f
            ≡ tree.pair (formula_tree first) (formula_tree second)) }
    {
        let first = Boxed::new(alloc, first)?;
        Ok(Formula::Pair(first, Boxed::new(alloc, second)?))
    }

    pub fn constant(word: Constant) -> Formula
        ensures { formula_tree result ≡ tree.constant word }
    {
        match word {
            Constant::True => Formula::True,
            Constant::False => Formula::False,
            Constant::Empty => Formula::Empty,
            Constant::Init => Formula::Init,
        }
    }

    pub fn conditional(
        alloc: Global,
        test: Formula,
        yes: Formula,
        no: Formula,
    ) -> Result<Formula, NoMemory>
        ensures { IfOk result (λ f. formula_tree f
            ≡ tree.conditional (formula_tree test) (formula_tree yes) (formula_tree no)) }
    {
        let test = Boxed::new(alloc, test)?;
        let yes = Boxed::new(alloc, yes)?;
        Ok(Formula::If(test, yes, Boxed::new(alloc, no)?))
    }

    pub fn find(
        alloc: Global,
        names: Seq<Text>,
        test: Formula,
        yes: Formula,
        no: Formula,
    ) -> Result<Formula, NoMemory>
        ensures { IfOk result (λ f. formula_tree f
            ≡ tree.find names (formula_tree test) (formula_tree yes) (formula_tree no)) }
    {
        let test = Boxed::new(alloc, test)?;
        let yes = Boxed::new(alloc, yes)?;
        Ok(Formula::Find(names, test, yes, Boxed::new(alloc, no)?))
    }

    pub fn diff(alloc: Global, left: Formula, right: Formula) -> Result<Formula, NoMemory>
        ensures { IfOk result (λ f. formula_tree f
            ≡ tree.diff (formula_tree left) (formula_tree right)) }
    {
        let left = Boxed::new(alloc, left)?;
        Ok(Formula::Diff(left, Boxed::new(alloc, right)?))
    }

    pub fn unary(alloc: Global, word: Unary, argument: Formula) -> Result<Formula, NoMemory>
        ensures { IfOk result (λ f. formula_tree f ≡ tree.unary word (formula_tree argument)) }
    {
        let argument = Boxed::new(alloc, argument)?;
        Ok(match word {
            Unary::Not => Formula::Not(argument),
            Unary::Fst => Formula::Fst(argument),
            Unary::Snd => Formula::Snd(argument),
            Unary::OfBool => Formula::OfBool(argument),
            Unary::Happens => Formula::Happens(argument),
            Unary::Pred => Formula::Pred(argument),
        })
    }

    pub fn macro_at(alloc: Global, word: MacroWord, time: Formula) -> Result<Formula, NoMemory>
        ensures { IfOk result (λ f. formula_tree f ≡ tree.value word (formula_tree time)) }
    {
        let time = Boxed::new(alloc, time)?;
        Ok(match word {
            MacroWord::Input => Formula::Input(time),
            MacroWord::Output => Formula::Output(time),
            MacroWord::Cond => Formula::Cond(time),
            MacroWord::Exec => Formula::Exec(time),
            MacroWord::Frame => Formula::Frame(time),
        })
    }

    /// An identifier without arguments.
    pub fn name(name: Text) -> Formula
        ensures { formula_tree result ≡ tree.name name }
    {
        Formula::Apply(name, None)
    }

    /// An identifier with its arguments in parentheses.
    pub fn apply(name: Text, arguments: Items<Formula>) -> Formula
        ensures { formula_tree result ≡ tree.apply name (formula_trees arguments) }
    {
        Formula::Apply(name, Some(arguments))
    }
}
