// Which form of the grammar a term is, and how the parts of an application are laid out.
ghost use Rattle.std.specs.Prelude.{◌≡◌};
ghost use Rattle.sq_term.specs.View.{term_tree};
ghost use Rattle.sq_term.specs.Symbols.{kind_of};
ghost use Rattle.sq_print.specs.Forms as spec;
ghost use Rattle.sq_print.specs.Written as written;

use sq_term::{Builtin, Layout, Level, Term};

/// A form of the grammar, the tightest first. A term of one form stands without parentheses where
/// its own form or a looser one is wanted.
#[derive(Clone, Copy, Debug, PartialEq, Eq)]
pub enum Form {
    Term,
    Atom,
    Conjunction,
    Disjunction,
    Formula,
}

impl Form {
    fn rank(self) -> u8
        ensures { result ≡ spec.rank self }
    {
        match self {
            Form::Term => 0,
            Form::Atom => 1,
            Form::Conjunction => 2,
            Form::Disjunction => 3,
            Form::Formula => 4,
        }
    }

    /// The form of a term.
    #[tactic(auto, using(crate::proofs::Rows::form_rules))]
    pub fn of(t: &Term) -> Form
        ensures { result ≡ spec.form_of (term_tree t.now) }
    {
        match t {
            Term::Fun(f, is, ts) => Form::of_layout(layout_of(*f, is.len(), ts.len())),
            Term::Le(_, _) | Term::TsEq(_, _) | Term::IdxEq(_, _) => Form::Atom,
            Term::Forall(_, _) | Term::Exists(_, _) => Form::Formula,
            Term::Name(_, _)
            | Term::Macro(_, _)
            | Term::Schema(_)
            | Term::Diff(_, _)
            | Term::Happens(_)
            | Term::Find(_, _, _, _) => Form::Term,
        }
    }

    /// Whether a term of this form stands at a place of that one without parentheses.
    pub fn fits(self, place: Form) -> bool
        ensures { result ≡ spec.fits self place }
    {
        self.rank() <= place.rank()
    }

    /// The form of an application that is laid out so.
    pub fn of_layout(layout: Layout) -> Form
        ensures { result ≡ spec.layout_form layout }
    {
        match layout {
            Layout::Infix(level) => Form::of_level(level),
            Layout::Word | Layout::Pair | Layout::Conditional => Form::Term,
        }
    }

    fn of_level(level: Level) -> Form
        ensures { result ≡ spec.level_form level }
    {
        match level {
            Level::Atom => Form::Atom,
            Level::Conjunction => Form::Conjunction,
            Level::Disjunction => Form::Disjunction,
            Level::Formula => Form::Formula,
        }
    }

    // What stands on the left of a sign without parentheses.
    fn left_of(level: Level) -> Form
        ensures { result ≡ spec.left_form level }
    {
        match level {
            Level::Atom => Form::Term,
            Level::Conjunction => Form::Atom,
            Level::Disjunction => Form::Conjunction,
            Level::Formula => Form::Disjunction,
        }
    }

    // What stands on the right of a sign without parentheses.
    fn right_of(level: Level) -> Form
        ensures { result ≡ spec.right_form level }
    {
        match level {
            Level::Atom => Form::Term,
            Level::Conjunction => Form::Conjunction,
            Level::Disjunction => Form::Disjunction,
            Level::Formula => Form::Formula,
        }
    }

    /// The form that the k-th argument may have without parentheses.
    pub fn place(layout: Layout, k: usize) -> Form
        ensures { result ≡ written.place layout k }
    {
        match layout {
            Layout::Infix(level) if k == 0 => Form::left_of(level),
            Layout::Infix(level) => Form::right_of(level),
            Layout::Conditional if k == 0 => Form::Formula,
            Layout::Word | Layout::Pair | Layout::Conditional => Form::Term,
        }
    }
}

/// How an application of the function of this number to so many indices and arguments is laid out:
/// as a word where it has not the function's own counts.
#[tactic(auto, using(crate::proofs::Rows::declared_layout))]
pub fn layout_of(function: u32, indices: usize, arguments: usize) -> Layout
    ensures { result ≡ spec.layout_of (kind_of function) indices arguments }
{
    match Builtin::of(function) {
        Some(builtin) if indices == 0 && arguments == builtin.arguments() as usize => {
            builtin.layout()
        }
        _ => Layout::Word,
    }
}

/// What stands behind the arguments.
pub fn end(layout: Layout) -> &'static str
    ensures { result.now ≡ written.end layout }
{
    match layout {
        Layout::Pair => ">",
        Layout::Word | Layout::Infix(_) | Layout::Conditional => "",
    }
}
