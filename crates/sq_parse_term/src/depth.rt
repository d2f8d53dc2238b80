// How deep a tree is.
ghost use Rattle.std.specs.Prelude.{◌≤◌, ◌<◌, ◌+◌, ◌↔◌, max, IsTrue};
ghost use Rattle.sq_ast.specs.View.{formula_tree, formula_trees};
ghost use Rattle.sq_ast.specs.Deep.{height, heights};

use sq_ast::Formula;

/// Whether at most this many nodes of the tree stand one inside the other.
#[cycle(fits)]
#[tactic(auto, using(crate::proofs::Heights::positive))]
pub fn fits(formula: &Formula, room: usize) -> bool
    ensures { IsTrue result ↔ (height (formula_tree formula.now) ≤ room) }
{
    if room == 0 {
        return false;
    }
    match formula {
        Formula::True => true,
        Formula::False => true,
        Formula::Empty => true,
        Formula::Init => true,
        Formula::Apply(_, None) => true,
        Formula::Apply(_, Some(arguments)) => all_fit(arguments.as_slice(), room - 1),
        Formula::Forall(_, a) => one_fits(a.get(), room),
        Formula::Exists(_, a) => one_fits(a.get(), room),
        Formula::Group(a) => one_fits(a.get(), room),
        Formula::Not(a) => one_fits(a.get(), room),
        Formula::Fst(a) => one_fits(a.get(), room),
        Formula::Snd(a) => one_fits(a.get(), room),
        Formula::OfBool(a) => one_fits(a.get(), room),
        Formula::Happens(a) => one_fits(a.get(), room),
        Formula::Pred(a) => one_fits(a.get(), room),
        Formula::Input(a) => one_fits(a.get(), room),
        Formula::Output(a) => one_fits(a.get(), room),
        Formula::Cond(a) => one_fits(a.get(), room),
        Formula::Exec(a) => one_fits(a.get(), room),
        Formula::Frame(a) => one_fits(a.get(), room),
        Formula::Implies(a, b) => two_fit(a.get(), b.get(), room),
        Formula::Or(a, b) => two_fit(a.get(), b.get(), room),
        Formula::And(a, b) => two_fit(a.get(), b.get(), room),
        Formula::Equal(a, b) => two_fit(a.get(), b.get(), room),
        Formula::NotEqual(a, b) => two_fit(a.get(), b.get(), room),
        Formula::LessEqual(a, b) => two_fit(a.get(), b.get(), room),
        Formula::Less(a, b) => two_fit(a.get(), b.get(), room),
        Formula::Pair(a, b) => two_fit(a.get(), b.get(), room),
        Formula::Diff(a, b) => two_fit(a.get(), b.get(), room),
        Formula::If(a, b, c) => three_fit(a.get(), b.get(), c.get(), room),
        Formula::Find(_, a, b, c) => three_fit(a.get(), b.get(), c.get(), room),
    }
}

/// Whether a node with this part fits.
#[cycle(fits)]
fn one_fits(a: &Formula, room: usize) -> bool
    requires { 0 < room }
    ensures { IsTrue result ↔ (1 + height (formula_tree a.now) ≤ room) }
{
    fits(a, room - 1)
}

#[cycle(fits)]
fn two_fit(a: &Formula, b: &Formula, room: usize) -> bool
    requires { 0 < room }
    ensures { IsTrue result ↔ (1 + max (height (formula_tree a.now))
        (height (formula_tree b.now)) ≤ room) }
{
    fits(a, room - 1) && fits(b, room - 1)
}

#[cycle(fits)]
fn three_fit(a: &Formula, b: &Formula, c: &Formula, room: usize) -> bool
    requires { 0 < room }
    ensures { IsTrue result ↔ (1 + max (height (formula_tree a.now))
        (max (height (formula_tree b.now)) (height (formula_tree c.now))) ≤ room) }
{
    fits(a, room - 1) && fits(b, room - 1) && fits(c, room - 1)
}

/// Whether at most this many nodes of each tree stand one inside the other.
#[cycle(fits)]
pub fn all_fit(formulas: &[Formula], room: usize) -> bool
    ensures { IsTrue result ↔ (heights (formula_trees formulas.now) ≤ room) }
{
    for formula in formulas {
        if !fits(formula, room) {
            return false;
        }
    }
    true
}
