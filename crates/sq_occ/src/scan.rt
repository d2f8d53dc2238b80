// The walk over a term that adds the places of a name.
ghost use Rattle.std.specs.Prelude.{◌≡◌, [], reverse};
ghost use Rattle.sq_term.specs.Symbols.{kind_of};
ghost use Rattle.sq_term.specs.Syntax.{fun};
ghost use Rattle.sq_term.specs.View.{ts_tree, term_tree, term_trees};
ghost use Rattle.sq_occ.specs.Calls.Lists.{growing, Adds};
ghost use Rattle.sq_occ.specs.Calls.Scans as spec;
ghost use Rattle.sq_occ.specs.Calls.Bodies.{scan_of};

use crate::list::List;
use crate::place::{Scan, is_test, role_of, under};
use sq_base::Sort;
use sq_system::{OccFault, Role};
use sq_term::{Builtin, Macro, Term, Ts};

/// Adds what is met where the macro is read under these binders.
#[tactic(auto, using(crate::proofs::Growth::walk_rules))]
fn read(search: &Scan, m: Macro, t: &Ts, above: &[Sort], list: &mut List) -> Result<(), OccFault>
    ensures { Adds (growing list.old) (growing list.new) result
        ((scan_of search.now).at_macro (reverse above.now) m (ts_tree t.now)) }
{
    for places in search.bodies {
        places.add_met(search.alloc, above, m, t, list)?;
    }
    Ok(())
}

/// Adds the places in the term under these binders, which is a side of an equation or not.
#[cycle(scan)]
#[tactic(auto, using(crate::proofs::Growth::scan_rules))]
pub fn scan(
    t: &Term,
    search: &Scan,
    equated: bool,
    above: &[Sort],
    list: &mut List,
) -> Result<(), OccFault>
    ensures { Adds (growing list.old) (growing list.new) result
        (spec.scan (scan_of search.now) (reverse above.now) equated (term_tree t.now)) }
{
    match t {
        Term::Name(n, is) if *n == search.name => {
            search.add(is.as_slice(), Role::Bare, above, list)
        }
        Term::Fun(f, _, args) => scan_application(
            args.as_slice(),
            search,
            *f,
            equated,
            above,
            list,
        ),
        Term::Macro(m, at) => read(search, *m, at, above, list),
        Term::Diff(x, y) => scan(
            if search.left { x.get() } else { y.get() },
            search,
            equated,
            above,
            list,
        ),
        Term::Forall(sort, body) | Term::Exists(sort, body) => {
            let inner = under(search.alloc, above, *sort, 1)?;
            scan(body.get(), search, false, inner.as_slice(), list)
        }
        Term::Find(count, test, found, other) => {
            let inner = under(search.alloc, above, Sort::Index, *count)?;
            scan(test.get(), search, false, inner.as_slice(), list)?;
            scan(found.get(), search, false, inner.as_slice(), list)?;
            scan(other.get(), search, false, above, list)
        }
        Term::Name(_, _)
        | Term::Schema(_)
        | Term::Le(_, _)
        | Term::TsEq(_, _)
        | Term::IdxEq(_, _)
        | Term::Happens(_) => Ok(()),
    }
}

/// Adds the places in an application of a function to these terms.
#[cycle(scan)]
#[tactic(auto, using(crate::proofs::Growth::application_rules))]
fn scan_application(
    args: &[Term],
    search: &Scan,
    f: u32,
    equated: bool,
    above: &[Sort],
    list: &mut List,
) -> Result<(), OccFault>
    ensures { Adds (growing list.old) (growing list.new) result
        (spec.scan (scan_of search.now) (reverse above.now) equated
        (fun (kind_of f) [] (term_trees args.now))) }
{
    let role = role_of(search.funs, f);
    if let Some(is) = search.keyed(role, args) {
        let test = is_test(equated, role);
        search.add_key(f, &args[0], is, test, above, list)?;
        return scan(&args[0], search, false, above, list);
    }
    if let Some(is) = search.only(role, args) {
        return search.add(is, Role::Pub, above, list);
    }
    let equation = f == Builtin::Eq.number();
    for arg in args {
        scan(arg, search, equation, above, list)?;
    }
    Ok(())
}
