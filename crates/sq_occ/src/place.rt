// A place of a name as an entry.
ghost use Rattle.std.specs.Prelude.{◌≡◌, ◌≤◌, [], ◌∷◌, ◌++◌, map, length, reverse, replicate, ◌&&◌, IfOk, IfSome, MatchOption, Some, None};
ghost use Rattle.sq_base.specs.declared.sort.Sort.{Sort};
ghost use Rattle.sq_term.specs.Signatures as signatures;
ghost use Rattle.sq_term.specs.Signatures.{function_role};
ghost use Rattle.sq_term.specs.Symbols.{kind_of};
ghost use Rattle.sq_term.specs.View.{term_tree, term_trees};
ghost use Rattle.sq_subst.specs.Renaming.{bound_index};
ghost use Rattle.sq_occ.specs.Listed.{side_of};
ghost use Rattle.sq_occ.specs.Calls.Views.{role_tree};
ghost use Rattle.sq_occ.specs.Calls.Lists.{growing, Adds};
ghost use Rattle.sq_occ.specs.Calls.Scans as scans;
ghost use Rattle.sq_occ.specs.Calls.Scans.{scanned, key_role};
ghost use Rattle.sq_occ.specs.Calls.Bodies.{scan_of};

use crate::bodies::ActionPlaces;
use crate::list::List;
use sq_base::{NoMemory, Seq, Sort};
use sq_subst::bind_indices;
use sq_system::{KeyUse, Occ, OccFault, Role};
use sq_term::formulas::constant;
use sq_term::{Builtin, FunDecl, FunRole, Idx, Side, Term};
use std::alloc::Global;

/// A name that is searched for in terms of which one side is read, below the first `arity` free
/// indices, and the places that are met where a term reads a macro.
#[derive(Clone, Copy)]
pub struct Scan<'a> {
    pub alloc: Global,
    pub name: u32,
    pub left: bool,
    pub funs: &'a [FunDecl],
    pub arity: u32,
    pub bodies: &'a [ActionPlaces],
}

/// What the function is declared as.
pub fn role_of(funs: &[FunDecl], f: u32) -> FunRole
    ensures { result ≡ function_role funs.now (kind_of f) }
{
    if Builtin::of(f).is_some() {
        return FunRole::Plain;
    }
    match funs.get(f as usize) {
        Some(declared) => declared.role,
        None => FunRole::Plain,
    }
}

/// Whether the second argument is a key.
fn is_keyed(role: FunRole) -> bool
    ensures { result ≡ signatures.is_keyed role }
{
    match role {
        FunRole::Hash | FunRole::Sign => true,
        FunRole::Plain | FunRole::Check | FunRole::Pk => false,
    }
}

fn is_hash(role: FunRole) -> bool
    ensures { result ≡ signatures.is_hash role }
{
    match role {
        FunRole::Hash => true,
        FunRole::Plain | FunRole::Sign | FunRole::Check | FunRole::Pk => false,
    }
}

/// Whether a key is one of a test, the application being a side of an equation or not.
pub fn is_test(equated: bool, role: FunRole) -> bool
    ensures { result ≡ (equated && signatures.is_hash role) }
{
    equated && is_hash(role)
}

fn is_pk(role: FunRole) -> bool
    ensures { result ≡ signatures.is_pk role }
{
    match role {
        FunRole::Pk => true,
        FunRole::Plain | FunRole::Hash | FunRole::Sign | FunRole::Check => false,
    }
}

/// The index as the variable of a binder, where it is one of the first.
fn bound_idx(i: Idx, arity: u32, binders: u32) -> Result<Idx, NoMemory>
    ensures { IfOk result (λ j. j ≡ bound_index arity binders i) }
{
    match i {
        Idx::Free(k) if k < arity => {
            let number = binders.checked_add(arity - 1 - k).ok_or(NoMemory)?;
            Ok(Idx::Bound(number))
        }
        _ => Ok(i),
    }
}

fn bound_indices(
    alloc: Global,
    indices: &[Idx],
    arity: u32,
    binders: u32,
) -> Result<Seq<Idx>, NoMemory>
    ensures { IfOk result (λ s. s ≡ map (bound_index arity binders) indices.now) }
{
    let mut out = Seq::new(alloc);
    for i in indices {
        out.push(bound_idx(*i, arity, binders)?)?;
    }
    Ok(out)
}

/// The binders with some more within.
#[tactic(auto, using(crate::proofs::Growth::under_rules))]
pub fn under(alloc: Global, above: &[Sort], sort: Sort, count: u32) -> Result<Seq<Sort>, NoMemory>
    ensures { IfOk result (λ s. s ≡ above.now ++ replicate count sort) }
{
    let mut inner = Seq::from_slice(alloc, above)?;
    for _ in 0..count {
        inner.push(sort)?;
    }
    Ok(inner)
}

impl Scan<'_> {
    /// The side that is read.
    fn side(&self) -> Side
        ensures { result ≡ side_of self.now.left }
    {
        if self.left { Side::Left } else { Side::Right }
    }

    /// The indices of the name, where the side of the term is the name.
    #[tactic(auto, using(sq_term::proofs::Views::tree_rules))]
    pub fn named<'b>(&self, t: &'b Term) -> Option<&'b [Idx]>
        ensures { MatchOption result (scans.named self.now.name self.now.left (term_tree t.now) ≡ None)
            (λ is. scans.named self.now.name self.now.left (term_tree t.now) ≡ Some is.now) }
    {
        match t {
            Term::Name(n, is) => {
                if *n == self.name {
                    Some(is.as_slice())
                } else {
                    None
                }
            }
            Term::Diff(x, y) => self.named(if self.left { x.get() } else { y.get() }),
            Term::Fun(_, _, _)
            | Term::Macro(_, _)
            | Term::Schema(_)
            | Term::Le(_, _)
            | Term::TsEq(_, _)
            | Term::IdxEq(_, _)
            | Term::Happens(_)
            | Term::Forall(_, _)
            | Term::Exists(_, _)
            | Term::Find(_, _, _, _) => None,
        }
    }

    /// The indices of the name, where it is the key of an application to these terms.
    #[tactic(auto, using(crate::proofs::Keyed::keyed_rules))]
    pub fn keyed<'b>(&self, role: FunRole, args: &'b [Term]) -> Option<&'b [Idx]>
        ensures value { MatchOption result
            (scans.keyed self.now.name self.now.left role (term_trees args.now) ≡ None)
            (λ is. scans.keyed self.now.name self.now.left role (term_trees args.now)
            ≡ Some is.now) }
        ensures two { IfSome result (λ is. length args.now ≡ 2) }
    {
        if args.len() != 2 {
            return None;
        }
        if !is_keyed(role) {
            return None;
        }
        self.named(&args[1])
    }

    /// The indices of the name, where it alone is the argument of a public key.
    #[tactic(auto, using(crate::proofs::Keyed::keyed_rules))]
    pub fn only<'b>(&self, role: FunRole, args: &'b [Term]) -> Option<&'b [Idx]>
        ensures { MatchOption result
            (scans.only self.now.name self.now.left role (term_trees args.now) ≡ None)
            (λ is. scans.only self.now.name self.now.left role (term_trees args.now)
            ≡ Some is.now) }
    {
        if args.len() != 1 {
            return None;
        }
        if !is_pk(role) {
            return None;
        }
        self.named(&args[0])
    }

    /// Adds a place under these binders.
    #[tactic(auto, using(crate::proofs::Growth::growth_rules))]
    pub fn add(
        &self,
        indices: &[Idx],
        role: Role,
        above: &[Sort],
        list: &mut List,
    ) -> Result<(), OccFault>
        ensures { Adds (growing list.old) (growing list.new) result
            (scanned (scan_of self.now) indices.now (role_tree role) (reverse above.now) ∷ []) }
    {
        let binders = u32::try_from(above.len()).or(Err(NoMemory))?;
        list.add(Occ {
            name: self.name,
            args: bound_indices(self.alloc, indices, self.arity, binders)?,
            role,
            bound: Seq::from_slice(self.alloc, above)?,
            guard: constant(self.alloc, Builtin::True),
        })
    }

    /// Adds the place under a key of this message, of which one side is kept.
    #[tactic(auto, using(crate::proofs::Growth::growth_rules))]
    pub fn add_key(
        &self,
        f: u32,
        message: &Term,
        indices: &[Idx],
        test: bool,
        above: &[Sort],
        list: &mut List,
    ) -> Result<(), OccFault>
        ensures { Adds (growing list.old) (growing list.new) result
            (scanned (scan_of self.now) indices.now
            (scans.key_of (scan_of self.now) (kind_of f) (term_tree message.now) test
            (reverse above.now)) (reverse above.now) ∷ []) }
    {
        let binders = u32::try_from(above.len()).or(Err(NoMemory))?;
        let room = list.room as usize;
        let arg = bind_indices(self.alloc, message, self.arity, binders, self.side(), room)?;
        let key = KeyUse { fun: f, arg, test };
        self.add(indices, Role::Key(key), above, list)
    }
}
