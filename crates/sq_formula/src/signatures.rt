// What the calculus knows of a signature that is checked.
ghost use Rattle.std.specs.Prelude.{◌≡◌, ◌<◌, ◌≤◌, ◌^◌, ◌≢◌, length, Some, IfOk, MatchOption};
ghost use Rattle.std.specs.Prelude.{option_map};
ghost use Rattle.std.specs.Option.{option_copied};
ghost use Rattle.sq_term.specs.Signatures as signatures;
ghost use Rattle.sq_term.specs.Symbols.{kind_of};
ghost use Rattle.sq_term.specs.Syntax.{nil, cons};
ghost use Rattle.sq_term.specs.View.{term_tree, term_trees};
ghost use Rattle.sq_formula.specs.FactSearch as spec;

use crate::equality::is_same;
use sq_base::NoMemory;
use sq_system::{FunDecl, FunRole};
use sq_term::{Builtin, Term, copy};
use sqlite_items::at;
use std::alloc::Global;

/// Declared functions have their numbers from here on, behind the built-in ones.
pub const DECLARED: u32 = Builtin::Att as u32 + 1;

// The role of the declared function with this number among the declared ones. One that is not there
// is plain.
#[tactic(auto, using(crate::proofs::FactParts::role_rules))]
fn declared_role(funs: &[FunDecl], k: usize) -> FunRole
    requires { k ≤ 2 ^ 33 }
    ensures { result ≡ (signatures.declared_at funs.now k).role }
{
    match at(funs, DECLARED as usize + k) {
        Some(d) => d.role,
        None => FunRole::Plain,
    }
}

fn has_sign(role: FunRole) -> bool
    ensures { result ≡ signatures.is_sign role }
{
    matches!(role, FunRole::Sign)
}

fn has_check(role: FunRole) -> bool
    ensures { result ≡ signatures.is_check role }
{
    matches!(role, FunRole::Check)
}

fn has_key(role: FunRole) -> bool
    ensures { result ≡ signatures.is_pk role }
{
    matches!(role, FunRole::Pk)
}

/// Whether the function is the checksign of a signature.
#[tactic(auto, using(crate::proofs::FactParts::check_role_rules))]
pub fn is_check(funs: &[FunDecl], function: u32) -> bool
    ensures { result ≡ signatures.is_check (signatures.function_role funs.now (kind_of function)) }
{
    if function < DECLARED {
        false
    } else {
        has_check(declared_role(funs, (function - DECLARED) as usize))
    }
}

#[tactic(auto, using(crate::proofs::FactParts::signature_rules))]
fn is_signature(funs: &[FunDecl], sign: usize) -> bool
    requires { sign < 2 ^ 32 }
    ensures { result ≡ signatures.is_signature funs.now sign }
{
    has_sign(declared_role(funs, sign))
        && has_check(declared_role(funs, sign + 1))
        && has_key(declared_role(funs, sign + 2))
}

// The arguments of an application of declared function k without indices.
#[tactic(auto, using(crate::proofs::FactParts::arguments_rules))]
fn arguments_of(k: usize, t: &Term) -> Option<&[Term]>
    ensures { option_map term_trees (option_copied result) ≡ spec.arguments_of k (term_tree t.now) }
{
    match t {
        Term::Fun(f, indices, args) => {
            if *f >= DECLARED && (*f - DECLARED) as usize == k && indices.is_empty() {
                Some(args.as_slice())
            } else {
                None
            }
        }
        _ => None,
    }
}

// Whether the signature is of m under a key, and the public key that of this key.
#[tactic(auto, using(crate::proofs::FactParts::parts_rules))]
fn accepts_parts(m: &Term, signed: &[Term], owner: &[Term]) -> bool
    ensures { result ≡ spec.accepts_parts (term_tree m.now) (Some (term_trees signed.now))
        (Some (term_trees owner.now)) }
{
    match signed {
        [n, key] => match owner {
            [l] => is_same(m, n) && is_same(key, l),
            _ => false,
        },
        _ => false,
    }
}

#[tactic(auto, using(crate::proofs::FactParts::accepts_rules))]
fn accepts(sign: usize, m: &Term, s: &Term, p: &Term) -> bool
    requires { sign < 2 ^ 32 }
    ensures { result ≡ spec.accepts sign (term_tree m.now) (term_tree s.now) (term_tree p.now) }
{
    match arguments_of(sign, s) {
        Some(signed) => match arguments_of(sign + 2, p) {
            Some(owner) => accepts_parts(m, signed, owner),
            None => false,
        },
        None => false,
    }
}

#[tactic(auto, using(crate::proofs::FactParts::three_rules))]
fn three_terms(args: &[Term]) -> Option<(&Term, &Term, &Term)>
    ensures { MatchOption result (length args.now ≢ 3) (λ p. term_trees args.now
        ≡ cons (term_tree p.0.now) (cons (term_tree p.1.now) (cons (term_tree p.2.now) nil))) }
{
    match args {
        [a, b, c] => Some((a, b, c)),
        _ => None,
    }
}

/// The term itself, where it is of the checksign of a signature, with a signature of its first
/// argument under a key whose public key is its third. `check` is its number among the declared
/// functions.
#[tactic(auto, using(crate::proofs::FactParts::check_rules))]
pub fn check_fact(
    alloc: Global,
    funs: &[FunDecl],
    check: u32,
    t: &Term,
    args: &[Term],
) -> Result<Option<Term>, NoMemory>
    ensures { IfOk result (λ f. option_map term_tree f
        ≡ spec.check_fact funs.now check (term_tree t.now) (term_trees args.now)) }
{
    match three_terms(args) {
        Some((m, s, p)) => {
            if check > 0
                && is_signature(funs, check as usize - 1)
                && accepts(check as usize - 1, m, s, p)
            {
                Ok(Some(copy(alloc, t)?))
            } else {
                Ok(None)
            }
        }
        None => Ok(None),
    }
}
