// What is resolved is well-sorted.
ghost use Rattle.std.specs.Prelude.{◌≡◌, ℕ, List, [], Ok, length, true};
ghost use Rattle.sq_ast.specs.Tree.{FormulaTree};
ghost use Rattle.sq_term.specs.Arguments.{ArgTree};
ghost use Rattle.sq_term.specs.Syntax.{TermTree};
ghost use Rattle.sq_typing.specs.Functions.{is_value_sort};
ghost use Rattle.sq_typing.specs.Typing.{Signature, has_sort};
ghost use Rattle.sq_resolve.specs.Fitting.{AreFreeIndices, Fits, binder_sorts, filled};
ghost use Rattle.sq_resolve.specs.Resolved.{group_variables, term_of};
ghost use Rattle.sq_resolve.specs.Scopes.{Context, Variable};

use sq_base::Sort;

/// What a tree resolves to is well-sorted in each signature that fits its scope, by itself or with
/// terms in the places of its schema variables: below the binders around it, or with indices of the
/// signature in the places of their variables.
pub fn a_resolved_term_is_well_sorted()
    ensures own { (c : Context) (g : Signature) (around : List Variable) (want : Sort)
        (f : FormulaTree) (u : TermTree)
        → Fits c g [] → is_value_sort want ≡ true → term_of c around want f ≡ Ok u
        → has_sort g (binder_sorts around) want u ≡ true }
    ensures below { (c : Context) (g : Signature) (values : List TermTree) (around : List Variable)
        (want : Sort) (f : FormulaTree) (u : TermTree)
        → Fits c g values → is_value_sort want ≡ true → term_of c around want f ≡ Ok u
        → has_sort g (binder_sorts around) want (filled values [] u) ≡ true }
    ensures opened { (c : Context) (g : Signature) (values : List TermTree)
        (names : List (List ℕ)) (outer : List ArgTree) (want : Sort) (f : FormulaTree)
        (u : TermTree)
        → Fits c g values → length outer ≡ length names → AreFreeIndices g outer
        → is_value_sort want ≡ true → term_of c (group_variables Sort.Index names) want f ≡ Ok u
        → has_sort g [] want (filled values outer u) ≡ true }
{}
