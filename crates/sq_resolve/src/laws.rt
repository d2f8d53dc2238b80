// What the definition of `resolve` comes to, in the words of the sorts.
ghost use Rattle.std.specs.Prelude.{◌≡◌, ℕ, Ok, true, List, map};
ghost use Rattle.sq_ast.specs.Tree.{FormulaTree};
ghost use Rattle.sq_term.specs.declared.term.Idx.{Idx};
ghost use Rattle.sq_term.specs.Syntax.{TermTree, TsTree};
ghost use Rattle.sq_typing.specs.Functions.{is_value_sort};
ghost use Rattle.sq_resolve.specs.Scopes.{Context, Variable};
ghost use Rattle.sq_resolve.specs.Resolved.{term_of, index_of, time_of};
ghost use Rattle.sq_resolve.specs.Typed.{IsTerm, IsIndex, IsTime};
ghost use Rattle.sq_resolve.specs.Places.{places, first_fault, fault_of};
ghost use Rattle.sq_resolve.specs.Stops.{nodes, levels};

use sq_base::Sort;

/// The term that a tree resolves to is the one that the sorts give it. So a tree has at most one.
pub fn a_tree_has_at_most_one_term()
    ensures given { (c : Context) (around : List Variable) (want : Sort) (f : FormulaTree)
        (u : TermTree) → term_of c around want f ≡ Ok u → IsTerm c around want f u }
    ensures found { (c : Context) (around : List Variable) (want : Sort) (f : FormulaTree)
        (u : TermTree) → IsTerm c around want f u → term_of c around want f ≡ Ok u }
    ensures one { (c : Context) (around : List Variable) (want : Sort) (f : FormulaTree)
        (u v : TermTree) → IsTerm c around want f u → IsTerm c around want f v → u ≡ v }
{}

/// The same of indices and of timestamps.
pub fn a_tree_has_at_most_one_index_or_timestamp()
    ensures index_given { (c : Context) (around : List Variable) (f : FormulaTree) (i : Idx)
        → index_of c around f ≡ Ok i → IsIndex c around f i }
    ensures index_found { (c : Context) (around : List Variable) (f : FormulaTree) (i : Idx)
        → IsIndex c around f i → index_of c around f ≡ Ok i }
    ensures timestamp_given { (c : Context) (around : List Variable) (f : FormulaTree) (t : TsTree)
        → time_of c around f ≡ Ok t → IsTime c around f t }
    ensures timestamp_found { (c : Context) (around : List Variable) (f : FormulaTree) (t : TsTree)
        → IsTime c around f t → time_of c around f ≡ Ok t }
{}

/// A tree is refused with the fault of its first place, in preorder, at which no case of the sorts
/// applies.
pub fn a_refusal_is_that_of_the_first_place()
    ensures term { (c : Context) (around : List Variable) (want : Sort) (f : FormulaTree)
        → is_value_sort want ≡ true
        → fault_of (term_of c around want f) ≡ first_fault c (places c around want f) }
    ensures index { (c : Context) (around : List Variable) (f : FormulaTree)
        → fault_of (index_of c around f) ≡ first_fault c (places c around Sort.Index f) }
    ensures timestamp { (c : Context) (around : List Variable) (f : FormulaTree)
        → fault_of (time_of c around f) ≡ first_fault c (places c around Sort.Timestamp f) }
{}

/// A formula has one place at each of its nodes, in the same order.
pub fn a_formula_has_a_place_at_each_node()
    ensures trees { (c : Context) (around : List Variable) (want : Sort) (d : ℕ) (f : FormulaTree)
        → map (λ p. p.tree) (places c around want f) ≡ map (λ n. n.0) (nodes d f) }
    ensures depths { (d : ℕ) (f : FormulaTree) → levels d f ≡ map (λ n. n.1) (nodes d f) }
{}
