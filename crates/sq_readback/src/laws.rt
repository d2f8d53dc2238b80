// What the printed form of a term comes to where it is read.
ghost use Rattle.std.specs.Prelude.{◌≡◌, ℕ, List, []};
ghost use Rattle.sq_base.specs.declared.sort.Sort.{Sort};
ghost use Rattle.sq_base.specs.declared.sort.Sort.TheVariants.{Boolean};
ghost use Rattle.sq_term.specs.Syntax.{TermTree};
ghost use Rattle.sq_print.specs.Printed.{term_text};
ghost use Rattle.sq_resolve.specs.Scopes.{Context};
ghost use Rattle.sq_readback.specs.Readable.{names_of, HasFewNames, IsReadable, IsReadBack};
ghost use Rattle.sq_readback.specs.Calls.{IsWithinLimits, ComesBack};

/// What is printed in a scope with plain names is read back there: its tokens are those of a
/// formula of the grammar, and the sorts give this formula the term.
pub fn a_printed_term_is_read_back()
    ensures { (c : Context) (s : Sort) (t : TermTree) → IsReadable c s t → HasFewNames c t
        → IsReadBack c s (term_text (names_of c) [] t) t }
{}

/// In such a scope no two terms of one sort are printed alike.
pub fn terms_are_printed_apart()
    ensures { (c : Context) (s : Sort) (t u : TermTree) → IsReadable c s t → HasFewNames c t
        → IsReadable c s u → HasFewNames c u
        → term_text (names_of c) [] t ≡ term_text (names_of c) [] u → t ≡ u }
{}

/// Within the limits the calls that read do so: with a stop behind it, `lex` makes one sentence of
/// the printed form, of its tokens `parse_formula` can answer one formula alone, which is all of
/// them, and `resolve` makes the term of it.
pub fn reading_undoes_printing()
    ensures { (c : Context) (s : Sort) (t : TermTree) → IsReadable c s t → HasFewNames c t
        → IsWithinLimits c t → ComesBack c s (term_text (names_of c) [] t) t }
{}

/// There are a scope and a formula in it that meet all these conditions.
pub fn the_conditions_can_be_met()
    ensures { (c : Context) × ((t : TermTree)
        × (IsReadable c Boolean t × HasFewNames c t × IsWithinLimits c t)) }
{}
