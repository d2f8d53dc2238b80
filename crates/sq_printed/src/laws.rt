// What the printed form of a term is, in the words of the grammar and of the tokens.
ghost use Rattle.std.specs.Prelude.{◌≡◌, ℕ, List};
ghost use Rattle.sq_ast.specs.declared.formula.Form.TheVariants.{Formula};
ghost use Rattle.sq_ast.specs.Grammar.{Is, spelled};
ghost use Rattle.sq_term.specs.Syntax.{TermTree};
ghost use Rattle.sq_print.specs.Names.{Names};
ghost use Rattle.sq_print.specs.Printed.{term_text};
ghost use Rattle.sq_printed.specs.Trees.{text_of, term_syntax, IsWritable};
ghost use Rattle.sq_printed.specs.Reads.{IsNamed, IsRead};

/// The printed form of a term is the text of a syntax tree, which the grammar has as a formula.
pub fn a_printed_term_is_a_formula()
    ensures text { (ns : Names) (around : List (List ℕ)) (t : TermTree)
        → text_of (term_syntax ns around t) ≡ term_text ns around t }
    ensures formula { (ns : Names) (around : List (List ℕ)) (t : TermTree) → IsWritable t
        → Is Formula (term_syntax ns around t) (spelled (term_syntax ns around t)) }
{}

/// Where its names are identifiers, the printed form of a term is read as the tokens of that tree.
pub fn a_printed_term_is_read_as_its_tokens()
    ensures { (ns : Names) (around : List (List ℕ)) (t : TermTree)
        → IsNamed (term_syntax ns around t)
        → IsRead (term_text ns around t) (spelled (term_syntax ns around t)) }
{}
