// What holds of the grammar itself.
ghost use Rattle.std.specs.Prelude.{◌≡◌, List};
ghost use Rattle.sq_token.specs.Sign.{Sign};
ghost use Rattle.sq_ast.specs.Tree.{FormulaTree};
ghost use Rattle.sq_ast.specs.Grammar.{Is};
ghost use Rattle.sq_ast.specs.declared.formula.Form.{Form};

/// As each form, a list of tokens has at most one tree.
pub fn one_tree()
    ensures { (f : Form) (t u : FormulaTree) (ts : List Sign) → Is f t ts → Is f u ts → t ≡ u }
{}
