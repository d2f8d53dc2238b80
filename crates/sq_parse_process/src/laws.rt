// What holds of the grammar of processes itself.
ghost use Rattle.std.specs.Prelude.{◌≡◌, List};
ghost use Rattle.sq_token.specs.Sign.{Sign};
ghost use Rattle.sq_ast.specs.ProcTree.{ProcTree};
ghost use Rattle.sq_ast.specs.ProcGrammar.{IsProcessOf};

/// A list of tokens has at most one tree as a process.
pub fn one_process()
    ensures { (t u : ProcTree) (ts : List Sign) → IsProcessOf t ts → IsProcessOf u ts → t ≡ u }
{}
