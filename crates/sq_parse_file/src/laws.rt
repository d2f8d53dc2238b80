// What holds of the grammar of sentences itself.
ghost use Rattle.std.specs.Prelude.{◌≡◌, List};
ghost use Rattle.sq_token.specs.Sign.{Sign};
ghost use Rattle.sq_ast.specs.Forms.{SentenceTree, kind_of, IsSentenceOf};
ghost use Rattle.sq_ast.specs.Forms.{IsDeclarationOf, IsCommandOf};

/// A list of tokens has at most one tree as a sentence.
pub fn one_sentence()
    ensures { (t u : SentenceTree) (ts : List Sign) → IsSentenceOf t ts → IsSentenceOf u ts
        → t ≡ u }
{}

/// A list of tokens has at most one tree as a declaration.
pub fn one_declaration()
    ensures { (t u : SentenceTree) (ts : List Sign) → IsDeclarationOf t ts → IsDeclarationOf u ts
        → t ≡ u }
{}

/// A list of tokens has at most one tree as a proof command.
pub fn one_command()
    ensures { (t u : SentenceTree) (ts : List Sign) → IsCommandOf t ts → IsCommandOf u ts → t ≡ u }
{}

/// No list of tokens is two of a declaration, `Proof`, `Qed` and a proof command.
pub fn one_kind()
    ensures { (t u : SentenceTree) (ts : List Sign) → IsSentenceOf t ts → IsSentenceOf u ts
        → kind_of t ≡ kind_of u }
{}
