// What the definition of `lex` comes to, in the words of the language.
ghost use Rattle.std.specs.Prelude.{◌≡◌, ◌↔◌, ℕ, List, Result, All};
ghost use Rattle.sq_lex.specs.Answers.{AreSentences, IsAnswer};
ghost use Rattle.sq_lex.specs.declared.fault.LexFault.{LexFault};
ghost use Rattle.sq_lex.specs.Lexemes.{Line};
ghost use Rattle.sq_lex.specs.Lex.{sentences};
ghost use Rattle.sq_lex.specs.Standing.{IsSlice};

/// A source has these sentences exactly where it is UTF-8, all of it is tokens with blanks and
/// comments before, between and behind them, and the sentences are the tokens, cut at each stop.
///
/// It is refused for a character, a comment or a number exactly where this begins at the place that
/// the fault names, and what stands before that place is tokens, blanks and comments: so it is the
/// first. It is refused for tokens behind the last stop only where all of it is tokens, and as no
/// UTF-8 exactly where it is none.
pub fn the_answer_is_what_stands()
    ensures { (source : List ℕ) (answer : Result (List Line) LexFault) →
        (sentences source ≡ answer) ↔ IsAnswer source answer }
{}

/// The text of each token is the slice of the source at its span, and no longer token begins there.
pub fn a_token_is_the_longest_slice()
    ensures { (source : List ℕ) (ss : List Line) (found : AreSentences source ss) →
        All (IsSlice source) found.tokens }
{}
