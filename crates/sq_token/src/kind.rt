ghost use Rattle.std.specs.Prelude.{◌≡◌, ◌↔◌, ℕ, List};
ghost use Rattle.sq_token.specs.Kinds as spec;

/// A word that is no identifier.
#[derive(Clone, Copy, Debug, PartialEq, Eq)]
pub enum Reserved {
    Hash,
    Signature,
    Name,
    Abstract,
    Channel,
    Process,
    System,
    Axiom,
    Lemma,
    Equiv,
    Diff,
    Proof,
    Qed,
    Null,
    New,
    In,
    Out,
    If,
    Then,
    Else,
    Find,
    Such,
    That,
    Let,
    Forall,
    Exists,
    True,
    False,
    Empty,
    Not,
    Happens,
    Init,
    Pred,
    Input,
    Output,
    Cond,
    Exec,
    Frame,
    Fst,
    Snd,
    OfBool,
    Att,
    Index,
    Message,
    Boolean,
    Timestamp,
    Mutable,
    As,
    By,
    From,
}

impl Reserved {
    /// How the word is written.
    pub fn text(self) -> &'static str
        ensures { result.now ≡ spec.reserved_text self }
    {
        match self {
            Reserved::Hash => "hash",
            Reserved::Signature => "signature",
            Reserved::Name => "name",
            Reserved::Abstract => "abstract",
            Reserved::Channel => "channel",
            Reserved::Process => "process",
            Reserved::System => "system",
            Reserved::Axiom => "axiom",
            Reserved::Lemma => "lemma",
            Reserved::Equiv => "equiv",
            Reserved::Diff => "diff",
            Reserved::Proof => "Proof",
            Reserved::Qed => "Qed",
            Reserved::Null => "null",
            Reserved::New => "new",
            Reserved::In => "in",
            Reserved::Out => "out",
            Reserved::If => "if",
            Reserved::Then => "then",
            Reserved::Else => "else",
            Reserved::Find => "find",
            Reserved::Such => "such",
            Reserved::That => "that",
            Reserved::Let => "let",
            Reserved::Forall => "forall",
            Reserved::Exists => "exists",
            Reserved::True => "true",
            Reserved::False => "false",
            Reserved::Empty => "empty",
            Reserved::Not => "not",
            Reserved::Happens => "happens",
            Reserved::Init => "init",
            Reserved::Pred => "pred",
            Reserved::Input => "input",
            Reserved::Output => "output",
            Reserved::Cond => "cond",
            Reserved::Exec => "exec",
            Reserved::Frame => "frame",
            Reserved::Fst => "fst",
            Reserved::Snd => "snd",
            Reserved::OfBool => "of_bool",
            Reserved::Att => "att",
            Reserved::Index => "index",
            Reserved::Message => "message",
            Reserved::Boolean => "boolean",
            Reserved::Timestamp => "timestamp",
            Reserved::Mutable => "mutable",
            Reserved::As => "as",
            Reserved::By => "by",
            Reserved::From => "from",
        }
    }
}

static WORDS: [Reserved; 50] = [
    Reserved::Hash,
    Reserved::Signature,
    Reserved::Name,
    Reserved::Abstract,
    Reserved::Channel,
    Reserved::Process,
    Reserved::System,
    Reserved::Axiom,
    Reserved::Lemma,
    Reserved::Equiv,
    Reserved::Diff,
    Reserved::Proof,
    Reserved::Qed,
    Reserved::Null,
    Reserved::New,
    Reserved::In,
    Reserved::Out,
    Reserved::If,
    Reserved::Then,
    Reserved::Else,
    Reserved::Find,
    Reserved::Such,
    Reserved::That,
    Reserved::Let,
    Reserved::Forall,
    Reserved::Exists,
    Reserved::True,
    Reserved::False,
    Reserved::Empty,
    Reserved::Not,
    Reserved::Happens,
    Reserved::Init,
    Reserved::Pred,
    Reserved::Input,
    Reserved::Output,
    Reserved::Cond,
    Reserved::Exec,
    Reserved::Frame,
    Reserved::Fst,
    Reserved::Snd,
    Reserved::OfBool,
    Reserved::Att,
    Reserved::Index,
    Reserved::Message,
    Reserved::Boolean,
    Reserved::Timestamp,
    Reserved::Mutable,
    Reserved::As,
    Reserved::By,
    Reserved::From,
];

/// The reserved word that is written so.
#[tactic(auto, unfolding(crate::specs::Kinds::reserved_of))]
pub fn reserved_of(text: &str) -> Option<Reserved>
    ensures { result ≡ spec.reserved_of text.now }
{
    WORDS.iter().copied().find(|r| r.text() == text)
}

/// A text is found to be a reserved word exactly where it is that word's text.
pub fn words_have_their_texts()
    ensures { (text : List ℕ) (r : Reserved) → (spec.reserved_of text ≡ Some r)
        ↔ (text ≡ spec.reserved_text r) }
{}

/// A symbol of the grammar.
#[derive(Clone, Copy, Debug, PartialEq, Eq)]
pub enum Punctuation {
    /// `.`
    Dot,
    /// `,`
    Comma,
    /// `:`
    Colon,
    /// `;`
    Semicolon,
    /// `=`
    Equals,
    /// `<>`
    Differs,
    /// `<`
    Less,
    /// `>`
    Greater,
    /// `<=`
    AtMost,
    /// `=>`
    Implies,
    /// `<-`
    LeftArrow,
    /// `(`
    OpenParenthesis,
    /// `)`
    CloseParenthesis,
    /// `[`
    OpenBracket,
    /// `]`
    CloseBracket,
    /// `&&`
    And,
    /// `||`
    Or,
    /// `|`
    Bar,
    /// `!_`
    Repeat,
    /// `@`
    At,
    /// `->`
    Arrow,
}

impl Punctuation {
    /// How the symbol is written.
    pub fn text(self) -> &'static str
        ensures { result.now ≡ spec.punctuation_text self }
    {
        match self {
            Punctuation::Dot => ".",
            Punctuation::Comma => ",",
            Punctuation::Colon => ":",
            Punctuation::Semicolon => ";",
            Punctuation::Equals => "=",
            Punctuation::Differs => "<>",
            Punctuation::Less => "<",
            Punctuation::Greater => ">",
            Punctuation::AtMost => "<=",
            Punctuation::Implies => "=>",
            Punctuation::LeftArrow => "<-",
            Punctuation::OpenParenthesis => "(",
            Punctuation::CloseParenthesis => ")",
            Punctuation::OpenBracket => "[",
            Punctuation::CloseBracket => "]",
            Punctuation::And => "&&",
            Punctuation::Or => "||",
            Punctuation::Bar => "|",
            Punctuation::Repeat => "!_",
            Punctuation::At => "@",
            Punctuation::Arrow => "->",
        }
    }
}

/// What a token is.
#[derive(Clone, Copy, Debug, PartialEq, Eq)]
pub enum TokenKind {
    Identifier,
    Reserved(Reserved),
    Number,
    Punctuation(Punctuation),
}
