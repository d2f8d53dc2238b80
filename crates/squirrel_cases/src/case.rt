// A case: what is given, to what part of the program, and what is wanted of it.

/// The part of the program that a case is about.
#[derive(Clone, Copy, Debug, PartialEq, Eq)]
pub enum Kind {
    /// A source is cut into sentences.
    Tokens,
    /// The longest formula at the beginning of a source is read.
    Formula,
    /// How many tokens that formula has.
    FormulaLength,
    /// A sentence is read.
    Sentence,
    /// Sentences are read.
    Sentences,
    /// Sentences without their last token are read.
    Shortened,
    /// The program is run over files and a sink in memory.
    Run,
    /// Lines of steps are read.
    Steps,
    /// Lines of steps are read, and written again.
    StepsKept,
    /// A certificate is read, and written again.
    Certificate,
    /// Each proper front of a certificate is read.
    CertificateFronts,
}

impl Kind {
    /// The kind that a line of a case file names.
    pub fn of(word: &str) -> Option<Kind> {
        match word {
            "tokens" => Some(Kind::Tokens),
            "formula" => Some(Kind::Formula),
            "formula-length" => Some(Kind::FormulaLength),
            "sentence" => Some(Kind::Sentence),
            "sentences" => Some(Kind::Sentences),
            "shortened" => Some(Kind::Shortened),
            "run" => Some(Kind::Run),
            "steps" => Some(Kind::Steps),
            "steps-kept" => Some(Kind::StepsKept),
            "certificate" => Some(Kind::Certificate),
            "certificate-fronts" => Some(Kind::CertificateFronts),
            _ => None,
        }
    }
}

#[derive(Drop)]
pub struct Case {
    /// Where it begins in its file, counted from 1.
    pub line: u32,
    pub name: String,
    pub kind: Kind,
    pub given: String,
    pub wanted: String,
}
