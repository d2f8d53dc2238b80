// The words of terms, timestamps and indices.
ghost use Rattle.std.specs.Prelude.{◌≡◌, ◌∷◌, bytes_eq, find, slice_index};
ghost use Rattle.sq_cert_words.specs.Words as spec;

use crate::numbers::{last_number, three_numbers, two_numbers};

/// A word without numbers.
#[derive(Clone, Copy, Debug, PartialEq, Eq)]
pub enum Plain {
    Init,
    Pred,
    Input,
    Output,
    Cond,
    Exec,
    Frame,
    Diff,
    Le,
    TsEq,
    IdxEq,
    Happens,
    ForallIndex,
    ForallTimestamp,
    ExistsIndex,
    ExistsTimestamp,
}

impl Plain {
    /// How the word is written.
    pub fn text(self) -> &'static str
        ensures { result.now ≡ spec.plain_text self }
    {
        match self {
            Plain::Init => "init",
            Plain::Pred => "pred",
            Plain::Input => "input",
            Plain::Output => "output",
            Plain::Cond => "cond",
            Plain::Exec => "exec",
            Plain::Frame => "frame",
            Plain::Diff => "diff",
            Plain::Le => "le",
            Plain::TsEq => "teq",
            Plain::IdxEq => "ieq",
            Plain::Happens => "hap",
            Plain::ForallIndex => "Ai",
            Plain::ForallTimestamp => "At",
            Plain::ExistsIndex => "Ei",
            Plain::ExistsTimestamp => "Et",
        }
    }

    /// The words that begin with this letter.
    fn beginning(letter: u8) -> &'static [Plain]
        ensures { result.now ≡ spec.plain_beginning letter }
    {
        match letter {
            b'A' => &[Plain::ForallIndex, Plain::ForallTimestamp],
            b'E' => &[Plain::ExistsIndex, Plain::ExistsTimestamp],
            b'c' => &[Plain::Cond],
            b'd' => &[Plain::Diff],
            b'e' => &[Plain::Exec],
            b'f' => &[Plain::Frame],
            b'h' => &[Plain::Happens],
            b'i' => &[Plain::Init, Plain::Input, Plain::IdxEq],
            b'l' => &[Plain::Le],
            b'o' => &[Plain::Output],
            b'p' => &[Plain::Pred],
            b't' => &[Plain::TsEq],
            _ => &[],
        }
    }

    fn of(text: &[u8]) -> Option<Plain>
        ensures { result ≡ spec.plain_of text.now }
    {
        match text.split_first() {
            Some((letter, _)) => written_so(Plain::beginning(*letter), text),
            None => None,
        }
    }
}

fn written_so(words: &[Plain], text: &[u8]) -> Option<Plain>
    ensures { result ≡ find (λ p. bytes_eq (spec.plain_text p) text.now) words.now }
{
    words
        .iter()
        .copied()
        .find(|word| word.text().as_bytes() == text)
}

/// A word of a term, a timestamp or an index. An action and a name are followed by so many indices,
/// a function by so many indices and so many terms.
#[derive(Clone, Copy, Debug, PartialEq, Eq)]
pub enum Word {
    Plain(Plain),
    Free(u32),
    Bound(u32),
    Schema(u32),
    Find(u32),
    Action(u32, u32),
    Name(u32, u32),
    Function(u32, u32, u32),
}

impl Word {
    /// The word that is written so. None where no word is.
    pub fn of(text: &[u8]) -> Option<Word>
        ensures { result ≡ spec.word_of text.now }
    {
        let (letter, behind) = text.split_first()?;
        match *letter {
            b'x' => last_number(behind).map(Word::Free),
            b'b' => last_number(behind).map(Word::Bound),
            b's' => last_number(behind).map(Word::Schema),
            b'a' => two_numbers(behind).map(|(number, count)| Word::Action(number, count)),
            b'n' => two_numbers(behind).map(|(number, count)| Word::Name(number, count)),
            b'f' => with_f(text, behind),
            _ => Plain::of(text).map(Word::Plain),
        }
    }
}

/// The first byte, 0 where there is none.
fn head(bytes: &[u8]) -> u8
    ensures { result ≡ slice_index bytes.now 0 }
{
    bytes.first().copied().unwrap_or(0)
}

// The word that begins with f: a function, a find or a word without numbers.
fn with_f(text: &[u8], behind: &[u8]) -> Option<Word>
    requires { text.now ≡ 102 ∷ behind.now }
    ensures { result ≡ spec.with_f behind.now }
{
    if head(behind).is_ascii_digit() {
        return three_numbers(behind).map(|(number, counts)| Word::Function(
            number, counts.0, counts.1,
        ));
    }
    match behind.strip_prefix(b"ind") {
        Some(number) => last_number(number).map(Word::Find),
        None => Plain::of(text).map(Word::Plain),
    }
}
