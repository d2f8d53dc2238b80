// Words at the end of a text.
ghost use Rattle.std.specs.Prelude.{◌≡◌, ◌∷◌, ◌++◌, OnOk, decimal};
ghost use Rattle.sq_cert_words.specs.Spelling as spec;

use itoa::Buffer;
use sq_base::{NoMemory, Text};

/// Writes a number.
pub fn write_number(out: &mut Text, number: u64) -> Result<(), NoMemory>
    ensures { OnOk result (out.new ≡ out.old ++ decimal number) }
{
    let mut buffer = Buffer::new();
    out.push_str(buffer.format(number))
}

/// Writes a blank and a word.
pub fn write_word(out: &mut Text, word: &str) -> Result<(), NoMemory>
    ensures { OnOk result (out.new ≡ out.old ++ 32 ∷ word.now) }
{
    out.push_str(" ")?;
    out.push_str(word)
}

/// Writes a word that ends with a number.
pub fn write_numbered(out: &mut Text, before: &str, number: u32) -> Result<(), NoMemory>
    ensures { OnOk result (out.new ≡ out.old ++ 32 ∷ spec.numbered before.now number) }
{
    write_word(out, before)?;
    write_number(out, u64::from(number))
}

/// Writes a word that ends with a number and a count.
pub fn write_counted(
    out: &mut Text,
    before: &str,
    number: u32,
    count: usize,
) -> Result<(), NoMemory>
    ensures { OnOk result (out.new ≡ out.old ++ 32 ∷ spec.counted before.now number count) }
{
    write_numbered(out, before, number)?;
    out.push_str("/")?;
    write_number(out, count as u64)
}

/// Writes the word of a function with its counts of indices and of terms.
pub fn write_applied(
    out: &mut Text,
    function: u32,
    indices: usize,
    terms: usize,
) -> Result<(), NoMemory>
    ensures { OnOk result (out.new ≡ out.old ++ 32 ∷ spec.applied function indices terms) }
{
    write_counted(out, "f", function, indices)?;
    out.push_str("/")?;
    write_number(out, terms as u64)
}
