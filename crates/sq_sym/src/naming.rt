// Names that a name which is not taken is chosen from.
ghost use Rattle.std.specs.Prelude.{◌≡◌, IfOk, string_bytes};
ghost use Rattle.std.specs.Fmt.{decimal};
ghost use Rattle.sq_sym.specs.Candidates as fresh;

use sq_base::{NoMemory, Text};
use std::alloc::Global;

/// The stem where the number is 0, and the stem with the number in decimal digits else.
pub fn candidate(alloc: Global, stem: &str, number: u32) -> Result<Text, NoMemory>
    ensures { IfOk result (λ t. t ≡ fresh.candidate stem.now number) }
{
    let mut name = Text::from_str(alloc, stem)?;
    if number == 0 {
        return Ok(name);
    }
    let digits = number_text(alloc, number)?;
    name.push_str(digits.as_str())?;
    Ok(name)
}

fn number_text(alloc: Global, number: u32) -> Result<String, NoMemory>
    ensures { IfOk result (λ s. string_bytes s ≡ decimal number) }
{
    Ok(format!(in alloc; "{number}")?)
}
