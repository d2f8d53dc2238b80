// The names that no binder may have.
ghost use Rattle.std.specs.Prelude.{◌≡◌, ◌||◌, ℕ, List, IfOk, OnOk};
ghost use Rattle.std.specs.HashSet.{contains_text};
ghost use Rattle.sq_sym.specs.Candidates.{among};
ghost use Rattle.sq_print.specs.Taken.{HasNames};

use sq_base::{NoMemory, Seq, Text};
use std::alloc::Global;
use std::collections::HashSet;

/// The names of variables and schema variables as a set, so that a name for a binder is looked up
/// among them and not searched for.
pub fn names_taken(
    alloc: Global,
    vars: &Seq<Text>,
    schemas: &Seq<Text>,
) -> Result<HashSet<String>, NoMemory>
    ensures { IfOk result (λ names. HasNames vars.now schemas.now names) }
{
    let mut names = HashSet::new(alloc);
    add_names(alloc, &mut names, vars.as_slice())?;
    add_names(alloc, &mut names, schemas.as_slice())?;
    Ok(names)
}

fn add_names(alloc: Global, names: &mut HashSet<String>, more: &[Text]) -> Result<(), NoMemory>
    ensures { OnOk result ((q : List ℕ) → contains_text names.new q
        ≡ (contains_text names.old q || among q more.now)) }
{
    for name in more {
        names.insert(String::from_str(alloc, name.as_str())?)?;
    }
    Ok(())
}
