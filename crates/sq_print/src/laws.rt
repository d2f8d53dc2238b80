// Which name a bound variable has.
ghost use Rattle.std.specs.Prelude.{◌<◌, ℕ, List};
ghost use Rattle.sq_base.specs.declared.sort.Sort.{Sort};
ghost use Rattle.sq_print.specs.Names.{Names, names_count, binder_name, stem};
ghost use Rattle.sq_sym.specs.Candidates.{candidate_count};
ghost use Rattle.sq_print.specs.FreeNames.{IsFirstFree};

/// A bound variable has the first name of its stem that stands for nothing else where it is bound:
/// no symbol of the table, no variable or schema variable and no binder around it has the name.
pub fn a_binder_has_the_first_free_name()
    ensures { (ns : Names) (around : List (List ℕ)) (s : Sort)
        → names_count ns around < candidate_count
        → IsFirstFree ns around (stem s) (binder_name ns around s) }
{}
