// What replacing a term by an equal one does to a translation: functions without a body, whose
// contracts are the laws.
ghost use Rattle.sq_ground.specs.Replacing.{ReplacesTheMeaning, ReplacingEqualsIsCongruent};

/// The result of `replace_term` means the term with some places replaced: the meaning of what is
/// put in stands for the meaning of what was there. Neither of the two holds a loose bound
/// variable.
pub fn replacing_replaces_the_meaning()
    ensures { ReplacesTheMeaning }
{}

/// In a well-sorted term, equals may be replaced: where a line says that what is replaced and what
/// is put in mean the same, a line under the same hypotheses says so of the term and the result.
pub fn replacing_equals_is_congruent()
    ensures { ReplacingEqualsIsCongruent }
{}
