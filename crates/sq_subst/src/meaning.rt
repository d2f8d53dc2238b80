// The laws of the substitutions in the words of translation, each as the contract of a function.
ghost use Rattle.sq_subst.specs.Laws.{OpeningIsTheValue, OpeningUndoesClosing};
ghost use Rattle.sq_subst.specs.Laws.{ReplacingKeepsTheValue, ProjectingKeepsTheSide};
ghost use Rattle.sq_subst.specs.Laws.{InstanceIsAtTheValues};

/// The opened body means what the body does with its variable at the argument's value.
pub fn opening_is_the_value()
    ensures { OpeningIsTheValue }
{}

/// A term without loose bound variables, closed over a variable of one sort and opened with that
/// variable, is the term again.
pub fn opening_undoes_closing()
    ensures { OpeningUndoesClosing }
{}

/// A timestamp or an index of the same value leaves the meaning as it was.
pub fn replacing_keeps_the_value()
    ensures { ReplacingKeepsTheValue }
{}

/// On its side a projection means what the term does.
pub fn projecting_keeps_the_side()
    ensures { ProjectingKeepsTheSide }
{}

/// An instance means what the term does at the values of the arguments and the meanings of the
/// terms, all at once.
pub fn instance_is_at_the_values()
    ensures { InstanceIsAtTheValues }
{}
