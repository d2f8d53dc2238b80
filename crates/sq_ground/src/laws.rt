// What is proved of traces, translations and derivations: functions without a body, whose contracts
// are the laws.
ghost use Rattle.sq_ground.specs.Laws as law;
ghost use Rattle.sq_ground.specs.DerivationLaws as derivation;

/// The macros of a trace have the values of their table: each record is made of the one before it
/// and of the action's output and condition, which are read in the whole trace.
pub fn records_meet_the_table()
    ensures { law.RecordsMeetTheTable }
{}

/// The empty trace over one index is a model of every system, so that what is said of every model
/// is said of some.
pub fn every_system_has_a_model()
    ensures { law.EverySystemHasAModel }
{}

/// A trace formula is true or false of a trace, on both sides alike and by the truth tables alone.
pub fn trace_formulas_have_one_truth()
    ensures { law.TraceFormulasHaveOneTruth }
{}

/// A term's translation does not depend on variables that it does not name.
pub fn further_variable_changes_nothing()
    ensures { law.FurtherVariableChangesNothing }
{}

/// At a model of an environment's system a well-sorted term means a ground term of its sort, where
/// schema variables stand for messages.
pub fn translations_keep_sorts()
    ensures { law.TranslationsKeepSorts }
{}

/// Derivations can be put together: a line that follows from derivable ones is derivable.
pub fn derivations_compose()
    ensures { derivation.DerivationsCompose }
{}

/// Each instance of an axiom is derivable.
pub fn instances_are_derivable()
    ensures { derivation.InstancesAreDerivable }
{}

/// Derivable claims of one side give every claim that the truth tables make of them: this is what
/// each propositional step of the calculus rests on.
pub fn truth_tables_derive()
    ensures { derivation.TruthTablesDerive }
{}

/// What is derivable stays so with more axioms.
pub fn more_axioms_derive_no_less()
    ensures { derivation.MoreAxiomsDeriveNoLess }
{}

/// A lemma or an equivalence that holds before itself holds before each goal that may use it.
pub fn earlier_goals_still_hold()
    ensures { derivation.EarlierGoalsStillHold }
{}

/// Goals that hold as soon as those do that they may use hold at every model of their systems.
pub fn goals_hold_in_order()
    ensures { derivation.GoalsHoldInOrder }
{}
