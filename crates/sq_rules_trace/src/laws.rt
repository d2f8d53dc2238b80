// What is proved of the rows of time: functions without a body, whose contracts are the laws.
ghost use Rattle.sq_rules_trace.specs.Laws as law;

/// Each fact that a step of time makes a hypothesis is true in every trace of the goal's system, on
/// both sides and also of timestamps that do not happen.
pub fn time_facts_are_true()
    ensures { law.TimeFactsAreTrue }
{}

/// Each such fact may stand in the sequent: it is a well-sorted trace formula over its variables.
pub fn time_facts_may_stand()
    ensures { law.TimeFactsMayStand }
{}

/// The premises of a well-formed sequent are well-formed, where they are within the limits.
pub fn time_rows_keep_well_formed()
    ensures { law.TimeRowsKeepWellFormed }
{}

/// Where the premises of a row of time hold at a model, the sequent does.
pub fn time_rows_are_sound()
    ensures { law.TimeRowSound }
{}

/// The premises that are computed for a step are those of its row.
pub fn computed_premises_are_those_of_the_row()
    ensures { law.ComputedIsTheRow }
{}
