// What the definition of elaboration comes to: functions without a body, whose contracts are the
// laws.
ghost use Rattle.sq_elab.specs.Laws as law;
ghost use Rattle.sq_elab.specs.Tasks as task;
ghost use Rattle.sq_elab.specs.Walks as walk;

/// A process is refused with the fault of its first place, in preorder, that has one.
pub fn a_refusal_is_that_of_the_first_place()
    ensures { law.TheFirstPlaceCounts }
{}

/// Actions are numbered in the order of their closing nodes.
pub fn actions_are_numbered_in_order()
    ensures { law.AreNumberedInOrder }
{}

/// Instances of actions in the two branches of one test are in conflict where their common indices
/// are equal. So are those where one `find` found and where it did not, and those where it found
/// other indices.
pub fn branches_exclude_each_other()
    ensures tests { law.BranchesExclude }
    ensures finds { law.FindsExclude }
    ensures found { law.FoundIndicesExclude }
{}

/// The parts of a parallel add no choice to those of the way to it.
pub fn parts_of_a_parallel_do_not_exclude_each_other()
    ensures { law.PartsDoNotExclude }
{}

/// A test stands in the condition of the next action behind it: F in one branch and `not(F)` in the
/// other.
pub fn tests_stand_in_conditions()
    ensures tests { law.TestsAreInConditions }
    ensures finds { law.FindsAreInConditions }
{}

/// The variable of an `in` means the input of the first action that is closed behind it.
pub fn an_input_is_that_of_the_first_action_behind_it()
    ensures { law.InputsAreOfTheFirst }
{}

/// Calls in a process behind so many declarations go no deeper than that, so none is left out.
pub fn calls_go_no_deeper_than_there_are_declarations()
    ensures { law.DeeperCallsChangeNothing }
{}

/// A process that is not refused has at most 1,024 actions, with conditions and outputs no deeper
/// than a system may have them.
pub fn systems_are_within_limits()
    ensures { law.SystemsAreWithinLimits }
{}

/// An action's parent comes before it, and the action's path goes on from the parent's. So the
/// parent's indices are the first ones of the action.
pub fn parents_go_before()
    ensures { law.ParentsGoBefore }
{}

/// A new name or an action has the first of n, n1, n2 and so on that is not in the table.
pub fn fresh_names_are_first()
    ensures { law.FreshNamesAreFirst }
{}

/// So no name stands twice in the table with the new ones behind.
pub fn names_stay_apart()
    ensures { law.NamesStayApart }
{}

/// The actions of a process that is not refused are what every system keeps: parents before their
/// actions, as many indices as the path has, conditions and outputs that read inputs of their own
/// line alone, and limits.
pub fn systems_keep_their_facts()
    ensures { law.SystemsKeepTheirFacts }
{}

/// A walk over the events of a process goes on where it stood.
pub fn a_walk_goes_on_where_it_stood()
    ensures { walk.WalksGoOn }
{}

/// What the variables of a way mean is read off what is held at its end, once the next action is
/// known.
pub fn values_are_read_off_the_line()
    ensures { walk.ValuesAreReadOffTheLine }
{}

/// A walk that keeps a list of what is left, and takes its last part first, passes all of it in
/// order.
pub fn what_is_left_goes_on()
    ensures { task.WhatIsLeftGoesOn }
{}
