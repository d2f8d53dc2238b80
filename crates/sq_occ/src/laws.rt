// What is proved of occurrence lists: functions without a body, whose contracts are the laws.
ghost use Rattle.sq_occ.specs.Listed as listed;
ghost use Rattle.sq_occ.specs.Facts as facts;
ghost use Rattle.sq_occ.specs.Met as met;
ghost use Rattle.sq_occ.specs.Atoms as atoms;
ghost use Rattle.sq_occ.specs.ClosedLists as closed;
ghost use Rattle.sq_occ.specs.Scope as scope;

/// The occurrence theorem: in every model, each place where a name stands in what a term means, at
/// any depth of its macros, is the value of an entry of the list.
pub fn every_occurrence_is_listed()
    ensures { listed.EveryOccurrenceIsListed }
{}

/// A name that stands at no place of the list does not occur: where the formula that it stands at
/// one of them is false, the term's meaning is free of it.
pub fn absent_where_no_entry()
    ensures { facts.AbsentWhereNoEntry }
{}

/// The formula over a list is true exactly where an entry is met at values of its binders, under
/// each valuation and with whatever is asked beside.
pub fn formula_says_what_is_met()
    ensures { met.FormulaSaysWhatIsMet }
{}

/// Where a list has keys of one function alone, each occurrence is a key of it, of its entry's
/// message.
pub fn keys_alone()
    ensures { met.KeysAlone }
{}

/// A term without schema variables means a ground term without atoms.
pub fn meanings_hold_no_atom()
    ensures { atoms.MeaningsHoldNoAtom }
{}

/// Lists are closed under messages: an occurrence of a name in the message of an entry, at values
/// that make its guard true, is that of an entry of that name's list.
pub fn messages_are_listed()
    ensures { closed.MessagesAreListed }
{}

/// What an entry of a well-sorted term says is well-sorted below its binders, which bind indices
/// and timestamps alone.
pub fn entries_are_in_scope()
    ensures { scope.EntriesAreInScope }
{}
