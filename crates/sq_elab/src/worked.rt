// Small processes and what they come to: functions without a body, whose contracts are proved by
// computation.
ghost use Rattle.std.specs.Prelude.{◌≡◌, [], ◌∷◌, Some, None, Err, codes};
ghost use Rattle.sq_base.specs.declared.sort.Sort.TheVariants.{Message, Index, Timestamp};
ghost use Rattle.sq_term.specs.Systems.{clash};
ghost use Rattle.sq_elab.specs.declared.fault.ElabFault.TheVariants as fault;
ghost use Rattle.sq_elab.specs.Outcome.{outcome};
ghost use Rattle.sq_elab.specs.Worked.{a_, answering, answering_gives, base, basic_hash};
ghost use Rattle.sq_elab.specs.Worked.{basic_hash_paths, both_processes, c_, calling};
ghost use Rattle.sq_elab.specs.Worked.{calling_gives, calling_twice, calling_twice_gives};
ghost use Rattle.sq_elab.specs.Worked.{comparing_init, counts_and_paths, creating};
ghost use Rattle.sq_elab.specs.Worked.{creating_gives, deciding, deciding_gives};
ghost use Rattle.sq_elab.specs.Worked.{equal_parameters, finding, finding_gives, finding_path};
ghost use Rattle.sq_elab.specs.Worked.{hidden_channel, hidden_process, i_, index_elsewhere};
ghost use Rattle.sq_elab.specs.Worked.{index_with_argument, labelled, labelled_gives};
ghost use Rattle.sq_elab.specs.Worked.{late_labels, late_labels_give, message_argument};
ghost use Rattle.sq_elab.specs.Worked.{name_with_argument, nothing, nothing_found_path};
ghost use Rattle.sq_elab.specs.Worked.{nothing_gives, one_name_twice, one_name_twice_gives};
ghost use Rattle.sq_elab.specs.Worked.{one_process, own_action, process_p, process_q, reader};
ghost use Rattle.sq_elab.specs.Worked.{readers, readers_give, reading_input, searching};
ghost use Rattle.sq_elab.specs.Worked.{searching_gives, self_call, sending_first};
ghost use Rattle.sq_elab.specs.Worked.{sending_first_gives, sending_init, sending_x};
ghost use Rattle.sq_elab.specs.Worked.{short_call, side_by_side, side_by_side_gives, tag};
ghost use Rattle.sq_elab.specs.Worked.{tag_and_reader, tags, tags_give, two_inputs};
ghost use Rattle.sq_elab.specs.Worked.{two_inputs_give, unseen_variable, with_label, x_};

/// What small processes come to, by computation: `specs/Worked` has each process and its actions.
pub fn small_processes_have_these_actions()
    ensures answering_gives { outcome (base [] []) answering ≡ answering_gives }
    ensures two_inputs_give { outcome (base [] []) two_inputs ≡ two_inputs_give }
    ensures searching_gives { outcome (base [] []) searching ≡ searching_gives }
    ensures deciding_gives { outcome (base [] []) deciding ≡ deciding_gives }
    ensures side_by_side_gives { outcome (base [] []) side_by_side ≡ side_by_side_gives }
    ensures creating_gives { outcome (base [] []) creating ≡ creating_gives }
    ensures labelled_gives { outcome (base with_label []) labelled ≡ labelled_gives }
    ensures calling_gives { outcome (base both_processes (process_p ∷ process_q ∷ [])) calling
        ≡ calling_gives }
    ensures tags_give { outcome (base tag_and_reader (tag ∷ reader ∷ [])) tags ≡ tags_give }
    ensures readers_give { outcome (base tag_and_reader (tag ∷ reader ∷ [])) readers
        ≡ readers_give }
    ensures basic_hash_paths { counts_and_paths (base tag_and_reader (tag ∷ reader ∷ [])) basic_hash
        ≡ basic_hash_paths }
    ensures finding_gives { outcome (base [] []) finding ≡ finding_gives }
    ensures one_name_twice_gives { outcome (base [] []) one_name_twice ≡ one_name_twice_gives }
    ensures late_labels_give { outcome (base [] []) late_labels ≡ late_labels_give }
    ensures sending_first_gives { outcome (base [] []) sending_first ≡ sending_first_gives }
    ensures calling_twice_gives { outcome (base one_process (equal_parameters ∷ [])) calling_twice
        ≡ calling_twice_gives }
    ensures nothing_gives { outcome (base [] []) nothing ≡ nothing_gives }
{}

/// Where one `find` found and where it did not, actions clash if the indices before it are equal;
/// where it found twice, if the found indices differ too.
pub fn where_a_find_found_and_where_not_clash()
    ensures found_and_not { clash finding_path nothing_found_path 0
        ≡ Some (record { agree = 1; differ = 0 }) }
    ensures found_twice { clash finding_path finding_path 0
        ≡ Some (record { agree = 1; differ = 2 }) }
    ensures not_found_twice { clash nothing_found_path nothing_found_path 0 ≡ None }
{}

/// What small processes are refused with: the first place counts, and at one place the first kind.
pub fn small_processes_are_refused()
    ensures hidden { outcome (base [] []) hidden_channel ≡ Err (fault.Unknown c_) }
    ensures no_process_reads_input { outcome (base [] []) reading_input ≡ Err fault.ProcessShape }
    ensures index_takes_none { outcome (base [] []) index_with_argument ≡ Err (fault.Arity i_ 0 1) }
    ensures init_is_no_message { outcome (base [] []) sending_init
        ≡ Err (fault.SortClash Message Timestamp) }
    ensures no_process_speaks_of_init { outcome (base [] []) comparing_init
        ≡ Err fault.ProcessShape }
    ensures own_name_is_unknown { outcome (base [] []) own_action ≡ Err (fault.Unknown a_) }
    ensures call_is_short { outcome (base both_processes (process_p ∷ process_q ∷ [])) short_call
        ≡ Err (fault.Arity (codes "P") 2 1) }
    ensures variable_is_unseen { outcome (base one_process (sending_x ∷ [])) unseen_variable
        ≡ Err (fault.Unknown x_) }
    ensures no_process_calls_itself { outcome (base one_process (self_call ∷ [])) self_call.body
        ≡ Err (fault.Unknown (codes "P")) }
    ensures process_is_hidden { outcome (base one_process (self_call ∷ [])) hidden_process
        ≡ Err (fault.Unknown (codes "P")) }
    ensures index_is_not_found { outcome (base [] []) index_elsewhere ≡ Err (fault.Unknown i_) }
    ensures name_takes_none { outcome (base [] []) name_with_argument ≡ Err (fault.Arity x_ 0 1) }
    ensures index_is_wanted { outcome (base one_process (equal_parameters ∷ [])) message_argument
        ≡ Err (fault.SortClash Index Message) }
{}
