//! Rows: what runs have to do, which names they use, and which names are refused, as worked out by hand.
ghost use Rattle.mairix_run.specs.WorkedTasks as row;
ghost use Rattle.mairix_run.specs.WorkedTasks.{IsRefusedAsWorked, IsWorkedTask};

/// The definitions of a task, and of the names that a run uses, give what was worked out by hand.
#[tactic(auto, unfolding(crate::proofs::RowsTasks::asking))]
pub fn tasks_are_as_worked_by_hand()
    ensures refused_words { IsWorkedTask row.refused_words }
    ensures no_archive { IsWorkedTask row.no_archive }
    ensures index_run { IsWorkedTask row.index_run }
    ensures once { IsWorkedTask row.once }
    ensures no_index { IsWorkedTask row.no_index }
    ensures to_mfolder { IsWorkedTask row.to_mfolder }
    ensures to_output { IsWorkedTask row.to_output }
    ensures bad_query { IsWorkedTask row.query_after_files }
{}

/// The definition of a refused name gives what was worked out by hand.
#[tactic(auto, unfolding(crate::specs::WorkedTasks::IsRefusedAsWorked))]
pub fn refused_names_are_as_worked_by_hand()
    ensures old_index { IsRefusedAsWorked row.old_index }
    ensures name_of_mail { IsRefusedAsWorked row.name_of_mail }
    ensures left_by_killed { IsRefusedAsWorked row.left_by_killed }
    ensures name_of_archive { IsRefusedAsWorked row.name_of_archive }
{}
