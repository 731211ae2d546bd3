//! Rows: whole runs, and what they reply. Words, rcfile, archives and replies were worked out by hand.
ghost use Rattle.mairix_tool.specs.WorkedReplies as row;
ghost use Rattle.mairix_tool.specs.WorkedReplies.{IsWorkedReply};

/// The definitions reply what was worked out by hand.
pub fn replies_are_as_worked_by_hand()
    ensures raw { IsWorkedReply row.raw }
    ensures several { IsWorkedReply row.several }
    ensures folded { IsWorkedReply row.folded_word }
    ensures parts { IsWorkedReply row.inner_and_outer }
    ensures no_message { IsWorkedReply row.no_message }
    ensures mbox { IsWorkedReply row.mbox }
    ensures excerpt { IsWorkedReply row.excerpt_reply }
    ensures negated { IsWorkedReply row.unwanted_word }
    ensures alone { IsWorkedReply row.one_of_thread }
    ensures threads { IsWorkedReply row.threads }
    ensures boolean { IsWorkedReply row.boolean }
    ensures bad_words { IsWorkedReply row.bad_words }
    ensures bad_rcfile { IsWorkedReply row.empty_rcfile }
    ensures bad_query { IsWorkedReply row.unknown_prefix }
    ensures no_mbox { IsWorkedReply row.no_mbox }
{}
