//! Laws of how many replies a run has.
ghost use Rattle.std.specs.Prelude.{◌≡◌, ℕ, List, Ok, Result};
ghost use Rattle.index_run.specs.ArchivesIndexed.{mboxes};
ghost use Rattle.mairix_tool.specs.Asked.{Wanted};
ghost use Rattle.mairix_tool.specs.OneReply.{AreOneReply, IsEither, IsRefusedTwice};
ghost use Rattle.mairix_tool.specs.Replies.{Answer};
ghost use Rattle.mairix_tool.specs.Runs.{IsOnceReply, IsReply, IsStoredReply};
ghost use Rattle.run_faults.specs.declared.fault.Fault.{Fault};

/// A run over archives that it indexes itself has one reply. One case is left open: where the first archive at fault is too long, and
/// with it there are too many messages or keys, either is replied.
pub fn once_runs_have_one_reply()
    ensures by_messages { (asked : Result Wanted Fault) (bytes : List (List ℕ)) (a b : Answer)
        → IsReply asked bytes a → IsReply asked bytes b → AreOneReply asked bytes a b }
    ensures by_table { (asked : Result Wanted Fault) (bytes held : List (List ℕ)) (a b : Answer)
        → IsOnceReply asked bytes held a → IsOnceReply asked bytes held b
        → AreOneReply asked bytes a b }
    ensures either { (w : Wanted) (bytes held : List (List ℕ)) (number : ℕ) (answer : Answer)
        → IsRefusedTwice (mboxes w.paths bytes) number → IsEither number answer
        → IsReply (Ok w) bytes answer × IsOnceReply (Ok w) bytes held answer }
{}

/// A run over a stored index has one reply, whatever its words, and whatever the index and the archives hold.
pub fn stored_runs_have_one_reply(index: &[u8])
    ensures { (asked : Result Wanted Fault) (held : List (List ℕ)) (a b : Answer)
        → IsStoredReply asked index.now held a → IsStoredReply asked index.now held b → a ≡ b }
{}
