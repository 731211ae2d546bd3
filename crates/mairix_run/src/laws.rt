//! Laws of what is read of a file.
ghost use Rattle.std.specs.Prelude.{◌↔◌, ℕ, List, Result};
ghost use Rattle.mail_index.specs.Faults.{IsFileOfTable, IsFirstFaultOfFile};
ghost use Rattle.mail_index.specs.Tables.{Table};
ghost use Rattle.mail_index.specs.declared.view.fault.IndexFault.{IndexFault};
ghost use Rattle.mairix_run.specs.IndexReads.{IsIndexRead};
ghost use Rattle.mairix_tool.specs.Asked.{Wanted};
ghost use Rattle.mairix_tool.specs.Replies.{Answer};
ghost use Rattle.mairix_tool.specs.Runs.{IsRefusedAs, IsStoredReply};
ghost use Rattle.run_faults.specs.declared.fault.Fault.{Fault};

/// What is read of an index has the same first fault as the whole file, and is the file of the same table. So whoever
/// opens it finds what there is to find in the whole file.
pub fn what_is_read_of_an_index_serves_for_all()
    ensures faults { (all bytes : List ℕ) (fault : IndexFault) → IsIndexRead all bytes
        → IsFirstFaultOfFile bytes fault ↔ IsFirstFaultOfFile all fault }
    ensures tables { (all bytes : List ℕ) (t : Table) → IsIndexRead all bytes
        → IsFileOfTable bytes t ↔ IsFileOfTable all t }
{}

/// A search over what is read of an index has the replies of a search over the whole file, and is refused as that is.
pub fn what_is_read_of_an_index_is_answered_as_all()
    ensures replies { (asked : Result Wanted Fault) (all bytes : List ℕ) (held : List (List ℕ))
        (answer : Answer) → IsIndexRead all bytes
        → IsStoredReply asked bytes held answer ↔ IsStoredReply asked all held answer }
    ensures refusals { (asked : Result Wanted Fault) (all bytes : List ℕ) (fault : Fault)
        → IsIndexRead all bytes → IsRefusedAs asked bytes fault ↔ IsRefusedAs asked all fault }
{}
