//! Answers from an index.
ghost use Rattle.std.specs.Prelude.{◌≡◌, ◌<◌, ◌^◌, ◌-◌, ℕ, List, Some};
ghost use Rattle.mail_answer.specs.Asked.{HoldsArchives};
ghost use Rattle.mairix_tool.specs.Asked.{shown_wanted};
ghost use Rattle.mairix_tool.specs.Inside.Answering.{AsksIndex};
ghost use Rattle.mairix_tool.specs.Searching.{Searches};
ghost use Rattle.mairix_tool.specs.Runs.{IsAnswerOrStale, RepliesBy, reply_of, IsCountedWhere, fault_of_answer_kind};

use crate::wanted::Wanted;
use mail_answer::{AnswerFault, AnswerFaultKind, Archives, answer};
use mail_index::IndexView;
use mbox_cutter::Out;
use run_faults::Fault;
use std::alloc::Global;

/// Writes what the index answers to what is wanted, and returns the number of messages.
pub(crate) fn answer_view<A: Archives, O: Out>(
    alloc: Global,
    index: &IndexView<'_>,
    wanted: &Wanted,
    archives: &mut A,
    out: &mut O,
) -> Result<u64, Fault>
    requires archives { A.failures archives.old < 2 ^ 64 - 1 }
    requires out { O.failures out.old < 2 ^ 64 - 1 }
    ensures keeps { HoldsArchives A.Archives archives.old archives.new }
    ensures told { (held : List (List ℕ)) → A.held archives.new ≡ Some held
        → RepliesBy (IsAnswerOrStale index.now (shown_wanted wanted.now).search held)
        (reply_of result) (O.taken out.old) (O.taken out.new) }
    ensures counted { IsCountedWhere index.now (shown_wanted wanted.now).search
        (A.held archives.new) (reply_of result).fault (reply_of result)
        (O.taken out.old) (O.taken out.new) }
    ensures asks { AsksIndex A.Archives O.Out (shown_wanted wanted.now).search
        archives.old archives.new out.old out.new result }
    ensures searched { Searches A.Archives O.Out index.now (shown_wanted wanted.now).search
        archives.old archives.new out.old out.new (reply_of result) }
{
    let found = answer(
        alloc,
        index,
        &wanted.query,
        wanted.threads,
        wanted.format,
        archives,
        out,
    );
    found.map_err(run_fault_of_answer)
}

/// Returns the fault of a run for a fault of an answer.
pub(crate) fn run_fault_of_answer(fault: AnswerFault) -> Fault
    ensures { result ≡ fault_of_answer_kind fault.kind }
{
    match fault.kind {
        AnswerFaultKind::Stale(n) => Fault::Stale(u64::from(n)),
        AnswerFaultKind::Device => Fault::Device,
        AnswerFaultKind::OutOfMemory => Fault::Memory,
        AnswerFaultKind::OutFailed => Fault::Out,
    }
}
