//! What a name leads to.
ghost use Rattle.std.specs.Prelude.{◌≡◌, Some, None};
ghost use Rattle.mairix_files.specs.PlaceChains.{LooksAt, look_by_answer, refusal_by_error};

use crate::links::leads_to_processes;
use named_files::{Look, Refusal};
use std::alloc::{AllocError, Global};
use system::{CallError, FileKind, Found, System};

/// Looks at what a name leads to. A link to what a process has open, such as `/dev/stdout`, is neither a file nor a folder,
/// whatever that is: no run replaces it (decision 58 in docs/DECISIONS.md).
#[tactic(auto, unfolding(crate::specs::PlaceChains::LooksAt))]
pub(crate) fn look_at<S: System>(
    system: &S,
    log: &mut S::Log,
    alloc: Global,
    name: &str,
) -> Result<Look, Refusal>
    ensures { LooksAt name.now result (S.calls log.old) (S.calls log.new) }
{
    match leads_to_processes(system, log, alloc, name) {
        Ok(true) => Ok(Look::Other),
        Ok(false) => look_of(system.look(log, name)),
        Err(AllocError) => Err(Refusal::Memory),
    }
}

/// Returns what was found under a name.
fn look_of(answer: Result<Found, CallError>) -> Result<Look, Refusal>
    ensures { result ≡ look_by_answer answer }
{
    match answer {
        Ok(found) => match found.kind {
            FileKind::File => Ok(Look::File(found.length)),
            FileKind::Folder => Ok(Look::Folder),
            FileKind::Link | FileKind::Other => Ok(Look::Other),
        },
        Err(CallError::NotFound) => Ok(Look::Nothing),
        Err(error) => Err(refusal_of(error)),
    }
}

/// Returns why the system refused a call.
pub(crate) fn refusal_of(error: CallError) -> Refusal
    ensures { result ≡ refusal_by_error error }
{
    match error {
        CallError::OutOfMemory => Refusal::Memory,
        _ => Refusal::Refused,
    }
}
