//! Archives that couldn't be read.
ghost use Rattle.std.specs.Prelude.{◌≡◌, Some};
ghost use Rattle.mairix_run.specs.Answered.{is_unread as is_unread_of, result_with_memory};

use mbox_cutter::CutFault;
use run_faults::Fault;

/// Returns what was written. If memory ran out as an archive was opened, its failed read becomes lack of memory.
pub(crate) fn report_lack_of_memory(
    written: Result<u8, Fault>,
    lacks_memory: bool,
) -> Result<u8, Fault>
    ensures { result ≡ result_with_memory lacks_memory written }
{
    match written {
        Err(fault) if lacks_memory && is_unread(fault) => Err(Fault::Memory),
        _ => written,
    }
}

/// Whether an archive couldn't be read.
fn is_unread(fault: Fault) -> bool
    ensures { result ≡ is_unread_of (Some fault) }
{
    match fault {
        Fault::Device => true,
        Fault::Archive { fault, .. } => matches!(fault, CutFault::Device),
        _ => false,
    }
}
