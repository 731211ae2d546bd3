//! The end of what a run prints.
ghost use Rattle.std.specs.Prelude.{◌<◌, ◌-◌, ◌^◌, OnOk};
ghost use Rattle.mairix_run.specs.LastFlush.{IsFlushed};

use crate::stream::Stream;
use run_faults::Fault;

/// Flushes the output of a run that succeeded, and returns the status. If that fails, the output has failed.
pub fn flushed<O: Stream>(written: Result<u8, Fault>, out: &mut O) -> Result<u8, Fault>
    requires { OnOk written (O.failures out.old < 2 ^ 64 - 1) }
    ensures status { IsFlushed O.Out O.handed_on written out.old out.new result }
{
    if written.is_ok() && out.flush().is_err() {
        Err(Fault::Out)
    } else {
        written
    }
}
