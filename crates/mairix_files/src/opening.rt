//! Files that are opened to read them.
ghost use Rattle.std.specs.Prelude.{◌≡◌, IfErr, IfOk, OnOk, length};
ghost use Rattle.mairix_files.specs.OpenChains.{ComparesOutput, FindsOutput, OpensFile, OpensNotFile, OpensNotPlain, OpensPlain};

use crate::answers::found_one_file;
use crate::looks::refusal_of;
use named_files::Refusal;
use system::{Found, System};

/// A name in the system's folder of processes that leads to the standard output of this process.
const STANDARD_OUTPUT: &str = "/proc/self/fd/1";

/// Returns the plain file that is the standard output, if it is one and the system reports it.
#[tactic(auto, unfolding(crate::specs::OpenChains::FindsOutput))]
pub(crate) fn output_file<S: System>(system: &S, log: &mut S::Log) -> Option<Found>
    ensures { FindsOutput result (S.calls log.old) (S.calls log.new) }
{
    match system.look(log, STANDARD_OUTPUT) {
        Ok(found) if found.kind.is_file() => Some(found),
        _ => None,
    }
}

/// Opens what a name leads to, to read it. The standard output is refused, because what is written to it would be read.
#[tactic(auto, unfolding(crate::specs::OpenChains::OpensFile, crate::specs::OpenChains::OpensNotFile))]
pub(crate) fn open_file<S: System>(
    system: &S,
    log: &mut S::Log,
    output: &Option<Found>,
    name: &str,
) -> Result<S::File, Refusal>
    ensures opened { OnOk result (OpensFile name.now output.now
        (S.calls log.old) (S.calls log.new)) }
    ensures not_opened { IfErr result (λ why. OpensNotFile name.now output.now why
        (S.calls log.old) (S.calls log.new)) }
    ensures number { IfOk result (λ file. S.number file ≡ length (S.calls log.old)) }
{
    match system.open(log, name) {
        Ok(file) => {
            if is_output(system, log, output, &file) {
                return Err(Refusal::Refused);
            }
            Ok(file)
        }
        Err(error) => Err(refusal_of(error)),
    }
}

/// Opens a plain file, to read it. What isn't one isn't opened: a pipe isn't open before another program writes to it.
#[tactic(auto, unfolding(crate::specs::OpenChains::OpensPlain, crate::specs::OpenChains::OpensNotPlain))]
pub(crate) fn open_plain_file<S: System>(
    system: &S,
    log: &mut S::Log,
    output: &Option<Found>,
    name: &str,
) -> Result<S::File, Refusal>
    ensures opened { OnOk result (OpensPlain name.now output.now (S.calls log.old)
        (S.calls log.new)) }
    ensures not_opened { IfErr result (λ why. OpensNotPlain name.now output.now why
        (S.calls log.old) (S.calls log.new)) }
{
    match system.look(log, name) {
        Ok(found) => {
            if found.kind.is_file() {
                return open_file(system, log, output, name);
            }
            Err(Refusal::Refused)
        }
        Err(error) => Err(refusal_of(error)),
    }
}

/// Whether an open file is the standard output.
#[tactic(auto, unfolding(crate::specs::OpenChains::ComparesOutput))]
fn is_output<S: System>(
    system: &S,
    log: &mut S::Log,
    output: &Option<Found>,
    file: &S::File,
) -> bool
    ensures { ComparesOutput output.now (S.number file.now) result
        (S.calls log.old) (S.calls log.new) }
{
    match output {
        Some(output) => {
            let found = system.look_at_file(log, file);
            found_one_file(&Ok(*output), &found)
        }
        None => false,
    }
}
