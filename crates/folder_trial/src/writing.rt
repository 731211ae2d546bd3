//! Calls that make a file.
ghost use Rattle.std.specs.Prelude.{◌≡◌, ◌<◌, ◌-◌, ◌^◌, None, Some, IfOk};
ghost use Rattle.std.specs.Result.{MatchResult};

use crate::answers::{looked, refused};
use crate::reading::read_back;
use mbox_cutter::{DeviceFault, send};
use named_files::{Folder, NameFault, Refusal, replace_file, take_name};
use std::alloc::{AllocError, Global};

/// The names of a call that makes a file.
#[derive(Drop)]
pub(crate) struct Names<N: Drop> {
    pub(crate) name: N,
    pub(crate) temporary: N,
}

/// Makes a file under a temporary name, and writes these bytes.
fn begun<F: Folder>(
    folder: &mut F,
    alloc: Global,
    reports: &mut F::Reports,
    temporary: &F::Name,
    bytes: &str,
) -> Result<F::New, Refusal>
    requires { F.making folder.old ≡ None }
    ensures making { MatchResult result
        (λ _. F.making folder.new ≡ Some (F.Name.text temporary.now))
        (λ _. F.making folder.new ≡ None) }
    ensures count { IfOk result (λ new. F.New.failures new < 2 ^ 64 - 1) }
{
    let mut new = match folder.create(alloc, reports, temporary) {
        Ok(new) => new,
        Err(why) => return Err(why),
    };
    if let Err(DeviceFault) = send(&mut new, bytes.as_bytes()) {
        folder.discard(new);
        return Err(Refusal::Refused);
    }
    Ok(new)
}

/// Makes a file under the temporary name, and gives it its name.
pub(crate) fn made<F: Folder>(
    folder: &mut F,
    alloc: Global,
    reports: &mut F::Reports,
    names: &Names<F::Name>,
    bytes: &str,
) -> Result<String, AllocError>
    requires { F.making folder.old ≡ None }
    ensures { F.making folder.new ≡ None }
{
    match begun(folder, alloc, reports, &names.temporary, bytes) {
        Ok(new) => {
            let done = take_name(folder, alloc, new, &names.temporary, &names.name);
            String::from_str(alloc, ending(done))
        }
        Err(why) => refused(alloc, why),
    }
}

/// Makes a file under the temporary name, looks at the other name, and removes the file.
pub(crate) fn discarded<F: Folder>(
    folder: &mut F,
    alloc: Global,
    reports: &mut F::Reports,
    names: &Names<F::Name>,
    bytes: &str,
) -> Result<String, AllocError>
    requires { F.making folder.old ≡ None }
    ensures { F.making folder.new ≡ None }
{
    match begun(folder, alloc, reports, &names.temporary, bytes) {
        Ok(new) => {
            let meanwhile = looked(folder, alloc, reports, &names.name);
            folder.discard(new);
            format!(in alloc; "meanwhile {}", meanwhile?)
        }
        Err(why) => refused(alloc, why),
    }
}

/// Replaces a file by another one.
pub(crate) fn replaced<F: Folder>(
    folder: &mut F,
    alloc: Global,
    reports: &mut F::Reports,
    names: &Names<F::Name>,
    bytes: &str,
) -> Result<String, AllocError>
    requires { F.making folder.old ≡ None }
    ensures { F.making folder.new ≡ None }
{
    let bytes = bytes.as_bytes();
    let done = replace_file(folder, alloc, reports, &names.temporary, &names.name, bytes);
    String::from_str(alloc, ending(done))
}

/// Opens a plain file, replaces it by another one, and reads what was opened.
pub(crate) fn read_over<F: Folder>(
    folder: &mut F,
    alloc: Global,
    reports: &mut F::Reports,
    names: &Names<F::Name>,
    bytes: &str,
) -> Result<String, AllocError>
    requires { F.making folder.old ≡ None }
    ensures { F.making folder.new ≡ None }
{
    match folder.open_plain(alloc, &names.name) {
        Ok(file) => {
            let done = replaced(folder, alloc, reports, names, bytes);
            let read = read_back(folder, alloc, reports, file);
            format!(in alloc; "{}, {}", done?, read?)
        }
        Err(why) => refused(alloc, why),
    }
}

/// Says how a file was given its name.
fn ending(done: Result<(), NameFault>) -> &'static str {
    match done {
        Ok(()) => "named",
        Err(NameFault::NotNamed(_)) => "not named",
        Err(NameFault::NotSynced(_)) => "not synced",
    }
}
