//! What a killed run has left under the name of a new file.
//!
//! A run removes only such files (decision 93 in docs/DECISIONS.md).
ghost use Rattle.std.specs.Prelude.{◌≡◌, IfErr, IfOk, MatchOption, OnOk, length};
ghost use Rattle.mairix_files.specs.LeftoverChains.{FindsNothing, LocksFound, LocksLeftover, LocksNoLeftover, LocksNotFound, OpensLeftover, OpensNoLeftover};

use crate::answers::{is_left, is_one_node};
use crate::new_file::lock;
use std::alloc::Global;
use system::{CallError, Found, System};

/// A path whose owner is that of the files that this process makes.
const THIS_PROCESS: &str = "/proc/self";

/// Finds what a killed run left under a name, and locks it: a plain file of this process's owner, with the mark of a
/// new file, that no other run has locked. Returns None if the name is free.
///
/// # Errors
///
/// If anything else has the name; otherwise what the system refused.
#[tactic(auto, unfolding(crate::specs::LeftoverChains::LocksLeftover, crate::specs::LeftoverChains::FindsNothing, crate::specs::LeftoverChains::LocksNoLeftover))]
pub(crate) fn lock_leftover<S: System>(
    system: &S,
    log: &mut S::Log,
    alloc: Global,
    name: &str,
) -> Result<Option<S::File>, CallError>
    ensures found { IfOk result (λ found. MatchOption found
        (FindsNothing name.now (S.calls log.old) (S.calls log.new))
        (λ left. LocksLeftover name.now (S.number left) (S.calls log.old) (S.calls log.new))) }
    ensures not_found { IfErr result (λ error.
        LocksNoLeftover name.now error (S.calls log.old) (S.calls log.new)) }
{
    match system.look_at_link(log, name) {
        Ok(found) => match lock_found(system, log, alloc, name, &found) {
            Ok(left) => Ok(Some(left)),
            Err(error) => Err(error),
        },
        Err(CallError::NotFound) => Ok(None),
        Err(error) => Err(error),
    }
}

/// Locks the file that was found under a name, if a killed run left it.
#[tactic(auto, unfolding(crate::specs::LeftoverChains::LocksFound, crate::specs::LeftoverChains::LocksNotFound))]
fn lock_found<S: System>(
    system: &S,
    log: &mut S::Log,
    alloc: Global,
    name: &str,
    found: &Found,
) -> Result<S::File, CallError>
    ensures locked { IfOk result (λ left. LocksFound found.now name.now (S.number left)
        (S.calls log.old) (S.calls log.new)) }
    ensures not_locked { IfErr result (λ error. LocksNotFound found.now name.now error
        (S.calls log.old) (S.calls log.new)) }
{
    let seen = open_found(system, log, name, found)?;
    // Some file systems lock a file only if it is open for writing.
    let left = system.reopen(log, alloc, &seen)?;
    lock(system, log, &left, name)?;
    Ok(left)
}

/// Opens the file that was found under a name, if a killed run left it. The name may be a link by now, and what a link
/// leads to mustn't be opened for writing.
#[tactic(auto, unfolding(crate::specs::LeftoverChains::OpensLeftover, crate::specs::LeftoverChains::OpensNoLeftover))]
fn open_found<S: System>(
    system: &S,
    log: &mut S::Log,
    name: &str,
    found: &Found,
) -> Result<S::File, CallError>
    ensures opened { IfOk result (λ seen. OpensLeftover found.now name.now (S.number seen)
        (S.calls log.old) (S.calls log.new)) }
    ensures not_opened { IfErr result (λ error. OpensNoLeftover found.now name.now error
        (S.calls log.old) (S.calls log.new)) }
{
    let process = system.look(log, THIS_PROCESS)?;
    if !is_left(found, &process) {
        return Err(CallError::Other);
    }
    let seen = system.open(log, name)?;
    let opened = system.look_at_file(log, &seen)?;
    if is_one_node(found, &opened) {
        Ok(seen)
    } else {
        Err(CallError::Other)
    }
}
