//! Links that are followed.
ghost use Rattle.std.specs.Prelude.{◌≡◌, IfOk, OnErr};
ghost use Rattle.std.specs.Path.{path_bytes, path_buf_bytes};
ghost use Rattle.mairix_files.specs.LinkChains.{EndsLinks, EndsNotLinks, FollowsLink, FollowsNotLink, LeadsNowhere, LeadsToProcesses, LooksForProcesses, LooksUpward, begins_in_processes, is_on_device};

use std::alloc::{AllocError, Global};
use std::path::{Path, PathBuf};
use system::{CallError, Found, System};

/// The folder in which the system has a folder for each process.
const PROCESSES: &str = "/proc/";

/// A name in it that always exists.
const A_PROCESS: &str = "/proc/self";

/// The most links that the system follows.
const MOST_LINKS: usize = 40;

/// Returns a name; or if it is a link, the path to which that leads by all further links.
#[tactic(auto, unfolding(crate::specs::LinkChains::EndsLinks, crate::specs::LinkChains::EndsNotLinks, crate::specs::LinkChains::FollowsLink))]
pub(crate) fn end_of_links<S: System>(
    system: &S,
    log: &mut S::Log,
    alloc: Global,
    name: &str,
) -> Result<PathBuf, AllocError>
    ensures ended { IfOk result (λ end. EndsLinks name.now (path_buf_bytes end)
        (S.calls log.old) (S.calls log.new)) }
    ensures no_memory { OnErr result (EndsNotLinks name.now (S.calls log.old) (S.calls log.new)) }
{
    let mut path = PathBuf::from_str(alloc, name)?;
    for _ in 0..MOST_LINKS {
        if !follow(system, log, alloc, &mut path)? {
            return Ok(path);
        }
    }
    Ok(path)
}

/// Whether a name is a link into the system's folder of processes, by any text and through any other links.
#[tactic(auto, unfolding(crate::specs::LinkChains::LeadsToProcesses, crate::specs::LinkChains::LeadsNowhere, crate::specs::LinkChains::PassesLinks, crate::specs::LinkChains::FollowsLink))]
pub(crate) fn leads_to_processes<S: System>(
    system: &S,
    log: &mut S::Log,
    alloc: Global,
    name: &str,
) -> Result<bool, AllocError>
    ensures found { IfOk result (λ leads. LeadsToProcesses name.now leads
        (S.calls log.old) (S.calls log.new)) }
    ensures no_memory { OnErr result (LeadsNowhere name.now (S.calls log.old) (S.calls log.new)) }
{
    let mut path = PathBuf::from_str(alloc, name)?;
    for _ in 0..MOST_LINKS {
        if !follow(system, log, alloc, &mut path)? {
            return Ok(false);
        }
        if is_in_processes(system, log, path.as_path()) {
            return Ok(true);
        }
    }
    Ok(false)
}

/// Follows the path, if it is a link. Returns whether it was one.
#[tactic(auto, unfolding(crate::specs::LinkChains::FollowsLink, crate::specs::LinkChains::FollowsNotLink))]
fn follow<S: System>(
    system: &S,
    log: &mut S::Log,
    alloc: Global,
    path: &mut PathBuf,
) -> Result<bool, AllocError>
    ensures followed { IfOk result (λ is_link. FollowsLink is_link (path_buf_bytes path.old)
        (path_buf_bytes path.new) (S.calls log.old) (S.calls log.new)) }
    ensures no_memory { OnErr result (FollowsNotLink (path_buf_bytes path.old)
        (S.calls log.old) (S.calls log.new)) }
{
    match system.read_link(log, alloc, path.as_path().as_str()) {
        Ok(text) => match path.set_file_name(text.as_path().as_str()) {
            Ok(()) => Ok(true),
            Err(AllocError) => Err(AllocError),
        },
        Err(CallError::OutOfMemory) => Err(AllocError),
        Err(_) => Ok(false),
    }
}

/// Whether a path is in the system's folder of processes.
#[tactic(auto, unfolding(crate::specs::LinkChains::LooksForProcesses))]
fn is_in_processes<S: System>(system: &S, log: &mut S::Log, path: Path<'_>) -> bool
    ensures { LooksForProcesses (path_bytes path.entry) result (S.calls log.old) (S.calls log.new) }
{
    if begins_in_processes(path.as_str()) {
        return true;
    }
    match system.look_at_link(log, A_PROCESS) {
        Ok(process) => is_on_device(system, log, process.device, path),
        Err(_) => false,
    }
}

/// Whether a path is in the folder of processes by its text.
fn begins_in_processes(path: &str) -> bool
    ensures { result ≡ begins_in_processes path.now }
{
    path.as_bytes().starts_with(PROCESSES.as_bytes())
}

/// Whether a path, or one above it, is on a device.
#[tactic(auto, unfolding(crate::specs::LinkChains::LooksUpward))]
fn is_on_device<S: System>(system: &S, log: &mut S::Log, device: u64, path: Path<'_>) -> bool
    ensures { LooksUpward device (path_bytes path.entry) result
        (S.calls log.old) (S.calls log.new) }
{
    for place in path.ancestors() {
        let answer = system.look_at_link(log, place.as_str());
        if has_device(&answer, device) {
            return true;
        }
    }
    false
}

/// Whether a look found something on a device.
fn has_device(answer: &Result<Found, CallError>, device: u64) -> bool
    ensures { result ≡ is_on_device device answer.now }
{
    match answer {
        Ok(found) => found.device == device,
        Err(_) => false,
    }
}
