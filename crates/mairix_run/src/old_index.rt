//! The file that a new index replaces.
//!
//! It is an index, or empty (decision 94 in docs/DECISIONS.md).
ghost use Rattle.std.specs.Prelude.{◌≡◌, ◌⊎◌, true, false, IfErr, OnOk};
ghost use Rattle.named_files.specs.AddedReports.{AddsReports};
ghost use Rattle.mairix_run.specs.OldIndexes.{is_foreign, is_replaceable, IsNotReplaced};

use crate::named_file::{Reading, read_named};
use crate::stopped::Stopped;
use named_files::{FileName, Folder, Look};
use std::alloc::Global;

/// The first bytes of an index file.
const MAGIC: [u8; 8] = *b"MAIRIX\r\n";

/// Checks that an index may take the place of what has a name: of a file that is empty, or that begins with the eight
/// bytes of an index's magic. Of a file only these bytes are read. What is no plain file isn't looked at here.
///
/// # Errors
///
/// `CannotOpen` for any other file, and if the system doesn't show what has the name, or the file can't be read, because
/// then that is unknown; or lack of memory.
#[tactic(auto, using(crate::proofs::MadeFiles::stops_for))]
pub fn check_old_index<F: Folder>(
    folder: &F,
    alloc: Global,
    reports: &mut F::Reports,
    name: &F::Name,
) -> Result<(), Stopped>
    ensures replaceable { OnOk result (F.agree reports.new ≡ true
        → is_foreign (F.holds folder.now (F.Name.text name.now)) ≡ false) }
    ensures stopped { IfErr result (λ stopped. F.agree reports.new ≡ true
        → IsNotReplaced (F.Name.text name.now)
        ((is_foreign (F.holds folder.now (F.Name.text name.now)) ≡ true)
        ⊎ (F.can_refuse ⊎ F.reads_can_fail))
        stopped) }
    ensures reports { AddsReports F.Folder reports.old reports.new }
{
    let path = name.as_str();
    let look = folder.look(alloc, reports, name);
    match Stopped::or_stopped(alloc, path, look) {
        Ok(Look::File(_)) => {}
        Ok(_) => return Ok(()),
        Err(stopped) => return Err(stopped),
    }
    let front = read_named(folder, alloc, reports, name, Reading::Magic);
    let front = match Stopped::or_stopped(alloc, path, front) {
        Ok(front) => front,
        Err(stopped) => return Err(stopped),
    };
    if is_replaceable(front.as_slice()) {
        return Ok(());
    }
    Err(Stopped::cannot_open(alloc, path))
}

/// Whether an index may take the place of a file that begins with these bytes, and has no other if they are fewer than
/// eight.
fn is_replaceable(front: &[u8]) -> bool
    ensures { result ≡ is_replaceable front.now }
{
    front.is_empty() || front.starts_with(MAGIC.as_slice())
}
