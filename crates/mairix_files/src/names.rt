//! Where names lead.
ghost use Rattle.std.specs.Prelude.{◌≡◌, ◌∷◌, ◌↔◌, Err, IfOk, IsTrue, OnErr};
ghost use Rattle.std.specs.Option.{option_map};
ghost use Rattle.std.specs.Path.{path_bytes, path_buf_bytes};
ghost use Rattle.system.specs.declared.call_error.CallError.{CallError};
ghost use Rattle.system.specs.SystemCalls.{FoundPath};
ghost use Rattle.mairix_files.specs.PlaceChains.{ComparesFolders, ComparesNotFolders, ComparesNotPlace, ComparesPlace, AreOnePath, FindsApart, FindsNotApart, FindsPlace, FindsRealPath, HaveOneLastPart};
ghost use Rattle.mairix_files.specs.LinkChains.{EndsNotLinks};

use crate::answers::found_one_file;
use crate::links::end_of_links;
use crate::new_file::folder_of;
use caseless::default_caseless_match_str;
use std::alloc::{AllocError, Global};
use std::path::{Path, PathBuf};
use system::{CallError, Found, System};

/// Where a name leads, by what the system reports.
#[derive(Drop)]
struct Place {
    /// What the system reports of the file.
    file: Result<Found, CallError>,
    /// The name; or if it is a link, the path to which that leads, even if no file is there yet.
    path: PathBuf,
}

/// Whether two names lead to different files, or to different places if there are no files. Names of one folder that
/// differ only in case count as one, because there are file systems that ignore case.
///
/// # Errors
///
/// `AllocError` if memory runs out.
#[tactic(auto, unfolding(crate::specs::PlaceChains::FindsApart, crate::specs::PlaceChains::FindsNotApart))]
pub(crate) fn are_apart<S: System>(
    system: &S,
    log: &mut S::Log,
    alloc: Global,
    name: &str,
    other: &str,
) -> Result<bool, AllocError>
    ensures found { IfOk result (λ apart. FindsApart name.now other.now apart
        (S.calls log.old) (S.calls log.new)) }
    ensures no_memory { OnErr result (FindsNotApart name.now other.now
        (S.calls log.old) (S.calls log.new)) }
{
    let place = Place::of(system, log, alloc, name)?;
    let is_same = place.is_of(system, log, alloc, other)?;
    Ok(!is_same)
}

impl Place {
    /// Returns the place to which a name leads.
    #[tactic(auto, unfolding(crate::specs::PlaceChains::FindsPlace))]
    fn of<S: System>(
        system: &S,
        log: &mut S::Log,
        alloc: Global,
        name: &str,
    ) -> Result<Place, AllocError>
        ensures found { IfOk result (λ place. FindsPlace name.now place.file
            (path_buf_bytes place.path) (S.calls log.old) (S.calls log.new)) }
        ensures no_memory { OnErr result (EndsNotLinks name.now
            (S.calls log.old) (S.calls log.new)) }
    {
        let path = end_of_links(system, log, alloc, name)?;
        let file = system.look(log, name);
        Ok(Place { file, path })
    }

    /// Whether another name leads to the same file, or to the same place if the file doesn't exist.
    #[tactic(auto, unfolding(crate::specs::PlaceChains::ComparesPlace, crate::specs::PlaceChains::ComparesNotPlace))]
    fn is_of<S: System>(
        &self,
        system: &S,
        log: &mut S::Log,
        alloc: Global,
        name: &str,
    ) -> Result<bool, AllocError>
        ensures compared { IfOk result (λ same. ComparesPlace self.now.file
            (path_buf_bytes self.now.path) name.now same (S.calls log.old) (S.calls log.new)) }
        ensures no_memory { OnErr result (ComparesNotPlace self.now.file
            (path_buf_bytes self.now.path) name.now (S.calls log.old) (S.calls log.new)) }
    {
        let other = Place::of(system, log, alloc, name)?;
        if found_one_file(&self.file, &other.file) {
            return Ok(true);
        }
        if !have_one_last_part(self.path.as_path(), other.path.as_path()) {
            return Ok(false);
        }
        let one = folder_of(self.path.as_path().as_str());
        let two = folder_of(other.path.as_path().as_str());
        are_one_folder(system, log, alloc, one, two)
    }
}

/// Whether the last parts of both paths agree but for case.
fn have_one_last_part(one: Path<'_>, two: Path<'_>) -> bool
    ensures { IsTrue result ↔ HaveOneLastPart (path_bytes one.entry) (path_bytes two.entry) }
{
    match (one.file_name(), two.file_name()) {
        (Some(one), Some(two)) => default_caseless_match_str(one, two),
        _ => false,
    }
}

/// Whether two paths are of one folder. A file system that ignores case may show a folder as another one for each
/// spelling of its path, so the real paths of both are compared too.
#[tactic(auto, unfolding(crate::specs::PlaceChains::ComparesFolders, crate::specs::PlaceChains::ComparesNotFolders))]
fn are_one_folder<S: System>(
    system: &S,
    log: &mut S::Log,
    alloc: Global,
    one: &str,
    two: &str,
) -> Result<bool, AllocError>
    ensures compared { IfOk result (λ same. ComparesFolders one.now two.now same
        (S.calls log.old) (S.calls log.new)) }
    ensures no_memory { OnErr result (ComparesNotFolders one.now two.now
        (S.calls log.old) (S.calls log.new)) }
{
    let first = system.look(log, one);
    let second = system.look(log, two);
    if found_one_file(&first, &second) {
        return Ok(true);
    }
    let first = real_path(system, log, alloc, one)?;
    let second = real_path(system, log, alloc, two)?;
    Ok(are_one_path(&first, &second))
}

/// Returns the path without links of a path; None if the system has none.
#[tactic(auto, unfolding(crate::specs::PlaceChains::FindsRealPath))]
fn real_path<S: System>(
    system: &S,
    log: &mut S::Log,
    alloc: Global,
    name: &str,
) -> Result<Option<PathBuf>, AllocError>
    ensures found { IfOk result (λ path. FindsRealPath name.now (option_map path_buf_bytes path)
        (S.calls log.old) (S.calls log.new)) }
    ensures no_memory { OnErr result
        (S.calls log.new ≡ FoundPath name.now (Err CallError.OutOfMemory) ∷ S.calls log.old) }
{
    match system.real_path(log, alloc, name) {
        Ok(path) => Ok(Some(path)),
        Err(CallError::OutOfMemory) => Err(AllocError),
        Err(_) => Ok(None),
    }
}

/// Whether both paths are there and agree but for case.
fn are_one_path(one: &Option<PathBuf>, two: &Option<PathBuf>) -> bool
    ensures { IsTrue result ↔ AreOnePath (option_map path_buf_bytes one.now)
        (option_map path_buf_bytes two.now) }
{
    match (one, two) {
        (Some(one), Some(two)) => {
            default_caseless_match_str(one.as_path().as_str(), two.as_path().as_str())
        }
        _ => false,
    }
}
