//! The files that a run reads, by their names.
ghost use Rattle.std.specs.Prelude.{◌≡◌, true, IfOk};
ghost use Rattle.std.specs.List.{list_all};
ghost use Rattle.std.specs.Option.{option_map_or};
ghost use Rattle.named_files.specs.AddedReports.{AddsReports};
ghost use Rattle.mairix_run.specs.ReadFiles.{are_all_apart as are_all_apart_from, names_read};

use named_files::Folder;
use std::alloc::{AllocError, Global};

/// The names of the files that a run reads. It puts no other file in the place of one of them.
#[derive(Clone, Copy)]
pub struct ReadNames<'a, N> {
    /// The rcfile's name.
    pub rcfile: &'a N,
    /// The archives' names.
    pub archives: &'a [N],
    /// The index's name; None if the run makes the index.
    pub database: Option<&'a N>,
}

/// Whether each of the files that a run reads is the same after another one takes a name. It asks for the rcfile, the
/// index and the archives in that order, and for none after the first that isn't.
///
/// # Errors
///
/// Lack of memory.
pub fn are_all_apart<F: Folder>(
    folder: &F,
    alloc: Global,
    reports: &mut F::Reports,
    read: &ReadNames<'_, F::Name>,
    name: &F::Name,
) -> Result<bool, AllocError>
    ensures exact { IfOk result (λ are. F.agree reports.new ≡ true
        → are ≡ are_all_apart_from (F.apart folder.now) (names_read F.Name.text read.now)
        (F.Name.text name.now)) }
    ensures reports { AddsReports F.Folder reports.old reports.new }
{
    let is_apart = folder.is_apart(alloc, reports, read.rcfile, name)?;
    if !is_apart {
        return Ok(false);
    }
    let is_apart = is_one_apart(folder, alloc, reports, read.database, name)?;
    if !is_apart {
        return Ok(false);
    }
    are_apart(folder, alloc, reports, read.archives, name)
}

/// Whether the file of this name, if there is one, is the same after another one takes a name.
fn is_one_apart<F: Folder>(
    folder: &F,
    alloc: Global,
    reports: &mut F::Reports,
    read: Option<&F::Name>,
    name: &F::Name,
) -> Result<bool, AllocError>
    ensures exact { IfOk result (λ is. F.agree reports.new ≡ true → is ≡ option_map_or
        (λ read. F.apart folder.now (F.Name.text read.now) (F.Name.text name.now)) read.entry
        true) }
    ensures reports { AddsReports F.Folder reports.old reports.new }
{
    match read {
        Some(read) => folder.is_apart(alloc, reports, read, name),
        None => Ok(true),
    }
}

/// Whether each of the files of these names is the same after another one takes a name.
fn are_apart<F: Folder>(
    folder: &F,
    alloc: Global,
    reports: &mut F::Reports,
    read: &[F::Name],
    name: &F::Name,
) -> Result<bool, AllocError>
    ensures exact { IfOk result (λ are. F.agree reports.new ≡ true → are ≡ list_all
        (λ read. F.apart folder.now (F.Name.text read) (F.Name.text name.now)) read.now) }
    ensures reports { AddsReports F.Folder reports.old reports.new }
{
    for one in read {
        let is_apart = folder.is_apart(alloc, reports, one, name)?;
        if !is_apart {
            return Ok(false);
        }
    }
    Ok(true)
}
