//! Reads an rcfile.
ghost use Rattle.std.specs.Prelude.{◌≡◌, ◌++◌, List, [], ◌∷◌, IfOk, IfSome, OnOk};
ghost use Rattle.std.specs.List.{All, filter_map, slice_get};
ghost use Rattle.contract_words.specs.Answers.{Gives};
ghost use Rattle.mail_index.specs.Tables.{IsPath};
ghost use Rattle.mairix_options.specs.Rcfile.{archives_misfit, first_misfit, all_paths, rc_with, rc_of};
ghost use Rattle.mairix_options.specs.Inside.Said.{Says, rc_after};
ghost use Rattle.mairix_options.specs.declared.setting.Setting.{Setting};
ghost use Rattle.or_memory.specs.Refusals.{refusal};

use crate::mail_format::MailFormat;
use crate::owned_text::{Text, Texts};
use crate::path::{add_archive_paths, archives_fit, mfolder_fits, mfolder_path};
use crate::setting::{ArchivesLine, MfolderLine, Setting, line_setting};
use bstr::ByteSlice;
use or_memory::OrMemory;
use std::alloc::{AllocError, Global};

/// What an rcfile says, with paths put under its base.
#[derive(Drop)]
pub struct Rc {
    /// The folder of all relative names of archives, and of an `mfolder` that begins with neither `/` nor `.`.
    pub base: Option<Text>,
    /// The paths of the archives, in the order of the rcfile. Each has 1 to 4,096 bytes without LF and NUL.
    pub paths: Texts,
    /// The path of the index file, as written; the base isn't put before it.
    pub database: Text,
    /// The path of the file that answers go to.
    pub mfolder: Text,
    /// The form of an answer if the command line doesn't give another.
    pub format: MailFormat,
}

/// What the lines so far say: all lines of `mbox`, and the last line of each other option.
#[derive(Drop)]
struct Said {
    base: Option<Text>,
    archives: Vec<ArchivesLine>,
    database: Option<Text>,
    mfolder: Option<MfolderLine>,
    format: Option<MailFormat>,
}

/// An option that every rcfile must have.
#[derive(Clone, Copy, Debug)]
pub enum Name {
    Mbox,
    Database,
    Mfolder,
}

/// Why an rcfile is refused. The number is that of the line, counted from 1.
#[derive(Clone, Copy, Debug)]
pub enum RcFault {
    /// The line isn't UTF-8, or has no `=`, or its option or value is empty. Or the value (for `mbox` one of its names)
    /// can't be a path, either as written or under the base.
    BadLine(u64),
    /// The option isn't `base`, `mbox`, `database`, `mfolder` or `mformat`.
    NotSupported(u64),
    /// A name in `mbox` has `*`, `?`, `[` or `...`.
    Wildcard(u64),
    /// The value has a `$`, or it, or a name in it, begins with `~`. A value of `mformat` isn't checked for this.
    Expansion(u64),
    /// No line sets the option, or all lines of `mbox` together name no archive.
    Missing(Name),
    /// The `mformat` isn't `mbox`, `raw` or `excerpt`.
    BadFormat(u64),
}

/// Reads an rcfile. Each line is `option=value`, a comment that begins with `#`, or empty.
///
/// A line ends at its LF, and a CR before the LF is dropped. `mbox` names archives with colons between them, and each
/// of its lines adds more. For `base`, `database`, `mfolder` and `mformat` the last line counts. The name of an archive
/// is put under the base unless it begins with `/`, and `mfolder` unless it begins with `/` or `.`. The base counts for
/// lines before it too. Without a `mformat` the form is an mbox.
///
/// # Errors
///
/// These are looked for in three steps, and the first fault is returned. Lack of memory is `Memory`.
///
/// 1. The first faulty line. If it has several faults, they count in the order `BadLine`, `NotSupported`,
///    `Expansion`, `Wildcard`, `BadFormat`. Paths are checked under the last base before the line.
/// 2. `BadLine` for the first line with a path that can't name a file under the last base of all. This looks at all
///    lines of `mbox`, and at the last of `mfolder`.
/// 3. `Missing` for the first of `mbox`, `database` and `mfolder` that isn't set.
pub fn read_rc(alloc: Global, rc: &[u8]) -> Result<Rc, OrMemory<RcFault>>
    ensures given { Gives (λ r. r) refusal result (rc_of rc.now) }
    ensures base { IfOk result (λ r. IfSome r.base IsPath) }
    ensures paths { IfOk result (λ r. All IsPath r.paths) }
    ensures database { IfOk result (λ r. IsPath r.database) }
    ensures mfolder { IfOk result (λ r. IsPath r.mfolder) }
{
    let mut said = Said {
        base: None,
        archives: Vec::new(alloc),
        database: None,
        mfolder: None,
        format: None,
    };
    rc_after(alloc, &mut said, rc)
}

/// Reads all lines, after those that `said` has already. A loop that begins with any settings is easier to prove.
fn rc_after(alloc: Global, said: &mut Said, rc: &[u8]) -> Result<Rc, OrMemory<RcFault>>
    ensures { (before : List Setting) → Says before said.old
        → Gives (λ r. r) refusal result (rc_after before rc.now) }
{
    let mut number = 1;
    for line in rc.lines() {
        if let Some(setting) = line_setting(alloc, &said.base, number, line)? {
            said.add(setting)?;
        }
        number += 1;
    }
    rc_with(alloc, said)
}

impl Said {
    fn add(&mut self, setting: Setting) -> Result<(), AllocError>
        ensures { (before : List Setting) → Says before self.old
            → OnOk result (Says (before ++ setting ∷ []) self.new) }
    {
        match setting {
            Setting::Base(path) => self.base = Some(path),
            Setting::Archives(line) => self.archives.push(line)?,
            Setting::Database(path) => self.database = Some(path),
            Setting::Mfolder(line) => self.mfolder = Some(line),
            Setting::Format(named) => self.format = Some(named),
        }
        Ok(())
    }
}

fn rc_with(alloc: Global, said: &mut Said) -> Result<Rc, OrMemory<RcFault>>
    ensures { Gives (λ r. r) refusal result (rc_with said.old.base said.old.archives.items
        said.old.database said.old.mfolder said.old.format) }
{
    if let Some(number) = first_misfit(alloc, said)? {
        return Err(OrMemory::Refused(RcFault::BadLine(number)));
    }
    let paths = all_paths(alloc, &said.base, said.archives.as_slice())?;
    if paths.as_slice().is_empty() {
        return Err(OrMemory::Refused(RcFault::Missing(Name::Mbox)));
    }
    let Some(database) = said.database.take() else {
        return Err(OrMemory::Refused(RcFault::Missing(Name::Database)));
    };
    let Some(mfolder) = &said.mfolder else {
        return Err(OrMemory::Refused(RcFault::Missing(Name::Mfolder)));
    };
    let mfolder = mfolder_path(alloc, &said.base, mfolder.name.as_str())?;
    Ok(Rc {
        database,
        mfolder,
        base: said.base.take(),
        paths,
        format: said.format.unwrap_or(MailFormat::Mbox),
    })
}

/// Returns the number of the first line with a path that can't name a file under the base that counts.
fn first_misfit(alloc: Global, said: &Said) -> Result<Option<u64>, AllocError>
    ensures { IfOk result (λ n. n ≡ first_misfit said.now.base said.now.archives.items
        said.now.mfolder) }
{
    let earliest = first_archives_misfit(alloc, &said.base, said.archives.as_slice())?;
    let Some(line) = &said.mfolder else {
        return Ok(earliest);
    };
    let fits = mfolder_fits(alloc, &said.base, line.name.as_str())?;
    if fits {
        return Ok(earliest);
    }
    match earliest {
        Some(number) if number < line.number => Ok(earliest),
        _ => Ok(Some(line.number)),
    }
}

fn first_archives_misfit(
    alloc: Global,
    base: &Option<Text>,
    archives: &[ArchivesLine],
) -> Result<Option<u64>, AllocError>
    ensures { IfOk result (λ n. n ≡ slice_get (filter_map (archives_misfit base.now) archives.now)
        0) }
{
    for line in archives {
        let fits = archives_fit(alloc, base, &line.names)?;
        if !fits {
            return Ok(Some(line.number));
        }
    }
    Ok(None)
}

/// Returns the paths of all archives under the base.
fn all_paths(
    alloc: Global,
    base: &Option<Text>,
    archives: &[ArchivesLine],
) -> Result<Texts, AllocError>
    ensures { IfOk result (λ paths. paths ≡ all_paths base.now archives.now) }
{
    let mut paths = Texts::new(alloc);
    for line in archives {
        add_archive_paths(alloc, &mut paths, base, &line.names)?;
    }
    Ok(paths)
}
