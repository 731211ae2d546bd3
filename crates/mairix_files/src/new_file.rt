//! The calls of a file that is made under a temporary name, and gets its own name once it is whole.
//!
//! It is locked while it is open, and a lock ends with its process, however the process ends. So if two runs want the
//! same file, the second is refused; and the next run may remove what a killed run left. Only the run that has locked
//! the file under a temporary name renames or removes it. A lock counts only if the name is found to lead to the locked
//! file after locking, because the file may have lost its name before.
//!
//! Until all of it is written, only its owner may use it. Until it has its name it has a mark, by which the next run
//! recognizes what a killed run left. Decisions 53 to 56 in docs/DECISIONS.md say why.
ghost use Rattle.std.specs.Prelude.{◌≡◌, IfOk, OnOk, IfErr, length};
ghost use Rattle.mairix_files.specs.NewFileChains.{ChoosesMode, SyncsMarked, SyncsNotMarked, LocksFile, LocksNotFile, MakesMarked, MakesNotMarked, MarksFile, MarksNotFile, RemovesFile, RenamesFile, RenamesNotFile, SettlesName, SettlesNotName, ShowsFile, ShowsNotFile, SyncsFolder, SyncsNotFolder, TakesMark, TakesNotMark, folder_of_name};

use crate::answers::{MARK, PRIVATE, is_one_node, may_be_shared, mode_in_folder};
use std::path::Path;
use system::{CallError, System};

/// Makes a new and empty file with this name, locks it and marks it.
#[tactic(auto, unfolding(crate::specs::NewFileChains::MakesMarked, crate::specs::NewFileChains::MakesNotMarked))]
pub(crate) fn make_marked<S: System>(
    system: &S,
    log: &mut S::Log,
    name: &str,
) -> Result<S::File, CallError>
    ensures number { IfOk result (λ file. S.number file ≡ length (S.calls log.old)) }
    ensures made { OnOk result (MakesMarked name.now (S.calls log.old) (S.calls log.new)) }
    ensures not_made { IfErr result (λ error.
        MakesNotMarked name.now error (S.calls log.old) (S.calls log.new)) }
{
    let file = system.make(log, name, MARK | PRIVATE)?;
    lock(system, log, &file, name)?;
    if let Err(error) = set_marked(system, log, &file, PRIVATE) {
        remove_named(system, log, &file, name);
        return Err(error);
    }
    Ok(file)
}

/// Gives a file a mode and the mark, because the process may have a mask that took bits of the mode away when the file
/// was made. If the file system refuses the mark, the file has the mode without it.
#[tactic(auto, unfolding(crate::specs::NewFileChains::MarksFile, crate::specs::NewFileChains::MarksNotFile))]
fn set_marked<S: System>(
    system: &S,
    log: &mut S::Log,
    file: &S::File,
    mode: u32,
) -> Result<(), CallError>
    ensures marked { OnOk result (MarksFile (S.number file.now) mode
        (S.calls log.old) (S.calls log.new)) }
    ensures not_marked { IfErr result (λ error. MarksNotFile (S.number file.now) mode error
        (S.calls log.old) (S.calls log.new)) }
{
    match system.set_mode(log, file, MARK | mode) {
        Ok(()) => Ok(()),
        Err(_) => system.set_mode(log, file, mode),
    }
}

/// Brings a file to the disk, with the mode that it is to have under its own name, and the mark.
#[tactic(auto, unfolding(crate::specs::NewFileChains::SyncsMarked, crate::specs::NewFileChains::SyncsNotMarked))]
pub(crate) fn keep_marked<S: System>(
    system: &S,
    log: &mut S::Log,
    file: &S::File,
    mode: u32,
) -> Result<(), CallError>
    ensures kept { OnOk result (SyncsMarked (S.number file.now) mode
        (S.calls log.old) (S.calls log.new)) }
    ensures not_kept { IfErr result (λ error. SyncsNotMarked (S.number file.now) mode error
        (S.calls log.old) (S.calls log.new)) }
{
    set_marked(system, log, file, mode)?;
    system.sync(log, file)
}

/// Gives a file with a temporary name its own name.
#[tactic(auto, unfolding(crate::specs::NewFileChains::RenamesFile, crate::specs::NewFileChains::RenamesNotFile))]
pub(crate) fn rename_named<S: System>(
    system: &S,
    log: &mut S::Log,
    file: &S::File,
    temporary: &str,
    name: &str,
) -> Result<(), CallError>
    ensures named { OnOk result (RenamesFile temporary.now name.now (S.number file.now)
        (S.calls log.old) (S.calls log.new)) }
    ensures not_named { IfErr result (λ error. RenamesNotFile temporary.now name.now
        (S.number file.now) error (S.calls log.old) (S.calls log.new)) }
{
    check_named(system, log, file, temporary)?;
    system.rename(log, temporary, name)
}

/// A file that got its own name, and has its mark still.
#[derive(Drop)]
pub(crate) struct NamedFile<F: Drop> {
    file: F,
    mode: u32,
}

impl<F: Drop> NamedFile<F> {
    /// The file is to have this mode, without the mark.
    pub(crate) fn new(file: F, mode: u32) -> NamedFile<F>
        ensures { (result.file ≡ file) × (result.mode ≡ mode) }
    {
        NamedFile { file, mode }
    }

    /// Takes the mark away from the file with this name. If another file has the name by now, it fails, and changes
    /// nothing.
    #[tactic(auto, unfolding(crate::specs::NewFileChains::TakesMark, crate::specs::NewFileChains::TakesNotMark))]
    pub(crate) fn take_mark<S: System<File = F>>(
        self,
        system: &S,
        log: &mut S::Log,
        name: &str,
    ) -> Result<(), CallError>
        ensures taken { OnOk result (TakesMark name.now (S.number self.file) self.mode
            (S.calls log.old) (S.calls log.new)) }
        ensures not_taken { IfErr result (λ error. TakesNotMark name.now (S.number self.file)
            self.mode error (S.calls log.old) (S.calls log.new)) }
    {
        let NamedFile { file, mode } = self;
        check_named(system, log, &file, name)?;
        system.set_mode(log, &file, mode)
    }
}

/// Removes a file with this name. If the name leads to another file, that isn't touched.
#[tactic(auto, unfolding(crate::specs::NewFileChains::RemovesFile))]
pub(crate) fn remove_named<S: System>(system: &S, log: &mut S::Log, file: &S::File, name: &str)
    ensures { RemovesFile name.now (S.number file.now) (S.calls log.old) (S.calls log.new) }
{
    if check_named(system, log, file, name).is_ok() {
        let _ = system.remove(log, name);
    }
}

/// Locks an open file with this name. Fails if another run has its lock, or has renamed or removed it.
#[tactic(auto, unfolding(crate::specs::NewFileChains::LocksFile, crate::specs::NewFileChains::LocksNotFile))]
pub(crate) fn lock<S: System>(
    system: &S,
    log: &mut S::Log,
    file: &S::File,
    name: &str,
) -> Result<(), CallError>
    ensures locked { OnOk result (LocksFile name.now (S.number file.now)
        (S.calls log.old) (S.calls log.new)) }
    ensures not_locked { IfErr result (λ error. LocksNotFile name.now (S.number file.now) error
        (S.calls log.old) (S.calls log.new)) }
{
    system.lock(log, file)?;
    check_named(system, log, file, name)
}

/// Fails if a name doesn't lead to this file, or leads to it by a link.
#[tactic(auto, unfolding(crate::specs::NewFileChains::ShowsFile, crate::specs::NewFileChains::ShowsNotFile))]
fn check_named<S: System>(
    system: &S,
    log: &mut S::Log,
    file: &S::File,
    name: &str,
) -> Result<(), CallError>
    ensures named { OnOk result (ShowsFile name.now (S.number file.now)
        (S.calls log.old) (S.calls log.new)) }
    ensures other { IfErr result (λ error. ShowsNotFile name.now (S.number file.now) error
        (S.calls log.old) (S.calls log.new)) }
{
    let named = system.look_at_link(log, name)?;
    let opened = system.look_at_file(log, file)?;
    if is_one_node(&named, &opened) {
        Ok(())
    } else {
        Err(CallError::Other)
    }
}

/// Brings the names in the folder of a name to the disk.
#[tactic(auto, unfolding(crate::specs::NewFileChains::SyncsFolder, crate::specs::NewFileChains::SyncsNotFolder))]
pub(crate) fn sync_folder<S: System>(
    system: &S,
    log: &mut S::Log,
    name: &str,
) -> Result<(), CallError>
    ensures synced { OnOk result (SyncsFolder (folder_of_name name.now)
        (S.calls log.old) (S.calls log.new)) }
    ensures not_synced { IfErr result (λ error. SyncsNotFolder (folder_of_name name.now) error
        (S.calls log.old) (S.calls log.new)) }
{
    let folder = system.open(log, folder_of(name))?;
    system.sync(log, &folder)
}

/// Takes the mark away from the file that got a name, and brings the name to the disk. That is done even if the mark
/// stays.
#[tactic(auto, unfolding(crate::specs::NewFileChains::SettlesName, crate::specs::NewFileChains::SettlesNotName))]
pub(crate) fn settle_named<F: Drop, S: System<File = F>>(
    system: &S,
    log: &mut S::Log,
    named: NamedFile<F>,
    name: &str,
) -> Result<(), CallError>
    ensures settled { OnOk result (SettlesName name.now (S.number named.file) named.mode
        (S.calls log.old) (S.calls log.new)) }
    ensures not_settled { IfErr result (λ error. SettlesNotName name.now (S.number named.file)
        named.mode error (S.calls log.old) (S.calls log.new)) }
{
    let unmarked = named.take_mark(system, log, name);
    let synced = sync_folder(system, log, name);
    unmarked.and(synced)
}

/// Returns the mode for a file that gets a name: all may read it if all may read the file that has the name now, and only
/// the owner can have chosen that (decision 56 in docs/DECISIONS.md); otherwise it is private.
#[tactic(auto, unfolding(crate::specs::NewFileChains::ChoosesMode))]
pub(crate) fn mode_for<S: System>(system: &S, log: &mut S::Log, file: &S::File, name: &str) -> u32
    ensures { ChoosesMode name.now (folder_of_name name.now) (S.number file.now) result
        (S.calls log.old) (S.calls log.new) }
{
    let old = system.look_at_link(log, name);
    let new = system.look_at_file(log, file);
    if !may_be_shared(&old, &new) {
        return PRIVATE;
    }
    let folder = system.look(log, folder_of(name));
    mode_in_folder(&folder, &new)
}

/// Returns the folder of a name.
#[tactic(auto, unfolding(crate::specs::NewFileChains::folder_of_name))]
pub(crate) fn folder_of(name: &str) -> &str
    ensures { result.now ≡ folder_of_name name.now }
{
    match Path::new(name).parent() {
        Some(folder) if !folder.as_str().is_empty() => folder.as_str(),
        _ => ".",
    }
}
