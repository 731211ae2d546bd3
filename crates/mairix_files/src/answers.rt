//! What is concluded from what the system reports of files.
ghost use Rattle.std.specs.Prelude.{◌≡◌};
ghost use Rattle.mairix_files.specs.FileAnswers as answers;

use system::{CallError, Found};

/// The mode of a file that says something of mail: only its owner may read and write it.
pub(crate) const PRIVATE: u32 = 0o600;

/// The mode of such a file that its owner has chosen to share: all may read it.
const SHARED: u32 = 0o644;

/// The mark of a file that isn't whole: the sticky bit, which other programs don't set for a plain file.
pub(crate) const MARK: u32 = 0o1000;

/// The bit of a mode that lets everybody read.
const ALL_READ: u32 = 0o004;

/// The bits of a mode that let others than the owner write.
const OTHERS_WRITE: u32 = 0o022;

/// Whether these are one file.
pub(crate) fn is_one_node(one: &Found, other: &Found) -> bool
    ensures { result ≡ answers.is_one_node one.now other.now }
{
    one.device == other.device && one.inode == other.inode
}

/// Whether a file is a plain one of this process's owner, and has the mark of a new file, whatever its other bits are.
pub(crate) fn is_left(found: &Found, process: &Found) -> bool
    ensures { result ≡ answers.is_leftover_file found.now process.now }
{
    found.kind.is_file() && found.owner == process.owner && found.mode & MARK == MARK
}

/// Whether all may read an old file, which has the owner of the new one and no other name.
fn is_readable_by_all(old: &Found, new: &Found) -> bool
    ensures { result ≡ answers.is_readable_by_all old.now new.now }
{
    old.kind.is_file() && old.mode & ALL_READ != 0 && old.owner == new.owner && old.links == 1
}

/// Whether a folder belongs to a file's owner, and nobody else may write into it.
fn is_own_folder(folder: &Found, file: &Found) -> bool
    ensures { result ≡ answers.is_own_folder folder.now file.now }
{
    folder.owner == file.owner && folder.mode & OTHERS_WRITE == 0
}

/// Whether the owner may have shared what has a name. The folder decides then whether somebody else can have put it there.
pub(crate) fn may_be_shared(old: &Result<Found, CallError>, new: &Result<Found, CallError>) -> bool
    ensures { result ≡ answers.may_be_shared old.now new.now }
{
    match (old, new) {
        (Ok(old), Ok(new)) => is_readable_by_all(old, new),
        _ => false,
    }
}

/// Returns the mode of a file that replaces one that all may read, by what was found of the folder and of the new file.
pub(crate) fn mode_in_folder(
    folder: &Result<Found, CallError>,
    new: &Result<Found, CallError>,
) -> u32
    ensures { result ≡ answers.mode_in_folder folder.now new.now }
{
    match (folder, new) {
        (Ok(folder), Ok(new)) if is_own_folder(folder, new) => SHARED,
        _ => PRIVATE,
    }
}

/// Whether these may be one file under two names: it has one device and one inode number, or under another device the same
/// number, kind, length and times (decision 57 in docs/DECISIONS.md).
fn may_be_one_file(one: &Found, other: &Found) -> bool
    ensures { result ≡ answers.may_be_one_file one.now other.now }
{
    one.kind == other.kind
        && one.inode == other.inode
        && (one.device == other.device
            || one.length == other.length
                && one.written == other.written
                && one.changed == other.changed)
}

/// Whether both looks found files that may be one.
pub(crate) fn found_one_file(
    one: &Result<Found, CallError>,
    other: &Result<Found, CallError>,
) -> bool
    ensures { result ≡ answers.found_one_file one.now other.now }
{
    match (one, other) {
        (Ok(one), Ok(other)) => may_be_one_file(one, other),
        _ => false,
    }
}
