//! Answers of the kit's files, as the trait `System` gives them.
ghost use Rattle.std.specs.Prelude.{◌≡◌, Err, IfErr, IfOk, IsOkAnd};
ghost use Rattle.std.specs.Fs.{metadata_mode};
ghost use Rattle.std.specs.IoError.{error_kind};
ghost use Rattle.kit_system.specs.KitAnswers.{IsFoundIn, answer_by_kind, call_error_of, file_kind_in};

use std::fs::Metadata;
use std::io::{self, ErrorKind};
use std::os::unix::fs::MetadataExt;
use system::{CallError, FileKind, FileTime, Found};

/// Returns an answer of std with an error of the trait.
pub(crate) fn answer_of<T>(answer: io::Result<T>) -> Result<T, CallError>
    ensures { result ≡ answer_by_kind answer }
{
    match answer {
        Ok(value) => Ok(value),
        Err(error) => Err(call_error_of(error.kind())),
    }
}

/// Returns what the system reported of a file.
pub fn found_of(answer: io::Result<Metadata>) -> Result<Found, CallError>
    ensures found { IfOk answer (λ metadata. IsOkAnd result (IsFoundIn metadata)) }
    ensures refused { IfErr answer (λ error. result ≡ Err (call_error_of (error_kind error))) }
{
    match answer_of(answer) {
        Ok(metadata) => Ok(found_in(&metadata)),
        Err(error) => Err(error),
    }
}

/// Returns the error for a kind of error of std.
fn call_error_of(kind: ErrorKind) -> CallError
    ensures { result ≡ call_error_of kind }
{
    match kind {
        ErrorKind::NotFound => CallError::NotFound,
        ErrorKind::OutOfMemory => CallError::OutOfMemory,
        ErrorKind::Interrupted => CallError::Interrupted,
        _ => CallError::Other,
    }
}

/// Returns the numbers that std reports of a file. Its clauses speak of the length and of the mode, and of no other.
fn found_in(metadata: &Metadata) -> Found
    ensures { IsFoundIn metadata.now result }
{
    Found {
        device: metadata.dev(),
        inode: metadata.ino(),
        kind: kind_in(metadata),
        length: metadata.len(),
        mode: metadata.mode(),
        owner: metadata.uid(),
        group: metadata.gid(),
        links: metadata.nlink(),
        written: FileTime {
            seconds: metadata.mtime(),
            nanoseconds: metadata.mtime_nsec(),
        },
        changed: FileTime {
            seconds: metadata.ctime(),
            nanoseconds: metadata.ctime_nsec(),
        },
    }
}

/// Returns the kind of a file.
fn kind_in(metadata: &Metadata) -> FileKind
    ensures { result ≡ file_kind_in (metadata_mode metadata.now) }
{
    if metadata.is_file() {
        FileKind::File
    } else if metadata.is_dir() {
        FileKind::Folder
    } else if metadata.is_symlink() {
        FileKind::Link
    } else {
        FileKind::Other
    }
}
