//! Calls that read a file.
ghost use Rattle.std.specs.Prelude.{◌≡◌, ◌<◌, ◌-◌, ◌^◌, OnOk};

use crate::answers::refused;
use mbox_cutter::{DeviceFault, Source};
use named_files::{Folder, KeptFile};
use std::alloc::{AllocError, Global};

/// How many bytes are read at once: so few that most files take several reads.
const PIECE: usize = 7;

/// Opens a file, and reads it to its end.
pub(crate) fn opened<F: Folder>(
    folder: &F,
    alloc: Global,
    reports: &mut F::Reports,
    name: &F::Name,
) -> Result<String, AllocError> {
    match folder.open(alloc, name) {
        Ok(file) => read_back(folder, alloc, reports, file),
        Err(why) => refused(alloc, why),
    }
}

/// Opens a plain file, and reads it to its end.
pub(crate) fn opened_plain<F: Folder>(
    folder: &F,
    alloc: Global,
    reports: &mut F::Reports,
    name: &F::Name,
) -> Result<String, AllocError> {
    match folder.open_plain(alloc, name) {
        Ok(file) => read_back(folder, alloc, reports, file),
        Err(why) => refused(alloc, why),
    }
}

/// Reads a file that was opened to its end, and closes it.
pub(crate) fn read_back<F: Folder>(
    folder: &F,
    alloc: Global,
    reports: &mut F::Reports,
    file: F::File,
) -> Result<String, AllocError>
    requires { F.File.failures file < 2 ^ 64 - 1 }
{
    let mut file = file;
    let mut bytes = Vec::new(alloc);
    let read = read_rest(&mut file, &mut bytes);
    folder.take_back(reports, file);
    match read? {
        Ok(()) => text_of(alloc, bytes),
        Err(DeviceFault) => String::from_str(alloc, "read failed"),
    }
}

/// Reads a source to its end, and appends its bytes.
fn read_rest<S: Source>(
    source: &mut S,
    bytes: &mut Vec<u8>,
) -> Result<Result<(), DeviceFault>, AllocError>
    requires { S.failures source.old < 2 ^ 64 - 1 }
{
    for _ in 0..u64::MAX {
        let mut piece = [0; PIECE];
        let n = match source.read_next(&mut piece) {
            Ok(0) => return Ok(Ok(())),
            Ok(n) => n,
            Err(DeviceFault) => return Ok(Err(DeviceFault)),
        };
        bytes.extend_from_slice(&piece[..n])?;
    }
    Err(AllocError)
}

/// Returns the bytes of a file as an answer.
fn text_of(alloc: Global, bytes: Vec<u8>) -> Result<String, AllocError> {
    match String::from_utf8(bytes) {
        Ok(text) => format!(in alloc; "read {text}"),
        Err(_) => String::from_str(alloc, "no text"),
    }
}

/// Opens a plain file, and asks for its length.
pub(crate) fn length<F: Folder>(
    folder: &F,
    alloc: Global,
    reports: &mut F::Reports,
    name: &F::Name,
) -> Result<String, AllocError> {
    match folder.open_plain(alloc, name) {
        Ok(file) => {
            let mut file = file;
            let length = file.length();
            folder.take_back(reports, file);
            match length {
                Ok(length) => format!(in alloc; "length {length}"),
                Err(DeviceFault) => String::from_str(alloc, "no length"),
            }
        }
        Err(why) => refused(alloc, why),
    }
}

/// Opens a plain file, and reads a part of it from an offset on.
pub(crate) fn part<F: Folder>(
    folder: &F,
    alloc: Global,
    reports: &mut F::Reports,
    name: &F::Name,
    offset: &str,
) -> Result<String, AllocError> {
    match folder.open_plain(alloc, name) {
        Ok(file) => {
            let mut file = file;
            let mut piece = [0; PIECE];
            let read = file.read_at(offset.parse::<u64>().unwrap_or(0), &mut piece);
            folder.take_back(reports, file);
            match read {
                Ok(n) => text_of(alloc, piece[..n].to_vec(alloc)?),
                Err(DeviceFault) => String::from_str(alloc, "read failed"),
            }
        }
        Err(why) => refused(alloc, why),
    }
}

/// Opens a plain file, and looks whether it is in the same state after it was read.
pub(crate) fn state<F: Folder>(
    folder: &F,
    alloc: Global,
    reports: &mut F::Reports,
    name: &F::Name,
) -> Result<String, AllocError> {
    match folder.open_plain(alloc, name) {
        Ok(file) => {
            let mut file = file;
            let is_same = stays_in_state(&mut file);
            folder.take_back(reports, file);
            String::from_str(
                alloc,
                if is_same {
                    "same state"
                } else {
                    "another state"
                },
            )
        }
        Err(why) => refused(alloc, why),
    }
}

/// Whether a file is in the same state after it was read.
fn stays_in_state<K: KeptFile>(file: &mut K) -> bool
    requires { K.failures file.old ≡ 0 }
{
    let Ok(state) = file.state() else {
        return false;
    };
    let mut piece = [0; PIECE];
    file.read_next(&mut piece).is_ok() && file.check_state(state).is_ok()
}
