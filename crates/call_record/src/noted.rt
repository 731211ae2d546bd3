//! Calls that are noted with their results. Each is made once, and nothing else is noted.
ghost use Rattle.std.specs.Prelude.{◌≡◌, ◌<◌, ◌≤◌, length, IfOk};
ghost use Rattle.std.specs.Io.KnownBytes.{ReadConsumes, WriteAppends};
ghost use Rattle.call_record.specs.Noted.{Notes, call_of_length, call_of_read_at, call_of_read, call_of_write};

use crate::numbered_files::NumberedFiles;
use crate::record::Record;
use std::io::{self, ErrorKind, Read, Write};

// The kinds of calls, as `call_of` reads them.
const READ: u64 = 0;

const READ_AT: u64 = 1;

const MEASURED: u64 = 2;

const WRITTEN: u64 = 3;

// Whether a call succeeded, as `call_of` reads it.
const FAILED: u64 = 0;

const DONE: u64 = 1;

/// Reads bytes to the front of a slice that isn't empty, and notes those that the reader gave. Returns how many these
/// are. A read that fails is noted as a failure, and isn't the end.
pub fn read_noted<R: Read>(
    reader: &mut R,
    record: &mut Record,
    into: &mut [u8],
) -> io::Result<usize>
    requires { 0 < length into.old }
    ensures bound { IfOk result (λ n. n ≤ length into.new) }
    ensures bytes { ReadConsumes (R.remaining reader.old) (R.remaining reader.new) result
        into.new }
    ensures noted { Notes (call_of_read result into.new) record.old record.new }
{
    let read = reader.read(into);
    note_read(record, &read, into);
    read
}

/// Notes what a read returned, if the slice has these bytes afterwards.
fn note_read(record: &mut Record, read: &io::Result<usize>, into: &[u8])
    requires { IfOk read.now (λ n. n ≤ length into.now) }
    ensures noted { Notes (call_of_read read.now into.now) record.old record.new }
{
    match read {
        Ok(n) => record.note(&[READ, 0, 0, DONE], &into[..*n]),
        Err(_) => record.note(&[READ, 0, 0, FAILED], &[]),
    }
}

/// Looks at the length of a file, and notes it.
pub fn length_noted<F: NumberedFiles>(files: &mut F, record: &mut Record, n: u32) -> io::Result<u64>
    requires { n < F.number files.old }
    ensures number { F.number files.new ≡ F.number files.old }
    ensures made { F.answers files.old (call_of_length n result) files.new }
    ensures noted { Notes (call_of_length n result) record.old record.new }
{
    let length = files.length(n);
    match length {
        Ok(bytes) => record.note(&[MEASURED, u64::from(n), bytes, DONE], &[]),
        Err(_) => record.note(&[MEASURED, u64::from(n), 0, FAILED], &[]),
    }
    length
}

/// Reads a file from an offset on, and notes the bytes that were read.
pub fn read_at_noted<F: NumberedFiles>(
    files: &mut F,
    record: &mut Record,
    n: u32,
    offset: u64,
    into: &mut [u8],
) -> io::Result<usize>
    requires below { n < F.number files.old }
    requires room { 0 < length into.old }
    ensures number { F.number files.new ≡ F.number files.old }
    ensures bound { IfOk result (λ count. count ≤ length into.new) }
    ensures made { F.answers files.old (call_of_read_at n offset result into.new) files.new }
    ensures noted { Notes (call_of_read_at n offset result into.new) record.old record.new }
{
    let read = files.read_at(n, offset, into);
    match read {
        Ok(count) => record.note(&[READ_AT, u64::from(n), offset, DONE], &into[..count]),
        Err(_) => record.note(&[READ_AT, u64::from(n), offset, FAILED], &[]),
    }
    read
}

/// Writes one or more bytes from the front of a slice that isn't empty, and notes those that the writer accepted.
/// Returns how many these are. Fails if the write fails or accepts no byte; then the failure is noted.
pub fn write_noted<W: Write>(writer: &mut W, record: &mut Record, bytes: &[u8]) -> io::Result<usize>
    requires { 0 < length bytes.now }
    ensures bound { IfOk result (λ n. (0 < n) × (n ≤ length bytes.now)) }
    ensures contents { WriteAppends (W.contents writer.old) (W.contents writer.new) result
        bytes.now }
    ensures noted { Notes (call_of_write result bytes.now) record.old record.new }
{
    let written = match writer.write(bytes) {
        Ok(0) => Err(ErrorKind::WriteZero.into()),
        written => written,
    };
    match written {
        Ok(n) => record.note(&[WRITTEN, 0, 0, DONE], &bytes[..n]),
        Err(_) => record.note(&[WRITTEN, 0, 0, FAILED], &[]),
    }
    written
}
