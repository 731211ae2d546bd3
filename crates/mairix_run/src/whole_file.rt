//! A whole file in memory.
ghost use Rattle.std.specs.Prelude.{◌≡◌, ◌<◌, ◌≤◌, ◌-◌, ◌+◌, ◌^◌, [], length, take, vec_len, vec_capacity, IfOk, IfErr, OnOk, OnErr};
ghost use Rattle.named_files.specs.Refusals.{HasCause};
ghost use Rattle.mairix_run.specs.FileFronts.{GivesFront};
ghost use Rattle.mairix_run.specs.WholeFiles.{GivesRest};

use mbox_cutter::{DeviceFault, Source};
use named_files::{KeptFile, Refusal};

/// The most bytes that are filled with zeros and then read. This many are still in the processor's cache when the
/// system writes over them.
const STEP: usize = 65_536;

/// Reads a file to its end, and appends its bytes. It takes memory once, for the length of the file, if the file has one
/// and doesn't grow meanwhile.
pub(crate) fn read_all<K: KeptFile>(file: &mut K, bytes: &mut Vec<u8>) -> Result<(), Refusal>
    requires { K.failures file.old ≡ 0 }
    ensures rest { OnOk result (GivesRest (K.rest file.old) (K.rest file.new) bytes.old.items
        bytes.new.items) }
    ensures failed { IfErr result (λ why. HasCause why (0 < K.failures file.new)) }
{
    if let Err(why) = reserve_length(file, bytes) {
        return Err(why);
    }
    read_rest(file, bytes)
}

/// Takes the memory for the length of a file and one more byte, if it has a length. A file whose state the system
/// doesn't show is refused.
fn reserve_length<K: KeptFile>(file: &mut K, bytes: &mut Vec<u8>) -> Result<(), Refusal>
    requires { K.failures file.old ≡ 0 }
    ensures rest { K.rest file.new ≡ K.rest file.old }
    ensures same { bytes.new.items ≡ bytes.old.items }
    ensures count { K.failures file.new ≤ 1 }
    ensures failed { IfErr result (λ why. HasCause why (0 < K.failures file.new)) }
{
    if file.state().is_err() {
        return Err(Refusal::Refused);
    }
    let Ok(length) = file.length() else {
        return Ok(());
    };
    // With room for one more byte, the end is found in it.
    match bytes.reserve_exact((length as usize).saturating_add(1)) {
        Ok(()) => Ok(()),
        Err(_) => Err(Refusal::Memory),
    }
}

/// Reads a source to its end, and appends its bytes. It fills the memory that the vector has before it takes more.
fn read_rest<S: Source>(source: &mut S, bytes: &mut Vec<u8>) -> Result<(), Refusal>
    requires count { S.failures source.old < 2 ^ 64 - 1 }
    ensures rest { OnOk result (GivesRest (S.rest source.old) (S.rest source.new) bytes.old.items
        bytes.new.items) }
    ensures failed { IfErr result (λ why. HasCause why (0 < S.failures source.new)) }
{
    for _ in 0..u64::MAX {
        let most = next_count(bytes);
        let n = match read_piece(source, most, bytes) {
            Ok(n) => n,
            Err(why) => return Err(why),
        };
        if n < most {
            return Ok(());
        }
    }
    // This many bytes have no room in memory.
    Err(Refusal::Memory)
}

/// Returns how many bytes are read next: as many as the vector has room for, but at most a step. If it has no room, it
/// has to take memory anyway, and a step is read.
fn next_count(bytes: &Vec<u8>) -> usize
    ensures some { 0 < result }
    ensures few { result ≤ 65536 }
    ensures within { vec_len bytes.now < vec_capacity bytes.now
        → vec_len bytes.now + result ≤ vec_capacity bytes.now }
{
    let room = bytes.capacity().saturating_sub(bytes.len());
    if room == 0 {
        return STEP;
    }
    room.min(STEP)
}

/// Reads what a source gives next, at most this many bytes, straight into the memory of a vector. It returns how many
/// were appended; if these are fewer, the source is at its end.
fn read_piece<S: Source>(source: &mut S, most: usize, bytes: &mut Vec<u8>) -> Result<usize, Refusal>
    requires count { S.failures source.old < 2 ^ 64 - 1 }
    ensures front { OnOk result (GivesFront most (S.rest source.old) (S.rest source.new)
        bytes.old.items bytes.new.items) }
    ensures number { IfOk result (λ n. length bytes.new.items ≡ length bytes.old.items + n) }
    ensures stays { OnOk result (S.failures source.new ≡ S.failures source.old) }
    ensures failed { IfErr result (λ why. HasCause why (0 < S.failures source.new)) }
{
    let start = bytes.len();
    let Some(end) = start.checked_add(most) else {
        return Err(Refusal::Memory);
    };
    if bytes.resize(end, 0).is_err() {
        return Err(Refusal::Memory);
    }
    let n = match fill(source, &mut bytes[start..]) {
        Ok(n) => n,
        Err(DeviceFault) => return Err(Refusal::Refused),
    };
    bytes.truncate(start + n);
    Ok(n)
}

/// Reads to a slice until it is full or the source ends, and returns how many bytes were read.
fn fill<S: Source>(source: &mut S, into: &mut [u8]) -> Result<usize, DeviceFault>
    requires count { S.failures source.old < 2 ^ 64 - 1 }
    ensures bound { IfOk result (λ n. n ≤ length into.new) }
    ensures front { IfOk result (λ n. GivesFront (length into.new)
        (S.rest source.old) (S.rest source.new) [] (take n into.new)) }
    ensures stays { OnOk result (S.failures source.new ≡ S.failures source.old) }
    ensures failed { OnErr result (0 < S.failures source.new) }
{
    let mut at = 0;
    while at < into.len() {
        let n = match source.read_next(&mut into[at..]) {
            Ok(n) => n,
            Err(DeviceFault) => return Err(DeviceFault),
        };
        if n == 0 {
            return Ok(at);
        }
        at += n;
    }
    Ok(at)
}
