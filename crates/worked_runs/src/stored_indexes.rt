//! The stored indexes that the rows name, and files that aren't valid indexes.

use crate::fixture::{Given, HELLO, RC, Reported, SOUND, index_of};
use sha2::{Digest, Sha256};
use std::alloc::Global;

/// Two archives, and an rcfile that names them.
const TWO: &str = "^Subject: Hello||hi|| & ^Subject: Hello||hi||";

const RC_OF_TWO: &str = "mbox=n.mbox:o.mbox|database=m.idx|mfolder=hits|";

/// A row over [`HELLO`].
const ROW: &str = "-r, s:hello => found 1: 0 58 m.mbox|";

/// The number of bytes of its index.
const SIZE: usize = 227;

/// The number of bytes before the digest.
const BODY: usize = 195;

/// The offset of the archive's digest.
const DIGEST: usize = 66;

/// The index of `m.mbox` in version 1, from before names of attachments and digests of archives were in an index.
const OLD_INDEX: &[u8; 195] = b"MAIRIX\r\n\
    \x00\x00\x00\x01\x00\x00\x00\x01\x00\x00\x00\x01\x00\x00\x00\x02\
    \x00\x00\x00\x00\x00\x00\x00\x12\x00\x00\x00\x00\x00\x00\x00\x07\x00\x00\x00\x00\x00\x00\x00\x02\
    \x00\x00\x00\x00\x00\x00\x00\x3a\x00\x00\x00\x06m.mbox\
    \x00\x00\x00\x00\x00\x00\x00\x00\x00\x00\x00\x00\x00\x00\x00\x00\
    \x00\x00\x00\x00\x00\x00\x00\x3a\x00\x00\x00\x00\x00\x00\x00\x13\x00\x00\x00\x00\x00\x00\x00\x00\
    \x05\x00\x00\x00\x00\x00\x00\x05\x00\x00\x00\x00\x00\x00\x00\x00\x00\x00\x00\x00\x00\x00\x00\x00\
    \x06\x00\x00\x00\x00\x00\x00\x02\x00\x00\x00\x00\x00\x00\x00\x05\x00\x00\x00\x00\x00\x00\x00\x01\
    hellohi\
    \x01\x01\
    \xbe\x22\x1b\xc0\x97\xae\xcd\xe7\x1f\x26\x77\x17\xf7\x2e\xdb\xcc\
    \x9d\x3c\x32\x27\x3e\xe3\x56\xa3\x4b\x24\x92\xd5\x7b\x98\xc0\xc3";

/// The two entries of its directory, exchanged.
const EXCHANGED: &[u8] =
    b"\x06\x00\x00\x00\x00\x00\x00\x02\x00\x00\x00\x00\x00\x00\x00\x05\x00\x00\x00\x00\x00\x00\x00\x01\
    \x05\x00\x00\x00\x00\x00\x00\x05\x00\x00\x00\x00\x00\x00\x00\x00\x00\x00\x00\x00\x00\x00\x00\x00";

/// An offset, bytes that are put there in place of others, and whether the digest is computed again.
type Change<'a> = (usize, &'a [u8], bool);

/// Returns the bytes with such a change.
fn changed(alloc: Global, bytes: &[u8], (at, new, signs_again): Change) -> Option<Vec<u8>> {
    let (front, rest) = bytes.split_at_checked(at)?;
    let mut changed = [front, new, rest.get(new.len()..)?].concat(alloc).ok()?;
    if signs_again {
        changed.truncate(BODY);
        let digest = Sha256::digest(&changed);
        changed.extend_from_slice(&digest).ok()?;
    }
    Some(changed)
}

/// Returns the index with this name. It is None if memory runs out.
fn named_index(alloc: Global, name: &str) -> Option<Vec<u8>> {
    match name {
        "hello" => index_of(alloc, RC, HELLO),
        "zeros" => {
            let hello = index_of(alloc, RC, HELLO)?;
            changed(alloc, &hello, (DIGEST, &[0u8; 32], true))
        }
        "two" => index_of(alloc, RC_OF_TWO, TWO),
        "old" => OLD_INDEX.to_vec(alloc).ok(),
        _ => None,
    }
}

/// Returns the beginning of an index, as a line `index NAME LENGTH` names it. It is None if memory runs out, or if the
/// index has fewer bytes.
pub fn front_of_index(alloc: Global, name: &str, length: usize) -> Option<Vec<u8>> {
    let index = named_index(alloc, name)?;
    index.get(..length)?.to_vec(alloc).ok()
}

/// Changes, and why the index is refused after them.
const CHANGES: [(Change, &str); 5] = [
    ((0, b"m", false), "bad magic"),
    ((60, b"\x6c", false), "bad digest"),
    ((11, b"\x09", true), "unknown version"),
    ((138, EXCHANGED, true), "bad layout in directory"),
    ((193, b"\x00\x01", true), "bad layout in postings"),
];

/// Each bit of a byte.
const BITS: [u8; 8] = [1, 2, 4, 8, 16, 32, 64, 128];

/// Whether a search refuses its index for this reason.
fn refuses(reported: Reported, why: &str) -> bool {
    match &reported {
        Some(reported) => reported.strip_prefix(b"refused 3: index: ".as_slice())
            == Some(why.as_bytes()),
        None => false,
    }
}

/// Whether a search of an index and one with `--verify` refuse it for this reason.
fn is_refused(alloc: Global, given: &Given, index: &[u8], why: &str) -> bool {
    refuses(given.stored(alloc, index, SOUND), why)
        && refuses(given.verified(alloc, index, SOUND), why)
}

/// Whether the index with such a change is refused for this reason.
fn is_refused_with(alloc: Global, given: &Given, change: Change, why: &str) -> Option<bool> {
    let index = given.index.as_ref()?;
    let changed = changed(alloc, index, change)?;
    Some(is_refused(alloc, given, &changed, why) && index.len() == SIZE)
}

/// Whether the bytes of the index before this one, and the index with each bit of this one turned, are refused.
fn are_refused_at(alloc: Global, given: &Given, at: usize) -> Option<bool> {
    let index = given.index.as_ref()?;
    let (front, byte) = (index.get(..at)?, *index.get(at)?);
    let why = match at {
        0..80 => "too short",
        _ => "bad digest",
    };
    let mut as_wanted = is_refused(alloc, given, front, why);
    let why = match at {
        0..8 => "bad magic",
        8..12 => "unknown version",
        _ => "bad digest",
    };
    for mask in BITS {
        let turned = is_refused_with(alloc, given, (at, &[byte ^ mask], false), why);
        as_wanted = turned.unwrap_or(false) && as_wanted;
    }
    Some(as_wanted)
}

#[test]
fn what_is_no_index_is_refused(rt: HostRuntime) {
    let given = Given::over(rt.alloc(), HELLO, ROW).expect(&rt, "what is given");
    for (change, why) in CHANGES {
        let as_wanted = is_refused_with(rt.alloc(), &given, change, why);
        assert!(rt; as_wanted.unwrap_or(false), "{why}");
    }
    for at in 0..SIZE {
        assert!(rt;
            are_refused_at(rt.alloc(), &given, at).unwrap_or(false),
            "at {at}"
        );
    }
}
