//! One successful case for each call that takes memory, the same with each allocation refused in turn, and the
//! characters of all bytes.
use header_text::{
    Base64, Charset, Header, Taken, decode, decode_words, message_ids, push_ids, unescape_into,
    unfold,
};
use std::alloc::{AllocError, Global};
use std::process::Abort;

/// ISO 8859-1, ISO 8859-15 and Windows-1252 from 80 to FF, as `tools/charsets.py` prints them.
const LATIN_1: &str =
    "\u{80}\u{81}\u{82}\u{83}\u{84}\u{85}\u{86}\u{87}\u{88}\u{89}\u{8A}\u{8B}\u{8C}\u{8D}\u{8E}\u{8F}\u{90}\u{91}\u{92}\u{93}\u{94}\u{95}\u{96}\u{97}\u{98}\u{99}\u{9A}\u{9B}\u{9C}\u{9D}\u{9E}\u{9F}\u{A0}\u{A1}\u{A2}\u{A3}\u{A4}\u{A5}\u{A6}\u{A7}\u{A8}\u{A9}\u{AA}\u{AB}\u{AC}\u{AD}\u{AE}\u{AF}\u{B0}\u{B1}\u{B2}\u{B3}\u{B4}\u{B5}\u{B6}\u{B7}\u{B8}\u{B9}\u{BA}\u{BB}\u{BC}\u{BD}\u{BE}\u{BF}\u{C0}\u{C1}\u{C2}\u{C3}\u{C4}\u{C5}\u{C6}\u{C7}\u{C8}\u{C9}\u{CA}\u{CB}\u{CC}\u{CD}\u{CE}\u{CF}\u{D0}\u{D1}\u{D2}\u{D3}\u{D4}\u{D5}\u{D6}\u{D7}\u{D8}\u{D9}\u{DA}\u{DB}\u{DC}\u{DD}\u{DE}\u{DF}\u{E0}\u{E1}\u{E2}\u{E3}\u{E4}\u{E5}\u{E6}\u{E7}\u{E8}\u{E9}\u{EA}\u{EB}\u{EC}\u{ED}\u{EE}\u{EF}\u{F0}\u{F1}\u{F2}\u{F3}\u{F4}\u{F5}\u{F6}\u{F7}\u{F8}\u{F9}\u{FA}\u{FB}\u{FC}\u{FD}\u{FE}\u{FF}";

const LATIN_9: &str =
    "\u{80}\u{81}\u{82}\u{83}\u{84}\u{85}\u{86}\u{87}\u{88}\u{89}\u{8A}\u{8B}\u{8C}\u{8D}\u{8E}\u{8F}\u{90}\u{91}\u{92}\u{93}\u{94}\u{95}\u{96}\u{97}\u{98}\u{99}\u{9A}\u{9B}\u{9C}\u{9D}\u{9E}\u{9F}\u{A0}\u{A1}\u{A2}\u{A3}\u{20AC}\u{A5}\u{160}\u{A7}\u{161}\u{A9}\u{AA}\u{AB}\u{AC}\u{AD}\u{AE}\u{AF}\u{B0}\u{B1}\u{B2}\u{B3}\u{17D}\u{B5}\u{B6}\u{B7}\u{17E}\u{B9}\u{BA}\u{BB}\u{152}\u{153}\u{178}\u{BF}\u{C0}\u{C1}\u{C2}\u{C3}\u{C4}\u{C5}\u{C6}\u{C7}\u{C8}\u{C9}\u{CA}\u{CB}\u{CC}\u{CD}\u{CE}\u{CF}\u{D0}\u{D1}\u{D2}\u{D3}\u{D4}\u{D5}\u{D6}\u{D7}\u{D8}\u{D9}\u{DA}\u{DB}\u{DC}\u{DD}\u{DE}\u{DF}\u{E0}\u{E1}\u{E2}\u{E3}\u{E4}\u{E5}\u{E6}\u{E7}\u{E8}\u{E9}\u{EA}\u{EB}\u{EC}\u{ED}\u{EE}\u{EF}\u{F0}\u{F1}\u{F2}\u{F3}\u{F4}\u{F5}\u{F6}\u{F7}\u{F8}\u{F9}\u{FA}\u{FB}\u{FC}\u{FD}\u{FE}\u{FF}";

const WINDOWS_1252: &str =
    "\u{20AC}\u{FFFD}\u{201A}\u{192}\u{201E}\u{2026}\u{2020}\u{2021}\u{2C6}\u{2030}\u{160}\u{2039}\u{152}\u{FFFD}\u{17D}\u{FFFD}\u{FFFD}\u{2018}\u{2019}\u{201C}\u{201D}\u{2022}\u{2013}\u{2014}\u{2DC}\u{2122}\u{161}\u{203A}\u{153}\u{FFFD}\u{17E}\u{178}\u{A0}\u{A1}\u{A2}\u{A3}\u{A4}\u{A5}\u{A6}\u{A7}\u{A8}\u{A9}\u{AA}\u{AB}\u{AC}\u{AD}\u{AE}\u{AF}\u{B0}\u{B1}\u{B2}\u{B3}\u{B4}\u{B5}\u{B6}\u{B7}\u{B8}\u{B9}\u{BA}\u{BB}\u{BC}\u{BD}\u{BE}\u{BF}\u{C0}\u{C1}\u{C2}\u{C3}\u{C4}\u{C5}\u{C6}\u{C7}\u{C8}\u{C9}\u{CA}\u{CB}\u{CC}\u{CD}\u{CE}\u{CF}\u{D0}\u{D1}\u{D2}\u{D3}\u{D4}\u{D5}\u{D6}\u{D7}\u{D8}\u{D9}\u{DA}\u{DB}\u{DC}\u{DD}\u{DE}\u{DF}\u{E0}\u{E1}\u{E2}\u{E3}\u{E4}\u{E5}\u{E6}\u{E7}\u{E8}\u{E9}\u{EA}\u{EB}\u{EC}\u{ED}\u{EE}\u{EF}\u{F0}\u{F1}\u{F2}\u{F3}\u{F4}\u{F5}\u{F6}\u{F7}\u{F8}\u{F9}\u{FA}\u{FB}\u{FC}\u{FD}\u{FE}\u{FF}";

const UPPER: [(Charset, &str); 3] = [
    (Charset::Latin1, LATIN_1),
    (Charset::Latin9, LATIN_9),
    (Charset::Windows1252, WINDOWS_1252),
];

/// Whether this text was decoded. It is None if memory runs out, and so are the results below.
fn is_text(decoded: Result<String, AllocError>, text: &str) -> Option<bool> {
    Some(decoded.ok()?.as_str() == text)
}

#[test]
fn all_bytes_of_single_byte_charsets(rt: HostRuntime) {
    for (charset, upper) in UPPER {
        let mut upper = upper.chars();
        for byte in 0..=0xFFu8 {
            let wanted = match byte {
                0..0x80 => char::from(byte),
                _ => upper.next().unwrap_or('\0'),
            };
            let decoded = decode(rt.alloc(), charset, &[byte]);
            let as_wanted = is_text(decoded, wanted.encode_utf8(&mut [0; 4]));
            assert!(rt; as_wanted.unwrap_or(false), "{byte}");
        }
    }
}

/// Whether a line is accepted, and ends the header or doesn't. A line that is refused is tried again: a refusal changes
/// nothing, so the same line is then accepted as if it hadn't been refused.
fn is_taken(header: &mut Header, line: &[u8], ends: bool) -> bool {
    let answer = match header.push_line(line) {
        Ok(first) => Ok(first),
        Err(_) => header.push_line(line),
    };
    match answer {
        Ok(Taken::More) => !ends,
        Ok(Taken::Ended) => ends,
        Err(_) => false,
    }
}

/// Whether a header takes one field in two lines, and then has just that.
fn has_two_lines(alloc: Global, header: &mut Header) -> Option<bool> {
    let are_taken = is_taken(header, b"A: b\n", false)
        && is_taken(header, b" c\n", false)
        && is_taken(header, b"\n", true);
    let mut fields = header.fields();
    let Some(field) = fields.next() else {
        return Some(false);
    };
    let is_only = field.is(b"a") && fields.next().is_none();
    let value = unfold(alloc, field.body).ok()?;
    let wanted: [&[u8]; 3] = [b"A", b" b\n c\n", b"b c"];
    Some(are_taken && is_only && [field.name, field.body, value.as_slice()] == wanted)
}

/// Charsets, bytes in them, and their text. Without a charset, the bytes are a value with encoded words.
const TEXTS: [(Option<&[u8]>, &[u8], &str); 4] = [
    (None, b"a =?utf-8?B?w7w=?= b", "a \u{FC} b"),
    (None, b"=?utf-8*en?q?a_b?=", "a b"),
    (Some(b"windows-1252"), b"\x80", "\u{20AC}"),
    (Some(b"utf-8"), b"\xC3", "\u{FFFD}"),
];

/// Whether bytes are decoded to this text.
fn is_decoded(alloc: Global, charset: Option<&[u8]>, bytes: &[u8], text: &str) -> Option<bool> {
    match charset {
        Some(name) => is_text(decode(alloc, Charset::of(name), bytes), text),
        None => is_text(decode_words(alloc, bytes), text),
    }
}

/// Whether a value has two ids, one of them with a space in it, and the id of another value comes after them.
fn has_ids(alloc: Global) -> Option<bool> {
    let mut ids = message_ids(alloc, b"<a@x> <b @y>").ok()?;
    push_ids(alloc, b"c <d@z>", &mut ids).ok()?;
    let as_wanted = match ids.as_slice() {
        [first, second, third] => {
            let wanted: [&[u8]; 3] = [b"a@x", b"b@y", b"d@z"];
            [first.as_slice(), second.as_slice(), third.as_slice()] == wanted
        }
        _ => false,
    };
    Some(as_wanted)
}

/// Reads base64 in two pieces, and then escapes. The bytes come one after the other.
fn push_pieces(bytes: &mut Vec<u8>) -> Result<(), AllocError> {
    let mut reader = Base64::new();
    reader.push(b"ZsO\n", bytes)?;
    reader.push(b"8cg==\n", bytes)?;
    reader.finish(bytes)?;
    unescape_into(b"=41=", bytes)
}

fn has_pieces(alloc: Global) -> Option<bool> {
    let mut bytes = Vec::new(alloc);
    push_pieces(&mut bytes).ok()?;
    Some(bytes.as_slice() == b"f\xC3\xBCrA=".as_slice())
}

/// Asserts that all values are read right. Memory may run out only in a sweep.
fn check_values(rt: &impl Abort, alloc: Global, sweeps: bool) {
    for (charset, bytes, text) in TEXTS {
        let as_wanted = is_decoded(alloc, charset, bytes, text);
        assert!(rt; as_wanted.unwrap_or(sweeps), "{text}");
    }
    let has_two_lines = has_two_lines(alloc, &mut Header::new(alloc));
    assert!(rt; has_two_lines.unwrap_or(sweeps));
    assert!(rt; has_ids(alloc).unwrap_or(sweeps));
    assert!(rt; has_pieces(alloc).unwrap_or(sweeps));
}

#[test]
fn values_are_read(rt: HostRuntime) {
    check_values(&rt, rt.alloc(), false);
}

/// The gate refuses each allocation of this test in turn.
#[test]
fn sweep_values(rt: HostRuntime) {
    check_values(&rt, rt.alloc(), true);
}
