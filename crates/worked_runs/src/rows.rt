//! Tables of runs, whose outcomes were worked out by hand.
//!
//! `words WORDS`, `rcfile TEXT`, `archives TEXT & TEXT` and `index NAME LENGTH` hold for the rows below them. A row is
//! `WORDS => OUTCOME`. Words are separated by `, `, and those of a row come after those above it. [`bytes_of`] reads
//! the texts, [`front_of_index`] makes this many bytes of a named index, and [`Given::once`] returns an outcome.
//!
//! [`bytes_of`]: crate::fixture::bytes_of

use crate::date_rows::DATE_ROWS;
use crate::fixture::{Devices, Given, SOUND, reports};
use crate::form_rows::FORM_ROWS;
use crate::index_rows::INDEX_ROWS;
use crate::pattern_rows::PATTERN_ROWS;
use crate::refusal_rows::REFUSAL_ROWS;
use crate::stored_indexes::front_of_index;
use crate::text_rows::TEXT_ROWS;
use std::alloc::Global;

/// The most bytes that a source gives in a read.
const PIECES: [usize; 3] = [1, 7, 65_536];

/// What holds for the rows below a line.
#[derive(Clone, Copy, Default)]
struct Setting<'a> {
    words: &'a str,
    rcfile: &'a str,
    archives: &'a str,
    /// The name and the length of the index that is searched; empty for the index of the archives.
    index: &'a str,
}

impl<'a> Setting<'a> {
    /// Whether a line sets something for the rows below it.
    fn is_set_by(&mut self, line: &'a str) -> bool {
        match line.split_once(' ') {
            Some(("words", words)) => self.words = words,
            Some(("rcfile", rcfile)) => self.rcfile = rcfile,
            Some(("archives", archives)) => self.archives = archives,
            Some(("index", index)) => self.index = index,
            _ => return false,
        }
        true
    }

    /// Whether runs have the outcome of a row. It is None if memory runs out.
    fn is_reported(&self, alloc: Global, row: &str) -> Option<bool> {
        let given = Given::of(alloc, self.words, row, self.rcfile, self.archives)?;
        match self.index {
            "" => Some(is_reported_by_all(alloc, &given)),
            index => is_reported_of(alloc, &given, index),
        }
    }
}

/// Whether a search of an index with this name and length has the outcome of a row.
fn is_reported_of(alloc: Global, given: &Given, index: &str) -> Option<bool> {
    let (name, length) = index.split_once(' ')?;
    let index = front_of_index(alloc, name, length.parse().ok()?)?;
    Some(reports(given.stored(alloc, &index, SOUND), &given.reported))
}

/// Whether the outcome of a row is that of a run that indexes the archives itself, in pieces of each size, and of a
/// search of their stored index, also with `--verify`. Archives that are refused have no index.
fn is_reported_by_all(alloc: Global, given: &Given) -> bool {
    let mut as_wanted = match &given.index {
        Some(index) => {
            reports(given.stored(alloc, index, SOUND), &given.reported)
                && reports(given.verified(alloc, index, SOUND), &given.reported)
        }
        None => given.reported.starts_with(b"refused 4: archive "),
    };
    for piece in PIECES {
        let devices = Devices { piece, ..SOUND };
        as_wanted = reports(given.once(alloc, devices), &given.reported) && as_wanted;
    }
    as_wanted
}

/// The first row of a table whose runs have another outcome; None if there is no such row and the table has this many.
fn wrong_row(alloc: Global, table: &'static str, count: u32) -> Option<&'static str> {
    let mut setting = Setting::default();
    let mut rows = 0u32;
    for line in table.lines() {
        if setting.is_set_by(line) {
            continue;
        }
        if !setting.is_reported(alloc, line).unwrap_or(false) {
            return Some(line);
        }
        rows = rows.saturating_add(1);
    }
    if rows == count {
        None
    } else {
        Some("another number of rows")
    }
}

#[test]
fn text_rows_are_reported(rt: HostRuntime) {
    let wrong = wrong_row(rt.alloc(), TEXT_ROWS, 32).unwrap_or("");
    assert!(rt; wrong.is_empty(), "{wrong}");
}

#[test]
fn pattern_rows_are_reported(rt: HostRuntime) {
    let wrong = wrong_row(rt.alloc(), PATTERN_ROWS, 75).unwrap_or("");
    assert!(rt; wrong.is_empty(), "{wrong}");
}

#[test]
fn date_rows_are_reported(rt: HostRuntime) {
    let wrong = wrong_row(rt.alloc(), DATE_ROWS, 26).unwrap_or("");
    assert!(rt; wrong.is_empty(), "{wrong}");
}

#[test]
fn form_rows_are_reported(rt: HostRuntime) {
    let wrong = wrong_row(rt.alloc(), FORM_ROWS, 38).unwrap_or("");
    assert!(rt; wrong.is_empty(), "{wrong}");
}

#[test]
fn refusal_rows_are_reported(rt: HostRuntime) {
    let wrong = wrong_row(rt.alloc(), REFUSAL_ROWS, 44).unwrap_or("");
    assert!(rt; wrong.is_empty(), "{wrong}");
}

#[test]
fn index_rows_are_reported(rt: HostRuntime) {
    let wrong = wrong_row(rt.alloc(), INDEX_ROWS, 39).unwrap_or("");
    assert!(rt; wrong.is_empty(), "{wrong}");
}

/// Archives of which each beginning is searched, a pattern, and the fewest bytes in which it is found: an encoded text,
/// and parts inside one another.
const FRONTS: [(&str, &str, usize); 2] = [
    (
        "From a@x.org Thu Jan  2 10:00:00 2003|Content-Type: text/plain; charset=utf-8|Content-Transfer-Encoding: base64||ZsO|8cg==||",
        "-r, b:für",
        120,
    ),
    (
        "From a@x.org Thu Jan  2 10:00:00 2003|Content-Type: multipart/mixed; boundary=o||--o|Content-Type: multipart/mixed; boundary=i||--i||inner|--o||outer|--o--||",
        "-r, b:inner,outer",
        149,
    ),
];

/// The bytes of a separator line without its LF.
const SEPARATOR_SIZE: usize = 37;

/// Whether the outcome for the beginning of an archive is right: the pattern is found in this many bytes and more. It
/// is None if memory runs out.
fn front_is_reported(
    alloc: Global,
    (text, pattern, enough): (&str, &str, usize),
    size: usize,
) -> Option<bool> {
    let text = text.get(..size)?;
    let row = match size {
        _ if size >= enough => format!(in alloc; "{pattern} => found 1: 0 {size} m.mbox|"),
        0 | SEPARATOR_SIZE.. => [pattern, " => none"].concat(alloc),
        _ => [pattern, " => refused 4: archive 1: not an mbox"].concat(alloc),
    };
    let given = Given::over(alloc, text, row.ok()?.as_str())?;
    Some(is_reported_by_all(alloc, &given))
}

#[test]
fn fronts_of_archives_are_reported(rt: HostRuntime) {
    for archive in FRONTS {
        for size in 0..=archive.0.len() {
            let as_wanted = front_is_reported(rt.alloc(), archive, size).unwrap_or(false);
            assert!(rt; as_wanted, "{size} bytes of {}", archive.0);
        }
    }
}
