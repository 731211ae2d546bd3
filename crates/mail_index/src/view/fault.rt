//! What is wrong with bytes that aren't an index file.
use std::error::Error;
use std::fmt;

/// A part of an index file.
#[derive(Clone, Copy, Debug)]
pub enum Section {
    /// Magic, version, and the counts of entries and bytes.
    Counts,
    /// The archives' paths, lengths and digests.
    Archives,
    /// The messages' records.
    Records,
    /// The directory of the keys, with their texts.
    Directory,
    /// The lists of message numbers.
    Postings,
}

/// The first thing that is wrong with bytes that aren't an index file. The rules are checked in this order.
#[derive(Clone, Copy, Debug)]
pub enum IndexFault {
    /// There are fewer than 80 bytes, the size of the smallest file.
    TooShort,
    /// The bytes don't begin as an index file does.
    BadMagic,
    /// The version is neither 1 nor 2.
    BadVersion,
    /// The last 32 bytes aren't the SHA-256 of those before them.
    BadDigest,
    /// A section breaks its rule; this is the first that does.
    BadLayout(Section),
}

impl fmt::Display for Section {
    ghost use Rattle.std.specs.Prelude.{Some};
    ghost use Rattle.mail_index.specs.FaultTexts.{text_of_section};

    ghost output = { λ section. Some (text_of_section section) };

    fn fmt<W: fmt::Write>(&self, f: &mut fmt::Formatter<W>) -> fmt::Result {
        f.write_str(match self {
            Section::Counts => "counts",
            Section::Archives => "archives",
            Section::Records => "records",
            Section::Directory => "directory",
            Section::Postings => "postings",
        })
    }
}

impl fmt::Display for IndexFault {
    ghost use Rattle.std.specs.Prelude.{Some};
    ghost use Rattle.mail_index.specs.FaultTexts.{text_of_index};

    ghost output = { λ fault. Some (text_of_index fault) };

    fn fmt<W: fmt::Write>(&self, f: &mut fmt::Formatter<W>) -> fmt::Result {
        f.write_str(match *self {
            IndexFault::TooShort => "too short",
            IndexFault::BadMagic => "bad magic",
            IndexFault::BadVersion => "unknown version",
            IndexFault::BadDigest => "bad digest",
            IndexFault::BadLayout(section) => return write!(f, "bad layout in {section}"),
        })
    }
}

impl Error for IndexFault {}
