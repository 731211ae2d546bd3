//! The kinds of keys of an index, and the order of keys.
ghost use Rattle.std.specs.Prelude.{◌≡◌};
ghost use Rattle.mail_index.specs.OrderOfKeys.{key_cmp};

use mail_words::TextKind;
use std::cmp::Ordering;

/// The kind of a key: a word of one of the kinds of text, a message's own id, or an id that links it to a thread.
///
/// Kinds come in an index file in the order of their numbers there, 1 to 9.
#[derive(Clone, Copy)]
pub enum Kind {
    /// A folded word of a text of this kind.
    Text(TextKind),
    /// The message's own id.
    OwnId,
    /// An id by which messages belong to one thread.
    LinkId,
}

impl Kind {
    ghost use Rattle.mail_index.specs.Kinds.{kind_number, kind_of_number};

    /// The number of the kind in an index file, 1 to 9. Names come last, because files of version 1 have none.
    pub(crate) fn number(self) -> u8
        ensures { result ≡ kind_number self }
    {
        match self {
            Kind::Text(TextKind::To) => 1,
            Kind::Text(TextKind::Cc) => 2,
            Kind::Text(TextKind::Bcc) => 3,
            Kind::Text(TextKind::From) => 4,
            Kind::Text(TextKind::Subject) => 5,
            Kind::Text(TextKind::Body) => 6,
            Kind::OwnId => 7,
            Kind::LinkId => 8,
            Kind::Text(TextKind::Name) => 9,
        }
    }

    /// The kind of a number from 1 to 9.
    pub(crate) fn of_number(number: u8) -> Self
        ensures { result ≡ kind_of_number number }
    {
        match number {
            0 | 1 => Kind::Text(TextKind::To),
            2 => Kind::Text(TextKind::Cc),
            3 => Kind::Text(TextKind::Bcc),
            4 => Kind::Text(TextKind::From),
            5 => Kind::Text(TextKind::Subject),
            6 => Kind::Text(TextKind::Body),
            7 => Kind::OwnId,
            8 => Kind::LinkId,
            _ => Kind::Text(TextKind::Name),
        }
    }
}

/// Compares two keys as a file orders them: by the number of their kind, then byte by byte.
pub(crate) fn compare_keys(number: u8, text: &[u8], other_number: u8, other_text: &[u8]) -> Ordering
    ensures { result ≡ key_cmp number text.now other_number other_text.now }
{
    match number.cmp(&other_number) {
        Ordering::Equal => text.cmp(other_text),
        other => other,
    }
}
