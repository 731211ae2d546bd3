//! The faults with which a query is refused.
ghost use Rattle.std.specs.Prelude.{◌≡◌};
ghost use Rattle.mail_query.specs.Inside.Reading.{fault_with_number};

use or_memory::OrMemory;

/// What is wrong with a query.
#[derive(Clone, Copy, Debug)]
pub enum QueryFaultKind {
    /// The list has no pattern, or the text has no term.
    NoPattern,
    /// The language has no such prefix.
    BadPrefix,
    /// The text has none of the forms of a word.
    BadWord,
    /// An `=` and digits at the end, which ask for approximate matching in C mairix.
    Approximate,
    /// The text has none of the forms of a date, or names a day that doesn't exist.
    BadDate,
    /// The text has none of the forms of a size, or the size is above 2^63 - 1 bytes.
    BadSize,
    /// The text isn't a list of flags.
    BadFlag,
    /// Two terms with the same prefix have no operator between them.
    NeedsOperator,
    /// A `)` has no `(`, or the text ends before the `)` of a `(`.
    BadParenthesis,
    /// A term should come, but an operator, a `)` or the end does, or nothing comes after a prefix.
    MissingTerm,
    /// More than 30 `(` and `not` are open at once.
    TooDeep,
    /// A term has a `"`. Phrases aren't supported.
    Phrase,
}

/// Why a query is refused, and at which pattern or token.
#[derive(Clone, Copy, Debug)]
pub struct QueryFault {
    /// The number of the pattern, or of the token in a boolean query, counted from 1; the end counts as a token.
    /// It is 1 if there is no pattern or token.
    pub number: usize,
    pub kind: QueryFaultKind,
}

/// Returns the fault of the pattern or token with this number. Lack of memory has no number.
pub(crate) fn numbered(number: usize, given: OrMemory<QueryFaultKind>) -> OrMemory<QueryFault>
    ensures { result ≡ fault_with_number number given }
{
    match given {
        OrMemory::Refused(kind) => OrMemory::Refused(QueryFault { number, kind }),
        OrMemory::Memory => OrMemory::Memory,
    }
}
