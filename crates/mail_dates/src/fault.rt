//! Why the text of a range is refused.

use thiserror::Error;

/// Why the text of a range is refused.
#[derive(Clone, Copy, Debug, Error)]
pub enum DateFault {
    /// The text has none of the forms of a range, or names a day that the calendar doesn't have.
    #[error("bad date")]
    BadDate,
    /// A count of days, weeks, months or years has more than four digits.
    #[error("bad number")]
    BadNumber,
}
