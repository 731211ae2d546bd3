//! Ranges of seconds, in which dates are looked for.

ghost use Rattle.std.specs.Prelude.{◌≡◌};

/// The seconds from `from` to `until`, both included. A side that is None has no bound.
#[derive(Clone, Copy, PartialEq, Eq)]
pub struct Range {
    /// The first second.
    pub from: Option<i64>,
    /// The last second.
    pub until: Option<i64>,
}

impl Range {
    ghost use Rattle.mail_dates.specs.Ranges.{has_date};

    /// Returns whether there is a date and it is in the range.
    pub fn has(&self, date: Option<i64>) -> bool
        ensures { result ≡ has_date self.now date }
    {
        let Some(second) = date else { return false };
        self.from.unwrap_or(i64::MIN) <= second && second <= self.until.unwrap_or(i64::MAX)
    }
}
