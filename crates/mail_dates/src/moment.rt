//! The moment at which a range is read: its second and its day.

ghost use Rattle.std.specs.Prelude.{◌≡◌, ◌↔◌, ◌<◌, ◌≤◌, ◌^◌, ◌/◌, ℕ, pos, IsSome, IfSome};
ghost use Rattle.mail_dates.specs.Calendar.{IsMoment};

use std::marker::Model;

/// The last second of the year 9999.
const LAST_SECOND: i64 = 253_402_300_799;

/// A second of UTC from 1970-01-01T00:00:00Z to 9999-12-31T23:59:59Z.
#[derive(Clone, Copy)]
pub struct Moment {
    second: u64,
}

impl Model for Moment {
    ghost Value = { ℕ };

    ghost view = { λ moment. moment.second };

    ghost inverse = { λ second. record { second = second } };

    ghost invariant = { λ moment. moment.second ≤ 253402300799 };
}

impl Moment {
    /// Returns the moment with this second, or None if it is before 1970 or after 9999.
    pub fn new(second: i64) -> Option<Moment>
        ensures exists { IsSome result ↔ IsMoment second }
        ensures value { IfSome result (λ moment. pos moment ≡ second) }
    {
        match second {
            0..=LAST_SECOND => Some(Moment {
                second: second as u64,
            }),
            _ => None,
        }
    }

    /// Returns the number of the day that the moment is in, counted from 1970-01-01 as 0.
    pub(crate) fn day(self) -> i32
        ensures { result ≡ pos (self / 86400) }
    {
        (self.second / 86_400) as i32
    }

    /// Returns the seconds from the beginning of 1970 to the moment, which are below 2^38.
    pub fn seconds(self) -> i64
        ensures value { result ≡ pos self }
        ensures bound { self < 2 ^ 38 }
    {
        self.second as i64
    }
}
