//! Days by their numbers, and days that can be in any year.

ghost use Rattle.std.specs.Prelude.{◌≡◌};
ghost use Rattle.mail_dates.specs.Calendar.{day_number};
ghost use Rattle.mail_dates.specs.Periods.{days_in_by, latest_days_by, begin_by};

use crate::calendar::{day_number, year_of_day};
use jiff_core::civil::days_in_month;

/// The days from `first` to `last`, both included. They are numbers, counted from 1970-01-01 as 0.
#[derive(Clone, Copy)]
pub struct Days {
    pub first: i32,
    pub last: i32,
}

/// Days of a year that isn't given yet.
#[derive(Clone, Copy)]
pub enum DaysOfYear {
    /// From 1 January to 31 December.
    All,
    /// A month; January is 1.
    Month(u8),
    /// A day of a month, each counted from 1.
    Day { month: u8, day: u8 },
}

impl DaysOfYear {
    /// Returns the numbers of these days in a year, or None if the year doesn't have them.
    pub fn in_year(self, year: i16) -> Option<Days>
        ensures { result ≡ days_in_by day_number self year }
    {
        let ends = match self {
            DaysOfYear::All => (day_number(year, 1, 1), day_number(year, 12, 31)),
            DaysOfYear::Month(month) => (
                day_number(year, month, 1),
                day_number(year, month, days_in_month(year, month)),
            ),
            DaysOfYear::Day { month, day } => {
                let number = day_number(year, month, day);
                (number, number)
            }
        };
        match ends {
            (Some(first), Some(last)) => Some(Days { first, last }),
            _ => None,
        }
    }

    /// Returns the numbers of these days in the latest year that has them and in which they begin by the day `by`.
    /// Returns None if there is no such year.
    pub fn latest(self, by: i32) -> Option<Days>
        ensures { result ≡ latest_days_by day_number self by }
    {
        let mut year = year_of_day(by);
        while year >= -9999 {
            let days = self.in_year(year);
            if begin_by(by, days) {
                return days;
            }
            year -= 1;
        }
        None
    }
}

/// Returns whether there are days, and they begin on the day `by` or before it.
fn begin_by(by: i32, days: Option<Days>) -> bool
    ensures { result ≡ begin_by by days }
{
    matches!(days, Some(days) if days.first <= by)
}
