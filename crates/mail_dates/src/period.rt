//! Reads the periods of days that a range can name.

ghost use Rattle.std.specs.Prelude.{◌≡◌, ◌≤◌, ◌≤ℤ◌, pos};
ghost use Rattle.mail_dates.specs.Calendar.{day_number, month_of as month_of_name};
ghost use Rattle.mail_dates.specs.Periods.{unit_of, days_in_unit, ago, has_long_count, full_date, whole_year, yearly_month, day_of, yearly_day, day_and_month, month_and_day, period_of, period_days_by};

use crate::calendar::month_of;
use crate::days::{Days, DaysOfYear};
use crate::fault::DateFault;
use crate::number::{are_digits, number_in};

/// A unit in which time before today is counted.
#[derive(Clone, Copy)]
pub enum Unit {
    Day,
    Week,
    /// 30 days.
    Month,
    /// 365 days.
    Year,
}

impl Unit {
    /// Returns the unit that a letter means: `d`, `w`, `m` or `y`, in either case.
    fn of(letter: u8) -> Option<Unit>
        ensures { result ≡ unit_of letter }
    {
        match letter.to_ascii_lowercase() {
            b'd' => Some(Unit::Day),
            b'w' => Some(Unit::Week),
            b'm' => Some(Unit::Month),
            b'y' => Some(Unit::Year),
            _ => None,
        }
    }

    /// Returns how many days the unit has.
    fn days(self) -> u16
        ensures value { result ≡ days_in_unit self }
        ensures bound { result ≤ 365 }
    {
        match self {
            Unit::Day => 1,
            Unit::Week => 7,
            Unit::Month => 30,
            Unit::Year => 365,
        }
    }
}

/// A period of days.
#[derive(Clone, Copy)]
pub enum Period {
    /// The day that is this long before today.
    Ago { count: u16, unit: Unit },
    /// Days of one year.
    InYear { year: i16, days: DaysOfYear },
    /// Days of the latest year that has them and in which they begin by a given day.
    Yearly(DaysOfYear),
}

impl Period {
    /// Returns the period that a text names. The fault is `BadNumber` if the text is more than four digits and then a
    /// unit, and `BadDate` for any other text that names no period.
    #[tactic(auto, unfolding(crate::specs::Periods::period_of))]
    pub fn of(text: &[u8]) -> Result<Period, DateFault>
        ensures { result ≡ period_of text.now }
    {
        if has_long_count(text) {
            return Err(DateFault::BadNumber);
        }
        ago(text)
            .or(full_date(text))
            .or(whole_year(text))
            .or(yearly_month(text))
            .or(day_and_month(text))
            .or(month_and_day(text))
            .ok_or(DateFault::BadDate)
    }

    /// Returns the days of the period, if the calendar has them. The numbers count from 1970-01-01 as 0. `today` is
    /// today's number. Days without a year are those of the latest year that has them and in which they begin by the
    /// day `by`.
    pub fn days(self, today: i32, by: i32) -> Option<Days>
        requires { pos 0 ≤ℤ today }
        ensures { result ≡ period_days_by day_number today by self }
    {
        match self {
            Period::Ago { count, unit } => {
                let first = today - i32::from(count) * i32::from(unit.days());
                let last = first;
                Some(Days { first, last })
            }
            Period::InYear { year, days } => days.in_year(year),
            Period::Yearly(days) => days.latest(by),
        }
    }
}

/// Returns whether a text is more than four digits and then a unit.
fn has_long_count(text: &[u8]) -> bool
    ensures { result ≡ has_long_count text.now }
{
    let [digits @ .., letter] = text else {
        return false
    };
    Unit::of(*letter).is_some() && digits.len() > 4 && are_digits(digits)
}

/// Reads one to four digits and then a unit.
fn ago(text: &[u8]) -> Option<Period>
    ensures { result ≡ ago text.now }
{
    if let [digits @ .., letter] = text
        && let Some(unit) = Unit::of(*letter)
        && let Some(count) = number_in(1, 4, digits)
    {
        return Some(Period::Ago { count, unit });
    }
    None
}

/// Reads `YYYYMMDD`.
fn full_date(text: &[u8]) -> Option<Period>
    ensures { result ≡ full_date text.now }
{
    if text.len() != 8 {
        return None;
    }
    match (
        number_in(4, 4, &text[..4]),
        number_in(2, 2, &text[4..6]),
        number_in(2, 2, &text[6..]),
    ) {
        (Some(year), Some(month), Some(day)) => Some(Period::InYear {
            year: year as i16,
            days: DaysOfYear::Day {
                month: month as u8,
                day: day as u8,
            },
        }),
        _ => None,
    }
}

/// Reads `YYYY`.
fn whole_year(text: &[u8]) -> Option<Period>
    ensures { result ≡ whole_year text.now }
{
    let year = number_in(4, 4, text)?;
    Some(Period::InYear {
        year: year as i16,
        days: DaysOfYear::All,
    })
}

/// Reads a month's name.
fn yearly_month(text: &[u8]) -> Option<Period>
    ensures { result ≡ yearly_month text.now }
{
    let month = month_of(text)?;
    Some(Period::Yearly(DaysOfYear::Month(month)))
}

/// Reads a day and a month's name.
fn day_and_month(text: &[u8]) -> Option<Period>
    ensures { result ≡ day_and_month text.now }
{
    let (day, month) = text.split_at(text.len().saturating_sub(3));
    yearly_day(month, day)
}

/// Reads a month's name and a day.
fn month_and_day(text: &[u8]) -> Option<Period>
    ensures { result ≡ month_and_day text.now }
{
    let (month, day) = text.split_at(text.len().min(3));
    yearly_day(month, day)
}

/// Returns the period of a day and a month's name, if both can be read.
fn yearly_day(month: &[u8], day: &[u8]) -> Option<Period>
    ensures { result ≡ yearly_day (month_of_name month.now) (day_of day.now) }
{
    match (month_of(month), day_of(day)) {
        (Some(month), Some(day)) => Some(Period::Yearly(DaysOfYear::Day { month, day })),
        _ => None,
    }
}

/// Reads the number of a day: one or two digits, from 1 to 31, without a 0 at the front.
fn day_of(text: &[u8]) -> Option<u8>
    ensures { result ≡ day_of text.now }
{
    match (text, number_in(1, 2, text)) {
        ([first, ..], Some(day)) if *first != b'0' && day <= 31 => Some(day as u8),
        _ => None,
    }
}
