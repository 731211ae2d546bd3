//! The days of the calendar and their numbers, and the names of months.

ghost use Rattle.std.specs.Prelude.{◌≡◌, ◌≤◌, ◌<◌, IfSome, position};
ghost use Rattle.std.specs.Str.{str_eq_ignore_ascii_case};
ghost use Rattle.jiff_core.specs.Calendar.{IsEpochDay};
ghost use Rattle.mail_dates.specs.Calendar.{day_number, month_names, month_of, HasNoLater};

use jiff::civil::Date;

/// Returns the number of a day, counted from 1970-01-01 as 0. Returns None if the calendar doesn't have the day, or if
/// its year isn't from -9999 to 9999.
pub fn day_number(year: i16, month: u8, day: u8) -> Option<i32>
    ensures value { result ≡ day_number year month day }
    ensures bound { IfSome result IsEpochDay }
{
    if month > 12 || day > 31 {
        return None;
    }
    match Date::new(year, month as i8, day as i8) {
        Ok(date) => Some(date.to_plain().to_unix_epoch_day()),
        Err(_) => None,
    }
}

/// Returns the year of a day, or 9999 if the calendar doesn't have the day.
pub fn year_of_day(day: i32) -> i16
    ensures { HasNoLater day result }
{
    match jiff_core::civil::Date::from_unix_epoch_day(i64::from(day)) {
        Ok(date) => date.year,
        Err(_) => 9999,
    }
}

/// The names of months, in small letters.
const MONTH_NAMES: [[u8; 3]; 12] = [
    *b"jan", *b"feb", *b"mar", *b"apr", *b"may", *b"jun", *b"jul", *b"aug", *b"sep", *b"oct",
    *b"nov", *b"dec",
];

/// Returns the number of the month that three letters name, in either case: 1 for `jan`, 12 for `dec`.
#[tactic(auto, unfolding(crate::specs::Calendar::month_of))]
pub fn month_of(name: &[u8]) -> Option<u8>
    ensures value { result ≡ month_of name.now }
    ensures bound { IfSome result (λ month. month ≤ 12) }
{
    let index = index_of_month(name)?;
    Some(index as u8 + 1)
}

/// Returns the place of a month's name in the list, from 0.
fn index_of_month(name: &[u8]) -> Option<usize>
    ensures value { result ≡ position (str_eq_ignore_ascii_case name.now) month_names }
    ensures bound { IfSome result (λ index. index < 12) }
{
    MONTH_NAMES
        .iter()
        .position(|month| name.eq_ignore_ascii_case(month))
}
