//! Reads the date of a Date field (RFC 5322 3.3, and its obsolete forms, 4.3).

ghost use Rattle.std.specs.Prelude.{◌≡◌, ◌<◌, IfSome};
ghost use Rattle.mail_dates.specs.Calendar.{day_number};
ghost use Rattle.mail_dates.specs.HeaderDates.{year_of, date_tokens, with_first, without_day_name, date_of_parts_by, date_of};

use crate::calendar::{day_number, month_of};
use crate::number::number_in;
use crate::time_of_day::time_of;
use crate::token::{are_letters, next_token, without_comments};
use crate::zone::offset_of;

/// Returns the second that a Date field says, counted from 1970-01-01T00:00:00Z as 0, or None if the field can't be
/// read.
///
/// All from the first `(` on is ignored. The rest is tokens, with spaces, tabs and commas between them: perhaps the
/// name of a day of the week, then the day, the month, the year and the time, and perhaps a zone. Tokens after these
/// are ignored.
#[tactic(auto, unfolding(crate::specs::HeaderDates::date_of))]
pub fn read_date(text: &str) -> Option<i64>
    ensures { result ≡ date_of text.now }
{
    // A missing token is read as an empty one. An empty zone is UTC, and no other token may be empty.
    let (day, rest) = day_token(without_comments(text.as_bytes()));
    let (month, rest) = next_token(rest);
    let (year, rest) = next_token(rest);
    let (time, rest) = next_token(rest);
    let (zone, _) = next_token(rest);
    date_of_parts(day, month, year, time, offset_of(zone))
}

/// Returns the first token after the name of a day of the week, if there is such a name, and what follows this token.
/// Any token of letters alone counts as such a name.
fn day_token(text: &[u8]) -> (&[u8], &[u8])
    ensures { without_day_name (date_tokens text.now) ≡ with_first result.0.now result.1.now }
{
    let (first, rest) = next_token(text);
    if are_letters(first) {
        next_token(rest)
    } else {
        (first, rest)
    }
}

/// Returns the second that these parts say, if each can be read. `offset` is how many seconds the zone is east of UTC.
fn date_of_parts(day: &[u8], month: &[u8], year: &[u8], time: &[u8], offset: i32) -> Option<i64>
    ensures { result ≡ date_of_parts_by day_number day.now month.now year.now time.now offset }
{
    match (
        number_in(1, 2, day),
        month_of(month),
        year_of(year),
        time_of(time),
    ) {
        (Some(day), Some(month), Some(year), Some(second)) => {
            let date = day_number(year as i16, month, day as u8)?;
            Some(i64::from(date) * 86_400 + i64::from(second) - i64::from(offset))
        }
        _ => None,
    }
}

/// Returns the year that a token says. Two digits mean a year from 1950 to 2049, and three digits count from 1900.
fn year_of(token: &[u8]) -> Option<u16>
    ensures value { result ≡ year_of token.now }
    ensures bound { IfSome result (λ year. year < 12000) }
{
    let year = number_in(2, 4, token)?;
    let full = match token.len() {
        4 => year,
        2 if year < 50 => year + 2000,
        _ => year + 1900,
    };
    Some(full)
}
