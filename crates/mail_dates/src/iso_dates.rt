//! Reads ranges of ISO 8601 dates, as in `2003-02..2003-04-15`.

ghost use Rattle.std.specs.Prelude.{◌≡◌};
ghost use Rattle.std.specs.List.{slice_split};
ghost use Rattle.mail_dates.specs.Calendar.{day_number};
ghost use Rattle.mail_dates.specs.IsoRanges.{is_dot, iso_days_by, iso_month_by, iso_day_by, iso_range_of_parts_by, iso_between_by, iso_range_of};

use crate::days::{Days, DaysOfYear};
use crate::fault::DateFault;
use crate::number::number_in;
use crate::range::Range;
use crate::range_of_days::{end_of_day, range_of_days, start_of_day};
use crate::text::cut;

/// Returns the range of a text: one expression, or two with `..` between them, one of which may be empty. An expression
/// is `YYYY-MM` or `YYYY-MM-DD`, in UTC. The range has all seconds from the first of the first expression to the last
/// of the last one. If an expression is empty, there is no bound on its side.
///
/// # Errors
///
/// `BadDate` if the text has another form, or a month or a day that the calendar doesn't have.
#[tactic(auto, unfolding(crate::specs::IsoRanges::iso_range_of))]
pub fn iso_range(spec: &str) -> Result<Range, DateFault>
    ensures { result ≡ iso_range_of spec.now }
{
    range_of_text(spec.as_bytes()).ok_or(DateFault::BadDate)
}

/// Returns the range of a text, or None if it has none of the forms.
fn range_of_text(text: &[u8]) -> Option<Range>
    ensures { result ≡ iso_range_of_parts_by day_number (slice_split is_dot text.now) }
{
    let Some((since, rest)) = cut(text, b'.') else {
        let days = days_of(text)?;
        return Some(range_of_days(days));
    };
    let (between, until) = cut(rest, b'.')?;
    if !between.is_empty() {
        return None;
    }
    match cut(until, b'.') {
        None => range_between(since, until),
        Some(_) => None,
    }
}

/// Returns the range between two expressions, one of which may be empty.
fn range_between(since: &[u8], until: &[u8]) -> Option<Range>
    ensures { result ≡ iso_between_by day_number since.now until.now }
{
    if since.is_empty() && until.is_empty() {
        return None;
    }
    let from = if since.is_empty() {
        None
    } else {
        let days = days_of(since)?;
        Some(start_of_day(days.first))
    };
    let until = if until.is_empty() {
        None
    } else {
        let days = days_of(until)?;
        Some(end_of_day(days.last))
    };
    Some(Range { from, until })
}

/// Returns the days of an expression.
#[tactic(auto, unfolding(crate::specs::IsoRanges::iso_days_by))]
fn days_of(text: &[u8]) -> Option<Days>
    ensures { result ≡ iso_days_by day_number text.now }
{
    let (year, rest) = cut(text, b'-')?;
    match cut(rest, b'-') {
        None => days_of_month(year, rest),
        Some((month, day)) => match cut(day, b'-') {
            None => days_of_day(year, month, day),
            Some(_) => None,
        },
    }
}

/// Returns the days of a month, given as `YYYY` and `MM`.
fn days_of_month(year: &[u8], month: &[u8]) -> Option<Days>
    ensures { result ≡ iso_month_by day_number year.now month.now }
{
    match (number_in(4, 4, year), number_in(2, 2, month)) {
        (Some(year), Some(month)) => DaysOfYear::Month(month as u8).in_year(year as i16),
        _ => None,
    }
}

/// Returns the day given as `YYYY`, `MM` and `DD`.
fn days_of_day(year: &[u8], month: &[u8], day: &[u8]) -> Option<Days>
    ensures { result ≡ iso_day_by day_number year.now month.now day.now }
{
    match (
        number_in(4, 4, year),
        number_in(2, 2, month),
        number_in(2, 2, day),
    ) {
        (Some(year), Some(month), Some(day)) => {
            let days = DaysOfYear::Day {
                month: month as u8,
                day: day as u8,
            };
            days.in_year(year as i16)
        }
        _ => None,
    }
}
