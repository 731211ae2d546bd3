//! Reads ranges of days, as in `2w-`, `oct` or `21apr-mar`.

ghost use Rattle.std.specs.Prelude.{◌≡◌, ◌↔◌, ◌≤ℤ◌, pos, Ok, Err};
ghost use Rattle.mail_dates.specs.declared.fault.DateFault.{DateFault};
ghost use Rattle.mail_dates.specs.declared.range.Range.{Range};
ghost use Rattle.mail_dates.specs.Calendar.{day_number, start_of_day, end_of_day};
ghost use Rattle.mail_dates.specs.Ranges.{named_days_by, range_from_by, range_between_by, range_of_period_by, range_of_days, range_at};
ghost use Rattle.mail_dates.specs.RangeGrammar.{IsRange, IsFault};

use crate::days::Days;
use crate::fault::DateFault;
use crate::moment::Moment;
use crate::period::Period;
use crate::range::Range;
use crate::text::cut;

/// Returns the range that a text names at the moment `now`. The text is a period, or a start and an end with a `-`
/// between them, one of which may be empty. Days are those of UTC, and today is the day of `now`.
///
/// A period is one of these, with letters in either case:
///
/// - one to four digits and `d`, `w`, `m` or `y`: the day that is this many days, weeks, months of 30 days or years of
///   365 days before today
/// - `YYYYMMDD` or `YYYY`
/// - a month, from `jan` to `dec`
/// - a day and a month, in either order
///
/// A period or an end without a year is the latest that has begun by today. A start without a year is the latest that
/// has begun by the end's last day. None of them is cut to today. An empty start is no bound, and an empty end is this
/// moment.
///
/// # Errors
///
/// `BadNumber` if a period, a start or an end is more than four digits and then one of these letters. `BadDate` if the
/// text names no range for any other reason. The end is read before the start, so its fault is reported first.
pub fn range_of(spec: &str, now: Moment) -> Result<Range, DateFault>
    ensures value { result ≡ range_at spec.now now }
    ensures range { (range : Range) → (result ≡ Ok range) ↔ IsRange now spec.now range }
    ensures fault { (fault : DateFault) → (result ≡ Err fault) ↔ IsFault now spec.now fault }
{
    let text = spec.as_bytes();
    match cut(text, b'-') {
        None => range_of_period(now, text),
        Some((start, end)) => match cut(end, b'-') {
            None => range_between(now, start, end),
            Some(_) => Err(DateFault::BadDate),
        },
    }
}

/// Returns the range of a text that is a period.
fn range_of_period(now: Moment, text: &[u8]) -> Result<Range, DateFault>
    ensures { result ≡ range_of_period_by day_number now text.now }
{
    let today = now.day();
    let days = named_days(today, today, text)?;
    Ok(range_of_days(days))
}

/// Returns the range of all seconds of these days.
pub fn range_of_days(days: Days) -> Range
    ensures { result ≡ range_of_days days }
{
    Range {
        from: Some(start_of_day(days.first)),
        until: Some(end_of_day(days.last)),
    }
}

/// Returns the first second of a day.
pub fn start_of_day(day: i32) -> i64
    ensures { result ≡ start_of_day day }
{
    i64::from(day) * 86_400
}

/// Returns the last second of a day.
pub fn end_of_day(day: i32) -> i64
    ensures { result ≡ end_of_day day }
{
    i64::from(day) * 86_400 + 86_399
}

/// Returns the range of a start and an end, at least one of which isn't empty.
fn range_between(now: Moment, start: &[u8], end: &[u8]) -> Result<Range, DateFault>
    ensures { result ≡ range_between_by day_number now start.now end.now }
{
    if start.is_empty() && end.is_empty() {
        return Err(DateFault::BadDate);
    }
    let today = now.day();
    if end.is_empty() {
        return range_from(now, today, start, now.seconds());
    }
    let days = named_days(today, today, end)?;
    range_from(now, days.last, start, end_of_day(days.last))
}

/// Returns the range from the start in a text to the second `until`. `end` is the last day of the end.
fn range_from(now: Moment, end: i32, text: &[u8], until: i64) -> Result<Range, DateFault>
    ensures { result ≡ range_from_by day_number now end text.now until }
{
    let until = Some(until);
    if text.is_empty() {
        return Ok(Range { from: None, until });
    }
    let days = named_days(now.day(), end, text)?;
    let from = Some(start_of_day(days.first));
    Ok(Range { from, until })
}

/// Returns the days that a text names. Days without a year begin by the day `by`.
fn named_days(today: i32, by: i32, text: &[u8]) -> Result<Days, DateFault>
    requires { pos 0 ≤ℤ today }
    ensures { result ≡ named_days_by day_number today by text.now }
{
    let period = Period::of(text)?;
    period.days(today, by).ok_or(DateFault::BadDate)
}
