//! Dates from other programs, and properties that no clause states.

use crate::day_ranges::DAY_RANGES;
use crate::header_dates::HEADER_DATES;
use crate::rows::has_text;
use mail_dates::{DateFault, Moment, Range, iso_range, range_of, read_date};

/// Whether the date of a row is read as its second. It is None if the row has no second or no field.
fn is_read(row: &str) -> Option<bool> {
    let (second, text) = row.split_once(' ')?;
    let date = match second {
        "none" => None,
        number => Some(number.parse::<i64>().ok()?),
    };
    Some(read_date(text) == date)
}

#[test]
fn reads_header_dates(rt: HostRuntime) {
    let mut rows = 0u32;
    for row in HEADER_DATES.lines() {
        if row.starts_with('#') {
            continue;
        }
        assert!(rt; is_read(row).unwrap_or(false), "{row}");
        rows = rows.saturating_add(1);
    }
    assert!(rt; rows == 230);
}

const NOW: i64 = 1_053_259_200;

const DAY_IN_MAY: Range = Range {
    from: Some(1_053_216_000),
    until: Some(1_053_302_399),
};

const FEBRUARY: Range = Range {
    from: Some(1_044_057_600),
    until: Some(1_046_476_799),
};

/// Whether a day is read at a moment as its range, and a count of too many digits is refused.
fn has_range() -> Option<bool> {
    let now = Moment::new(NOW)?;
    let day = range_of("18may", now).ok()?;
    let has_until = day.has(Some(1_053_302_399));
    let has_other = day.has(Some(1_053_302_400)) || day.has(None);
    let is_refused = matches!(range_of("12345d", now), Err(DateFault::BadNumber));
    Some(now.seconds() == NOW && day == DAY_IN_MAY && has_until && !has_other && is_refused)
}

/// Returns the end of a range in a row, where `-` means no end. It is None if the text is neither.
fn end_of(text: &str) -> Option<Option<i64>> {
    match text {
        "-" => Some(None),
        number => Some(Some(number.parse::<i64>().ok()?)),
    }
}

/// Whether the text of a row is read as its range, or refused with its fault. It is None if the row doesn't have this
/// form.
fn is_range(row: &str) -> Option<bool> {
    let (second, rest) = row.split_once(' ')?;
    let (first, rest) = rest.split_once(' ')?;
    let (last, text) = rest.split_once(' ')?;
    let now = Moment::new(second.parse::<i64>().ok()?)?;
    match range_of(text, now) {
        Ok(range) => Some(range.from == end_of(first)? && range.until == end_of(last)?),
        Err(DateFault::BadDate) => Some(first == "bad" && last == "date"),
        Err(DateFault::BadNumber) => Some(first == "bad" && last == "number"),
    }
}

#[test]
fn reads_ranges_of_days(rt: HostRuntime) {
    let mut rows = 0u32;
    for row in DAY_RANGES.lines() {
        assert!(rt; is_range(row).unwrap_or(false), "{row}");
        rows = rows.saturating_add(1);
    }
    assert!(rt; rows == 138);
}

#[test]
fn answers_ranges(rt: HostRuntime) {
    assert!(rt; has_range().unwrap_or(false) && Moment::new(-1).is_none());
    let is_refused = matches!(iso_range(".."), Err(DateFault::BadDate));
    assert!(rt; iso_range("2003-02").ok() == Some(FEBRUARY) && is_refused);
}

#[test]
fn names_faults(rt: HostRuntime) {
    let have_texts = has_text(DateFault::BadDate, "bad date")
        && has_text(DateFault::BadNumber, "bad number");
    assert!(rt; have_texts);
}
