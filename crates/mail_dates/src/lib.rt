//! Dates of mail: reads Date fields, and texts that name a range of days. Nothing here takes memory.
//!
//! A second is a second of UTC, counted from 1970-01-01T00:00:00Z as 0, without leap seconds. Days are those of the
//! proleptic Gregorian calendar, in which year 0 is a leap year.
#![tactic(auto)]

mod calendar;
mod days;
mod fault;
mod header_date;
mod iso_dates;
mod laws;
mod moment;
mod number;
mod period;
mod range;
mod range_of_days;
mod text;
mod time_of_day;
mod token;
mod zone;

pub use fault::DateFault;
pub use header_date::read_date;
pub use iso_dates::iso_range;
pub use laws::{
    a_period_is_read_as_the_grammar_says, a_range_is_read_as_the_grammar_says,
    forms_of_periods_exclude_one_another, latest_year_is_latest, what_is_no_period_is_refused,
    what_is_no_range_is_refused,
};
pub use moment::Moment;
pub use number::{are_digits, decimal_value};
pub use range::Range;
pub use range_of_days::range_of;
