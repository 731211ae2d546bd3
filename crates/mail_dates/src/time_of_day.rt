//! Reads times of day.

ghost use Rattle.std.specs.Prelude.{◌≡◌};
ghost use Rattle.mail_dates.specs.HeaderDates.{time_by, time_of};

use crate::number::number_in;
use crate::text::cut;

/// Returns the second of the day that `h:mm`, `hh:mm`, `h:mm:ss` or `hh:mm:ss` says. It is 86,400 for 23:59:60.
#[tactic(auto, unfolding(crate::specs::HeaderDates::time_of))]
pub fn time_of(token: &[u8]) -> Option<u32>
    ensures { result ≡ time_of token.now }
{
    let (hour, rest) = cut(token, b':')?;
    match cut(rest, b':') {
        None => time_by(hour, rest, Some(0)),
        Some((minute, second)) => match cut(second, b':') {
            None => time_by(hour, minute, number_in(2, 2, second)),
            Some(_) => None,
        },
    }
}

/// Returns the second of the day of an hour and a minute, as texts, and a second, if they are a time.
fn time_by(hour: &[u8], minute: &[u8], second: Option<u16>) -> Option<u32>
    ensures { result ≡ time_by hour.now minute.now second }
{
    match (number_in(1, 2, hour), number_in(2, 2, minute), second) {
        (Some(hour), Some(minute), Some(second)) if hour <= 23 && minute <= 59 && second <= 60 => {
            Some(u32::from(hour) * 3600 + u32::from(minute) * 60 + u32::from(second))
        }
        _ => None,
    }
}
