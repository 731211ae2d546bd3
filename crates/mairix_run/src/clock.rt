//! The moment of the system's clock.
ghost use Rattle.std.specs.Prelude.{◌≡◌, ◌/◌};
ghost use Rattle.std.specs.Time.{system_time_nanos};
ghost use Rattle.mairix_run.specs.Clocks.{second_shown, second_within};

use mail_dates::Moment;
use std::io;
use std::time::{SystemTime, UNIX_EPOCH};

/// Returns the moment of the clock's second; that of second 0 if the clock can't be read, or is after the year 9999.
pub fn moment_of(shown: io::Result<SystemTime>) -> Moment
    ensures { result ≡ second_shown shown }
{
    match shown {
        Ok(time) => moment_at(seconds_of(time)),
        Err(_) => moment_at(0),
    }
}

/// Returns the seconds of a time, counted from 1970.
fn seconds_of(time: SystemTime) -> u64
    ensures { result ≡ system_time_nanos time / 1000000000 }
{
    match time.duration_since(UNIX_EPOCH) {
        Ok(since) => since.as_secs(),
        Err(_) => 0,
    }
}

/// Returns the moment of a second; that of second 0 if it is after the year 9999.
fn moment_at(second: u64) -> Moment
    ensures { result ≡ second_within second }
{
    let signed = i64::try_from(second).unwrap_or(-1);
    match Moment::new(signed) {
        Some(moment) => moment,
        None => Moment::new(0).unwrap(),
    }
}
