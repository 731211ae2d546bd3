//! Reads the time zones of header dates.

ghost use Rattle.std.specs.Prelude.{◌≡◌, ◌<◌, bytes_eq, find, option_copied, IfSome};
ghost use Rattle.std.specs.Option.{option_map_or};
ghost use Rattle.mail_dates.specs.HeaderDates.{zones, hours_west, offset_size, numeric_offset, offset_of};

use crate::number::number_in;

/// The names of zones other than UTC, in small letters, and how many hours each is west of UTC.
const ZONES: [([u8; 3], u8); 8] = [
    (*b"est", 5),
    (*b"edt", 4),
    (*b"cst", 6),
    (*b"cdt", 5),
    (*b"mst", 7),
    (*b"mdt", 6),
    (*b"pst", 8),
    (*b"pdt", 7),
];

/// Returns how many seconds a zone is east of UTC. The zone is `+hhmm`, `-hhmm` or a name; any other text means UTC.
pub fn offset_of(zone: &[u8]) -> i32
    ensures { result ≡ offset_of zone.now }
{
    match numeric_offset(zone) {
        Some(offset) => offset,
        None => -(i32::from(hours_west(zone)) * 3600),
    }
}

/// Returns the offset of `+hhmm` or `-hhmm`, in seconds east of UTC.
fn numeric_offset(zone: &[u8]) -> Option<i32>
    ensures { result ≡ numeric_offset zone.now }
{
    let (sign, digits) = zone.split_first()?;
    match (sign, offset_size(digits)) {
        (b'+', Some(size)) => Some(size as i32),
        (b'-', Some(size)) => Some(-(size as i32)),
        _ => None,
    }
}

/// Returns how many seconds `hhmm` is.
fn offset_size(digits: &[u8]) -> Option<u32>
    ensures value { result ≡ offset_size digits.now }
    ensures bound { IfSome result (λ size. size < 86400) }
{
    match number_in(4, 4, digits) {
        Some(digits) if digits / 100 <= 23 && digits % 100 <= 59 => {
            Some(u32::from(digits / 100) * 3600 + u32::from(digits % 100) * 60)
        }
        _ => None,
    }
}

/// Returns how many hours a zone with this name is west of UTC. It is 0 for a name that isn't known.
#[tactic(auto, unfolding(crate::specs::HeaderDates::hours_west))]
fn hours_west(name: &[u8]) -> u8
    ensures value { result ≡ hours_west name.now }
    ensures bound { result < 9 }
{
    let [a, b, c] = name else { return 0 };
    let lower = [
        a.to_ascii_lowercase(),
        b.to_ascii_lowercase(),
        c.to_ascii_lowercase(),
    ];
    match zone_named(lower) {
        Some(zone) => zone.1,
        None => 0,
    }
}

/// Returns the zone with this name, which is in small letters.
fn zone_named(lower: [u8; 3]) -> Option<&'static ([u8; 3], u8)>
    ensures { option_copied result ≡ find (λ zone. bytes_eq zone.0 lower) zones }
{
    ZONES.iter().find(|zone| zone.0 == lower)
}
