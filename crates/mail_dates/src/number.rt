//! Reads numbers in decimal digits.

ghost use Rattle.std.specs.Prelude.{◌≡◌, ◌<◌, ◌≤◌, ◌^◌, length, true, IfSome};
ghost use Rattle.std.specs.Char.{is_ascii_digit};
ghost use Rattle.std.specs.List.{list_all};
ghost use Rattle.std.specs.Str.Parse.{digits_value};
ghost use Rattle.mail_dates.specs.Numbers.{number_in};

/// Returns the number that the text writes in decimal, if it has `least` to `most` digits and nothing else.
pub fn number_in(least: usize, most: usize, text: &[u8]) -> Option<u16>
    requires { most ≤ 4 }
    ensures value { result ≡ number_in least most text.now }
    ensures bound { IfSome result (λ number. number < 10 ^ most) }
{
    if text.len() < least || text.len() > most || !are_digits(text) {
        return None;
    }
    Some(decimal_value(text) as u16)
}

/// Returns whether a text has digits alone. An empty text does.
pub fn are_digits(text: &[u8]) -> bool
    ensures { result ≡ list_all is_ascii_digit text.now }
{
    text.iter().all(u8::is_ascii_digit)
}

/// Returns the number that these digits write in decimal.
pub fn decimal_value(digits: &[u8]) -> u64
    requires few { length digits.now ≤ 18 }
    requires digits { list_all is_ascii_digit digits.now ≡ true }
    ensures value { result ≡ digits_value 10 digits.now }
    ensures bound { result < 10 ^ length digits.now }
{
    let mut value: u64 = 0;
    for digit in digits {
        value = value * 10 + u64::from(*digit - b'0');
    }
    value
}
