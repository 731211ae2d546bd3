//! Groups of base64 symbols, and the symbols of a group that isn't complete yet.
ghost use Rattle.std.specs.Prelude.{◌≡◌, ℕ, ◌<◌, ◌≤◌, ◌+◌, ◌%◌, ◌/◌, ◌*◌, ◌++◌, take, List, [], true, length, slice_index, OnOk, OnErr, IfOk};
ghost use Rattle.header_text.specs.Base64.{bytes_of_symbols};
ghost use Rattle.header_text.specs.Inside.Alphabet.{is_symbol as is_symbol_of};

use base64::engine::general_purpose::STANDARD;
use std::alloc::AllocError;

/// At most three symbols, whose group isn't complete yet.
#[derive(Clone, Copy)]
pub struct Held {
    pub symbols: [u8; 4],
    pub count: usize,
    ghost few: { count < 4 },
    ghost all: { (k : ℕ) → k < count → is_symbol_of (slice_index symbols k) ≡ true },
}

/// An `s` for each symbol: a letter, a digit, `+` or `/`. A dot for any other byte.
static SYMBOLS: [u8; 256] = *b"\
    ................................\
    ...........s...sssssssssss......\
    .ssssssssssssssssssssssssss.....\
    .ssssssssssssssssssssssssss.....\
    ................................\
    ................................\
    ................................\
    ................................";

/// Returns whether a byte is a symbol. It takes one look at the table.
pub fn is_symbol(b: u8) -> bool
    ensures { result ≡ is_symbol_of b }
{
    SYMBOLS[b as usize] == b's'
}

/// Returns how many symbols at the front are in whole groups of four. If a symbol is held, the result is 0.
pub fn whole_groups(held: Held, text: &[u8]) -> usize
    ensures within { result ≤ length text.now }
    ensures groups { result % 4 ≡ 0 }
    ensures symbols { (k : ℕ) → k < result → is_symbol_of (slice_index text.now k) ≡ true }
    ensures none { 0 < result → held.count ≡ 0 }
{
    if held.count > 0 {
        return 0;
    }
    for (i, b) in text.iter().enumerate() {
        if !is_symbol(*b) {
            return i - i % 4;
        }
    }
    text.len() - text.len() % 4
}

/// Adds the bytes of symbols in whole groups of four, with one call of the decoder. If memory runs out, nothing is
/// added.
pub fn decode_groups(symbols: &[u8], into: &mut Vec<u8>) -> Result<(), AllocError>
    requires some { 0 < length symbols.now }
    requires groups { length symbols.now % 4 ≡ 0 }
    requires symbols { (k : ℕ) → k < length symbols.now
        → is_symbol_of (slice_index symbols.now k) ≡ true }
    ensures bytes { OnOk result (into.new.items ≡ into.old.items ++ bytes_of_symbols symbols.now) }
    ensures refused { OnErr result (into.new.items ≡ into.old.items) }
{
    let start = into.len();
    let size = symbols.len() / 4 * 3;
    into.resize(start + size, 0)?;
    decode_after(symbols, into, start);
    Ok(())
}

/// Writes the bytes of symbols in whole groups of four, from a place to the end.
fn decode_after(symbols: &[u8], into: &mut [u8], start: usize)
    requires some { 0 < length symbols.now }
    requires groups { length symbols.now % 4 ≡ 0 }
    requires symbols { (k : ℕ) → k < length symbols.now
        → is_symbol_of (slice_index symbols.now k) ≡ true }
    requires room { length into.old ≡ start + length symbols.now / 4 * 3 }
    ensures { into.new ≡ take start into.old ++ bytes_of_symbols symbols.now }
{
    let (_, after) = into.split_at_mut(start);
    let _ = STANDARD.decode_slice(symbols, after);
}
