//! A reader of base64 that comes in pieces.
ghost use Rattle.std.specs.Prelude.{◌≡◌, ℕ, ◌<◌, ◌≤◌, ◌+◌, ◌%◌, ◌∷◌, ◌++◌, length, slice_index, List, true, IfOk, OnOk, OnErr};
ghost use Rattle.bstr.specs.Text.{Extends};
ghost use Rattle.header_text.specs.Base64.{bytes_of_symbols, base64_bytes};
ghost use Rattle.header_text.specs.Inside.Alphabet.{is_symbol as is_symbol_of};
ghost use Rattle.header_text.specs.Symbols.{symbols_of};

use crate::base64_groups::{Held, decode_groups, is_symbol, whole_groups};
use crate::cut::cut_at;
use std::alloc::AllocError;

/// A reader of base64 (RFC 4648, 4) whose text comes in pieces.
#[derive(Clone, Copy)]
pub struct Base64 {
    held: Held,
    ended: bool,
}

/// Holds one more symbol, or decodes its group if the group is complete. If memory runs out, nothing is added.
fn hold(held: Held, symbol: u8, into: &mut Vec<u8>) -> Result<Held, AllocError>
    requires { is_symbol_of symbol ≡ true }
    ensures bytes { IfOk result (λ after. (later : List ℕ)
        → into.new.items ++ bytes_of_symbols (symbols_of after ++ later)
        ≡ into.old.items ++ bytes_of_symbols (symbols_of held ++ symbol ∷ later)) }
    ensures kept { Extends into.old.items into.new.items }
{
    let mut symbols = held.symbols;
    symbols[held.count] = symbol;
    if held.count < 3 {
        return Ok(Held {
            symbols,
            count: held.count + 1,
        });
    }
    decode_groups(&symbols, into).and(Ok(Held { symbols, count: 0 }))
}

/// Decodes a text without `=` that follows the held symbols, and returns the symbols held after it. If memory runs out,
/// some of its bytes may have been added.
fn decode_text(held: Held, text: &[u8], into: &mut Vec<u8>) -> Result<Held, AllocError>
    ensures bytes { IfOk result (λ after. (later : List ℕ)
        → into.new.items ++ bytes_of_symbols (symbols_of after ++ later)
        ≡ into.old.items ++ bytes_of_symbols (symbols_of held ++ (text.now ++ later))) }
    ensures kept { Extends into.old.items into.new.items }
{
    let mut held = held;
    let mut rest = text;
    while let Some((first, others)) = rest.split_first() {
        let count = whole_groups(held, rest);
        if count > 0 {
            decode_groups(&rest[..count], into)?;
            rest = &rest[count..];
        } else {
            if is_symbol(*first) {
                held = hold(held, *first, into)?;
            }
            rest = others;
        }
    }
    Ok(held)
}

impl Base64 {
    ghost use Rattle.std.specs.Prelude.{[]};
    ghost use Rattle.header_text.specs.Symbols.{bytes_to_come};

    /// Makes a reader at the beginning of a text.
    pub fn new() -> Self
        ensures { (text : List ℕ) → bytes_to_come result text ≡ base64_bytes text }
    {
        let held = Held {
            symbols: [0; 4],
            count: 0,
        };
        Base64 { held, ended: false }
    }

    /// Reads a piece, and adds the bytes of the groups that it completes. Bytes outside the alphabet are skipped, and
    /// the text ends at its first `=`.
    ///
    /// # Errors
    ///
    /// `AllocError` if memory runs out. Then the reader and the buffer are as before.
    pub fn push(&mut self, piece: &[u8], into: &mut Vec<u8>) -> Result<(), AllocError>
        ensures bytes { OnOk result ((later : List ℕ)
            → into.new.items ++ bytes_to_come self.new later
            ≡ into.old.items ++ bytes_to_come self.old (piece.now ++ later)) }
        ensures refused { OnErr result ((self.new ≡ self.old)
            × (into.new.items ≡ into.old.items)) }
    {
        if self.ended {
            return Ok(());
        }
        let cut = cut_at(b'=', piece);
        let (text, _) = cut.unwrap_or((piece, b""));
        let start = into.len();
        match decode_text(self.held, text, into) {
            Ok(held) => {
                self.held = held;
                self.ended = cut.is_some();
                Ok(())
            }
            Err(want) => {
                into.truncate(start);
                Err(want)
            }
        }
    }

    /// Adds the bytes of the symbols left over at the text's end: two symbols give one byte, and three give two.
    ///
    /// # Errors
    ///
    /// `AllocError` if memory runs out. Then nothing is added.
    pub fn finish(self, into: &mut Vec<u8>) -> Result<(), AllocError>
        ensures bytes { OnOk result (into.new.items ≡ into.old.items ++ bytes_to_come self []) }
        ensures refused { OnErr result (into.new.items ≡ into.old.items) }
    {
        let held = self.held;
        if held.count < 2 {
            return Ok(());
        }
        let mut symbols = [b'A'; 4];
        symbols[..held.count].copy_from_slice(&held.symbols[..held.count]);
        let end = into.len() + held.count - 1;
        let outcome = decode_groups(&symbols, into);
        into.truncate(end);
        outcome
    }
}

/// Adds the bytes of a whole text. If memory runs out, some of them may have been added.
pub fn decode_base64_into(text: &[u8], into: &mut Vec<u8>) -> Result<(), AllocError>
    ensures bytes { OnOk result (into.new.items ≡ into.old.items ++ base64_bytes text.now) }
    ensures size { OnOk result (length into.new.items ≤ length into.old.items + length text.now) }
{
    let mut reader = Base64::new();
    reader.push(text, into)?;
    reader.finish(into)
}
