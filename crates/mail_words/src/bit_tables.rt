//! Tables with a bit for each character below U+0800: these have one or two bytes in UTF-8.
ghost use Rattle.std.specs.Prelude.{◌≡◌, ◌<◌};
ghost use Rattle.mail_words.specs.Words.{is_word_character};

/// The word characters. Each number has the bits of 64 characters, from the one in its comment on, whose bit is the lowest.
/// So the two bits that are clear in the fourth number are × and ÷. It is proved that each bit is as the kit says
/// (`is_word_below`).
static WORD_BITS: [u64; 32] = [
    0x03FF000000000000, // U+0000
    0x07FFFFFE07FFFFFE, // U+0040
    0x0420040000000000, // U+0080
    0xFF7FFFFFFF7FFFFF, // U+00C0
    0xFFFFFFFFFFFFFFFF, // U+0100
    0xFFFFFFFFFFFFFFFF, // U+0140
    0xFFFFFFFFFFFFFFFF, // U+0180
    0xFFFFFFFFFFFFFFFF, // U+01C0
    0xFFFFFFFFFFFFFFFF, // U+0200
    0xFFFFFFFFFFFFFFFF, // U+0240
    0xFFFFFFFFFFFFFFFF, // U+0280
    0x0000501F0003FFC3, // U+02C0
    0xFFFFFFFFFFFFFFFF, // U+0300
    0xBCDFFFFFFFFFFFFF, // U+0340
    0xFFFFFFFBFFFFD740, // U+0380
    0xFFBFFFFFFFFFFFFF, // U+03C0
    0xFFFFFFFFFFFFFFFF, // U+0400
    0xFFFFFFFFFFFFFFFF, // U+0440
    0xFFFFFFFFFFFFFCFB, // U+0480
    0xFFFFFFFFFFFFFFFF, // U+04C0
    0xFFFEFFFFFFFFFFFF, // U+0500
    0xFFFFFFFF037FFFFF, // U+0540
    0xBFFFFFFFFFFE19FF, // U+0580
    0x000787FFFFFF03B6, // U+05C0
    0xFFFFFFFF07FF0000, // U+0600
    0xFFFFC3FFFFFFFFFF, // U+0640
    0xFFFFFFFFFFFFFFFF, // U+0680
    0x9FFFFDFF9FEFFFFF, // U+06C0
    0xFFFFFFFFFFFF0000, // U+0700
    0xFFFFFFFFFFFFE7FF, // U+0740
    0x0003FFFFFFFFFFFF, // U+0780
    0x243FFFFFFFFFFFFF, // U+07C0
];

/// Returns whether a character below U+0800 is a word character.
#[inline(always)]
pub(crate) fn is_word_below(c: u32) -> bool
    requires { c < 2048 }
    ensures { result ≡ is_word_character c }
{
    (WORD_BITS[c as usize / 64] >> (c % 64)) & 1 == 1
}
