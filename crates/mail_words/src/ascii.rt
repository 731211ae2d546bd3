//! Word characters and joiners of ASCII, found with one look at a table.
ghost use Rattle.std.specs.Prelude.{◌≡◌, ◌&&◌, nat_lt};
ghost use Rattle.mail_words.specs.Words.{is_word_character, is_joiner};

/// A `w` for each word character of ASCII, a `j` for each joiner, and a dot for any other byte.
static CLASSES: [u8; 256] = *b"\
    ................................\
    ...........j.jj.wwwwwwwwww......\
    jwwwwwwwwwwwwwwwwwwwwwwwwww....j\
    .wwwwwwwwwwwwwwwwwwwwwwwwww.....\
    ................................\
    ................................\
    ................................\
    ................................";

/// Returns whether the byte is a word character by itself. A byte of a character beyond ASCII isn't.
pub(crate) fn is_ascii_word_character(byte: u8) -> bool
    ensures { result ≡ (nat_lt byte 128 && is_word_character byte) }
{
    CLASSES[byte as usize] == b'w'
}

/// Returns whether the byte is a joiner. All joiners are ASCII.
pub(crate) fn is_ascii_joiner(byte: u8) -> bool
    ensures { result ≡ is_joiner byte }
{
    CLASSES[byte as usize] == b'j'
}
