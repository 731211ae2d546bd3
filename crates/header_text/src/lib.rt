//! The header of a message: its fields (RFC 5322), their encoded words (RFC 2047) and charsets, and the message ids in
//! them.
#![tactic(auto)]

mod base64_groups;
mod base64_reader;
mod blanks;
mod charset;
mod cut;
mod encoded_word;
mod escape;
mod field;
mod field_list;
mod header;
mod law;
mod message_id;
mod names;
mod text;
mod unfolding;

pub use base64_reader::Base64;
pub use blanks::{after_blanks, before_blanks, trimmed};
pub use charset::Charset;
pub use cut::cut_at;
pub use encoded_word::{decode_words, decode_words_into};
pub use escape::unescape_into;
pub use field::Field;
pub use field_list::Fields;
pub use header::{Header, Taken};
pub use law::{encoded_words_are_leftmost, encoded_words_are_the_only_leftmost};
pub use message_id::{message_ids, push_ids};
pub use names::is_named;
pub use text::{decode, decode_into};
pub use unfolding::{unfold, unfold_into};
