//! The words of a message's texts: what a word is, how words are compared, and the kinds of text that they are in.
#![tactic(auto)]

mod ascii;
mod bit_tables;
mod character;
mod even_text;
mod flags;
mod folding;
mod kept_front;
mod kind;
mod lanes;
mod laws;
mod one_word;
mod runs;
mod words;

pub use even_text::fold_evenly;
pub use flags::{Flag, Flags};
pub use folding::{fold, fold_ascii, fold_onto};
pub use kind::TextKind;
pub use laws::{words_are_in_order, words_fold_evenly, words_fold_with_their_text};
pub use one_word::{is_one_word, is_part_of_word};
pub use words::Words;
