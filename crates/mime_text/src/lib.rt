//! The texts of a message: its lines are read one at a time, split into parts (RFC 2045, RFC 2046) and decoded.
#![tactic(auto)]

mod fault;
mod header;
mod law;
mod leaf;
mod message_text;
mod parts;
mod sink;

pub use fault::{SinkFault, TextFault};
pub use header::facts::Facts;
pub use header::owned::{DateText, MessageId, MessageIds};
pub use law::{one_line_at_a_time, parameters_are_of_pieces};
pub use message_text::MessageText;
pub use sink::TextSink;
