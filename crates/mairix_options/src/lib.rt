//! Reads what a user asks of a run: the words of the command line, and the rcfile.
#![tactic(auto)]

mod answer;
mod blanks;
mod command_line;
mod mail_format;
mod owned_text;
mod path;
mod rcfile;
mod setting;
mod texts;

pub use answer::{answer_file, answer_format};
pub use command_line::{Plan, UsageFault, plan_of, usage_text};
pub use mail_format::MailFormat;
pub use owned_text::{Text, Texts};
pub use rcfile::{Name, Rc, RcFault, read_rc};
