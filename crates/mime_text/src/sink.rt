//! What takes the texts of a message.
ghost use Rattle.std.specs.Prelude.{ℕ, List, ◌≤◌, length, OnOk, IfErr};
ghost use Rattle.mail_words.specs.declared.kind.TextKind.{TextKind};
ghost use Rattle.mime_text.specs.declared.fault.SinkFault.{SinkFault};
ghost use Rattle.mime_text.specs.Sinks.{most_in_text};
ghost use Rattle.mime_text.specs.Inside.Showing.{Shows};

use crate::fault::{SinkFault, TextFault};
use mail_words::TextKind;

/// Takes the texts of a message, one at a time, each with its kind.
pub trait TextSink {
    /// How a text that was taken changes the sink: the sink before, the kind, the text, and the sink after it.
    ghost takes: { Self → TextKind → List ℕ → Self → Type 0 };

    /// How a text that was refused changes the sink, and why it was refused.
    ghost refuses: { Self → TextKind → List ℕ → SinkFault → Self → Type 0 };

    /// Takes a text. The text of a header field, or of a part's name, has at most 786,432 bytes; that of a body is one
    /// line of at most 196,611.
    ///
    /// # Errors
    ///
    /// `OutOfMemory` if memory runs out, and `Refused` if the sink doesn't take the text.
    fn text(&mut self, kind: TextKind, text: &str) -> Result<(), SinkFault>
        requires { length text.now ≤ most_in_text kind }
        ensures taken { OnOk result (takes self.old kind text.now self.new) }
        ensures refused { IfErr result (λ fault. refuses self.old kind text.now fault self.new) };
}

/// Gives a text to the sink.
pub(crate) fn give_text<S: TextSink>(
    kind: TextKind,
    text: &str,
    sink: &mut S,
) -> Result<(), TextFault>
    requires { length text.now ≤ most_in_text kind }
    ensures { Shows S.takes S.refuses kind text.now result sink.old sink.new }
{
    Ok(sink.text(kind, text)?)
}
