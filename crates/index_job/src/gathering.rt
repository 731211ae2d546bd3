//! Gathers the terms of a message, line by line.
ghost use Rattle.std.specs.Prelude.{◌≡◌, ℕ, List, ◌∷◌, ◌++◌, [], IfOk, IfErr, OnOk};
ghost use Rattle.header_text.specs.Headers.{fields_of};
ghost use Rattle.mail_index.specs.Builders.{Draft, IsInMessage};
ghost use Rattle.mbox_cutter.specs.Lines.{IsLine};
ghost use Rattle.mime_text.specs.MessageFacts.{HasSizedIds, facts_of};
ghost use Rattle.mime_text.specs.Texts.{texts_of_message};
ghost use Rattle.index_job.specs.JobFaults.{of_text};
ghost use Rattle.index_job.specs.Inside.Gathering.{HasGathered, IsGatherFault, with_texts};
ghost use Rattle.index_job.specs.Inside.WaitingLines.{with_waiting};

use crate::folding_room::FoldingRoom;
use crate::term_sink::TermSink;
use mail_index::Builder;
use mime_text::{Facts, MessageText, TextFault};

/// Adds the terms of a line of the message's text to the builder.
pub(crate) fn feed_line(
    text: &mut MessageText,
    line: &[u8],
    room: &mut FoldingRoom,
    builder: &mut Builder,
) -> Result<(), TextFault>
    requires line { IsLine line.now }
    requires phase { IsInMessage builder.old }
    ensures ok { OnOk result ((ls : List (List ℕ)) (d : Draft)
        → HasGathered text.old (with_waiting room.old.waiting builder.old) d ls
        → HasGathered text.new (with_waiting room.new.waiting builder.new) d
        (ls ++ line.now ∷ [])) }
    ensures err { IfErr result (λ fault. (ls ms : List (List ℕ)) (d : Draft)
        → HasGathered text.old (with_waiting room.old.waiting builder.old) d ls
        → IsGatherFault (with_texts (texts_of_message (ls ++ line.now ∷ ms)) d) (of_text fault)) }
{
    let mut terms = TermSink { builder, room };
    text.line(line, &mut terms)
}

/// Adds the remaining terms of the text, and returns what else the message's own header says.
pub(crate) fn end_text(
    text: &mut MessageText,
    room: &mut FoldingRoom,
    builder: &mut Builder,
) -> Result<Facts, TextFault>
    requires { IsInMessage builder.old }
    ensures sizes { IfOk result HasSizedIds }
    ensures facts { IfOk result (λ facts. (ls : List (List ℕ)) (d : Draft)
        → HasGathered text.old (with_waiting room.old.waiting builder.old) d ls
        → facts ≡ facts_of (fields_of ls)) }
    ensures ok { OnOk result ((ls : List (List ℕ)) (d : Draft)
        → HasGathered text.old (with_waiting room.old.waiting builder.old) d ls
        → with_waiting room.new.waiting builder.new ≡ with_texts (texts_of_message ls) d) }
    ensures err { IfErr result (λ fault. (ls : List (List ℕ)) (d : Draft)
        → HasGathered text.old (with_waiting room.old.waiting builder.old) d ls
        → IsGatherFault (with_texts (texts_of_message ls) d) (of_text fault)) }
{
    let mut terms = TermSink { builder, room };
    text.finish(&mut terms)
}
