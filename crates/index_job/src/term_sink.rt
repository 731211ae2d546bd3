//! Gives an index the terms of a message.
ghost use Rattle.std.specs.Prelude.{◌≡◌, ◌<◌, ◌≤◌, IsTrue, length, map, string_bytes, All, IfErr, IfOk, OnErr};
ghost use Rattle.mail_index.specs.Builders.{IsInMessage};
ghost use Rattle.mail_words.specs.Folding.{folding};
ghost use Rattle.mail_words.specs.Words.{words};
ghost use Rattle.mime_text.specs.MessageFacts.{HasSizedIds, IsSizedId};
ghost use Rattle.index_job.specs.Indexing.{AddsTerms};
ghost use Rattle.index_job.specs.Inside.BlankTexts.{is_blank_text};
ghost use Rattle.index_job.specs.Inside.WaitingLines.{with_waiting};
ghost use Rattle.index_job.specs.MessageTerms.{text_terms, own_id_terms, link_terms, id_terms, word_terms};

use crate::folding_room::{FoldingRoom, add_cut_words, add_words_of};
use mail_index::{BuildFault, Builder, Kind};
use mail_words::{TextKind, fold_ascii, fold_evenly};
use mime_text::{Facts, MessageIds, SinkFault, TextSink};
use std::alloc::AllocError;

/// A sink for the texts of the open message. It gives an index the words of each text, folded.
#[derive(Drop)]
pub(crate) struct TermSink<'a> {
    pub(crate) builder: &'a mut Builder,
    pub(crate) room: &'a mut FoldingRoom,
    ghost phase: { IsInMessage builder.now },
}

impl<'a> TextSink for TermSink<'a> {
    ghost use Rattle.std.specs.Prelude.{◌≡◌, ◌⊎◌};
    ghost use Rattle.mime_text.specs.declared.fault.SinkFault.TheVariants.{OutOfMemory, Refused};
    ghost use Rattle.index_job.specs.Indexing.{draft_with_terms, RefusesTerms};
    ghost use Rattle.index_job.specs.Inside.WaitingLines.{with_waiting};
    ghost use Rattle.index_job.specs.MessageTerms.{text_terms};

    ghost takes = { λ old kind text new. (new.builder.ghost_name ≡ old.builder.ghost_name)
        × (new.room.ghost_name ≡ old.room.ghost_name)
        × (with_waiting new.room.now.waiting new.builder.now
        ≡ draft_with_terms (text_terms (kind, text))
        (with_waiting old.room.now.waiting old.builder.now)) };

    ghost refuses = { λ old kind text fault new. (fault ≡ OutOfMemory)
        ⊎ ((fault ≡ Refused) × RefusesTerms (draft_with_terms (text_terms (kind, text))
        (with_waiting old.room.now.waiting old.builder.now))) };

    fn text(&mut self, kind: TextKind, text: &str) -> Result<(), SinkFault> {
        match add_words(self.builder, self.room, kind, text) {
            Ok(()) => Ok(()),
            Err(BuildFault::OutOfMemory) => Err(SinkFault::OutOfMemory),
            Err(_) => Err(SinkFault::Refused),
        }
    }
}

/// Folds a whole text if a look at each of its characters finds that its words fold with it, and returns whether it is
/// so. If not, or after an error, `into` may have anything.
fn fold_whole(text: &str, into: &mut String) -> Result<bool, AllocError>
    ensures { IfOk result (λ is_whole. IsTrue is_whole
        → words (string_bytes into.new) ≡ map folding (words text.now)) }
{
    let is_ascii = fold_ascii(text, into)?;
    if is_ascii {
        return Ok(true);
    }
    fold_evenly(text, into)
}

/// Whether a text has only spaces and control characters, so that it has no words.
fn is_blank(text: &str) -> bool
    ensures { result ≡ is_blank_text text.now }
{
    let mut rest = text.as_bytes();
    while let Some((first, others)) = rest.split_first() {
        if *first > b' ' {
            return false;
        }
        rest = others;
    }
    true
}

/// Adds the words of a text, each folded, to the builder or to the waiting lines of the room.
fn add_words(
    builder: &mut Builder,
    room: &mut FoldingRoom,
    kind: TextKind,
    text: &str,
) -> Result<(), BuildFault>
    requires { IsInMessage builder.old }
    ensures terms { AddsTerms (text_terms (kind, text.now)) result
        (with_waiting room.old.waiting builder.old) (with_waiting room.new.waiting builder.new) }
    ensures phase { IsInMessage builder.new }
{
    // Many lines of mail are empty.
    if is_blank(text) {
        return Ok(());
    }
    let is_whole = fold_whole(text, &mut room.folded)?;
    if is_whole {
        // One folding serves all words.
        return add_folded(builder, room, kind);
    }
    room.waiting.add(builder)?;
    room.fold_words(text)?;
    add_cut_words(
        builder,
        kind,
        room.folded.as_bytes(),
        room.lengths.as_slice(),
    )
}

/// Adds the words of the room's folded text to the builder; at a line of a body, to the room's waiting lines.
fn add_folded(
    builder: &mut Builder,
    room: &mut FoldingRoom,
    kind: TextKind,
) -> Result<(), BuildFault>
    requires { IsInMessage builder.old }
    ensures terms { AddsTerms (word_terms kind (words (string_bytes room.old.folded))) result
        (with_waiting room.old.waiting builder.old) (with_waiting room.new.waiting builder.new) }
    ensures phase { IsInMessage builder.new }
{
    if let TextKind::Body = kind {
        return room.waiting.push(builder, room.folded.as_str());
    }
    room.waiting.add(builder)?;
    add_words_of(builder, kind, room.folded.as_str())
}

/// Adds the ids of the message's own header: its own id, and the ids that link it to others.
pub(crate) fn add_ids(builder: &mut Builder, facts: &Facts) -> Result<(), BuildFault>
    requires phase { IsInMessage builder.old }
    requires sizes { HasSizedIds facts.now }
    ensures terms { AddsTerms (id_terms facts.now) result builder.old builder.new }
    ensures phase { IsInMessage builder.new }
{
    if let Some(id) = &facts.own_id {
        builder.add(Kind::OwnId, id.as_bytes())?;
    }
    add_links(builder, &facts.ids)
}

/// Adds the ids that link the message to others.
fn add_links(builder: &mut Builder, ids: &MessageIds) -> Result<(), BuildFault>
    requires phase { IsInMessage builder.old }
    requires sizes { All IsSizedId ids.now }
    ensures terms { AddsTerms (link_terms ids.now) result builder.old builder.new }
    ensures phase { IsInMessage builder.new }
{
    for id in ids.as_slice() {
        builder.add(Kind::LinkId, id)?;
    }
    Ok(())
}
