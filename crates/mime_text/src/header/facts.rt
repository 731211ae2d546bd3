//! What a message's own header says besides its texts.
ghost use Rattle.std.specs.Prelude.{◌≡◌, ◌==◌, ◌<◌, ◌≤◌, ℕ, List, length, map, All, IfOk, IfErr, IfSome, OnOk, option_map};
ghost use Rattle.std.specs.List.{list_any};
ghost use Rattle.header_text.specs.Headers.{fields_size, most_in_header};
ghost use Rattle.mime_text.specs.MessageFacts.{date_text_of, flags_of_header, own_id_of, ids_of_fields, first_of, is_status as is_status_of, is_linking as is_linking_of, IsSizedId, HasSizedIds};
ghost use Rattle.header_text.specs.Ids.{ids_of};

use crate::fault::TextFault;
use crate::header::field_text::FieldReader;
use crate::header::owned::{DateText, MessageId, MessageIds};
use header_text::{Fields, Header, is_named, message_ids};
use mail_words::Flags;
use std::alloc::{AllocError, Global};
use std::marker::Model;

/// What a message's own header says besides its texts.
#[derive(Drop)]
pub struct Facts {
    /// The text of the first Date field.
    pub date_text: Option<DateText>,
    /// Which of the letters R, A and F are in the values of the Status and X-Status fields.
    pub flags: Flags,
    /// The first id in a Message-ID field (RFC 5322, 3.6.4), 1 to 262,144 bytes.
    pub own_id: Option<MessageId>,
    /// All ids in Message-ID, In-Reply-To and References fields, in order; together they have fewer than 262,144 bytes.
    pub ids: MessageIds,
}

impl Facts {
    ghost use Rattle.header_text.specs.Headers.{fields_of};
    ghost use Rattle.header_text.specs.HeldLines.{HasLines};
    ghost use Rattle.mime_text.specs.MessageFacts.{facts_of};

    /// Returns the facts that a header says. The only fault is `OutOfMemory`.
    #[tactic(auto, unfolding(crate::specs::MessageFacts::facts_of))]
    pub(crate) fn of(
        alloc: Global,
        header: &Header,
        reader: &mut FieldReader,
    ) -> Result<Facts, TextFault>
        ensures facts { IfOk result (λ facts. (ls : List (List ℕ)) → HasLines header.now ls
            → facts ≡ facts_of (fields_of ls)) }
        ensures sizes { IfOk result HasSizedIds }
        ensures fault { IfErr result (λ fault. fault ≡ TextFault.OutOfMemory) }
    {
        let ids = linking_ids(alloc, header.fields())?;
        let own_id = own_id(alloc, header.fields())?;
        let date_text = date_text(alloc, header.fields(), reader)?;
        Ok(Facts {
            flags: flags(header.fields()),
            ids,
            own_id,
            date_text,
        })
    }
}

/// The facts of a message, which are there once its own header has ended. Contracts see them as these facts.
#[derive(Drop)]
pub(crate) struct KeptFacts {
    facts: Option<Facts>,
}

impl Model for KeptFacts {
    ghost use Rattle.std.specs.Prelude.{Option, IfSome};
    ghost use Rattle.mime_text.specs.declared.header.facts.Facts.{Facts};
    ghost use Rattle.mime_text.specs.MessageFacts.{HasSizedIds};

    ghost Value = { Option Facts };

    ghost view = { λ kept. kept.facts };

    ghost invariant = { λ kept. IfSome kept.facts HasSizedIds };
}

impl KeptFacts {
    ghost use Rattle.mime_text.specs.Feeding.{NotesFacts};

    pub(crate) fn none() -> Self
        ensures { result ≡ None }
    {
        KeptFacts { facts: None }
    }

    /// Replaces the facts.
    pub(crate) fn set(&mut self, facts: Option<Facts>)
        requires { IfSome facts HasSizedIds }
        ensures { self.new ≡ facts }
    {
        self.facts = facts;
    }

    /// Takes the noted facts, or reads them from `header` if there are none. No facts are kept then.
    pub(crate) fn take(
        &mut self,
        alloc: Global,
        header: &Header,
        reader: &mut FieldReader,
    ) -> Result<Facts, TextFault>
        ensures facts { IfOk result (λ facts. NotesFacts self.old (Some facts) header.now) }
        ensures sizes { IfOk result HasSizedIds }
        ensures fault { IfErr result (λ fault. fault ≡ TextFault.OutOfMemory) }
    {
        match self.facts.take() {
            Some(facts) => Ok(facts),
            None => Facts::of(alloc, header, reader),
        }
    }

    /// Notes the facts of this header, if none are noted. If memory runs out, none are.
    pub(crate) fn note(
        &mut self,
        alloc: Global,
        header: &Header,
        reader: &mut FieldReader,
    ) -> Result<(), TextFault>
        ensures notes { OnOk result (NotesFacts self.old self.new header.now) }
        ensures fault { IfErr result (λ fault. fault ≡ TextFault.OutOfMemory) }
    {
        if self.facts.is_none() {
            let facts = Facts::of(alloc, header, reader)?;
            self.set(Some(facts));
        }
        Ok(())
    }
}

/// Returns the text of the first Date field.
fn date_text(
    alloc: Global,
    fields: Fields<'_>,
    reader: &mut FieldReader,
) -> Result<Option<DateText>, AllocError>
    requires { fields_size fields ≤ most_in_header }
    ensures { IfOk result (λ text. text ≡ date_text_of fields.entry) }
{
    let Some(body) = fields.first_body(b"date") else {
        return Ok(None);
    };
    reader.read(body)?;
    let text = String::from_str(alloc, reader.text())?;
    Ok(Some(DateText::of(text)))
}

/// Whether a field of this name has flags that mail programs set.
fn is_status(name: &[u8]) -> bool
    ensures { result ≡ is_status_of name.now }
{
    is_named(name, b"status") || is_named(name, b"x-status")
}

/// Returns the flags of all Status and X-Status fields together.
fn flags(fields: Fields<'_>) -> Flags
    ensures { result ≡ flags_of_header fields.entry }
{
    let mut flags = Flags {
        seen: false,
        replied: false,
        flagged: false,
    };
    for field in fields {
        if is_status(field.name) {
            // The body isn't unfolded, because no letter is part of a line break.
            flags.seen |= field.body.contains(&b'R');
            flags.replied |= field.body.contains(&b'A');
            flags.flagged |= field.body.contains(&b'F');
        }
    }
    flags
}

/// Returns the first id in a body.
fn first_id(alloc: Global, body: &[u8]) -> Result<Option<MessageId>, AllocError>
    requires { length body.now ≤ most_in_header }
    ensures id { IfOk result (λ id. id ≡ first_of (ids_of body.now)) }
    ensures size { IfOk result (λ id. IfSome id IsSizedId) }
{
    let ids = message_ids(alloc, body)?;
    Ok(ids.into_iter().next().map(MessageId::of))
}

/// Returns the first id in a Message-ID field. A field without an id is passed over.
fn own_id(alloc: Global, fields: Fields<'_>) -> Result<Option<MessageId>, AllocError>
    requires { fields_size fields ≤ most_in_header }
    ensures id { IfOk result (λ id. id ≡ own_id_of fields.entry) }
    ensures size { IfOk result (λ id. IfSome id IsSizedId) }
{
    for field in fields {
        if field.is(b"message-id") {
            match first_id(alloc, field.body) {
                Ok(None) => {}
                found => return found,
            }
        }
    }
    Ok(None)
}

/// Whether a field of this name links the message to others.
fn is_linking(name: &[u8]) -> bool
    ensures { result ≡ is_linking_of name.now }
{
    is_named(name, b"message-id") || is_named(name, b"in-reply-to") || is_named(name, b"references")
}

/// Returns all ids of the linking fields, in order.
fn linking_ids(alloc: Global, fields: Fields<'_>) -> Result<MessageIds, AllocError>
    requires { fields_size fields ≤ most_in_header }
    ensures ids { IfOk result (λ ids. ids ≡ ids_of_fields fields.entry) }
    ensures sizes { IfOk result (λ ids. All IsSizedId ids) }
{
    let mut ids = MessageIds::new(alloc);
    for field in fields {
        if is_linking(field.name) {
            ids.push_ids_of(alloc, field.body)?;
        }
    }
    Ok(ids)
}
