//! Giving the texts of headers to a sink.
ghost use Rattle.std.specs.Prelude.{◌≡◌, ◌≤◌, false, [], ◌∷◌, length};
ghost use Rattle.header_text.specs.Headers.{fields_size, most_in_header};
ghost use Rattle.mime_text.specs.FieldTexts.{texts_of_fields};
ghost use Rattle.mime_text.specs.Names.{name_texts};
ghost use Rattle.mime_text.specs.Sinks.{Hands};
ghost use Rattle.mime_text.specs.Feeding.{counted_texts, header_texts};

use crate::fault::TextFault;
use crate::header::field_text::{FieldReader, kind_of_field};
use crate::sink::{TextSink, give_text};
use header_text::{Field, Fields};
use mail_words::TextKind;

/// Gives the text of a field to the sink, if it is one of the five.
fn give_field<S: TextSink>(
    field: Field<'_>,
    reader: &mut FieldReader,
    sink: &mut S,
) -> Result<(), TextFault>
    requires { length field.body.now ≤ most_in_header }
    ensures { Hands S.takes S.refuses (λ _. texts_of_fields
        (record { name = field.entry.name.now; body = field.entry.body.now } ∷ [])) (λ _. []) result
        sink.old sink.new }
{
    let Some(kind) = kind_of_field(field.name) else {
        return Ok(());
    };
    reader.read(field.body)?;
    give_text(kind, reader.text(), sink)
}

/// Gives the texts of a header's fields to the sink, in order, if the header counts.
fn give_counted<S: TextSink>(
    counted: bool,
    fields: Fields<'_>,
    reader: &mut FieldReader,
    sink: &mut S,
) -> Result<(), TextFault>
    requires { fields_size fields ≤ most_in_header }
    ensures { Hands S.takes S.refuses (λ _. counted_texts counted fields.entry) (λ _. []) result
        sink.old sink.new }
{
    if !counted {
        return Ok(());
    }
    for field in fields {
        give_field(field, reader, sink)?;
    }
    Ok(())
}

/// Gives the name of a header's entity to the sink, if it has one.
fn give_name<S: TextSink>(
    fields: Fields<'_>,
    reader: &mut FieldReader,
    sink: &mut S,
) -> Result<(), TextFault>
    requires { fields_size fields ≤ most_in_header }
    ensures { Hands S.takes S.refuses (λ _. name_texts fields.entry) (λ _. []) result
        sink.old sink.new }
{
    reader.read_name(fields)?;
    match reader.name() {
        Some(text) => give_text(TextKind::Name, text, sink),
        None => Ok(()),
    }
}

/// Gives the texts of a header's fields to the sink, if it counts, and then the name of its entity.
fn give_fields<S: TextSink>(
    counted: bool,
    fields: Fields<'_>,
    reader: &mut FieldReader,
    sink: &mut S,
) -> Result<(), TextFault>
    requires { fields_size fields ≤ most_in_header }
    ensures { Hands S.takes S.refuses (λ _. header_texts counted fields.entry) (λ _. []) result
        sink.old sink.new }
{
    give_counted(counted, fields.again(), reader, sink)?;
    give_name(fields, reader, sink)
}

/// Whether there are fields.
pub(crate) fn has_fields(fields: Fields<'_>) -> bool
    ensures { result ≡ false → fields.entry ≡ [] }
{
    let mut left = fields;
    left.next().is_some()
}

/// Gives the texts of a header to the sink, if it counts, and then the name of its entity.
pub(crate) fn give_header<S: TextSink>(
    counted: bool,
    fields: Fields<'_>,
    reader: &mut FieldReader,
    sink: &mut S,
) -> Result<(), TextFault>
    requires { fields_size fields ≤ most_in_header }
    ensures { Hands S.takes S.refuses (λ _. header_texts counted fields.entry) (λ _. []) result
        sink.old sink.new }
{
    // To look for texts in no fields would only cost time.
    if !has_fields(fields.again()) {
        return Ok(());
    }
    give_fields(counted, fields, reader, sink)
}
