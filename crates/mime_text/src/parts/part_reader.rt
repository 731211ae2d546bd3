//! The parts of a message, read one line at a time.
ghost use Rattle.std.specs.Prelude.{◌≡◌, ◌≤◌, ◌+◌, ℕ, Some, None, List, [], ◌∷◌, ◌++◌, length, IfOk, OnOk};
ghost use Rattle.mbox_cutter.specs.Lines.{length_before_feed};
ghost use Rattle.header_text.specs.Headers.{HeaderField, fields_of, fields_size, most_in_header};
ghost use Rattle.header_text.specs.HeldLines.{HasLines};
ghost use Rattle.mime_text.specs.MessageFacts.{HasSizedIds, facts_of};
ghost use Rattle.mime_text.specs.Sinks.{Pair, Hands};
ghost use Rattle.mime_text.specs.LeafTexts.{leaf_texts};
ghost use Rattle.mime_text.specs.LeafReading.{body_pairs, pairs_to_come};
ghost use Rattle.mime_text.specs.Types.{shape_of};
ghost use Rattle.mime_text.specs.Stream.{place_after_hit};
ghost use Rattle.mime_text.specs.Feeding.{ending, NotesFacts};
ghost use Rattle.mime_text.specs.Texts.{texts_of_message};
ghost use Rattle.mime_text.specs.Inside.Passing.{PassesPairs, IsOver};
ghost use Rattle.mime_text.specs.Limits.{most_in_line};

use crate::fault::TextFault;
use crate::header::facts::{Facts, KeptFacts};
use crate::header::field_text::FieldReader;
use crate::header::giving::give_header;
use crate::leaf::leaf_reader::LeafReader;
use crate::leaf::transfer::TransferEncoding;
use crate::parts::content_type::{EntityType, is_bare_text};
use crate::parts::nesting::{Lead, Nesting};
use crate::parts::shape::{DefaultType, Shape};
use crate::sink::TextSink;
use header_text::{Charset, Fields, Header, Taken};
use std::alloc::{AllocError, Global};

/// What the next line of a message belongs to.
#[derive(Clone, Copy)]
pub(crate) enum State {
    /// Nothing that gives texts.
    Skipping,
    /// The header of an entity, which has this type if it doesn't name its own.
    InHeader { counted: bool, default: DefaultType },
    /// The body of a text.
    InLeaf,
}

/// The state at the beginning of a message, which begins with its header.
const IN_MESSAGE: State = State::InHeader {
    counted: true,
    default: DefaultType::TextPlain,
};

/// Reads the parts of a message one line at a time. It keeps the boundaries of the open multiparts, and the header of
/// one entity or the beginning of one line of its text.
#[derive(Drop)]
pub(crate) struct PartReader {
    alloc: Global,
    state: State,
    nesting: Nesting,
    header: Header,
    leaf: LeafReader,
    fields: FieldReader,
    facts: KeptFacts,
}

/// Gives the texts that are left of an entity at its end.
fn end_entity<S: TextSink>(
    state: State,
    fields: Fields<'_>,
    leaf: &mut LeafReader,
    reader: &mut FieldReader,
    sink: &mut S,
) -> Result<(), TextFault>
    requires { fields_size fields ≤ most_in_header }
    ensures { Hands S.takes S.refuses (λ _. ending state fields.entry leaf.old) (λ _. []) result
        sink.old sink.new }
{
    match state {
        State::Skipping => Ok(()),
        State::InHeader { counted, .. } => give_header(counted, fields, reader, sink),
        State::InLeaf => leaf.end(sink),
    }
}

impl PartReader {
    ghost use Rattle.mime_text.specs.Feeding.{Comes, ComesAfterHeader, ComesEnding, KnowsFacts, given_after_delimiter, given_after_header};

    /// Returns a reader that is before the first line of a message. It takes no memory.
    pub(crate) fn new(alloc: Global) -> Self
        ensures comes { Comes result texts_of_message }
        ensures facts { KnowsFacts result [] }
    {
        PartReader {
            alloc,
            state: IN_MESSAGE,
            nesting: Nesting::new(alloc),
            header: Header::new(alloc),
            leaf: LeafReader::new(alloc),
            fields: FieldReader::new(alloc),
            facts: KeptFacts::none(),
        }
    }

    /// Reads the next line, and gives the texts that it completes to the sink.
    pub(crate) fn line<S: TextSink>(&mut self, line: &[u8], sink: &mut S) -> Result<(), TextFault>
        requires short { length line.now ≤ most_in_line }
        requires last { length line.now ≤ length_before_feed line.now + 1 }
        ensures pairs { PassesPairs S.takes S.refuses (Comes self.old) (Comes self.new)
            (λ c ms. c (line.now ∷ ms)) result sink.old sink.new }
        ensures facts { OnOk result ((ls : List (List ℕ)) → KnowsFacts self.old ls
            → KnowsFacts self.new (ls ++ line.now ∷ [])) }
    {
        match self.nesting.delimit(line) {
            Lead::Nowhere => self.inner_line(line, sink),
            lead => self.leave(lead, sink),
        }
    }

    /// Ends the entity, and goes on at the place after a delimiter.
    fn leave<S: TextSink>(&mut self, lead: Lead, sink: &mut S) -> Result<(), TextFault>
        ensures pairs { PassesPairs S.takes S.refuses (ComesEnding self.old lead) (Comes self.new)
            (λ c. c) result sink.old sink.new }
        ensures facts { self.new.facts ≡ self.old.facts }
    {
        let outcome = end_entity(
            self.state,
            self.header.fields(),
            &mut self.leaf,
            &mut self.fields,
            sink,
        );
        // After a fault no line is read, so the reader's place doesn't matter.
        self.follow(lead);
        outcome
    }

    /// Goes on at the place after a delimiter.
    fn follow(&mut self, lead: Lead)
        ensures comes { Comes self.new (given_after_delimiter lead self.old.nesting) }
        ensures facts { self.new.facts ≡ self.old.facts }
    {
        match lead {
            Lead::Piece(default) => {
                self.header.clear();
                self.state = State::InHeader {
                    counted: false,
                    default,
                };
            }
            Lead::Epilogue | Lead::Nowhere => self.state = State::Skipping,
        }
    }

    /// Reads a line that delimits nothing.
    fn inner_line<S: TextSink>(&mut self, line: &[u8], sink: &mut S) -> Result<(), TextFault>
        requires inner { place_after_hit {A = Pair} self.old.nesting.frames line.now ≡ None }
        requires short { length line.now ≤ most_in_line }
        requires last { length line.now ≤ length_before_feed line.now + 1 }
        ensures pairs { PassesPairs S.takes S.refuses (Comes self.old) (Comes self.new)
            (λ c ms. c (line.now ∷ ms)) result sink.old sink.new }
        ensures facts { OnOk result ((ls : List (List ℕ)) → KnowsFacts self.old ls
            → KnowsFacts self.new (ls ++ line.now ∷ [])) }
    {
        match self.state {
            State::Skipping => Ok(()),
            State::InLeaf => self.leaf.line(line, sink),
            State::InHeader { counted, default } => match self.header.push_line(line)? {
                Taken::More => Ok(()),
                Taken::Ended => self.end_header(counted, default, sink),
            },
        }
    }

    /// Gives the texts of the header that has ended, if it counts, and the entity's name, and begins its body.
    fn end_header<S: TextSink>(
        &mut self,
        counted: bool,
        default: DefaultType,
        sink: &mut S,
    ) -> Result<(), TextFault>
        ensures pairs { PassesPairs S.takes S.refuses (ComesAfterHeader self.old counted default)
            (Comes self.new) (λ c. c) result sink.old sink.new }
        ensures facts { OnOk result (NotesFacts self.old.facts self.new.facts self.old.header) }
    {
        give_header(counted, self.header.fields(), &mut self.fields, sink)?;
        self.facts.note(self.alloc, &self.header, &mut self.fields)?;
        self.begin_body(default).or(Err(TextFault::OutOfMemory))
    }

    /// Begins the body of a text.
    fn begin_leaf(&mut self, transfer: TransferEncoding, charset: Charset, is_html: bool)
        ensures state { self.new.state ≡ State.InLeaf }
        ensures nesting { self.new.nesting ≡ self.old.nesting }
        ensures comes { (ls : List (List ℕ)) → pairs_to_come self.new.leaf ls
            ≡ body_pairs (leaf_texts transfer charset is_html ls) }
        ensures facts { self.new.facts ≡ self.old.facts }
    {
        self.leaf.begin(transfer, charset, is_html);
        self.state = State::InLeaf;
    }

    /// Begins the body of the entity whose header has ended.
    fn begin_body(&mut self, default: DefaultType) -> Result<(), AllocError>
        ensures comes { OnOk result ((ls : List (List ℕ)) → HasLines self.old.header ls
            → Comes self.new
            (given_after_header (shape_of default (fields_of ls)) self.old.nesting
            (fields_of ls))) }
        ensures facts { self.new.facts ≡ self.old.facts }
    {
        // Most of the time for such an entity would go into reading its type.
        if is_bare_text(default, &self.header) {
            self.begin_leaf(TransferEncoding::Identity, Charset::Utf8, false);
            return Ok(());
        }
        let entity = EntityType::of(self.alloc, default, &self.header)?;
        self.state = State::Skipping;
        match entity.shape {
            Shape::Multipart { boundary, default } => self.nesting.open(boundary, default),
            Shape::Message => {
                if self.nesting.descend() {
                    self.header.clear();
                    self.state = IN_MESSAGE;
                }
                Ok(())
            }
            Shape::Text { is_html } => {
                self.begin_leaf(entity.transfer, entity.charset, is_html);
                Ok(())
            }
            Shape::Other => Ok(()),
        }
    }

    /// Ends the message: gives the texts that are left, and returns what the message's own header says.
    pub(crate) fn end<S: TextSink>(&mut self, sink: &mut S) -> Result<Facts, TextFault>
        ensures pairs { PassesPairs S.takes S.refuses (Comes self.old) IsOver (λ c _. c []) result
            sink.old sink.new }
        ensures facts { IfOk result (λ facts. (ls : List (List ℕ)) → KnowsFacts self.old ls
            → facts ≡ facts_of (fields_of ls)) }
        ensures sizes { IfOk result HasSizedIds }
    {
        end_entity(
            self.state,
            self.header.fields(),
            &mut self.leaf,
            &mut self.fields,
            sink,
        )?;
        self.facts.take(self.alloc, &self.header, &mut self.fields)
    }

    /// Goes to before the first line of another message. Nothing of the earlier message counts, and the memory is kept.
    pub(crate) fn begin_again(&mut self)
        ensures comes { Comes self.new texts_of_message }
        ensures facts { KnowsFacts self.new [] }
    {
        self.state = IN_MESSAGE;
        self.nesting.clear();
        self.header.clear();
        self.facts.set(None);
    }
}
