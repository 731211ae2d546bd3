//! The texts of a message.
ghost use Rattle.std.specs.Prelude.{◌≡◌, ◌<◌, ◌≤◌, ◌+◌, ℕ, true, false, List, [], ◌∷◌, ◌++◌, length, Ok, Err, IfOk, IfErr, OnOk, OnErr};
ghost use Rattle.mbox_cutter.specs.Lines.{length_before_feed};
ghost use Rattle.header_text.specs.Headers.{fields_of};
ghost use Rattle.mime_text.specs.MessageFacts.{HasSizedIds, facts_of};
ghost use Rattle.mime_text.specs.Sinks.{Pair};
ghost use Rattle.mime_text.specs.Fed.{Fed, Feeds, FeedsPart, FinishesTexts, FinishesPart, has_ended};
ghost use Rattle.mime_text.specs.Limits.{most_in_line};

use crate::fault::TextFault;
use crate::header::facts::Facts;
use crate::parts::part_reader::PartReader;
use crate::sink::TextSink;
use std::alloc::{AllocError, Global};
use std::mem::replace;

/// Reads a message one line at a time, and gives its texts to a sink as they come.
///
/// Each header that counts gives the texts of its To, Cc, Bcc, From and Subject fields, in order. Each part of any
/// type, and the message too, gives the name of the file in which it is to be saved (RFC 2183, 2.3), if it has one.
/// Each text/plain and text/html part then gives a text for each line (RFC 2045, RFC 2046). Parts below the depth of 16
/// give nothing. No content is refused.
#[derive(Drop)]
pub struct MessageText {
    reader: PartReader,
    // An earlier call has failed, or the message has ended, so no line may come.
    ended: bool,
}

impl MessageText {
    /// Returns a reader that is before the message's first line.
    ///
    /// # Errors
    ///
    /// `AllocError` if memory runs out; but a reader takes none before the first line.
    pub fn new(alloc: Global) -> Result<Self, AllocError>
        ensures { IfOk result (λ m. Fed m [] []) }
    {
        Ok(MessageText {
            reader: PartReader::new(alloc),
            ended: false,
        })
    }

    /// Reads the next line of the message's text, with its LF if it has one: 1 to 65,537 bytes, LF only as the last
    /// byte. Gives the texts that the line completes to the sink.
    ///
    /// # Errors
    ///
    /// `OutOfMemory` if memory runs out, and `Sink` if the sink refuses a text; the texts before that were given.
    /// `Failed` after a fault and after `finish`, until `begin_again`.
    #[tactic(auto, using(crate::proofs::FedLemmas::feeds, crate::proofs::FedLemmas::feeds_part))]
    pub fn line<S: TextSink>(&mut self, line: &[u8], sink: &mut S) -> Result<(), TextFault>
        requires some { 0 < length line.now }
        requires short { length line.now ≤ most_in_line }
        requires last { length line.now ≤ length_before_feed line.now + 1 }
        ensures fed { OnOk result
            (Feeds S.takes S.refuses self.old self.new line.now sink.old sink.new) }
        ensures stopped { has_ended self.old ≡ false
            → IfErr result
            (λ fault. FeedsPart S.takes S.refuses self.old line.now fault sink.old sink.new) }
        ensures fails { OnErr result (has_ended self.new ≡ true) }
        ensures again { has_ended self.old ≡ true
            → (result ≡ Err TextFault.Failed) × (sink.new ≡ sink.old) }
    {
        if self.ended {
            return Err(TextFault::Failed);
        }
        let outcome = self.reader.line(line, sink);
        self.ended = outcome.is_err();
        outcome
    }

    /// Ends the message, gives the texts that are left to the sink, and returns what the message's own header says
    /// besides its texts. After that each call returns `Failed`, until `begin_again`.
    ///
    /// # Errors
    ///
    /// `OutOfMemory` if memory runs out, and `Sink` if the sink refuses a text; the texts before that were given.
    /// `Failed` if an earlier call has failed, or the message has ended.
    pub fn finish<S: TextSink>(&mut self, sink: &mut S) -> Result<Facts, TextFault>
        ensures texts { OnOk result (FinishesTexts S.takes S.refuses self.old sink.old sink.new) }
        ensures facts { IfOk result (λ facts. (ls : List (List ℕ)) (ps : List Pair)
            → Fed self.old ls ps → facts ≡ facts_of (fields_of ls)) }
        ensures sizes { IfOk result HasSizedIds }
        ensures stopped { has_ended self.old ≡ false
            → IfErr result
            (λ fault. FinishesPart S.takes S.refuses self.old fault sink.old sink.new) }
        ensures again { has_ended self.old ≡ true
            → (result ≡ Err TextFault.Failed) × (sink.new ≡ sink.old) }
        ensures over { has_ended self.new ≡ true }
    {
        if replace(&mut self.ended, true) {
            return Err(TextFault::Failed);
        }
        self.reader.end(sink)
    }

    /// Begins another message, whether a call has failed or not, and keeps the memory. The reader is then like a new
    /// one.
    pub fn begin_again(&mut self)
        ensures { Fed self.new [] [] }
    {
        self.reader.begin_again();
        self.ended = false;
    }

    /// Ends the last message, as `finish` does.
    ///
    /// # Errors
    ///
    /// Those of `finish`.
    pub fn end<S: TextSink>(mut self, sink: &mut S) -> Result<Facts, TextFault>
        ensures texts { OnOk result (FinishesTexts S.takes S.refuses self sink.old sink.new) }
        ensures facts { IfOk result (λ facts. (ls : List (List ℕ)) (ps : List Pair)
            → Fed self ls ps → facts ≡ facts_of (fields_of ls)) }
        ensures sizes { IfOk result HasSizedIds }
        ensures stopped { has_ended self ≡ false
            → IfErr result (λ fault. FinishesPart S.takes S.refuses self fault sink.old sink.new) }
        ensures again { has_ended self ≡ true
            → (result ≡ Err TextFault.Failed) × (sink.new ≡ sink.old) }
    {
        self.finish(sink)
    }
}
