//! The texts of a leaf, read one line at a time.
ghost use Rattle.std.specs.Prelude.{◌≡◌, ℕ, ◌≤◌, ◌+◌, ◌∷◌, [], List, true, false, length};
ghost use Rattle.mbox_cutter.specs.Lines.{length_before_feed};
ghost use Rattle.mime_text.specs.Sinks.{Hands};
ghost use Rattle.mime_text.specs.Transfer.{ends_in};
ghost use Rattle.mime_text.specs.LeafTexts.{leaf_texts};
ghost use Rattle.mime_text.specs.LeafReading.{body_pairs, pairs_to_come};
ghost use Rattle.mime_text.specs.declared.leaf.decoder.Decoder.TheVariants as decoder_of;
ghost use Rattle.mime_text.specs.Limits.{most_in_line};

use crate::fault::TextFault;
use crate::leaf::decoder::Decoder;
use crate::leaf::held_line::HeldLine;
use crate::leaf::line_texts::LineTexts;
use crate::leaf::transfer::TransferEncoding;
use crate::sink::TextSink;
use header_text::Charset;
use std::alloc::Global;

/// Reads the bodies of texts, one after another, and gives their texts to a sink: one for each line of the decoded
/// body. It keeps at most the beginning of one such line.
#[derive(Drop)]
pub struct LeafReader {
    decoder: Decoder,
    held: HeldLine,
    texts: LineTexts,
}

/// Whether all lines so far were given as they are: the body isn't encoded, and no bytes are held.
fn has_given_all(decoder: &Decoder, held: &HeldLine) -> bool
    ensures decoder { result ≡ true → decoder.now ≡ decoder_of.Identity }
    ensures held { result ≡ true → held.now ≡ [] }
{
    match decoder {
        Decoder::Identity => held.is_empty(),
        _ => false,
    }
}

/// Whether a line of the body is given as it is: so were all lines before it, and it ends in LF.
fn is_passed_on(decoder: &Decoder, held: &HeldLine, line: &[u8]) -> bool
    ensures decoder { result ≡ true → decoder.now ≡ decoder_of.Identity }
    ensures held { result ≡ true → held.now ≡ [] }
    ensures feed { result ≡ true → ends_in 0x0A line.now ≡ true }
{
    has_given_all(decoder, held) && line.strip_suffix(b"\n").is_some()
}

impl LeafReader {
    /// Returns a reader for a body that is plain text in UTF-8 and isn't encoded. It takes no memory.
    #[tactic(auto, using(crate::proofs::TagLemmas::texts_begin), unfolding(crate::specs::LeafTexts::leaf_texts))]
    pub fn new(alloc: Global) -> Self
        ensures { (ls : List (List ℕ)) → pairs_to_come result ls
            ≡ body_pairs (leaf_texts TransferEncoding.Identity Charset.Utf8 false ls) }
    {
        LeafReader {
            decoder: Decoder::Identity,
            held: HeldLine::new(alloc),
            texts: LineTexts::new(alloc),
        }
    }

    /// Begins a body. What was left of the body before is lost.
    #[tactic(auto, using(crate::proofs::TagLemmas::texts_begin), unfolding(crate::specs::LeafTexts::leaf_texts))]
    pub fn begin(&mut self, transfer: TransferEncoding, charset: Charset, is_html: bool)
        ensures { (ls : List (List ℕ)) → pairs_to_come self.new ls
            ≡ body_pairs (leaf_texts transfer charset is_html ls) }
    {
        self.decoder = Decoder::new(transfer);
        self.held.clear();
        self.texts.begin(charset, is_html);
    }

    /// Reads the next line of the body, and gives the texts that it completes to the sink.
    ///
    /// # Errors
    ///
    /// `OutOfMemory` if memory runs out, and `Sink` if the sink refuses a text. The texts before that were given.
    pub fn line<S: TextSink>(&mut self, line: &[u8], sink: &mut S) -> Result<(), TextFault>
        requires short { length line.now ≤ most_in_line }
        requires last { length line.now ≤ length_before_feed line.now + 1 }
        ensures { Hands S.takes S.refuses (λ ls. pairs_to_come self.old (line.now ∷ ls))
            (λ ls. pairs_to_come self.new ls) result sink.old sink.new }
    {
        if is_passed_on(&self.decoder, &self.held, line) {
            return self.texts.give(line, sink);
        }
        self.held
            .take(&mut self.decoder, line, &mut self.texts, sink)
    }

    /// Ends the body: gives the texts that are left to the sink.
    ///
    /// # Errors
    ///
    /// `OutOfMemory` if memory runs out, and `Sink` if the sink refuses a text. The texts before that were given.
    pub fn end<S: TextSink>(&mut self, sink: &mut S) -> Result<(), TextFault>
        ensures { Hands S.takes S.refuses (λ _. pairs_to_come self.old []) (λ _. []) result
            sink.old sink.new }
    {
        if has_given_all(&self.decoder, &self.held) {
            return Ok(());
        }
        self.held.finish(self.decoder, &mut self.texts, sink)
    }
}
