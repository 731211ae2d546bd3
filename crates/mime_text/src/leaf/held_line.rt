//! The beginning of a leaf's line whose end hasn't come.
ghost use Rattle.std.specs.Prelude.{◌≡◌, ℕ, ◌≤◌, ◌-◌, ◌∷◌, ◌++◌, [], List, None, true, length, drop, OnOk, IfOk, IfErr};
ghost use Rattle.std.specs.List.{concat};
ghost use Rattle.mbox_cutter.specs.Lines.{length_before_feed, line_end_of, most_before_feed};
ghost use Rattle.mime_text.specs.Sinks.{Gave, Broke, Hands};
ghost use Rattle.mime_text.specs.Decoders.{still_decoded};
ghost use Rattle.mime_text.specs.LeafReading.{pairs_of_bytes};

use crate::fault::TextFault;
use crate::leaf::decoder::Decoder;
use crate::leaf::line_texts::LineTexts;
use crate::sink::TextSink;
use mbox_cutter::line_end_after;
use std::alloc::Global;
use std::marker::Model;

/// Decoded bytes that begin a line whose end isn't known yet: at most 65,536, without LF.
#[derive(Drop)]
pub(crate) struct HeldLine {
    bytes: Vec<u8>,
}

impl Model for HeldLine {
    ghost use Rattle.std.specs.Prelude.{◌≡◌, ℕ, List, None};
    ghost use Rattle.mbox_cutter.specs.Lines.{line_end_of};

    ghost Value = { List ℕ };

    ghost view = { λ h. h.bytes.items };

    ghost invariant = { λ h. line_end_of h.bytes.items ≡ None };
}

/// Gives the texts of the whole lines at the beginning to the sink, and returns the bytes after them. The first
/// `searched` bytes have no LF.
fn give_lines<'a, S: TextSink>(
    searched: usize,
    bytes: &'a [u8],
    texts: &mut LineTexts,
    sink: &mut S,
) -> Result<&'a [u8], TextFault>
    requires free { searched ≤ length_before_feed bytes.now }
    requires few { searched ≤ most_before_feed }
    ensures open { IfOk result (λ rest. line_end_of rest.now ≡ None) }
    ensures fits { IfOk result (λ rest. length rest.now ≤ length bytes.now) }
    ensures rest { IfOk result (λ rest. rest.now ≡ drop (length bytes.now - length rest.now)
        bytes.now) }
    ensures gave { IfOk result (λ rest. Gave S.takes S.refuses
        (λ ls. pairs_of_bytes texts.old (bytes.now ++ concat ls))
        (λ ls. pairs_of_bytes texts.new (rest.now ++ concat ls)) sink.old sink.new) }
    ensures broke { IfErr result (λ fault. Broke S.takes S.refuses
        (λ ls. pairs_of_bytes texts.old (bytes.now ++ concat ls)) fault sink.old sink.new) }
{
    let mut rest = bytes;
    let mut searched = searched;
    while let Some(len) = line_end_after(searched, rest) {
        let (line, later) = rest.split_at(len);
        texts.give(line, sink)?;
        rest = later;
        searched = 0;
    }
    Ok(rest)
}

/// Keeps this many bytes at the end.
fn keep_last(bytes: &mut Vec<u8>, count: usize)
    requires { count ≤ length bytes.old.items }
    ensures { bytes.new.items ≡ drop (length bytes.old.items - count) bytes.old.items }
{
    let len = bytes.len();
    if count < len {
        bytes.copy_within(len - count..len, 0);
        bytes.truncate(count);
    }
}

/// Gives the texts of the whole lines at the beginning to the sink, and drops these lines. The first `searched` bytes
/// have no LF.
fn take_lines<S: TextSink>(
    searched: usize,
    bytes: &mut Vec<u8>,
    texts: &mut LineTexts,
    sink: &mut S,
) -> Result<(), TextFault>
    requires free { searched ≤ length_before_feed bytes.old.items }
    requires few { searched ≤ most_before_feed }
    ensures open { OnOk result (line_end_of bytes.new.items ≡ None) }
    ensures hands { Hands S.takes S.refuses (λ ls. pairs_of_bytes texts.old
        (bytes.old.items ++ concat ls)) (λ ls. pairs_of_bytes texts.new
        (bytes.new.items ++ concat ls)) result sink.old sink.new }
{
    let left = give_lines(searched, bytes, texts, sink)?.len();
    keep_last(bytes, left);
    Ok(())
}

/// Decodes the next line of the body, adds its bytes to those that are held, and gives the texts of the lines that are
/// whole then.
fn take_encoded<S: TextSink>(
    bytes: &mut Vec<u8>,
    decoder: &mut Decoder,
    line: &[u8],
    texts: &mut LineTexts,
    sink: &mut S,
) -> Result<(), TextFault>
    requires { line_end_of bytes.old.items ≡ None }
    ensures open { OnOk result (line_end_of bytes.new.items ≡ None) }
    ensures hands { Hands S.takes S.refuses (λ ls. pairs_of_bytes texts.old
        (bytes.old.items ++ still_decoded decoder.old (line.now ∷ ls)))
        (λ ls. pairs_of_bytes texts.new (bytes.new.items ++ still_decoded decoder.new ls)) result
        sink.old sink.new }
{
    let held = bytes.len();
    decoder.push(line, bytes)?;
    take_lines(held.min(bytes.len()), bytes, texts, sink)
}

/// Decodes the end of the body, adds its bytes to those that are held, and gives the texts of all lines. The last line
/// needn't be whole.
fn give_rest<S: TextSink>(
    bytes: &mut Vec<u8>,
    decoder: Decoder,
    texts: &mut LineTexts,
    sink: &mut S,
) -> Result<(), TextFault>
    ensures { Hands S.takes S.refuses (λ _. pairs_of_bytes texts.old
        (bytes.old.items ++ still_decoded decoder [])) (λ _. []) result sink.old sink.new }
{
    decoder.finish(bytes)?;
    let rest = give_lines(0, bytes, texts, sink)?;
    if rest.is_empty() {
        return Ok(());
    }
    texts.give(rest, sink)
}

#[tactic(auto, unfolding(mbox_cutter::specs::Lines::line_end_of))]
impl HeldLine {
    /// Returns a line that holds no bytes. It takes no memory.
    pub(crate) fn new(alloc: Global) -> Self
        ensures { result ≡ [] }
    {
        HeldLine {
            bytes: Vec::new(alloc),
        }
    }

    pub(crate) fn is_empty(&self) -> bool
        ensures { result ≡ true → self.now ≡ [] }
    {
        self.bytes.is_empty()
    }

    pub(crate) fn clear(&mut self)
        ensures { self.new ≡ [] }
    {
        self.bytes.clear();
    }

    /// Reads the next line of the body, and gives the texts of the lines that are whole then. After a fault nothing is
    /// held.
    pub(crate) fn take<S: TextSink>(
        &mut self,
        decoder: &mut Decoder,
        line: &[u8],
        texts: &mut LineTexts,
        sink: &mut S,
    ) -> Result<(), TextFault>
        ensures { Hands S.takes S.refuses (λ ls. pairs_of_bytes texts.old
            (self.old ++ still_decoded decoder.old (line.now ∷ ls)))
            (λ ls. pairs_of_bytes texts.new (self.new ++ still_decoded decoder.new ls)) result
            sink.old sink.new }
    {
        match take_encoded(&mut self.bytes, decoder, line, texts, sink) {
            Ok(()) => Ok(()),
            Err(fault) => {
                self.bytes.clear();
                Err(fault)
            }
        }
    }

    /// Gives the texts of all lines that are left. After that nothing is held.
    pub(crate) fn finish<S: TextSink>(
        &mut self,
        decoder: Decoder,
        texts: &mut LineTexts,
        sink: &mut S,
    ) -> Result<(), TextFault>
        ensures held { self.new ≡ [] }
        ensures hands { Hands S.takes S.refuses (λ _. pairs_of_bytes texts.old
            (self.old ++ still_decoded decoder [])) (λ _. []) result sink.old sink.new }
    {
        let result = give_rest(&mut self.bytes, decoder, texts, sink);
        self.bytes.clear();
        result
    }
}
