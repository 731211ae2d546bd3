//! The open multipart entities.
ghost use Rattle.std.specs.Prelude.{◌≡◌, ◌<◌, [], length, take, slice_get, IfSome, IfNone, IsTrue, OnOk};
ghost use Rattle.mime_text.specs.declared.parts.frame.Frame.{Frame};
ghost use Rattle.mime_text.specs.Sinks.{Pair};
ghost use Rattle.mime_text.specs.Stream.{place_after_hit};
ghost use Rattle.mime_text.specs.Frames.{scan, place_after_delimiter, inside_out, IsInnermostApart, is_apart_from as is_apart_from_of};

use crate::parts::boundary::Boundary;
use crate::parts::delimiter::{Delimiter, after_dashes, are_apart, delimiter_after};
use crate::parts::frame::Frame;
use crate::parts::shape::DefaultType;
use std::alloc::{AllocError, Global};
use std::marker::Model;

/// The greatest depth at which an entity is read; the message is at depth 0.
const MOST_DEPTH: usize = 16;

/// The open multipart entities, of which there are at most 16, and the depth of the entity that is read.
#[derive(Drop)]
pub(crate) struct Nesting {
    // The outermost comes first.
    frames: Vec<Frame>,
    // The number of depths that are left below the entity that is read.
    left: usize,
    // Whether the innermost boundary was seen to be apart from the others. To have false always would only cost time.
    is_apart: bool,
}

impl Model for Nesting {
    ghost use Rattle.mime_text.specs.Frames.{Nest};

    ghost Value = { Nest };

    ghost use Rattle.std.specs.Prelude.{[], ◌+◌, ◌≤◌, length};
    ghost use Rattle.std.specs.Prelude.{IsTrue};
    ghost use Rattle.mime_text.specs.Frames.{inside_out, AreNested, IsInnermostApart};

    ghost view = { λ s. record { frames = inside_out s.frames.items []; left = s.left } };

    ghost invariant = { λ s. (length s.frames.items + s.left ≤ 16) × AreNested 0 s.frames.items
        × (IsTrue s.is_apart → IsInnermostApart s.frames.items) };
}

/// What a line delimits.
#[derive(Clone, Copy)]
pub(crate) enum Lead {
    /// Nothing.
    Nowhere,
    /// The next piece of an open multipart begins; it has this type if it doesn't name its own.
    Piece(DefaultType),
    /// The epilogue of an open multipart begins.
    Epilogue,
}

/// Returns the outermost multipart that a line delimits, by what follows the line's two dashes, and what the line is to
/// it.
fn outermost(frames: &[Frame], text: &[u8]) -> Option<(usize, Delimiter)>
    ensures within { IfSome result (λ r. r.0 < length frames.now) }
    ensures none { IfNone result (scan {A = Pair} [] frames.now text.now ≡ None) }
    ensures some { IfSome result (λ r. (f : Frame) × (slice_get frames.now r.0 ≡ Some f)
        × (scan {A = Pair} [] frames.now text.now ≡ place_after_delimiter (Some r.1) f
        (inside_out (take r.0 frames.now) []))) }
{
    for (at, frame) in frames.iter().enumerate() {
        if let Some(kind) = delimiter_after(frame.boundary.as_bytes(), text) {
            return Some((at, kind));
        }
    }
    None
}

/// Returns the outermost multipart that a line delimits, as `outermost` does. If the innermost boundary is apart from
/// the others, it is tried first: a line that delimits that multipart delimits no other.
fn delimited(frames: &[Frame], is_apart: bool, text: &[u8]) -> Option<(usize, Delimiter)>
    requires { IsTrue is_apart → IsInnermostApart frames.now }
    ensures within { IfSome result (λ r. r.0 < length frames.now) }
    ensures none { IfNone result (scan {A = Pair} [] frames.now text.now ≡ None) }
    ensures some { IfSome result (λ r. (f : Frame) × (slice_get frames.now r.0 ≡ Some f)
        × (scan {A = Pair} [] frames.now text.now ≡ place_after_delimiter (Some r.1) f
        (inside_out (take r.0 frames.now) []))) }
{
    if is_apart
        && let Some((last, outer)) = frames.split_last()
        && let Some(kind) = delimiter_after(last.boundary.as_bytes(), text)
    {
        return Some((outer.len(), kind));
    }
    outermost(frames, text)
}

/// Whether a boundary is apart from those of some multiparts.
fn is_apart_from(boundary: &[u8], frames: &[Frame]) -> bool
    ensures { result ≡ is_apart_from_of boundary.now frames.now }
{
    let mut rest = frames;
    while let Some((frame, others)) = rest.split_first() {
        if !are_apart(boundary, frame.boundary.as_bytes()) {
            return false;
        }
        rest = others;
    }
    true
}

/// Whether the innermost boundary is apart from the others; false if there is none.
fn is_innermost_apart(frames: &[Frame]) -> bool
    ensures { IsTrue result → IsInnermostApart frames.now }
{
    match frames.split_last() {
        Some((last, outer)) => is_apart_from(last.boundary.as_bytes(), outer),
        None => false,
    }
}

/// Keeps this many multiparts, the outermost ones. Returns whether the innermost boundary was seen to be apart then, if
/// it says so of the innermost one before.
fn keep_outermost(frames: &mut Vec<Frame>, is_apart: bool, count: usize) -> bool
    requires { IsTrue is_apart → IsInnermostApart frames.old.items }
    ensures frames { frames.new.items ≡ take count frames.old.items }
    ensures is_apart { IsTrue result → IsInnermostApart frames.new.items }
{
    if count >= frames.len() {
        return is_apart;
    }
    frames.truncate(count);
    is_innermost_apart(frames.as_slice())
}

impl Nesting {
    ghost use Rattle.mime_text.specs.Frames.{lead_to, with_frame, below};

    /// Returns the state in which the message itself is read, and no multipart is open. It takes no memory.
    pub(crate) fn new(alloc: Global) -> Self
        ensures { result ≡ record { frames = []; left = 16 } }
    {
        Nesting {
            frames: Vec::new(alloc),
            left: MOST_DEPTH,
            is_apart: false,
        }
    }

    /// Goes back to the message itself, with no multipart open, and keeps the memory.
    pub(crate) fn clear(&mut self)
        ensures { self.new ≡ record { frames = []; left = 16 } }
    {
        self.frames.clear();
        self.left = MOST_DEPTH;
        self.is_apart = false;
    }

    /// Ends the multiparts inside the outermost open one that the line delimits, and that one too if the line closes
    /// it. Returns what the line delimits; if that is nothing, nothing changes.
    pub(crate) fn delimit(&mut self, line: &[u8]) -> Lead
        ensures leads { lead_to {A = Pair} result self.new
            ≡ place_after_hit self.old.frames line.now }
        ensures none { result ≡ Lead.Nowhere → self.new ≡ self.old }
    {
        let Some(text) = after_dashes(line) else {
            return Lead::Nowhere;
        };
        match delimited(self.frames.as_slice(), self.is_apart, text) {
            None => Lead::Nowhere,
            Some((at, Delimiter::Closing)) => {
                self.is_apart = keep_outermost(&mut self.frames, self.is_apart, at);
                Lead::Epilogue
            }
            Some((at, Delimiter::Next)) => {
                let Frame { default, left, .. } = self.frames[at];
                self.is_apart = keep_outermost(&mut self.frames, self.is_apart, at + 1);
                self.left = left;
                Lead::Piece(default)
            }
        }
    }

    /// Opens a multipart, which is the entity that is read, if a depth is left for its pieces.
    #[tactic(auto, using(crate::proofs::FrameLemmas::AreNested_push, crate::proofs::FrameLemmas::open_frames))]
    pub(crate) fn open(
        &mut self,
        boundary: Boundary,
        default: DefaultType,
    ) -> Result<(), AllocError>
        ensures { OnOk result (self.new.frames ≡ with_frame self.old.left boundary default
            self.old.frames) }
    {
        if self.left == 0 {
            return Ok(());
        }
        let left = self.left - 1;
        self.frames.push(Frame {
            boundary,
            default,
            left,
        })?;
        self.left = left;
        self.is_apart = is_innermost_apart(self.frames.as_slice());
        Ok(())
    }

    /// Begins a message in the entity that is read, if a depth is left for it. Returns whether one was left; if not,
    /// nothing changes.
    pub(crate) fn descend(&mut self) -> bool
        ensures { below self.old result self.new }
    {
        if self.left == 0 {
            return false;
        }
        self.left -= 1;
        true
    }
}
