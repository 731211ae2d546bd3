//! Reads a header line by line.
ghost use Rattle.std.specs.Prelude.{◌≡◌, ℕ, ◌+◌, ◌≤◌, Bool, true, List, [], ◌∷◌, ◌++◌, length, IfOk, OnOk, OnErr};
ghost use Rattle.header_text.specs.Headers.{fields_of, fields_size, most_in_header};
ghost use Rattle.header_text.specs.OpenFields.{is_field_open_after, fields_with};
ghost use Rattle.header_text.specs.Stages.{stage_after as stage_after_of};

use crate::field::field_of_line;
use crate::field_list::{FieldList, Fields};
use mbox_cutter::is_empty_line;
use std::alloc::{AllocError, Global};

/// The most bytes of lines that a header keeps.
const MOST_IN_HEADER: usize = 262_144;

/// What a pushed line means for the header.
#[derive(Clone, Copy)]
pub enum Taken {
    /// The header hasn't ended yet.
    More,
    /// This line, or one before it, was empty, so the header has ended.
    Ended,
}

/// Whether lines to come still count.
#[derive(Clone, Copy)]
enum Stage {
    /// They count while they fit.
    Open,
    /// They don't count, because a line didn't fit.
    Full,
    /// They don't count, because an empty line came.
    Ended,
}

/// The header of a message: the lines before its first empty one (RFC 5322, 2.1 and 2.2). Lines count while they have
/// at most 262,144 bytes together. From the first line that doesn't fit, no line counts.
#[derive(Drop)]
pub struct Header {
    fields: FieldList,
    size: usize,
    in_field: bool,
    stage: Stage,
    ghost kept: { fields_size fields ≤ size },
    ghost within: { size ≤ most_in_header },
}

impl Header {
    ghost use Rattle.header_text.specs.HeldLines.{HasLines, taken_of};
    ghost use Rattle.header_text.specs.Stages.{has_empty};

    /// Makes a header without lines. It takes no memory.
    #[tactic(auto, using(crate::proofs::HeaderLaws::PushLemmas::holds_new))]
    pub fn new(alloc: Global) -> Self
        ensures { HasLines result [] }
    {
        Header {
            fields: FieldList::new(alloc),
            size: 0,
            in_field: false,
            stage: Stage::Open,
        }
    }

    /// Removes all lines, and keeps the memory for the lines of another header.
    #[tactic(auto, using(crate::proofs::HeaderLaws::PushLemmas::holds_new))]
    pub fn clear(&mut self)
        ensures { HasLines self.new [] }
    {
        self.fields.clear();
        self.size = 0;
        self.in_field = false;
        self.stage = Stage::Open;
    }

    /// Reads the next line. Returns `Ended` for the first empty line (LF or CR LF) and for every later line; later
    /// lines change nothing.
    ///
    /// # Errors
    ///
    /// `AllocError` if memory runs out. Then the header is as before. After an empty line no call fails.
    pub fn push_line(&mut self, line: &[u8]) -> Result<Taken, AllocError>
        ensures lines { OnOk result ((ls : List (List ℕ)) → HasLines self.old ls
            → HasLines self.new (ls ++ line.now ∷ [])) }
        ensures taken { IfOk result (λ taken. (ls : List (List ℕ)) → HasLines self.old ls
            → taken ≡ taken_of (ls ++ line.now ∷ [])) }

        // After the header has ended, no line fails.
        ensures ended { (ls : List (List ℕ)) → HasLines self.old ls → has_empty ls ≡ true
            → (result ≡ Ok Taken.Ended) × (self.new ≡ self.old) }
        ensures refused { OnErr result (self.new ≡ self.old) }
    {
        if let Stage::Ended = self.stage {
            return Ok(Taken::Ended);
        }
        match stage_after(self.stage, self.size, line) {
            Stage::Open => {
                self.in_field = add_line(&mut self.fields, self.in_field, line)?;
                self.size += line.len();
                Ok(Taken::More)
            }
            Stage::Full => {
                self.stage = Stage::Full;
                Ok(Taken::More)
            }
            Stage::Ended => {
                self.stage = Stage::Ended;
                Ok(Taken::Ended)
            }
        }
    }

    /// Returns the fields in order, with their continuation lines. It takes no memory.
    pub fn fields(&self) -> Fields<'_>
        ensures fields { (ls : List (List ℕ)) → HasLines self.now ls → result ≡ fields_of ls }

        // The bytes of all names and bodies together.
        ensures bounded { fields_size result ≤ most_in_header }
    {
        self.fields.iter()
    }
}

/// Returns the stage after a line, if the lines that counted before it have `size` bytes. It is `Open` exactly if the
/// line counts.
fn stage_after(stage: Stage, size: usize, line: &[u8]) -> Stage
    requires { size ≤ most_in_header }
    ensures { result ≡ stage_after_of stage size line.now }
{
    match stage {
        Stage::Ended => Stage::Ended,
        _ if is_empty_line(line) => Stage::Ended,
        Stage::Full => Stage::Full,
        Stage::Open if line.len() > MOST_IN_HEADER - size => Stage::Full,
        Stage::Open => Stage::Open,
    }
}

/// Adds a line to the header's fields. Returns whether its last field may be continued; `in_field` says whether it may
/// before this line. If memory runs out, nothing changes.
fn add_line(fields: &mut FieldList, in_field: bool, line: &[u8]) -> Result<bool, AllocError>
    requires { fields_size fields.old + length line.now ≤ most_in_header }
    ensures in_field { IfOk result (λ after. after ≡ is_field_open_after in_field line.now) }
    ensures fields { OnOk result (fields.new ≡ fields_with in_field line.now fields.old) }
    ensures refused { OnErr result (fields.new ≡ fields.old) }
{
    // The line continues the field before it, if there is one; otherwise it is skipped.
    if let [b' ' | b'\t', ..] = line {
        if in_field {
            return fields.extend_last(line).and(Ok(true));
        }
        return Ok(false);
    }
    let Some(field) = field_of_line(line) else {
        return Ok(false);
    };
    fields.push(field).and(Ok(true))
}
