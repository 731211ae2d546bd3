//! Answers over an archive that ends before the length that it reports.
ghost use Rattle.std.specs.Prelude.{◌≡◌, ◌<◌, ◌≤◌, ◌-◌, ◌^◌, None, length, take, IfOk};
ghost use Rattle.contract_words.specs.Archives.{IsLength, IsReadFromArchive};
ghost use Rattle.contract_words.specs.Devices.{Counts};

use crate::answered::{COUSINS, Reported, held, indexed, is_front, is_whole, reported, text_of};
use crate::devices::{FORMS, Form};
use mail_answer::{AnswerFaultKind, Archives, Format, MemoryArchives};
use mbox_cutter::DeviceFault;
use std::alloc::Global;

/// Archives of which each from the number `first` on is read as if it ended at an offset, but reports its own length.
#[derive(Drop)]
pub struct EarlyEnd {
    pub inner: MemoryArchives,
    pub first: u32,
    pub end: u64,
}

impl Archives for EarlyEnd {
    ghost held = { λ _. None };

    ghost number = { λ s. length s.inner };

    ghost failures = { λ _. 0 };

    ghost lengths_asked = { λ _. 0 };

    ghost measures = { λ _ _ _ _. Unit {0} };

    ghost reads = { λ _ _ _ _ _. Unit {0} };

    fn count(&self) -> u32 {
        self.inner.count()
    }

    fn length(&mut self, n: u32) -> Result<u64, DeviceFault> {
        self.inner.length(n)
    }

    fn read_at(&mut self, n: u32, offset: u64, into: &mut [u8]) -> Result<usize, DeviceFault> {
        if n < self.first {
            return self.inner.read_at(n, offset, into);
        }
        let left = self.end.saturating_sub(offset);
        if left == 0 {
            return Ok(0);
        }
        let room = left.min(into.len() as u64) as usize;
        self.inner.read_at(n, offset, &mut into[..room])
    }
}

/// Returns the result of an answer to `b:hi` with threads, and what it writes, if the archives end there. It is None if
/// memory runs out, and so is the result below.
fn reported_at_end(alloc: Global, format: Format, first: u32, end: u64) -> Option<Reported> {
    let file = indexed(alloc, &COUSINS)?;
    let inner = held(alloc, &COUSINS)?;
    let mut archives = EarlyEnd { inner, first, end };
    reported(alloc, &file, ("b:hi", true, format), &mut archives, None)
}

/// Whether the end of the archives from a number on is reported exactly if an answer reads up to it: by the number of
/// the first of them.
fn is_reported(
    alloc: Global,
    (format, text, _, bytes_read): Form,
    first: u32,
    end: u64,
) -> Option<bool> {
    let whole = text_of(alloc, text)?;
    let reported = reported_at_end(alloc, format, first, end)?;
    Some(if end < bytes_read {
        is_front(&reported, AnswerFaultKind::Stale(first), &whole)
    } else {
        is_whole(&reported, 2, &whole)
    })
}

/// The archives end anywhere, up to the end of their message.
#[test]
fn an_archive_that_ends_early_is_stale(rt: HostRuntime) {
    for form in FORMS {
        for first in 0..2u32 {
            for end in 0..=79u64 {
                let as_wanted = is_reported(rt.alloc(), *form, first, end);
                assert!(rt; as_wanted == Some(true), "{}, {first}: to {end}", form.1);
            }
        }
    }
}
