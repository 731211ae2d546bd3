//! The number of calls in which an answer is sent.
ghost use Rattle.std.specs.Prelude.{None};

use crate::answered::{held, indexed, reported_to};
use mail_answer::Format;
use mbox_cutter::{DeviceFault, Out};
use std::alloc::Global;

/// An output that takes all that it is given, and keeps only the number of calls and the most bytes of a call.
#[derive(Drop)]
struct Calls {
    count: u64,
    most: usize,
}

impl Out for Calls {
    ghost taken = { λ _. None };

    ghost failures = { λ _. 0 };

    fn put(&mut self, bytes: &[u8]) -> Result<usize, DeviceFault> {
        self.count = self.count.saturating_add(1);
        self.most = self.most.max(bytes.len());
        Ok(bytes.len())
    }
}

/// The number of archives of the answer, of one message each.
const ARCHIVES: usize = 20;

/// The number of bytes of the path of each archive, and of a line of each message.
const LONG: usize = 4096;

/// The number of bytes of an answer that are gathered before they are sent.
const GATHERED: usize = 65_536;

/// Returns the number of calls in which an answer to `s:hello` over archives of one message each is sent, and the most
/// bytes of a call. It is None if memory runs out, or if the answer doesn't have all messages.
fn calls_over(alloc: Global, archives: &[(&str, &str)], format: Format) -> Option<(u64, usize)> {
    let file = indexed(alloc, archives)?;
    let mut held = held(alloc, archives)?;
    let mut calls = Calls { count: 0, most: 0 };
    let search = ("s:hello", false, format);
    let reported = reported_to(alloc, &file, search, &mut held, &mut calls);
    let all = archives.len() as u64;
    matches!(reported, Some(Ok(count)) if count == all).then_some((calls.count, calls.most))
}

/// Returns the same for those archives.
fn calls_of(alloc: Global, format: Format) -> Option<(u64, usize)> {
    let path = "x".repeat(alloc, LONG).ok()?;
    let text = format!(in alloc; "^Subject: Hello||{path}||").ok()?;
    calls_over(alloc, &[(path.as_str(), text.as_str()); ARCHIVES], format)
}

/// An answer is sent in one call once enough of it is gathered, before much more is, and in another call at its end.
#[test]
fn a_long_answer_goes_out_before_its_end(rt: HostRuntime) {
    for (name, format) in [
        ("raw", Format::Raw),
        ("excerpt", Format::Excerpt),
        ("mbox", Format::Mbox),
    ] {
        let in_two = match calls_of(rt.alloc(), format) {
            Some((count, most)) => count == 2 && GATHERED <= most && most < GATHERED + 5_000,
            None => false,
        };
        assert!(rt; in_two, "{name}");
    }
}
