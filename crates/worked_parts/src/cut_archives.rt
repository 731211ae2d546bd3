//! Whole archives through devices that give their bytes in pieces, fail, or never end; and callers for any source.
ghost use Rattle.std.specs.Prelude.{◌≡◌, ◌-◌, ◌^◌, ◌<◌, None, length, IfOk, IfSome};
ghost use Rattle.std.specs.List.{sum_by};
ghost use Rattle.contract_words.specs.Knowledge.{still_known};
ghost use Rattle.mbox_cutter.specs.Archives.{messages, size};

use crate::rows::{bytes_of, has_text};
use mbox_cutter::{
    Buffer, CutFault, Cutter, DeviceFault, Event, FromRead, MemoryOut, MemorySource, Out, Source,
    ToWrite, send,
};
use std::alloc::{AllocError, Global};
use std::fmt::Write;

const ONE: &[u8] = b"From a@x.org Thu Jan  2 10:00:00 2003\nSubject: Hello\n\nhi\n\n";

const TOLD: &str = "start 0 38, line 15, line 1, line 3, end 58 19, done 58";

/// The number of an archive's messages, and the number of bytes of their texts.
#[derive(Clone, Copy)]
struct Tally {
    count: u64,
    bytes: u64,
}

/// A caller that knows what it has seen if the bytes are known and agree with every read, and is safe if not.
#[tactic(auto, using(crate::proofs::Tallies::tallied_on))]
fn tally_of<S: Source>(buffer: Buffer, source: &mut S, most: u64) -> Result<Tally, CutFault>
    requires most { most < 2 ^ 62 }
    requires count { S.failures source.old < 2 ^ 64 - 1 }
    ensures { IfOk result (λ t. IfSome (still_known (S.rest source.old) (S.rest source.new))
        (λ bytes. IfSome (messages bytes)
        (λ ms. (t.count ≡ length ms) × (t.bytes ≡ sum_by size ms)))) }
{
    let mut cutter = Cutter::over(buffer, source, most);
    let mut count = 0;
    let mut bytes = 0;
    'events: loop {
        match cutter.next_event() {
            Ok(Event::Start { .. }) => count += 1,
            Ok(Event::Line) => {}
            Ok(Event::End { size, .. }) => bytes += size,
            Ok(Event::Done { .. }) => {
                let _source = source_of(cutter);
                return Ok(Tally { count, bytes });
            }
            Err(fault) => return Err(fault),
        }
    }
}

/// Gives back the source of a cutter.
fn source_of<'a, S: Source>(cutter: Cutter<'a, S>) -> &'a mut S
    ensures name { result.ghost_name ≡ cutter.entry.source.ghost_name }
    ensures same { result.now ≡ cutter.entry.source.now }
{
    let (source, _buffer) = cutter.into_parts();
    source
}

/// The events of an archive as a text, with the lengths of the lines; and the lines themselves, one after another.
#[derive(Drop)]
struct Reported {
    text: String,
    lent: Vec<u8>,
}

impl Reported {
    /// Adds an event, with the line that was taken last.
    fn event(&mut self, event: Event, line: &[u8]) -> Result<(), AllocError> {
        match event {
            Event::Start { offset } => {
                self.lent.extend_from_slice(line)?;
                write!(self.text, "start {offset} {}, ", line.len())
            }
            Event::Line => {
                self.lent.extend_from_slice(line)?;
                write!(self.text, "line {}, ", line.len())
            }
            Event::End { length, size } => write!(self.text, "end {length} {size}, "),
            Event::Done { length } => write!(self.text, "done {length}"),
        }
    }
}

/// Writes the events of an archive, and the fault that ends them, if there is one.
fn report<S: Source>(cutter: &mut Cutter<'_, S>, reported: &mut Reported) -> Result<(), AllocError>
    requires { S.failures cutter.old.source.now < 2 ^ 64 - 1 }
{
    'events: loop {
        match cutter.next_event() {
            Ok(Event::Done { length }) => return reported.event(Event::Done { length }, b""),
            Ok(event) => reported.event(event, cutter.line())?,
            Err(fault) => return write!(reported.text, "{fault}"),
        }
    }
}

/// Returns the events of a source. It is None if memory runs out, and so are the results below.
fn reported_of<S: Source>(alloc: Global, source: &mut S, most: u64) -> Option<Reported>
    requires { S.failures source.old < 2 ^ 64 - 1 }
{
    let mut reported = Reported {
        text: String::new(alloc),
        lent: Vec::new(alloc),
    };
    let mut cutter = Cutter::new(alloc, source, most).ok()?;
    report(&mut cutter, &mut reported).ok()?;
    Some(reported)
}

/// Whether the events of a source are these.
fn is_reported<S: Source>(alloc: Global, source: &mut S, most: u64, wanted: &str) -> Option<bool>
    requires { S.failures source.old < 2 ^ 64 - 1 }
{
    Some(reported_of(alloc, source, most)?.text.as_str() == wanted)
}

/// In each line: the most bytes that a read gives, the most bytes that are allowed, an archive, and its events.
const ARCHIVES: &str = "\
1 58 ^Subject: Hello||hi|| => start 0 38, line 15, line 1, line 3, end 58 19, done 58
7 58 ^Subject: Hello||hi|| => start 0 38, line 15, line 1, line 3, end 58 19, done 58
58 58 ^Subject: Hello||hi|| => start 0 38, line 15, line 1, line 3, end 58 19, done 58
1000 58 ^Subject: Hello||hi|| => start 0 38, line 15, line 1, line 3, end 58 19, done 58
5 10 ^Subject: Hello||hi|| => too long
5 57 ^Subject: Hello||hi|| => start 0 38, line 15, line 1, line 3, too long
5 10 hello| => not an mbox
5 6 hello| => not an mbox
5 3 hello| => too long
5 2 || => done 2
4096 1099511627776 ^{65535*a}| => start 0 38, line 65536, end 65574 65536, done 65574
4096 1099511627776 ^{65536*a}| => start 0 38, line 65537, end 65575 65537, done 65575
4096 1099511627776 ^{65537*a}| => start 0 38, line 65536, line 2, end 65576 65538, done 65576
4096 1099511627776 ^{65535*a}\r| => start 0 38, line 65537, end 65575 65537, done 65575
4096 1099511627776 ^{65536*a}\r| => start 0 38, line 65536, end 65576 65536, done 65576
4096 1099511627776 ^{65537*a}\r| => start 0 38, line 65536, line 3, end 65577 65539, done 65577
4096 1099511627776 ^{65535*a} => start 0 38, line 65535, end 65573 65535, done 65573
4096 1099511627776 ^{65536*a} => start 0 38, line 65536, end 65574 65536, done 65574
4096 1099511627776 ^{65537*a} => start 0 38, line 65536, line 1, end 65575 65537, done 65575
";

/// Whether the events of an archive are those of its row.
fn row_is_reported(alloc: Global, row: &str) -> Option<bool> {
    let (given, wanted) = row.split_once(" => ")?;
    let (piece, given) = given.split_once(' ')?;
    let (most, archive) = given.split_once(' ')?;
    let piece: usize = piece.parse().ok()?;
    let most = most.parse().ok()?;
    let bytes = bytes_of(alloc, archive)?;
    let mut source = MemorySource::new(alloc, &bytes, piece.max(1), None).ok()?;
    is_reported(alloc, &mut source, most, wanted)
}

#[test]
fn archives_are_reported(rt: HostRuntime) {
    for row in ARCHIVES.lines() {
        assert!(rt; row_is_reported(rt.alloc(), row).unwrap_or(false), "{row}");
    }
}

/// Whether the events before a read that fails are the first ones of the archive; if fewer reads are made, they are
/// all, and the lines are all but the closing one.
fn is_reported_up_to(alloc: Global, piece: usize, fail_at: u64, reads: u64) -> Option<bool> {
    let mut source = MemorySource::new(alloc, ONE, piece.max(1), Some(fail_at)).ok()?;
    let reported = reported_of(alloc, &mut source, 1000)?;
    let text = reported.text.as_str();
    let as_wanted = match text.strip_suffix("read failed") {
        Some(front) => fail_at <= reads && TOLD.starts_with(front),
        None => fail_at > reads && text == TOLD && reported.lent.as_slice() == &ONE[..57],
    };
    Some(as_wanted)
}

#[test]
fn each_read_fails(rt: HostRuntime) {
    for (piece, reads) in [(1, 59), (7, 10)] {
        for fail_at in 1..reads + 2 {
            let as_wanted = is_reported_up_to(rt.alloc(), piece, fail_at, reads);
            assert!(rt; as_wanted.unwrap_or(false), "read {fail_at} by {piece}");
        }
    }
}

/// Whether each call after the fault of an archive that is too long returns `Failed`.
fn fails_from_then_on(alloc: Global) -> Option<bool> {
    let mut source = FromRead::new(ONE);
    let mut cutter = Cutter::new(alloc, &mut source, 10).ok()?;
    let as_wanted = matches!(cutter.next_event(), Err(CutFault::ArchiveTooLong))
        && matches!(cutter.next_event(), Err(CutFault::Failed))
        && matches!(cutter.next_event(), Err(CutFault::Failed));
    Some(as_wanted)
}

#[test]
fn failed_from_then_on(rt: HostRuntime) {
    assert!(rt; fails_from_then_on(rt.alloc()).unwrap_or(false));
    let have_texts = has_text(CutFault::Failed, "failed before")
        && has_text(DeviceFault, "the device failed");
    assert!(rt; have_texts);
}

/// Line feeds without end.
#[derive(Drop)]
struct Feeds;

impl Source for Feeds {
    ghost rest = { λ _. None };

    ghost failures = { λ _. 0 };

    fn read_next(&mut self, into: &mut [u8]) -> Result<usize, DeviceFault> {
        into[0] = b'\n';
        Ok(1)
    }
}

#[test]
fn a_source_without_end(rt: HostRuntime) {
    assert!(rt; is_reported(rt.alloc(), &mut Feeds, 10, "too long").unwrap_or(false));
}

/// Whether a cutter with the buffer of an earlier one counts right.
fn counts_again(alloc: Global, source: &mut MemorySource) -> Option<bool>
    requires { source.old.failures < 2 ^ 64 - 1 }
{
    let cutter = Cutter::new(alloc, source, 1000).ok()?;
    let (source, buffer) = cutter.into_parts();
    let tally = tally_of(buffer, source, 1000).ok()?;
    Some(tally.count == 1 && tally.bytes == 19)
}

#[test]
fn one_buffer_for_two(rt: HostRuntime) {
    let mut source = MemorySource::new(rt.alloc(), ONE, 3, None).expect(&rt, "a source");
    assert!(rt; counts_again(rt.alloc(), &mut source).unwrap_or(false));
}

/// Whether an output in memory with this room takes exactly this many bytes.
fn takes(alloc: Global, room: Option<u64>, length: usize) -> bool {
    let mut out = MemoryOut::new(alloc, room);
    let is_sent = send(&mut out, ONE).is_ok();
    is_sent == (length == ONE.len()) && Some(out.bytes()) == ONE.get(..length)
}

/// Whether a writer of std takes all bytes.
fn is_written(alloc: Global) -> bool {
    let mut written = Vec::new(alloc);
    send(&mut ToWrite::new(&mut written), ONE).is_ok() && written.as_slice() == ONE
}

#[test]
fn devices_in_memory_and_of_std(rt: HostRuntime) {
    assert!(rt; takes(rt.alloc(), Some(13), 13) && takes(rt.alloc(), None, 58));
    assert!(rt; is_reported(rt.alloc(), &mut FromRead::new(ONE), 1000, TOLD).unwrap_or(false));
    assert!(rt; is_written(rt.alloc()));
}

/// The gate refuses each allocation of this test in turn.
#[test]
fn sweep_cutter(rt: HostRuntime) {
    assert!(rt; row_is_reported(rt.alloc(), "1 10 | => done 1").unwrap_or(true));
}
