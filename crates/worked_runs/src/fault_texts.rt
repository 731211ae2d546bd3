//! What the program prints of each fault, and its exit status.

use mail_index::IndexFault::{BadDigest, BadLayout, BadMagic, BadVersion, TooShort};
use mail_index::Section;
use mail_query::{QueryFault, QueryFaultKind as Kind};
use mairix_tool::Fault::{
    self, Archive, Device, Index, Memory, OldIndex, Out, Query, Rc, Stale, TooMany, Usage,
};
use mairix_tool::UsageFault::{Help, Parse, TwoFormats, Version};
use mairix_tool::{Name, RcFault, fault_text};
use mbox_cutter::CutFault;
use std::alloc::Global;
use std::fmt::InlineText;
use std::process::Abort;
use std::str::Lines;

/// Each fault of the three tables below, in order, with its status and its text.
const TEXTS: &str = "\
Usage(Parse) => 2: bad words
Usage(TwoFormats) => 2: -r and -x exclude each other
Usage(Help) => 0: help
Usage(Version) => 0: version
OldIndex => 3: index: too old, build it again
Out => 4: output failed
Memory => 5: out of memory
TooMany => 5: too many messages or keys
Stale(1) => 3: archive 2: changed since it was indexed
Device => 4: archive read failed
Rc(BadLine(3)) => 2: rcfile line 3: not option=value
Rc(NotSupported(3)) => 2: rcfile line 3: option not supported
Rc(Wildcard(3)) => 2: rcfile line 3: wildcard not supported
Rc(Wildcard(12)) => 2: rcfile line 12: wildcard not supported
Rc(Expansion(3)) => 2: rcfile line 3: expansion not supported
Rc(BadFormat(3)) => 2: rcfile line 3: unknown format
Rc(Missing(Mbox)) => 2: rcfile: mbox missing
Rc(Missing(Database)) => 2: rcfile: database missing
Rc(Missing(Mfolder)) => 2: rcfile: mfolder missing
Index(TooShort) => 3: index: too short
Index(BadMagic) => 3: index: bad magic
Index(BadVersion) => 3: index: unknown version
Index(BadDigest) => 3: index: bad digest
Index(BadLayout(Counts)) => 3: index: bad layout in counts
Index(BadLayout(Archives)) => 3: index: bad layout in archives
Index(BadLayout(Records)) => 3: index: bad layout in records
Index(BadLayout(Directory)) => 3: index: bad layout in directory
Index(BadLayout(Postings)) => 3: index: bad layout in postings
Archive { number: 0, fault: Device } => 4: archive 1: read failed
Archive { number: 1, fault: NotAnMbox } => 4: archive 2: not an mbox
Archive { number: 18446744073709551615, fault: ArchiveTooLong } => 5: archive 18446744073709551616: too long
Archive { number: 0, fault: Failed } => 4: archive 1: failed before
Query(QueryFault { number: 7, kind: NoPattern }) => 2: query item 7: no pattern
Query(QueryFault { number: 7, kind: BadPrefix }) => 2: query item 7: bad prefix
Query(QueryFault { number: 7, kind: BadWord }) => 2: query item 7: bad word
Query(QueryFault { number: 7, kind: Approximate }) => 2: query item 7: approximate match not supported
Query(QueryFault { number: 7, kind: BadDate }) => 2: query item 7: bad date
Query(QueryFault { number: 7, kind: BadSize }) => 2: query item 7: bad size
Query(QueryFault { number: 7, kind: BadFlag }) => 2: query item 7: bad flag
Query(QueryFault { number: 7, kind: NeedsOperator }) => 2: query item 7: operator needed
Query(QueryFault { number: 7, kind: BadParenthesis }) => 2: query item 7: bad parenthesis
Query(QueryFault { number: 7, kind: MissingTerm }) => 2: query item 7: term missing
Query(QueryFault { number: 7, kind: TooDeep }) => 2: query item 7: too deep
Query(QueryFault { number: 7, kind: Phrase }) => 2: query item 7: phrase not supported
Query(QueryFault { number: 12, kind: Approximate }) => 2: query item 12: approximate match not supported
Query(QueryFault { number: 18446744073709551615, kind: BadWord }) => 2: query item 18446744073709551615: bad word
";

const FAULTS: [Fault; 28] = [
    Usage(Parse),
    Usage(TwoFormats),
    Usage(Help),
    Usage(Version),
    OldIndex,
    Out,
    Memory,
    TooMany,
    Stale(1),
    Device,
    Rc(RcFault::BadLine(3)),
    Rc(RcFault::NotSupported(3)),
    Rc(RcFault::Wildcard(3)),
    Rc(RcFault::Wildcard(12)),
    Rc(RcFault::Expansion(3)),
    Rc(RcFault::BadFormat(3)),
    Rc(RcFault::Missing(Name::Mbox)),
    Rc(RcFault::Missing(Name::Database)),
    Rc(RcFault::Missing(Name::Mfolder)),
    Index(TooShort),
    Index(BadMagic),
    Index(BadVersion),
    Index(BadDigest),
    Index(BadLayout(Section::Counts)),
    Index(BadLayout(Section::Archives)),
    Index(BadLayout(Section::Records)),
    Index(BadLayout(Section::Directory)),
    Index(BadLayout(Section::Postings)),
];

/// Faults of an archive with this number.
const OF_ARCHIVES: [(u64, CutFault); 4] = [
    (0, CutFault::Device),
    (1, CutFault::NotAnMbox),
    (u64::MAX, CutFault::ArchiveTooLong),
    (0, CutFault::Failed),
];

/// Faults of a query's item with this number.
const OF_ITEMS: [(usize, Kind); 14] = [
    (7, Kind::NoPattern),
    (7, Kind::BadPrefix),
    (7, Kind::BadWord),
    (7, Kind::Approximate),
    (7, Kind::BadDate),
    (7, Kind::BadSize),
    (7, Kind::BadFlag),
    (7, Kind::NeedsOperator),
    (7, Kind::BadParenthesis),
    (7, Kind::MissingTerm),
    (7, Kind::TooDeep),
    (7, Kind::Phrase),
    (12, Kind::Approximate),
    (usize::MAX, Kind::BadWord),
];

/// Whether a fault, its status and the program's text for it are those of a line, and its own text is the same. It is
/// None if memory runs out.
fn is_shown(alloc: Global, fault: Fault, line: &str) -> Option<bool> {
    let text = fault_text(alloc, &fault).ok()?;
    let reported = format!(in alloc; "{fault:?} => {}: {text}", fault.status()).ok()?;
    let own: InlineText<64> = InlineText::of(fault);
    Some(reported.as_str() == line && own.as_str() == text.as_str())
}

/// Asserts that a fault, its status and its text are those of the next line. Memory may run out only in a sweep.
fn check_next(rt: &impl Abort, alloc: Global, lines: &mut Lines<'_>, fault: Fault, sweeps: bool) {
    let line = lines.next().unwrap_or("");
    let as_wanted = is_shown(alloc, fault, line);
    assert!(rt; as_wanted.unwrap_or(sweeps), "{fault}, not {line}");
}

fn check_texts(rt: &impl Abort, alloc: Global, sweeps: bool) {
    let mut lines = TEXTS.lines();
    for fault in FAULTS {
        check_next(rt, alloc, &mut lines, fault, sweeps);
    }
    for (number, fault) in OF_ARCHIVES {
        check_next(rt, alloc, &mut lines, Archive { number, fault }, sweeps);
    }
    for (number, kind) in OF_ITEMS {
        let fault = Query(QueryFault { number, kind });
        check_next(rt, alloc, &mut lines, fault, sweeps);
    }
    assert!(rt; lines.next().is_none());
}

#[test]
fn faults_show_their_texts(rt: HostRuntime) {
    check_texts(&rt, rt.alloc(), false);
}

/// The gate refuses each allocation in turn.
#[test]
fn sweep_fault_text(rt: HostRuntime) {
    check_texts(&rt, rt.alloc(), true);
}
