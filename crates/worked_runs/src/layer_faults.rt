//! The texts that the layers have for their own faults.
use mail_answer::AnswerFaultKind::{self, Stale};
use mail_index::IndexFault::{self, BadLayout};
use mail_index::{BuildFault, Section, WriteFault};
use mbox_cutter::CutFault;
use std::fmt::{Display, InlineText};

const OF_ARCHIVES: &[(CutFault, &str)] = &[
    (CutFault::Device, "read failed"),
    (CutFault::NotAnMbox, "not an mbox"),
    (CutFault::ArchiveTooLong, "too long"),
    (CutFault::Failed, "failed before"),
];

const OF_INDEX_FILES: &[(IndexFault, &str)] = &[
    (IndexFault::TooShort, "too short"),
    (IndexFault::BadMagic, "bad magic"),
    (IndexFault::BadVersion, "unknown version"),
    (IndexFault::BadDigest, "bad digest"),
    (BadLayout(Section::Counts), "bad layout in counts"),
    (BadLayout(Section::Archives), "bad layout in archives"),
    (BadLayout(Section::Records), "bad layout in records"),
    (BadLayout(Section::Directory), "bad layout in directory"),
    (BadLayout(Section::Postings), "bad layout in postings"),
];

const OF_BUILDERS: &[(BuildFault, &str)] = &[
    (BuildFault::OutOfMemory, "out of memory"),
    (BuildFault::TooMany, "too many messages or keys"),
    (BuildFault::Failed, "failed before"),
];

const OF_WRITTEN_FILES: &[(WriteFault, &str)] = &[
    (WriteFault::Out, "output failed"),
    (WriteFault::Failed, "failed before"),
];

/// Archives are counted from 0 in a fault, and from 1 in its text.
const OF_ANSWERS: &[(AnswerFaultKind, &str)] = &[
    (Stale(0), "archive 1: changed since it was indexed"),
    (
        Stale(u32::MAX),
        "archive 4294967296: changed since it was indexed",
    ),
    (AnswerFaultKind::Device, "archive read failed"),
    (AnswerFaultKind::OutOfMemory, "out of memory"),
    (AnswerFaultKind::OutFailed, "output failed"),
];

/// Whether a fault has this text.
fn shows<T: Display + Drop>(fault: T, text: &str) -> bool {
    let shown: InlineText<64> = InlineText::of(fault);
    shown.as_str() == text
}

#[test]
fn faults_show_their_texts(rt: HostRuntime) {
    for (fault, text) in OF_ARCHIVES {
        assert!(rt; shows(*fault, text), "{text}");
    }
    for (fault, text) in OF_INDEX_FILES {
        assert!(rt; shows(*fault, text), "{text}");
    }
    for (fault, text) in OF_BUILDERS {
        assert!(rt; shows(*fault, text), "{text}");
    }
    for (fault, text) in OF_WRITTEN_FILES {
        assert!(rt; shows(*fault, text), "{text}");
    }
    for (fault, text) in OF_ANSWERS {
        assert!(rt; shows(*fault, text), "{text}");
    }
}
