//! Answers that were worked out by hand, over archives in memory and their index.

use crate::answered::{
    ARCHIVE, BOTH_COUSINS, COUSINS, INDEX, RAW_COUSINS, TWO_MESSAGES, is_front, is_whole, reported,
    reported_of, text_of,
};
use mail_answer::AnswerFaultKind::{OutFailed, OutOfMemory};
use mail_answer::Format::{self, Excerpt, Mbox, Raw};
use mail_answer::{Archives, MemoryArchives};
use mail_index::IndexView;
use std::alloc::Global;

const HELLO: &str = "^Subject: Hello||hi||";

const HELLO_WITHOUT_LAST_LF: &str = "^Subject: Hello||hi|";

const TO_ALICE: &str = "^To: alice@x.org|Cc: bob@x.org||x||";

const FROM_ALICE: &str = "^From: Alice <alice@example.org>||x||";

const BOTH: &str = "0 75 m.mbox|75 49 m.mbox|";

const EXCERPT_TO_ALICE: &str = "m.mbox|To: alice@x.org|Cc: bob@x.org|From:|Subject:|Date:|";

const EXCERPT_FROM_ALICE: &str = "m.mbox|To:|Cc:|From: Alice <alice@example.org>|Subject:|Date:|";

/// The text of an archive, a pattern, a form, the number of messages of the answer, and its text.
const OF_ONE_ARCHIVE: &[(&str, &str, Format, u64, &str)] = &[
    (HELLO_WITHOUT_LAST_LF, "s:hello", Raw, 1, "0 57 m.mbox|"),
    (HELLO_WITHOUT_LAST_LF, "s:hello", Mbox, 1, HELLO),
    ("^Subject: Hello||hi", "s:hello", Mbox, 1, HELLO),
    (HELLO, "bs:hello/hi", Raw, 1, "0 58 m.mbox|"),
    // The answer over two archives, below, is cut into its messages.
    (CLOSED, "s:hello", Raw, 2, "0 58 m.mbox|58 58 m.mbox|"),
    (HELLO, "s:hello", Mbox, 1, HELLO),
    (TWO_MESSAGES, "s:~absent", Raw, 2, BOTH),
    (TWO_MESSAGES, "s:two", Raw, 1, "75 49 m.mbox|"),
    (TWO_MESSAGES, "s:one/two", Mbox, 2, TWO_MESSAGES),
    ("", "s:~absent", Raw, 0, ""),
    ("||", "s:~absent", Mbox, 0, ""),
    (TO_ALICE, "tc:~bob", Raw, 0, ""),
    (TO_ALICE, "t:~bob", Raw, 1, "0 72 m.mbox|"),
    (TO_ALICE, "d:1990-", Raw, 0, ""),
    (TO_ALICE, "t:alice", Excerpt, 1, EXCERPT_TO_ALICE),
    (FROM_ALICE, "f:alice@example.org", Raw, 1, "0 74 m.mbox|"),
    (FROM_ALICE, "f:example", Excerpt, 1, EXCERPT_FROM_ALICE),
    (FROM_ALICE, "f:alic=", Raw, 1, "0 74 m.mbox|"),
    (FROM_ALICE, "f:xample=", Raw, 1, "0 74 m.mbox|"),
    (FROM_ALICE, "f:^xample=", Excerpt, 0, ""),
];

const TWICE: [(&str, &str); 2] = [("a.mbox", HELLO_WITHOUT_LAST_LF), ("b.mbox", HELLO)];

const CLOSED: &str = "^Subject: Hello||hi||^Subject: Hello||hi||";

/// Three messages, of which the first and the last share no id, and one without ids.
const CHAIN: [(&str, &str); 1] = [(
    "m.mbox",
    "^Message-ID: <1@x>||hi||^Message-ID: <2@x>|References: <1@x>||ho||^Message-ID: <3@x>|In-Reply-To: <2@x>||he||^Subject: x||ha||",
)];

const LINKED: &str = "0 61 m.mbox|61 79 m.mbox|140 80 m.mbox|";

/// Archives, a pattern, whether whole threads are wanted, a form, the number of messages of the answer, and its text.
const OF_ARCHIVES: &[(&[(&str, &str)], (&str, bool, Format), u64, &str)] = &[
    (&TWICE, ("s:hello", false, Mbox), 2, CLOSED),
    (&CHAIN, ("b:hi", true, Raw), 3, LINKED),
    (&CHAIN, ("b:he", true, Raw), 3, LINKED),
    (&CHAIN, ("b:ho", false, Raw), 1, "61 79 m.mbox|"),
    (&CHAIN, ("b:ha", true, Raw), 1, "220 54 m.mbox|"),
    (&COUSINS, ("b:hi", false, Raw), 1, "0 79 a.mbox|"),
    (&COUSINS, ("b:hi", true, Mbox), 2, BOTH_COUSINS),
    (&COUSINS, ("b:ho", true, Raw), 2, RAW_COUSINS),
    (&COUSINS, ("b:absent", true, Mbox), 0, ""),
];

/// Whether an answer over archives has this many messages and this text. It is None if memory runs out, and so is the
/// result below.
fn is_answered(
    alloc: Global,
    archives: &[(&str, &str)],
    search: (&str, bool, Format),
    messages: u64,
    text: &str,
) -> Option<bool> {
    let whole = text_of(alloc, text)?;
    let reported = reported_of(alloc, (archives, archives), search, 0, None)?;
    Some(is_whole(&reported, messages, &whole))
}

#[test]
fn one_archive_is_answered(rt: HostRuntime) {
    for (archive, pattern, format, messages, text) in OF_ONE_ARCHIVE {
        let search = (*pattern, false, *format);
        let as_wanted = is_answered(rt.alloc(), &[("m.mbox", *archive)], search, *messages, text);
        assert!(rt; as_wanted == Some(true), "{pattern}: {text}");
    }
}

#[test]
fn threads_and_several_archives_are_answered(rt: HostRuntime) {
    for (archives, search, messages, text) in OF_ARCHIVES {
        let as_wanted = is_answered(rt.alloc(), archives, *search, *messages, text);
        assert!(rt; as_wanted == Some(true), "{}: {text}", search.0);
    }
}

const FORMS: &[(Format, &str)] = &[
    (Raw, "0 58 m.mbox|58 62 m.mbox|"),
    (
        Excerpt,
        "m.mbox|To: x@y|Cc:|From:|Subject: hello|Date:|m.mbox|To:|Cc:|From:|Subject: hello re no|Date:|",
    ),
    (
        Mbox,
        "From a|Subject: =?utf-8?q?h=65llo?=|To: x@y||hi to us all||From b|SUBJECT: hello| re\tno|Subject: other||Subject: highways||",
    ),
];

/// Returns the archive of [`INDEX`], which is added again if the first call had no memory. It is None if the first call
/// left anything, or the second one is refused too.
fn held_again(alloc: Global) -> Option<MemoryArchives> {
    let mut archives = MemoryArchives::new(alloc);
    if archives.add(ARCHIVE).is_err() && (archives.count() > 0 || archives.add(ARCHIVE).is_err()) {
        return None;
    }
    Some(archives)
}

/// Whether an answer in a form is whole, or reports lack of memory or that the output in memory failed, with nothing
/// sent.
fn is_whole_or_wanting(alloc: Global, format: Format, text: &str) -> Option<bool> {
    if IndexView::open(INDEX).is_err() {
        return Some(false);
    }
    let text = text_of(alloc, text)?;
    let Some(mut archives) = held_again(alloc) else {
        return Some(false);
    };
    let reported = reported(alloc, INDEX, ("s:~re", true, format), &mut archives, None)?;
    let is_wanting = is_front(&reported, OutOfMemory, &[]) || is_front(&reported, OutFailed, &[]);
    Some(is_wanting || is_whole(&reported, 2, &text))
}

/// Each refused allocation is reported as lack of memory with nothing sent, or as a failure of the output in memory;
/// otherwise the answer is whole. An archive that was refused leaves none, and the next call adds it.
#[test]
fn sweep_answer_with_threads(rt: HostRuntime) {
    for (format, text) in FORMS {
        let as_wanted = is_whole_or_wanting(rt.alloc(), *format, text);
        assert!(rt; as_wanted != Some(false), "{text}");
    }
}
