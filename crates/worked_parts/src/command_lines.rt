//! What the words of a command line mean, and the parser's own texts.

use mairix_options::{Plan, UsageFault, plan_of, usage_text};
use or_memory::OrMemory;
use std::alloc::{AllocError, Global};
use std::fmt::InlineText;
use std::test::Fail;

const HELP: &str = "Index and search mbox archives

Usage: mairix [OPTIONS] -f <RCFILE> [PATTERN]...

Arguments:
  [PATTERN]...  What to look for; without a pattern the index is made

Options:
  -f <RCFILE>    The file that names the archives and the index
  -h, --help     Print help
  -V, --version  Print version

Output:
  -r            Print a line for each message: offset, length, archive
  -x            Print the archive and the main header lines of each message
  -o <NAME>     Write the mbox to this file, not to the rcfile's mfolder
      --stdout  Print the mbox, and write no file

Searching:
  -t             Find whole threads: also all messages linked to a match
      --boolean  Read the patterns as one query with and, or, not and ( )
      --once     Index the archives in memory, and search that index
      --verify   Check first that no archive has changed since it was indexed

Where the answer goes:
  An mbox goes to the file that -o or the rcfile's mfolder names. Lines (-r),
  excerpts (-x) and an mbox with --stdout are printed, and no file is written.
  Without -r and -x the rcfile's mformat says which of the three it is.

Patterns (a message must match all of them):
  s:x b:x n:x         A word of the Subject, of the body, of attachments' names
  t:x c:x f:x a:x     A word of To, Cc, From, any of the three; tc:x is To or Cc
  x                   A word of To, Cc, From, the Subject or the body
  m:x                 The message whose Message-ID is x
  d:2003 d:2w-        Dated in 2003; within the last two weeks
  z:10k- z:-1M        At least 10 kilobytes; at most 1 megabyte
  F:s F:-r F:f        Seen; not replied to; flagged
  x,y x/y ~x          Both words; one of them; not this word
  x= ^x=              A word that contains x; a word that begins with x

Boolean queries, with --boolean:
  from:x to:x         A word of From; of To, Cc or Bcc
  subject:x body:x    A word of the Subject; of the body
  x x* *              A word of any of these; one beginning with x; any message
  id:x                The message whose Message-ID is x
  date:2003-02        Dated in that month; so 2003-02-17 and 2003-02..2003-04
  (x or y) and not z  not binds closest, then and, then or

Examples:
  mairix -f ~/.mairixrc                                            # make index
  mairix -f ~/.mairixrc -x s:lunch d:2003                          # excerpts
  mairix -f ~/.mairixrc -r --boolean 'from:alice or subject:rep*'  # lines

Manual pages: mairix(1); mairixrc(5), the rcfile; mairix-query(7), queries
";

/// Words, and the plan that they are: the rcfile, then each option, then the patterns. For accepted words the parser
/// has no text.
const PLANS: [(&str, &str); 4] = [
    ("-f rc -r --once s:hello", "rc raw once: s:hello"),
    ("s:b -r b:a -f rc s:b -- -h --", "rc raw: s:b b:a s:b -h --"),
    (
        "-x -t -o hits --stdout --boolean -f=rc",
        "rc excerpt threads hits stdout boolean:",
    ),
    ("-frc s:a --verify b:b", "rc verify: s:a b:b"),
];

/// Words that are refused, the refusal, and the beginning of the parser's text.
const REFUSALS: [(&str, &str, &str); 7] = [
    ("-h", "help", HELP),
    ("--help", "help", HELP),
    ("-V", "version", "mairix 0.3.0~unreleased\n"),
    ("--version", "version", "mairix 0.3.0~unreleased\n"),
    (
        "-f rc -z",
        "bad words",
        "error: unexpected argument '-z' found\n",
    ),
    ("--once s:a", "bad words", "error: "),
    ("-f rc -r -x s:a", "-r and -x exclude each other", ""),
];

/// Returns the words of a command line.
fn words(alloc: Global, line: &str) -> Result<Vec<String>, AllocError> {
    let mut words = Vec::new(alloc);
    for word in line.split(' ') {
        words.push(String::from_str(alloc, word)?)?;
    }
    Ok(words)
}

/// Returns the plan of words as a text.
fn reported_plan(alloc: Global, words: &[String]) -> Result<String, Fail> {
    let plan = plan_of(alloc, words)?;
    let mut reported = String::new(alloc);
    report(&mut reported, &plan)?;
    Ok(reported)
}

fn report(reported: &mut String, plan: &Plan) -> Result<(), AllocError> {
    reported.push_str(plan.rcfile.as_str())?;
    let mfolder = match &plan.mfolder {
        Some(mfolder) => mfolder.as_str(),
        None => "",
    };
    for (is_set, name) in &[
        (plan.raw, "raw"),
        (plan.excerpt, "excerpt"),
        (plan.threads, "threads"),
        (plan.mfolder.is_some(), mfolder),
        (plan.stdout, "stdout"),
        (plan.boolean, "boolean"),
        (plan.once, "once"),
        (plan.verify, "verify"),
    ] {
        if *is_set {
            push_word(reported, name)?;
        }
    }
    reported.push_str(":")?;
    for pattern in plan.patterns.as_slice() {
        push_word(reported, pattern.as_str())?;
    }
    Ok(())
}

fn push_word(reported: &mut String, word: &str) -> Result<(), AllocError> {
    reported.push_str(" ")?;
    reported.push_str(word)
}

/// Whether the fault is this refusal.
fn is_refusal(fault: Option<OrMemory<UsageFault>>, refusal: &str) -> bool {
    match fault {
        Some(OrMemory::Refused(fault)) => {
            let reported: InlineText<32> = InlineText::of(fault);
            reported.as_str() == refusal
        }
        _ => false,
    }
}

#[test]
fn words_are_accepted(rt: HostRuntime) -> Result<(), Fail> {
    let alloc = rt.alloc();
    for (line, plan) in PLANS {
        let words = words(alloc, line)?;
        let reported = reported_plan(alloc, &words)?;
        let text = usage_text(alloc, &words)?;
        assert!(rt;
            reported.as_str() == plan && text.is_empty(),
            "{line}: {reported}"
        );
    }
    Ok(())
}

#[test]
fn words_are_refused(rt: HostRuntime) -> Result<(), Fail> {
    let alloc = rt.alloc();
    for (line, refusal, front) in REFUSALS {
        let words = words(alloc, line)?;
        let reported = plan_of(alloc, &words).err();
        let text = usage_text(alloc, &words)?;
        let as_wanted = is_refusal(reported, refusal) && text.as_str().starts_with(front);
        assert!(rt; as_wanted, "{line}: not {refusal}: {text}");
    }
    Ok(())
}

/// The gate refuses each allocation in turn.
#[test]
fn sweep_plan_of(rt: HostRuntime) {
    let alloc = rt.alloc();
    let Ok(words) = words(alloc, "-rf rc --once s:one b:a") else {
        return;
    };
    let as_wanted = match plan_of(alloc, &words) {
        Ok(plan) => {
            plan.rcfile.as_str() == "rc"
                && plan.raw
                && plan.once
                && plan.patterns.as_slice().len() == 2
        }
        Err(fault) => matches!(fault, OrMemory::Memory),
    };
    assert!(rt; as_wanted);
}
