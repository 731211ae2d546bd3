//! Reads the words of a command line.
ghost use Rattle.std.specs.Prelude.{◌≡◌, [], true, false, map, option_map, unwrap_or, is_ok, IfOk, codes, string_bytes};
ghost use Rattle.clap.specs.Words.{app_of, rule_of, found_of, rows_of, first_of, all_of};
ghost use Rattle.contract_words.specs.Answers.{Gives};
ghost use Rattle.mairix_options.specs.CommandLine.{bare_command, command, flag, parse, plan, plan_in, one_format, fault_of_kind, error_refusal};
ghost use Rattle.mairix_options.specs.Inside.Arguments.{rule_in};
ghost use Rattle.or_memory.specs.Refusals.{refusal};

use crate::owned_text::{Text, Texts};
use clap::error::ErrorKind;
use clap::{Arg, ArgAction, ArgMatches, Command};
use or_memory::OrMemory;
use std::alloc::{AllocError, Global};

/// How a user writes an argument.
#[derive(Clone, Copy)]
enum Form {
    /// As `-c`.
    Letter(char),
    /// As `--id`.
    Name,
    /// As a word without a dash.
    Word,
}

/// The heading under which help lists an argument.
#[derive(Clone, Copy)]
enum Group {
    /// The heading of the parser's own options.
    Options,
    Output,
    Searching,
}

/// An argument of the command, with its text in help.
#[derive(Clone, Copy)]
struct Argument {
    id: &'static str,
    form: Form,
    /// The names of its values in help. A flag has none.
    values: &'static [&'static str],
    action: ArgAction,
    required: bool,
    group: Group,
    help: &'static str,
}

/// All arguments of the command, in the order of help.
const ARGUMENTS: [Argument; 10] = [
    Argument {
        id: "rcfile",
        form: Form::Letter('f'),
        values: &["RCFILE"],
        action: ArgAction::Set,
        required: true,
        group: Group::Options,
        help: "The file that names the archives and the index",
    },
    Argument {
        id: "raw",
        form: Form::Letter('r'),
        values: &[],
        action: ArgAction::SetTrue,
        required: false,
        group: Group::Output,
        help: "Print a line for each message: offset, length, archive",
    },
    Argument {
        id: "excerpt",
        form: Form::Letter('x'),
        values: &[],
        action: ArgAction::SetTrue,
        required: false,
        group: Group::Output,
        help: "Print the archive and the main header lines of each message",
    },
    Argument {
        id: "threads",
        form: Form::Letter('t'),
        values: &[],
        action: ArgAction::SetTrue,
        required: false,
        group: Group::Searching,
        help: "Find whole threads: also all messages linked to a match",
    },
    Argument {
        id: "mfolder",
        form: Form::Letter('o'),
        values: &["NAME"],
        action: ArgAction::Set,
        required: false,
        group: Group::Output,
        help: "Write the mbox to this file, not to the rcfile's mfolder",
    },
    Argument {
        id: "stdout",
        form: Form::Name,
        values: &[],
        action: ArgAction::SetTrue,
        required: false,
        group: Group::Output,
        help: "Print the mbox, and write no file",
    },
    Argument {
        id: "boolean",
        form: Form::Name,
        values: &[],
        action: ArgAction::SetTrue,
        required: false,
        group: Group::Searching,
        help: "Read the patterns as one query with and, or, not and ( )",
    },
    Argument {
        id: "once",
        form: Form::Name,
        values: &[],
        action: ArgAction::SetTrue,
        required: false,
        group: Group::Searching,
        help: "Index the archives in memory, and search that index",
    },
    Argument {
        id: "verify",
        form: Form::Name,
        values: &[],
        action: ArgAction::SetTrue,
        required: false,
        group: Group::Searching,
        help: "Check first that no archive has changed since it was indexed",
    },
    Argument {
        id: "pattern",
        form: Form::Word,
        values: &["PATTERN"],
        action: ArgAction::Append,
        required: false,
        group: Group::Options,
        help: "What to look for; without a pattern the index is made",
    },
];

// The end of the help, after the options: where an answer goes, both query languages in short, examples, and the pages.
const ANSWERS_AND_QUERIES: &str = "\
Where the answer goes:
  An mbox goes to the file that -o or the rcfile's mfolder names. Lines (-r),
  excerpts (-x) and an mbox with --stdout are printed, and no file is written.
  Without -r and -x the rcfile's mformat says which of the three it is.

Patterns (a message must match all of them):
  s:x b:x n:x         A word of the Subject, of the body, of attachments' names
  t:x c:x f:x a:x     A word of To, Cc, From, any of the three; tc:x is To or Cc
  x                   A word of To, Cc, From, the Subject or the body
  m:x                 The message whose Message-ID is x
  d:2003 d:2w-        Dated in 2003; within the last two weeks
  z:10k- z:-1M        At least 10 kilobytes; at most 1 megabyte
  F:s F:-r F:f        Seen; not replied to; flagged
  x,y x/y ~x          Both words; one of them; not this word
  x= ^x=              A word that contains x; a word that begins with x

Boolean queries, with --boolean:
  from:x to:x         A word of From; of To, Cc or Bcc
  subject:x body:x    A word of the Subject; of the body
  x x* *              A word of any of these; one beginning with x; any message
  id:x                The message whose Message-ID is x
  date:2003-02        Dated in that month; so 2003-02-17 and 2003-02..2003-04
  (x or y) and not z  not binds closest, then and, then or

Examples:
  mairix -f ~/.mairixrc                                            # make index
  mairix -f ~/.mairixrc -x s:lunch d:2003                          # excerpts
  mairix -f ~/.mairixrc -r --boolean 'from:alice or subject:rep*'  # lines

Manual pages: mairix(1); mairixrc(5), the rcfile; mairix-query(7), queries";

/// What a command line asks for.
#[derive(Drop)]
pub struct Plan {
    /// The path of the rcfile, as written.
    pub rcfile: Text,
    /// Whether the answer is lines of offset, length and path (`-r`).
    pub raw: bool,
    /// Whether the answer is excerpts: paths and header lines (`-x`).
    pub excerpt: bool,
    /// Whether the answer has the whole threads of the messages found (`-t`).
    pub threads: bool,
    /// The name of `-o`, as written: the file that an mbox goes to in place of the rcfile's `mfolder`.
    pub mfolder: Option<Text>,
    /// Whether an mbox goes to standard output (`--stdout`).
    pub stdout: bool,
    /// Whether the patterns, joined with spaces, are one boolean query (`--boolean`).
    pub boolean: bool,
    /// Whether the search uses an index that it makes in memory (`--once`).
    pub once: bool,
    /// Whether the search first checks that the archives are those that were indexed (`--verify`).
    pub verify: bool,
    /// The patterns to search for, in their order. Without a pattern a run makes the index.
    pub patterns: Texts,
}

/// Why a command line asks for no run.
#[derive(Clone, Copy, Debug)]
pub enum UsageFault {
    /// The parser refuses the words.
    Parse,
    /// The words have both `-r` and `-x`.
    TwoFormats,
    /// The words ask for help.
    Help,
    /// The words ask for the version.
    Version,
}

/// Reads the words after the program's name.
///
/// The command is `mairix -f RCFILE [-r] [-x] [-t] [-o NAME] [--stdout] [--boolean] [--once] [--verify] [PATTERN..]`.
/// It also has `-h`, `--help`, `-V` and `--version`.
///
/// The parser is clap. So a value can be attached, as in `-fRCFILE` or `-f=RCFILE`, and letters can be bundled, as in
/// `-rfRCFILE`. Options can come before, between and after patterns. `-` is a pattern. After `--` each word is a
/// pattern, even if it begins with `-`. Each option can be given once, with any others, but not `-r` with `-x`.
///
/// # Errors
///
/// `Help` or `Version` if that is the first thing that the parser reports, and `Parse` for any other refusal of the
/// parser. `TwoFormats` if the parser takes the words, and they have both `-r` and `-x`. `Memory` for lack of memory.
pub fn plan_of(alloc: Global, words: &[String]) -> Result<Plan, OrMemory<UsageFault>>
    ensures { Gives (λ p. p) refusal result (plan (map string_bytes words.now)) }
{
    match parsed(alloc, words) {
        Ok(matches) => planned(alloc, &matches),
        Err(error) => Err(fault_of_kind(error.kind())),
    }
}

/// Returns the parser's own text for words that it refuses, help and version included. For words that it takes, the
/// text is empty. Fails only for lack of memory.
pub fn usage_text(alloc: Global, words: &[String]) -> Result<String, AllocError>
    ensures { is_ok (parse (map string_bytes words.now)) ≡ true
        → IfOk result (λ text. string_bytes text ≡ []) }
{
    match parsed(alloc, words) {
        Ok(_) => Ok(String::new(alloc)),
        Err(error) => match error.kind() {
            ErrorKind::OutOfMemory => Err(AllocError),
            _ => error.to_string(alloc),
        },
    }
}

fn parsed<'a>(alloc: Global, words: &'a [String]) -> Result<ArgMatches<'a>, clap::Error>
    ensures { Gives plan_in error_refusal result (parse (map string_bytes words.entry.now)) }
{
    let command = command(alloc)?;
    command.try_get_matches_from(words)
}

fn planned(alloc: Global, matches: &ArgMatches<'_>) -> Result<Plan, OrMemory<UsageFault>>
    ensures { Gives (λ p. p) refusal result (one_format (plan_in matches.now)) }
{
    let raw = is_set(matches, "raw");
    let excerpt = is_set(matches, "excerpt");
    if raw && excerpt {
        return Err(OrMemory::Refused(UsageFault::TwoFormats));
    }
    let rcfile = Text::new(alloc, text_of(matches, "rcfile").unwrap_or(""))?;
    let mfolder = match text_of(matches, "mfolder") {
        Some(name) => {
            let name = Text::new(alloc, name)?;
            Some(name)
        }
        None => None,
    };
    let patterns = texts_of(alloc, matches, "pattern")?;
    Ok(Plan {
        rcfile,
        raw,
        excerpt,
        threads: is_set(matches, "threads"),
        mfolder,
        stdout: is_set(matches, "stdout"),
        boolean: is_set(matches, "boolean"),
        once: is_set(matches, "once"),
        verify: is_set(matches, "verify"),
        patterns,
    })
}

fn text_of<'a>(matches: &ArgMatches<'a>, id: &str) -> Option<&'a str>
    ensures { option_map (λ s. s.now) result ≡ first_of id.now (rows_of (found_of matches.now)) }
{
    matches.get_str(id)
}

fn is_set(matches: &ArgMatches<'_>, id: &str) -> bool
    ensures { result ≡ flag id.now (rows_of (found_of matches.now)) }
{
    matches!(text_of(matches, id), Some("true"))
}

fn texts_of(alloc: Global, matches: &ArgMatches<'_>, id: &str) -> Result<Texts, AllocError>
    ensures { IfOk result (λ texts. texts ≡ unwrap_or
        (all_of id.now (rows_of (found_of matches.now))) []) }
{
    Texts::of(alloc, matches.get_strs(id).unwrap_or(&[]))
}

fn fault_of_kind(kind: ErrorKind) -> OrMemory<UsageFault>
    ensures { result ≡ fault_of_kind kind }
{
    match kind {
        ErrorKind::DisplayHelp => OrMemory::Refused(UsageFault::Help),
        ErrorKind::DisplayVersion => OrMemory::Refused(UsageFault::Version),
        ErrorKind::OutOfMemory => OrMemory::Memory,
        _ => OrMemory::Refused(UsageFault::Parse),
    }
}

fn command<'a>(alloc: Global) -> Result<Command<'a>, AllocError>
    ensures { IfOk result (λ c. app_of c ≡ command) }
{
    let mut command = bare_command(alloc);
    for argument in &ARGUMENTS {
        command = command.arg(argument.arg(alloc))?;
    }
    Ok(command)
}

fn bare_command<'a>(alloc: Global) -> Command<'a>
    ensures { app_of result ≡ bare_command }
{
    Command::new(alloc, "mairix")
        .version("0.3.0~unreleased")
        .about("Index and search mbox archives")
        .after_help(ANSWERS_AND_QUERIES)
        .no_binary_name(true)
}

impl Argument {
    /// Returns the argument in the form that the parser takes.
    fn arg<'a>(&self, alloc: Global) -> Arg<'a>
        ensures rule { rule_of result ≡ rule_in self.now }
        ensures local { result.global ≡ false }
    {
        let arg = Arg::new(alloc, self.id)
            .value_names(self.values)
            .action(self.action)
            .required(self.required)
            .help(self.help);
        let arg = match self.form {
            Form::Letter(letter) => arg.short(letter),
            Form::Name => arg.long(self.id),
            Form::Word => arg,
        };
        match self.group {
            Group::Options => arg,
            Group::Output => arg.help_heading("Output"),
            Group::Searching => arg.help_heading("Searching"),
        }
    }
}
