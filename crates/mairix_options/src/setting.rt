//! Reads one line of an rcfile.
ghost use Rattle.std.specs.Prelude.{◌≡◌, ◌&&◌, IfOk, string_bytes};
ghost use Rattle.std.specs.List.{list_any, list_all};
ghost use Rattle.std.specs.Option.{option_to_list};
ghost use Rattle.contract_words.specs.Answers.{Gives};
ghost use Rattle.mairix_options.specs.Path.{is_path, has_expansion, has_wildcard};
ghost use Rattle.mairix_options.specs.Rcfile.{keyword_of, archives_of, names_in_value, paths_in, supported_setting, unexpanded_value, assignment, entry, line_settings};
ghost use Rattle.or_memory.specs.Refusals.{refusal};

use crate::blanks::{trimmed, trimmed_text};
use crate::mail_format::MailFormat;
use crate::owned_text::{Text, Texts};
use crate::path::{
    all_are_paths, archives_fit, has_expansion, has_wildcard, is_path, mfolder_fits,
};
use crate::rcfile::RcFault;
use or_memory::OrMemory;
use std::alloc::{AllocError, Global};
use std::str;

/// An option that an rcfile may set.
#[derive(Clone, Copy)]
enum Keyword {
    Base,
    Mbox,
    Database,
    Mfolder,
    Mformat,
}

/// Each option with its name.
const KEYWORDS: [(&str, Keyword); 5] = [
    ("base", Keyword::Base),
    ("mbox", Keyword::Mbox),
    ("database", Keyword::Database),
    ("mfolder", Keyword::Mfolder),
    ("mformat", Keyword::Mformat),
];

impl Keyword {
    fn of(option: &str) -> Option<Keyword>
        ensures { result ≡ keyword_of option.now }
    {
        for (name, keyword) in &KEYWORDS {
            if option == *name {
                return Some(*keyword);
            }
        }
        None
    }
}

/// A line `mbox=names`.
#[derive(Drop)]
pub(crate) struct ArchivesLine {
    pub(crate) number: u64,
    /// As written.
    pub(crate) names: Texts,
}

/// A line `mfolder=name`.
#[derive(Drop)]
pub(crate) struct MfolderLine {
    pub(crate) number: u64,
    /// As written.
    pub(crate) name: Text,
}

/// What one line of an rcfile sets.
#[derive(Drop)]
pub(crate) enum Setting {
    Base(Text),
    Archives(ArchivesLine),
    Database(Text),
    Mfolder(MfolderLine),
    Format(MailFormat),
}

/// Reads a line. Returns None for an empty line or a comment. `base` is the last base before the line, and `number` is
/// the line's number for a fault.
pub(crate) fn line_setting(
    alloc: Global,
    base: &Option<Text>,
    number: u64,
    line: &[u8],
) -> Result<Option<Setting>, OrMemory<RcFault>>
    ensures { Gives option_to_list refusal result (line_settings base.now number line.now) }
{
    let text = trimmed(line);
    if let [] | [b'#', ..] = text {
        return Ok(None);
    }
    entry(alloc, base, number, text).map(Some)
}

fn entry(
    alloc: Global,
    base: &Option<Text>,
    number: u64,
    text: &[u8],
) -> Result<Setting, OrMemory<RcFault>>
    ensures { Gives (λ s. s) refusal result (entry base.now number text.now) }
{
    let Ok(text) = str::from_utf8(text) else {
        return Err(OrMemory::Refused(RcFault::BadLine(number)));
    };
    match text.split_once('=') {
        Some((option, value)) => assigned(
            alloc,
            base,
            number,
            trimmed_text(option),
            trimmed_text(value),
        ),
        None => Err(OrMemory::Refused(RcFault::BadLine(number))),
    }
}

fn assigned(
    alloc: Global,
    base: &Option<Text>,
    number: u64,
    option: &str,
    value: &str,
) -> Result<Setting, OrMemory<RcFault>>
    ensures { Gives (λ s. s) refusal result (assignment base.now number option.now value.now) }
{
    let keyword = Keyword::of(option);
    if option.is_empty() || value.is_empty() {
        return Err(OrMemory::Refused(RcFault::BadLine(number)));
    }
    let has_paths = has_paths(alloc, base, keyword, value)?;
    if !has_paths {
        return Err(OrMemory::Refused(RcFault::BadLine(number)));
    }
    match keyword {
        Some(keyword) => supported(alloc, number, keyword, value),
        None => Err(OrMemory::Refused(RcFault::NotSupported(number))),
    }
}

/// Returns whether all names in a value can be paths, both as written and under the base.
fn has_paths(
    alloc: Global,
    base: &Option<Text>,
    keyword: Option<Keyword>,
    value: &str,
) -> Result<bool, AllocError>
    ensures { IfOk result (λ has. has ≡ list_all is_path
        (names_in_value keyword value.now) && list_all
        is_path (paths_in base.now keyword value.now)) }
{
    match keyword {
        Some(Keyword::Mbox) => {
            let names = archives_of(alloc, value)?;
            if !all_are_paths(&names) {
                return Ok(false);
            }
            archives_fit(alloc, base, &names)
        }
        Some(Keyword::Mfolder) if is_path(value) => mfolder_fits(alloc, base, value),
        _ => Ok(is_path(value)),
    }
}

fn supported(
    alloc: Global,
    number: u64,
    keyword: Keyword,
    value: &str,
) -> Result<Setting, OrMemory<RcFault>>
    ensures { Gives (λ s. s) refusal result (supported_setting number keyword value.now) }
{
    match keyword {
        Keyword::Base => unexpanded(alloc, number, value).map(Setting::Base),
        Keyword::Mbox => archives_line(alloc, number, value).map(Setting::Archives),
        Keyword::Database => unexpanded(alloc, number, value).map(Setting::Database),
        Keyword::Mfolder => {
            let name = unexpanded(alloc, number, value)?;
            Ok(Setting::Mfolder(MfolderLine { number, name }))
        }
        Keyword::Mformat => match MailFormat::of(value) {
            Some(format) => Ok(Setting::Format(format)),
            None => Err(OrMemory::Refused(RcFault::BadFormat(number))),
        },
    }
}

/// Returns a copy of the value. Fails with `Expansion` if a shell would expand it.
fn unexpanded(alloc: Global, number: u64, value: &str) -> Result<Text, OrMemory<RcFault>>
    ensures { Gives (λ t. t) refusal result (unexpanded_value number value.now) }
{
    if has_expansion(value) {
        return Err(OrMemory::Refused(RcFault::Expansion(number)));
    }
    let text = Text::new(alloc, value)?;
    Ok(text)
}

#[tactic(auto, using(crate::proofs::Searches::list_any_map))]
fn archives_line(alloc: Global, number: u64, value: &str) -> Result<ArchivesLine, OrMemory<RcFault>>
    ensures { Gives (λ line. Setting.Archives line) refusal result
        (supported_setting number Keyword.Mbox value.now) }
{
    let names = archives_of(alloc, value)?;
    if some_has_expansion(names.as_slice()) {
        return Err(OrMemory::Refused(RcFault::Expansion(number)));
    }
    if some_has_wildcard(names.as_slice()) {
        return Err(OrMemory::Refused(RcFault::Wildcard(number)));
    }
    Ok(ArchivesLine { number, names })
}

fn archives_of(alloc: Global, value: &str) -> Result<Texts, AllocError>
    ensures { IfOk result (λ names. names ≡ archives_of value.now) }
{
    let mut names = Texts::new(alloc);
    for name in value.split(':') {
        if !name.is_empty() {
            names.push(name)?;
        }
    }
    Ok(names)
}

fn some_has_expansion(texts: &[String]) -> bool
    ensures { result ≡ list_any (λ text. has_expansion (string_bytes text)) texts.now }
{
    texts.iter().any(|text| has_expansion(text.as_str()))
}

fn some_has_wildcard(texts: &[String]) -> bool
    ensures { result ≡ list_any (λ text. has_wildcard (string_bytes text)) texts.now }
{
    texts.iter().any(|text| has_wildcard(text.as_str()))
}
