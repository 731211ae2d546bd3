//! What the words and the rcfile of a run mean.
ghost use Rattle.std.specs.Prelude.{◌≡◌, map, IfErr};
ghost use Rattle.std.specs.String.{string_bytes};
ghost use Rattle.contract_words.specs.Answers.{Gives};
ghost use Rattle.mail_query.specs.Meaning.{meaning};
ghost use Rattle.mairix_tool.specs.Asked.{query_asked, format_of_mail};
ghost use Rattle.or_memory.specs.Refusals.{refusal};
ghost use Rattle.run_faults.specs.Faults.{refusal_of_fault, IsEarly};

use mail_answer::Format;
use mail_dates::Moment;
use mail_query::{Query, QueryFault, read_boolean, read_mairix};
use mairix_options::{MailFormat, Plan, Texts, answer_format, plan_of, read_rc};
use or_memory::OrMemory;
use run_faults::Fault;
use std::alloc::Global;

/// What a run is to do: the paths of its archives, what a message has to satisfy, the form of the answer, and whether
/// the archives are to be proved to be those that were indexed.
#[derive(Drop)]
pub(crate) struct Wanted {
    pub(crate) paths: Texts,
    pub(crate) query: Query,
    pub(crate) threads: bool,
    pub(crate) format: Format,
    pub(crate) verify: bool,
}

impl Wanted {
    ghost use Rattle.mairix_tool.specs.Asked.{wanted_of_words, wanted_of_plan, shown_wanted};

    /// Reads the words, then the rcfile, then the query, and fails with the first refusal, or if memory runs out. Ages,
    /// and days without a year, count from `now`.
    pub(crate) fn of(
        alloc: Global,
        words: &[String],
        rc: &[u8],
        now: Moment,
    ) -> Result<Wanted, Fault>
        ensures asked { Gives shown_wanted refusal_of_fault result
            (wanted_of_words (map string_bytes words.now) rc.now now) }
        ensures early { IfErr result IsEarly }
    {
        let plan = plan_of(alloc, words)?;
        Wanted::of_plan(alloc, &plan, rc, now)
    }

    /// Does the same for words that are read already.
    fn of_plan(alloc: Global, plan: &Plan, rc: &[u8], now: Moment) -> Result<Wanted, Fault>
        ensures asked { Gives shown_wanted refusal_of_fault result
            (wanted_of_plan plan.now rc.now now) }
        ensures early { IfErr result IsEarly }
    {
        let rc = read_rc(alloc, rc)?;
        let query = read_query(alloc, plan.patterns.as_slice(), plan.boolean, now)?;
        let format = format_of_mail(answer_format(plan, &rc));
        Ok(Wanted {
            paths: rc.paths,
            query,
            threads: plan.threads,
            format,
            verify: plan.verify,
        })
    }
}

/// Reads the query of these patterns: in mairix's own language, or in the boolean one, where they are one text, joined
/// by single spaces. Fails with the query's first fault, or if memory runs out.
fn read_query(
    alloc: Global,
    patterns: &[String],
    boolean: bool,
    now: Moment,
) -> Result<Query, OrMemory<QueryFault>>
    ensures { Gives meaning refusal result
        (query_asked boolean (map string_bytes patterns.now) now) }
{
    if boolean {
        let text = patterns.join(alloc, " ")?;
        read_boolean(alloc, text.as_str(), now)
    } else {
        read_mairix(alloc, patterns, now)
    }
}

/// The form of an answer, as the writer of answers names it.
fn format_of_mail(format: MailFormat) -> Format
    ensures { result ≡ format_of_mail format }
{
    match format {
        MailFormat::Mbox => Format::Mbox,
        MailFormat::Raw => Format::Raw,
        MailFormat::Excerpt => Format::Excerpt,
    }
}
