//! Runs in memory, of words, an rcfile and archives that are given as texts, and the outcomes of these runs.
ghost use Rattle.std.specs.Prelude.{◌≡◌, ◌<◌, ◌^◌, ◌-◌, length, All, IfSome, vec_len};

use mail_answer::{Archives, FailAt, MemoryArchives};
use mail_dates::Moment;
use mail_index::{Digests, is_path};
use mairix_tool::{IndexJob, OrMemory, Reply, once_run, read_rc, search_run};
use mbox_cutter::{MemoryOut, MemorySource};
use std::alloc::{AllocError, Global};

/// The second of the runs: noon of 18 May 2003, UTC.
pub const NOW: i64 = 1_053_259_200;

/// The line at which a message of the rows starts.
const SEPARATOR: &[u8] = b"From a@x.org Thu Jan  2 10:00:00 2003\n";

/// The most archives of a run.
const MOST: usize = 2;

pub const RC: &str = "mbox=m.mbox|database=m.idx|mfolder=hits|";

const RC_OF_TWO: &str = "mbox=a.mbox:b.mbox|database=m.idx|mfolder=hits|";

pub const HELLO: &str = "^Subject: Hello||hi||";

pub const TWO_MESSAGES: &str =
    "^Subject: one||a||From here on we go||From - Sat Jan  4 12:00:00 2003|Subject: two||b||";

/// Two messages that refer to a third one, which is in neither archive.
pub const COUSINS: &str =
    "^Message-ID: <1@x>|References: <0@x>||hi|| & ^Message-ID: <2@x>|References: <0@x>||ho||";

/// Adds the words of a part of a command line, which are separated by `, `.
pub fn push_words(alloc: Global, words: &mut Vec<String>, part: &str) -> Option<()> {
    for word in part.split(", ") {
        if !word.is_empty() {
            words.push(String::from_str(alloc, word).ok()?).ok()?;
        }
    }
    Some(())
}

/// Returns the bytes of a text, in which `^` means the separator line, `|` LF, and `{3*ab}` means `ababab`.
pub fn bytes_of(alloc: Global, text: &str) -> Option<Vec<u8>> {
    let mut bytes = Vec::new(alloc);
    for piece in text.split('{') {
        push_piece(&mut bytes, piece)?;
    }
    Some(bytes)
}

/// Writes the text between one `{` and the next.
fn push_piece(bytes: &mut Vec<u8>, piece: &str) -> Option<()> {
    let (repeated, rest) = piece.split_once('}').unwrap_or(("", piece));
    let (count, repeated) = repeated.split_once('*').unwrap_or(("0", ""));
    for _ in 0..count.parse::<u32>().ok()? {
        push_signs(bytes, repeated).ok()?;
    }
    push_signs(bytes, rest).ok()
}

fn push_signs(bytes: &mut Vec<u8>, signs: &str) -> Result<(), AllocError> {
    for sign in signs.as_bytes() {
        let written: &[u8] = match sign {
            b'^' => SEPARATOR,
            b'|' => b"\n",
            _ => std::slice::from_ref(sign),
        };
        bytes.extend_from_slice(written)?;
    }
    Ok(())
}

/// How the devices of a run behave.
#[derive(Clone, Copy)]
pub struct Devices {
    /// The most bytes that a source gives in a read; 0 counts as 1.
    pub piece: usize,
    /// The read of each source that fails, counted from 1.
    pub failing_reads: [Option<u64>; MOST],
    /// The call of the archives that fails, counted from 1; 0 for none.
    pub failing_call: u64,
    /// The number of bytes that the output takes; None if it takes all.
    pub room: Option<u64>,
}

/// Devices that never fail.
pub const SOUND: Devices = Devices {
    piece: 7,
    failing_reads: [None, None],
    failing_call: 0,
    room: None,
};

/// The outcome of a run as a text. It is None if memory runs out before or after the run.
pub type Reported = Option<Vec<u8>>;

/// Whether this is the outcome of a run.
pub fn reports(reported: Reported, wanted: &[u8]) -> bool {
    match reported {
        Some(reported) => reported.as_slice() == wanted,
        None => false,
    }
}

/// What a run is given, and its outcome if no device fails.
#[derive(Drop)]
pub struct Given {
    /// The words of a run, with `--verify` after them.
    verifying: Vec<String>,
    rc: Vec<u8>,
    pub archives: Vec<Vec<u8>>,
    /// The index file of the archives, if they have one.
    pub index: Option<Vec<u8>>,
    pub reported: Vec<u8>,
    /// The number of bytes of the outcome before the answer.
    front: usize,
}

impl Given {
    /// Reads a row `WORDS => OUTCOME`, the words before its own, an rcfile's text, and the texts of archives, which are
    /// separated by ` & `. It is None if memory runs out.
    pub fn of(alloc: Global, first: &str, row: &str, rc: &str, texts: &str) -> Option<Given> {
        let mut given = Given {
            verifying: Vec::new(alloc),
            rc: Vec::new(alloc),
            archives: Vec::new(alloc),
            index: None,
            reported: Vec::new(alloc),
            front: 0,
        };
        given.read(alloc, first, row, rc, texts)?;
        Some(given)
    }

    fn read(&mut self, alloc: Global, first: &str, row: &str, rc: &str, texts: &str) -> Option<()> {
        let (own, reported) = row.split_once(" => ")?;
        for part in &[first, own, "--verify"] {
            push_words(alloc, &mut self.verifying, part)?;
        }
        self.rc = bytes_of(alloc, rc)?;
        self.archives = archives_of(alloc, texts)?;
        self.index = indexed(alloc, &self.rc, &self.archives);
        self.reported = bytes_of(alloc, reported)?;
        self.front = match reported.split_once(": ") {
            Some((front, _)) => front.len().saturating_add(2),
            None => reported.len(),
        };
        Some(())
    }

    /// Reads a row with `-f rc` before its words, and the archive `m.mbox`, or `a.mbox` and `b.mbox`. It is None if
    /// memory runs out.
    pub fn over(alloc: Global, texts: &str, row: &str) -> Option<Given> {
        let rc = if texts.contains(" & ") { RC_OF_TWO } else { RC };
        Given::of(alloc, "-f, rc", row, rc, texts)
    }

    fn words(&self) -> &[String] {
        match self.verifying.split_last() {
            Some((_, words)) => words,
            None => &[],
        }
    }

    /// Returns the answer, which comes after `found N: ` in the outcome.
    pub fn answer(&self) -> &[u8] {
        self.reported.get(self.front..).unwrap_or(&[])
    }

    /// Returns the outcome of a run that indexes the archives itself.
    pub fn once(&self, alloc: Global, devices: Devices) -> Reported {
        let mut sources = sources(alloc, &self.archives, devices)?;
        let mut out = MemoryOut::new(alloc, devices.room);
        let reply = self.run(alloc, devices.failing_call, &mut sources, &mut out);
        reported(alloc, reply, &out)
    }

    /// Runs over archives of which this call fails, or none for 0, and over their sources. It is None if memory runs
    /// out before the run, or if the rcfile has more or fewer paths than there are archives.
    fn run(
        &self,
        alloc: Global,
        failing_call: u64,
        sources: &mut [MemorySource],
        out: &mut MemoryOut,
    ) -> Option<Reply>
        requires sources { All (λ s. s.failures ≡ 0) sources.old }
        requires out { out.old.failures ≡ 0 }
    {
        let (words, rc) = (self.words(), self.rc.as_slice());
        let now = Moment::new(NOW)?;
        let mut held = FailAt::new(held(alloc, &self.archives)?, failing_call);
        match read_rc(alloc, rc) {
            Ok(rc) => {
                if rc.paths.as_slice().len() != sources.len() {
                    return None;
                }
                if held.count() as usize != sources.len() {
                    return None;
                }
            }
            Err(OrMemory::Memory) => return None,
            Err(_) => {}
        }
        Some(once_run(alloc, words, rc, sources, &mut held, now, out))
    }

    /// Returns the outcome of a search of an index over the archives.
    pub fn stored(&self, alloc: Global, index: &[u8], devices: Devices) -> Reported {
        self.searched(alloc, self.words(), index, devices)
    }

    /// Returns the same with `--verify`.
    pub fn verified(&self, alloc: Global, index: &[u8], devices: Devices) -> Reported {
        self.searched(alloc, &self.verifying, index, devices)
    }

    fn searched(
        &self,
        alloc: Global,
        words: &[String],
        index: &[u8],
        devices: Devices,
    ) -> Reported {
        let now = Moment::new(NOW)?;
        let mut held = FailAt::new(held(alloc, &self.archives)?, devices.failing_call);
        let mut out = MemoryOut::new(alloc, devices.room);
        let reply = search_run(alloc, words, &self.rc, index, &mut held, now, &mut out);
        reported(alloc, Some(reply), &out)
    }

    /// Returns the outcomes of a run that indexes the archives itself, of a search of their stored index, and of a
    /// search with `--verify`. It is None if the archives have no index.
    pub fn all(&self, alloc: Global, devices: Devices) -> Option<[Reported; 3]> {
        let index = self.index.as_ref()?;
        Some([
            self.once(alloc, devices),
            self.stored(alloc, index, devices),
            self.verified(alloc, index, devices),
        ])
    }

    /// Returns how many bytes of the answer were sent before this refusal. It is None if the outcome is another one.
    pub fn sent_before(&self, refusal: &[u8], reported: &[u8]) -> Option<usize> {
        let sent = reported.strip_prefix(refusal)?;
        self.answer().starts_with(sent).then_some(sent.len())
    }
}

/// Returns the outcome: `found 2: ` and the bytes that were sent, `none` and these bytes, or `refused 4: `, the fault's
/// text and these bytes. If the parts of a reply don't agree, it is `unlike a reply`.
fn reported(alloc: Global, reply: Option<Reply>, out: &MemoryOut) -> Reported {
    let reply = reply?;
    let text = match reply.fault {
        Some(fault) if reply.messages == 0 => {
            format!(in alloc; "refused {}: {fault}", reply.status)
        }
        None if reply.status == 0 && reply.messages > 0 => {
            format!(in alloc; "found {}: ", reply.messages)
        }
        None if reply.status == 1 && reply.messages == 0 => String::from_str(alloc, "none"),
        _ => String::from_str(alloc, "unlike a reply"),
    };
    [text.ok()?.as_str().as_bytes(), out.bytes()]
        .concat(alloc)
        .ok()
}

/// Returns sources that give these archives.
fn sources(alloc: Global, archives: &[Vec<u8>], devices: Devices) -> Option<Vec<MemorySource>>
    ensures { IfSome result (λ v. All (λ s. s.failures ≡ 0) v.items) }
{
    let mut sources = Vec::new(alloc);
    for (archive, fail_at) in archives.iter().zip(&devices.failing_reads) {
        let source = MemorySource::new(alloc, archive, devices.piece.max(1), *fail_at).ok()?;
        sources.push(source).ok()?;
    }
    Some(sources)
}

/// Returns these archives, if there aren't too many.
fn held(alloc: Global, archives: &[Vec<u8>]) -> Option<MemoryArchives> {
    let mut held = MemoryArchives::new(alloc);
    for archive in archives {
        if held.count() as usize >= MOST {
            return None;
        }
        held.add(archive).ok()?;
    }
    Some(held)
}

/// Returns the archives of texts, which are separated by ` & `.
fn archives_of(alloc: Global, texts: &str) -> Option<Vec<Vec<u8>>> {
    let mut archives = Vec::new(alloc);
    for text in texts.split(" & ") {
        archives.push(bytes_of(alloc, text)?).ok()?;
    }
    Some(archives)
}

/// Returns the index file of archives under the paths of an rcfile.
pub fn index_of(alloc: Global, rc: &str, texts: &str) -> Option<Vec<u8>> {
    indexed(alloc, &bytes_of(alloc, rc)?, &archives_of(alloc, texts)?)
}

/// Returns the index file of archives under the paths of an rcfile; if that is refused, of one archive under `m.mbox`.
/// It is None if memory runs out or an archive is refused.
fn indexed(alloc: Global, rc: &[u8], archives: &[Vec<u8>]) -> Option<Vec<u8>> {
    match read_rc(alloc, rc) {
        Ok(rc) => indexed_as(alloc, rc.paths.as_slice(), archives),
        Err(OrMemory::Memory) => None,
        Err(_) => {
            let path = String::from_str(alloc, "m.mbox").ok()?;
            indexed_as(alloc, &[path], archives)
        }
    }
}

/// Returns the index file of archives under these paths.
fn indexed_as(alloc: Global, paths: &[String], archives: &[Vec<u8>]) -> Option<Vec<u8>> {
    let mut job = IndexJob::new(alloc, Digests::Computed).ok()?;
    add_archives(alloc, &mut job, paths, archives)?;
    let mut out = MemoryOut::new(alloc, None);
    job.finish(&mut out).ok()?;
    out.bytes().to_vec(alloc).ok()
}

fn add_archives(
    alloc: Global,
    job: &mut IndexJob,
    paths: &[String],
    archives: &[Vec<u8>],
) -> Option<()> {
    for (path, archive) in paths.iter().zip(archives) {
        if !is_path(path) {
            return None;
        }
        let mut source = MemorySource::new(alloc, archive, 7, None).ok()?;
        job.archive(path, &mut source).ok()?;
    }
    Some(())
}
