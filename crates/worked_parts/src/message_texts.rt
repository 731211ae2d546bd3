//! The texts of a message, and what its header says besides them, read without an index.
ghost use Rattle.std.specs.Prelude.{◌-◌, ◌^◌, ◌<◌};

use crate::rows::bytes_of;
use mail_words::TextKind;
use mbox_cutter::{Cutter, Event, FromRead, Source};
use mime_text::{Facts, MessageText, SinkFault, TextFault, TextSink};
use std::alloc::Global;
use std::fmt::Write;
use std::process::Abort;

/// More texts than any message has.
const ALL: usize = usize::MAX;

/// In each line: the number of texts that are taken before one is refused, the archive of a message, and the outcome.
/// The outcome is the message's texts, with those given at its end after `end`, and then what it says of itself: `none`
/// if that is nothing, its only id, or `other`. If the reader failed, it is the fault, and after how many lines.
const MESSAGES: &str = "\
# A fault comes once, and then each call has failed, which gives the sink nothing.
0 ^Subject: a||b| => end, text refused: refused after 1
0 ^|lunch|break| => end, text refused: refused after 1
# A text that has no line feed yet is refused where the message ends.
1 ^Subject: lunch||break => Subject [lunch], end, text refused: refused after 3
# A soft break joins two lines.
all ^Content-Transfer-Encoding: quoted-printable||lunch=|break| => Body [lunchbreak|], end, none
# An attachment is no text, but it has a name.
all ^Content-Type: multipart/mixed; boundary=o||--o|Content-Type: application/pdf; name=old.pdf|\
    Content-Disposition: attachment; filename=\"Annual Report.pdf\"||%PDF|--o--| => Name [Annual Report.pdf], end, none
# The name of a message itself, which ends in its header: encoded words in it are decoded.
all ^Subject: lunch|Content-Disposition: attachment;| filename=\"=?iso-8859-1?Q?Caf=E9?= =?utf-8?B?w7w=?=.pdf\"| => \
    end, Subject [lunch], Name [Caf\u{e9}\u{fc}.pdf], none
# A file name that is empty leaves the name to the type, and one that decodes to nothing doesn't.
all ^Content-Type: multipart/mixed; boundary=o||\
    --o|Content-Disposition: attachment; filename=\"\"|Content-Type: application/pdf; name=a.pdf||\
    --o|Content-Disposition: attachment; filename=\"=?utf-8?Q??=\"|Content-Type: application/pdf; name=b.pdf||--o--| => \
    Name [a.pdf], Name [], end, none
# Parts of each type have names, also one whose type isn't said: a name comes before what its part has in it.
all ^Content-Type: multipart/mixed; boundary=o; name=all||--o|Content-Type: ; name=lone.txt||lunch|\
    --o|Content-Type: message/rfc822; name=note.eml||Content-Disposition: inline; filename=in.txt|Subject: soup||break|--o--| => \
    Name [all], Name [lone.txt], Body [lunch|], Name [note.eml], Subject [soup], Name [in.txt], Body [break|], end, none
# A message that ends in a multipart, in a tag and in a group of base64.
all ^Message-ID: <a@x>|Content-Type: multipart/mixed; boundary=o||\
    --o|Content-Type: text/html|Content-Transfer-Encoding: base64||YTxiYw| => end, Body [a   ], id a@x
# One that has a line that would delimit the one before.
all ^|--o|b>c| => Body [--o|], Body [b>c|], end, none
# One that ends in its header.
all ^Subject: soup|Status: R|Content-Disposition: attachment; filename=a.pdf| => end, Subject [soup], Name [a.pdf], other
# A group of base64, and then a character in quoted-printable, over two lines: each text is reported at its line's end.
all ^Content-Transfer-Encoding: base64||bHVuY|2gKYnJlYWs=| => Body [lunch|], end, Body [break], none
all ^Content-Transfer-Encoding: quoted-printable||=C3=|=BC=C3|=BC| => Body [\u{FC}\u{FFFD}|], Body [\u{FFFD}|], end, none
# A tag over two lines, and one that its message leaves open: the next message is outside of it.
all ^Content-Type: text/html; charset=iso-8859-1||~<~|>a|b< => Body [\u{FC}   ], Body [ a|], end, Body [b ], none
all ^Content-Type: text/html||c>| => Body [c>|], end, none
# The sink has room for one text.
1 ^|a|b| => Body [a|], end, text refused: refused after 2
# The first of two boundaries counts, and a part of a digest is a message.
all ^Content-Transfer-Encoding: BASE64|Content-Type: multipart/digest; charset=latin1;| boundary=\"o;\\\"\"; boundary=x||\
    --o;\"||Subject: soup||lunch|--o;\"--| => Subject [soup], Body [lunch|], end, none
# Letters of either case name an encoding and a charset.
all ^Content-Transfer-Encoding: BASE64|Content-Type: text/plain; charset=latin1||/A==| => end, Body [\u{FC}], none
# A file name is reported before a name of the type, and a message without either has none.
all ^Content-Disposition: attachment; filename=\"=?utf-8?Q?a_b?=\"|Content-Type: text/plain; name=c|| => end, Name [a b], none
all ^Content-Type: text/plain|| => end, none
# A part at the depth of 16 has its name, and what is in it has none.
all ^{16*Content-Type: message/rfc822||}Content-Type: message/rfc822; name=a.eml||\
    Content-Type: text/plain; name=b.txt||lunch| => Name [a.eml], end, none
# A line that has to be decoded may be as long as any: these have 65,537 bytes.
all ^Content-Transfer-Encoding: quoted-printable||{16384*a=41}| => Body [{16384*aA}|], end, none
all ^Content-Transfer-Encoding: base64||{16384*YWFh}| => end, Body [{16384*aaa}], none
";

/// A sink that writes each text that it takes, with its kind. It refuses a text if it has no room, and takes none after
/// that.
#[derive(Drop)]
struct Reported {
    reported: String,
    room: usize,
    /// How many calls have succeeded.
    taken: usize,
    /// The first fault; or `Failed` if a call after it returned anything but `Failed`.
    fault: Option<TextFault>,
    /// Whether the message was read to its end.
    is_read: bool,
}

/// Returns the name of a kind.
fn name_of(kind: TextKind) -> &'static str {
    match kind {
        TextKind::To => "To",
        TextKind::Cc => "Cc",
        TextKind::Bcc => "Bcc",
        TextKind::From => "From",
        TextKind::Subject => "Subject",
        TextKind::Body => "Body",
        TextKind::Name => "Name",
    }
}

impl TextSink for Reported {
    ghost takes = { λ _ _ _ _. Unit {0} };

    ghost refuses = { λ _ _ _ _ _. Unit {0} };

    fn text(&mut self, kind: TextKind, text: &str) -> Result<(), SinkFault> {
        if self.room == 0 {
            self.room = ALL;
            return Err(SinkFault::Refused);
        }
        self.room -= 1;
        let name = name_of(kind);
        write!(self.reported, "{name} [{text}], ")?;
        Ok(())
    }
}

impl Reported {
    /// Returns a sink with this much room, which has no text yet.
    fn new(alloc: Global, room: usize) -> Reported {
        Reported {
            reported: String::new(alloc),
            room,
            taken: 0,
            fault: None,
            is_read: false,
        }
    }

    /// Notes the result of a call.
    fn note(&mut self, answer: Result<(), TextFault>) {
        match (self.fault, answer) {
            (None, Ok(())) => self.taken = self.taken.saturating_add(1),
            (None, Err(fault)) => self.fault = Some(fault),
            (Some(_), Err(TextFault::Failed)) => {}
            (Some(_), _) => self.fault = Some(TextFault::Failed),
        }
    }

    /// Whether this is the whole outcome of a message that has ended. It is None if memory runs out, and so are the
    /// results below.
    fn reports(&mut self, ended: &Result<Facts, TextFault>, wanted: &[u8]) -> Option<bool> {
        let (answer, facts) = match ended {
            Ok(facts) => (Ok(()), reported_of_facts(facts)),
            Err(fault) => (Err(*fault), ""),
        };
        self.note(answer);
        let reported = match self.fault {
            None => self.reported.push_str(facts),
            Some(fault) => write!(self.reported, "{fault} after {}", self.taken),
        };
        reported.ok()?;
        if !self.is_read || self.reported.as_str().contains("out of memory after ") {
            return None;
        }
        Some(self.reported.as_str().as_bytes() == wanted)
    }
}

/// Returns what a message says of itself.
fn reported_of_facts(facts: &Facts) -> &'static str {
    let flags = facts.flags;
    let is_marked = flags.seen || flags.replied || flags.flagged || facts.date_text.is_some();
    let ids = facts.ids.as_slice();
    match &facts.own_id {
        Some(id) if id.as_bytes() == b"a@x".as_slice() && ids.len() == 1 => "id a@x",
        None if !is_marked && ids.is_empty() => "none",
        _ => "other",
    }
}

/// Gives a reader the lines of the message in an archive.
fn read(
    alloc: Global,
    archive: &[u8],
    reader: &mut MessageText,
    sink: &mut Reported,
) -> Option<()> {
    let mut source = FromRead::new(archive);
    let mut cutter = Cutter::new(alloc, &mut source, 1 << 20).ok()?;
    give_lines(&mut cutter, reader, sink)
}

/// Gives a reader the lines of a message that is cut. An empty line that closes it isn't one of them.
fn give_lines<S: Source>(
    cutter: &mut Cutter<'_, S>,
    reader: &mut MessageText,
    sink: &mut Reported,
) -> Option<()>
    requires { S.failures cutter.old.source.now < 2 ^ 64 - 1 }
{
    'events: loop {
        match cutter.next_event() {
            Ok(Event::Line) => {
                let answer = reader.line(cutter.line(), sink);
                sink.note(answer);
            }
            Ok(Event::Done { .. }) => return sink.reported.push_str("end, ").ok(),
            Ok(_) => {}
            Err(_) => return None,
        }
    }
}

/// How many texts are taken, an archive, and the outcome of its message.
type Row<'a> = (usize, &'a [u8], &'a [u8]);

/// Whether a new reader gives the outcome of a row.
fn is_reported(alloc: Global, row: Row<'_>) -> Option<bool> {
    let (room, archive, wanted) = row;
    let mut reader = MessageText::new(alloc).ok()?;
    let mut sink = Reported::new(alloc, room);
    sink.is_read = read(alloc, archive, &mut reader, &mut sink).is_some();
    let ended = reader.end(&mut sink);
    sink.reports(&ended, wanted)
}

/// Whether a reader that has read other messages gives it.
fn is_reported_again(alloc: Global, row: Row<'_>, reader: &mut MessageText) -> Option<bool> {
    let (room, archive, wanted) = row;
    let mut sink = Reported::new(alloc, room);
    reader.begin_again();
    sink.is_read = read(alloc, archive, reader, &mut sink).is_some();
    let ended = reader.finish(&mut sink);
    sink.reports(&ended, wanted)
}

/// Whether both give the outcome of a line of the table.
fn are_reported(alloc: Global, line: &str, reader: &mut MessageText) -> Option<bool> {
    let (given, wanted) = line.split_once(" => ")?;
    let (room, archive) = given.split_once(' ')?;
    let room = room.parse().unwrap_or(ALL);
    let archive = bytes_of(alloc, archive)?;
    let wanted = bytes_of(alloc, wanted)?;
    let row = (room, archive.as_slice(), wanted.as_slice());
    let is_new = is_reported(alloc, row).unwrap_or(false);
    Some(is_reported_again(alloc, row, reader).unwrap_or(false) && is_new)
}

/// Nothing of one message is left when the next one begins, even if a reader has failed.
#[test]
fn one_reader_reads_many_messages(rt: HostRuntime) {
    let mut reader = MessageText::new(rt.alloc()).expect(&rt, "a reader");
    read_all(&rt, rt.alloc(), &mut reader);
}

fn read_all(rt: &impl Abort, alloc: Global, reader: &mut MessageText) {
    for line in MESSAGES.lines() {
        if line.starts_with('#') {
            continue;
        }
        assert!(rt;
            are_reported(alloc, line, reader).unwrap_or(false),
            "{line}"
        );
    }
}

/// The gate refuses each allocation of this test in turn. The message is read as a whole, or lack of memory is
/// reported.
#[test]
fn sweep_message_text(rt: HostRuntime) {
    let archive = b"From a@x.org Thu Jan  2 10:00:00 2003\nMessage-ID: <a@x>\nSubject: lunch\n\
        Content-Disposition: inline; filename=\"=?utf-8?Q?menu?=\"\n\nbreak";
    let wanted = b"Subject [lunch], Name [menu], end, Body [break], id a@x";
    assert!(rt; is_reported(rt.alloc(), (ALL, archive, wanted)).unwrap_or(true));
}
