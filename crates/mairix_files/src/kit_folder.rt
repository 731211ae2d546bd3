//! The system's files, by their names.
ghost use Rattle.std.specs.Prelude.{◌≡◌, [], ⊤, ℕ, List, true, Some, None, length, IfOk, IfSome};
ghost use Rattle.std.specs.Option.{option_map};
ghost use Rattle.std.specs.String.{string_bytes};
ghost use Rattle.named_files.specs.Entries.{bytes_of};
ghost use Rattle.named_files.specs.Logs.{held_after_changes, MayLeave, MayHaveLeft, left_now, only_left};
ghost use Rattle.mairix_files.specs.NameCalls.{Made, Renamed, Kept, Discarded, Cleared, NotesIfDone, are_apart, changes_by, supposed_first, supposed_now};

use crate::kit_calls::{
    KitCalls, note_cleared, note_discarded, note_kept, note_made, note_renamed,
};
use crate::kit_file::KitFile;
use crate::kit_new::{KitNew, gathering_room};
use crate::kit_reports::{KitReports, note_apart, note_file, note_more, note_told};
use crate::looks::refusal_of;
use crate::new_file::NamedFile;
use crate::recorded_calls::RecordedCalls;
use crate::supposed_names::SupposedNames;
use call_record::Record;
use kit_system::KitOpened;
use mbox_cutter::{DeviceFault, Out, Source};
use named_files::{FileName, Folder, KeptFile, Look, MadeNames, PlainName, Refusal};
use std::alloc::{AllocError, Global};
use std::fs::File;
use std::rt::Files;
use system::Found;

/// The system's files, by their names, with a record of the calls that were done.
///
/// `open` opens whatever has a name: a user's rcfile may be a pipe, and a program can open that only once another one
/// writes to it. What isn't a plain file may be supposed to be a `File` of the bytes that it gives up to its end. What is
/// said of the bytes of a file is then said of these. But a look at such a name doesn't agree with that, nor does the
/// length 0 of a file in `/proc`. `open_plain` first asks the system what a name leads to.
///
/// It supposes what names lead to at first, and which of them lead to one place. What they lead to later follows from
/// the calls, if the system carries them out: a rename replaces a link, and not what the link leads to. Whatever is
/// supposed, the calls are the same.
#[derive(Drop)]
pub struct KitFolder<'r, R: Files<File = File>> {
    system: RecordedCalls<'r, R>,
    /// The file that is the standard output, which no run may read: its answer would go into what it reads.
    output: Option<Found>,
    /// The name under which a file is made.
    temporary: Option<String>,
    /// The file that got its name last, until that is brought to the disk.
    named: Option<NamedFile<KitOpened>>,
    calls: KitCalls,
    supposed: SupposedNames,
}

/// A file of the system that a killed run left. It is locked.
#[derive(Drop)]
pub struct KitLeft {
    file: KitOpened,
    name: String,
}

impl<'r, R: Files<File = File>> KitFolder<'r, R> {
    /// Returns the files of the system, of which none is made yet.
    pub fn new(rt: &'r R, supposed: SupposedNames) -> KitFolder<'r, R>
        ensures none { ⟦<KitFolder<'r, R> as Folder>⟧.making result ≡ None }
        ensures calls { result.calls.done ≡ [] }
        ensures supposed { result.supposed ≡ supposed }
    {
        let system = RecordedCalls::new(rt);
        let output = system.output();
        KitFolder {
            system,
            output,
            temporary: None,
            named: None,
            calls: KitCalls::new(),
            supposed,
        }
    }

    /// Returns a file that was opened under a name. Its bytes are supposed to be those to which the name leads.
    fn file_of(&self, file: KitOpened, name: &str) -> KitFile<File>
        ensures rest { ⟦<KitFile<File> as Source>⟧.rest result
            ≡ bytes_of (supposed_now self.now.supposed self.now.calls.done name.now) }
        ensures bytes { ⟦<KitFile<File> as KeptFile>⟧.bytes result
            ≡ bytes_of (supposed_now self.now.supposed self.now.calls.done name.now) }
        ensures whole { IfSome (bytes_of
            (supposed_now self.now.supposed self.now.calls.done name.now))
            (⟦<KitFile<File> as Source>⟧.whole result) }
        ensures fresh { ⟦<KitFile<File> as Source>⟧.failures result ≡ 0 }
    {
        let record = supposing(&self.calls, &self.supposed, name.as_bytes());
        KitFile::new(file.into_file(), record)
    }
}

/// Returns a record without calls, which supposes the bytes of one file, or no file.
fn supposing(_calls: &KitCalls, _supposed: &SupposedNames, _name: &[u8]) -> Record
    ghost files: { List (List ℕ) }
    ensures { (result.supposed ≡ files) × (result.calls ≡ []) }
{
    Record::new()
}

/// Finds what a killed run left under a name, and locks it. Returns None if nothing has the name.
fn leftover_at<R: Files<File = File>>(
    system: &RecordedCalls<'_, R>,
    alloc: Global,
    name: &str,
) -> Result<Option<KitLeft>, Refusal>
    ensures { IfOk result (λ found. IfSome found (λ left. string_bytes left.name ≡ name.now)) }
{
    match system.lock_leftover(alloc, name) {
        Ok(Some(file)) => match String::from_str(alloc, name) {
            Ok(name) => Ok(Some(KitLeft { file, name })),
            Err(AllocError) => Err(Refusal::Memory),
        },
        Ok(None) => Ok(None),
        Err(error) => Err(refusal_of(error)),
    }
}

/// Makes a new and empty file under a name, with the mark of a new file. Without memory none is made.
fn make_new<R: Files<File = File>>(
    system: &RecordedCalls<'_, R>,
    alloc: Global,
    name: &str,
) -> Result<KitNew, Refusal>
    ensures taken { IfOk result (λ new. ⟦<KitNew as Out>⟧.taken new ≡ Some []) }
    ensures fresh { IfOk result (λ new. ⟦<KitNew as Out>⟧.failures new ≡ 0) }
{
    let Ok(room) = gathering_room(alloc) else {
        return Err(Refusal::Memory);
    };
    match system.make(name) {
        Ok(file) => Ok(KitNew::new(file, room)),
        Err(error) => Err(refusal_of(error)),
    }
}

impl<'r, R: Files<File = File>> Folder for KitFolder<'r, R> {
    type File = KitFile<File>;

    type New = KitNew;

    type Left = KitLeft;

    type Reports = KitReports;

    type Name = PlainName;

    type Names = MadeNames;

    ghost agree = { λ reports. reports.agree };

    ghost found = { λ reports. reports.found };

    ghost made = { λ names. names.notes.made };

    ghost holds = { λ f n. supposed_now f.supposed f.calls.done n };

    ghost apart = { λ f a b. are_apart f.supposed.links a b };

    ghost making = { λ f. option_map string_bytes f.temporary };

    ghost is_on_disk = { λ f n.
        (held_after_changes (supposed_first f.supposed) (changes_by f.calls.done) n).is_on_disk };

    ghost is_leftover = { λ _ _. true };

    ghost name_left = { λ left. string_bytes left.name };

    ghost may_leave = { λ f n c.
        MayLeave (supposed_first f.supposed) (changes_by f.calls.done) n c };

    ghost moment = { λ f. length (changes_by f.calls.done) };

    ghost left_since = { λ f t n c.
        MayHaveLeft (supposed_first f.supposed) (changes_by f.calls.done) t n c };

    ghost reports_are_right = { ⊥ };

    ghost can_refuse = { ⊤ };

    ghost reads_can_fail = { ⊤ };

    ghost writes_can_fail = { ⊤ };

    ghost creates = { λ old name done new.
        NotesIfDone done (Made name) old.calls.done new.calls.done };

    ghost renames = { λ old name kept done new. (bytes : List ℕ)
        × NotesIfDone done (Renamed name bytes kept) old.calls.done new.calls.done };

    ghost syncs = { λ old name done new.
        NotesIfDone done (Kept name) old.calls.done new.calls.done };

    ghost discards = { λ old new. NotesIfDone true Discarded old.calls.done new.calls.done };

    ghost removes = { λ old name done new.
        NotesIfDone done (Cleared name) old.calls.done new.calls.done };

    ghost counts_now = { λ f t n c le left.
        left_now (supposed_first f.supposed) (changes_by f.calls.done) t n c le left };

    ghost only_now = { λ f n c left.
        only_left (supposed_first f.supposed) (changes_by f.calls.done) n c left };

    ghost stays_known = { λ _ right. absurd right };

    ghost reads_fail = { λ _ _. tt };

    ghost writes_fail = { λ _ _. tt };

    fn no_reports(&self) -> KitReports {
        KitReports::new()
    }

    fn add_reports(&self, reports: &mut KitReports, more: KitReports) {
        note_more(reports, &more);
    }

    fn name(
        &self,
        alloc: Global,
        names: &mut MadeNames,
        reports: &KitReports,
        text: &str,
    ) -> Result<PlainName, AllocError> {
        names.note(text.as_bytes(), reports);
        PlainName::new(alloc, text)
    }

    fn open(&self, _alloc: Global, name: &PlainName) -> Result<KitFile<File>, Refusal> {
        match self.system.open(&self.output, name.as_str()) {
            Ok(file) => Ok(self.file_of(file, name.as_str())),
            Err(why) => Err(why),
        }
    }

    fn open_plain(&self, _alloc: Global, name: &PlainName) -> Result<KitFile<File>, Refusal> {
        match self.system.open_plain(&self.output, name.as_str()) {
            Ok(file) => Ok(self.file_of(file, name.as_str())),
            Err(why) => Err(why),
        }
    }

    fn take_back(&self, reports: &mut KitReports, file: KitFile<File>) {
        note_file(reports, &file, &file.state);
    }

    fn look(
        &self,
        alloc: Global,
        reports: &mut KitReports,
        name: &PlainName,
    ) -> Result<Look, Refusal> {
        let name = name.as_str();
        let look = self.system.look(alloc, name);
        note_told(reports, &self.calls, &self.supposed, name.as_bytes(), &look);
        look
    }

    fn is_apart(
        &self,
        alloc: Global,
        reports: &mut KitReports,
        name: &PlainName,
        other: &PlainName,
    ) -> Result<bool, AllocError> {
        let (name, other) = (name.as_str(), other.as_str());
        let is_apart = self.system.are_apart(alloc, name, other);
        note_apart(
            reports,
            &self.supposed,
            name.as_bytes(),
            other.as_bytes(),
            &is_apart,
        );
        is_apart
    }

    fn find_leftover(
        &self,
        alloc: Global,
        reports: &mut KitReports,
        name: &PlainName,
    ) -> Result<Option<KitLeft>, Refusal> {
        let name = name.as_str();
        let left = leftover_at(&self.system, alloc, name);
        note_told(reports, &self.calls, &self.supposed, name.as_bytes(), &left);
        left
    }

    fn remove_leftover(&mut self, _alloc: Global, left: KitLeft) -> Result<(), Refusal> {
        // With the lock, which is held until the name is gone.
        let KitLeft { file: _file, name } = left;
        if let Err(error) = self.system.remove(name.as_str()) {
            return Err(refusal_of(error));
        }
        note_cleared(&mut self.calls, name.as_bytes());
        Ok(())
    }

    fn create(
        &mut self,
        alloc: Global,
        reports: &mut KitReports,
        name: &PlainName,
    ) -> Result<KitNew, Refusal> {
        let name = name.as_str();
        let Ok(temporary) = String::from_str(alloc, name) else {
            return Err(Refusal::Memory);
        };
        match make_new(&self.system, alloc, name) {
            Ok(new) => {
                note_told(reports, &self.calls, &self.supposed, name.as_bytes(), &new);
                note_made(&mut self.calls, name.as_bytes());
                self.temporary = Some(temporary);
                Ok(new)
            }
            Err(why) => Err(why),
        }
    }

    fn sync_new(&self, new: &mut KitNew, name: &PlainName) -> Result<(), DeviceFault> {
        self.system.sync_new(new, name.as_str())
    }

    fn rename(
        &mut self,
        _alloc: Global,
        new: KitNew,
        name: &PlainName,
    ) -> Result<(), (Refusal, KitNew)> {
        let name = name.as_str();
        if !new.is_written() {
            return Err((Refusal::Refused, new));
        }
        let Some(temporary) = &self.temporary else {
            unreachable!();
        };
        if let Err(error) = self.system.rename(&new.file, temporary.as_str(), name) {
            return Err((refusal_of(error), new));
        }
        let (named, written, is_kept) = new.into_written();
        note_renamed(&mut self.calls, name.as_bytes(), &written, is_kept);
        self.named = Some(named);
        self.temporary = None;
        Ok(())
    }

    fn sync_name(&mut self, _alloc: Global, name: &PlainName) -> Result<(), Refusal> {
        let name = name.as_str();
        let named = self.named.take();
        match self.system.settle(named, name) {
            Ok(()) => {
                note_kept(&mut self.calls, name.as_bytes());
                Ok(())
            }
            Err(error) => Err(refusal_of(error)),
        }
    }

    fn discard(&mut self, new: KitNew) {
        let Some(temporary) = &self.temporary else {
            unreachable!();
        };
        self.system.discard(&new.file, temporary.as_str());
        new.close();
        note_discarded(&mut self.calls);
        self.temporary = None;
    }
}
