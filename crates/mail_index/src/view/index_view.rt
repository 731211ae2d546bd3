//! An index file read in place.
ghost use Rattle.std.specs.Prelude.{◌≡◌, ◌<◌, length, map, IsOk, IfOk, IfErr};
ghost use Rattle.std.specs.List.{slice_get};
ghost use Rattle.mail_index.specs.Faults.{IsFileBy, IsFileOfTable, IsFirstFaultOfFile};
ghost use Rattle.mail_index.specs.declared.digests.Digests.{Digests};
ghost use Rattle.mail_index.specs.Steps.{add_steps};

use crate::fields::u32_at;
use crate::kind::Kind;
use crate::places::{RECORD, VERSION_AT};
use crate::record::Record;
use crate::version::Version;
use crate::view::archive::{Archive, after_archives, are_archives, first_archive};
use crate::view::archive_list::ArchiveList;
use crate::view::directory::compared_keys::ComparedKeys;
use crate::view::directory::keys::Keys;
use crate::view::fault::{IndexFault, Section};
use crate::view::layout::{Layout, signed_version};
use crate::view::look_up::look_up;
use crate::view::postings::Postings;
use crate::view::record_walk::are_records;
use crate::view::records::Records;
use crate::view::steps::Steps;
use std::marker::Model;

/// The table of an index file, read in the bytes of the file.
#[derive(Drop)]
pub struct IndexView<'a> {
    layout: Layout<'a>,
}

impl<'a> Model for IndexView<'a> {
    ghost use Rattle.mail_index.specs.Tables.{Table};
    ghost use Rattle.mail_index.specs.Layouts.{table_of, IsChecked};

    ghost Value = { Table };

    ghost view = { λ s. table_of s.layout };

    ghost invariant = { λ s. IsChecked s.layout };
}

impl<'a> IndexView<'a> {
    ghost use Rattle.mail_index.specs.Layouts.{archive_of};
    ghost use Rattle.mail_index.specs.Tables.{Table, IsWellFormed};
    ghost use Rattle.mail_index.specs.LookUps.{numbers_at, comparisons, TakesDigits, keys_of, keys_beginning, text_and_numbers};

    /// Opens the index file in these bytes, of version 1 or 2, or returns the first thing that is wrong with them.
    /// Every file of a well-formed table is accepted. Takes no memory.
    pub fn open(bytes: &'a [u8]) -> Result<IndexView<'a>, IndexFault>
        ensures ok { IfOk result (λ table. IsFileOfTable bytes.entry.now table) }
        ensures fault { IfErr result (λ fault. IsFirstFaultOfFile bytes.entry.now fault) }
        ensures accepts { (t : Table) → IsFileOfTable bytes.entry.now t → IsOk result }
        ensures same { (t : Table) → IsFileOfTable bytes.entry.now t → IfOk result (λ table. table
            ≡ t) }
    {
        let version = signed_version(bytes)?;
        let Some(layout) = Layout::of(bytes, version) else {
            return Err(IndexFault::BadLayout(Section::Counts));
        };
        if !are_archives(layout.archives, layout.archive_count, layout.version) {
            return Err(IndexFault::BadLayout(Section::Archives));
        }
        if !are_records(
            layout.records,
            layout.message_count,
            layout.archives,
            layout.archive_count,
            layout.version,
        ) {
            return Err(IndexFault::BadLayout(Section::Records));
        }
        if !layout.has_entries() {
            return Err(IndexFault::BadLayout(Section::Directory));
        }
        if !layout.has_lists() {
            return Err(IndexFault::BadLayout(Section::Postings));
        }
        Ok(IndexView { layout })
    }

    /// Opens bytes that are known to be an index file, such as a file that was just written into memory, with its digest
    /// or without. Checks neither its digest nor its sections. Takes no memory.
    pub fn of_file(bytes: &'a [u8]) -> IndexView<'a>
        requires { (digests : Digests) × (t : Table) × IsFileBy bytes.now digests t }
        ensures { (digests : Digests) (t : Table) → IsFileBy bytes.entry.now digests t
            → result ≡ t }
    {
        // The file of a table has a known version, and its sections' lengths add up to its own.
        let Some(version) = Version::of(u32_at(bytes, VERSION_AT)) else {
            unreachable!();
        };
        let Some(layout) = Layout::of(bytes, version) else {
            unreachable!();
        };
        IndexView { layout }
    }

    /// Another view of the same file. Its table is well-formed, as that of each view.
    pub fn again(&self) -> IndexView<'a>
        ensures same { result ≡ self.now }
        ensures formed { IsWellFormed self.now }
    {
        IndexView {
            layout: self.layout,
        }
    }

    /// The version of the file: 1, which has no names of attachments, or 2. Takes no memory.
    pub fn version(&self) -> u32
        ensures { result ≡ self.now.version }
    {
        self.layout.version.number()
    }

    /// How many archives there are.
    #[tactic(auto, using(crate::proofs::ViewLaws::ArchiveReads::read_count))]
    pub fn archive_count(&self) -> u32
        ensures { result ≡ length self.now.archives }
    {
        self.layout.archive_count
    }

    /// The archive with this number, from 0.
    pub fn archive(&self, n: u32) -> Archive<'a>
        requires { n < length self.now.archives }
        ensures { slice_get self.now.archives n ≡ Some (archive_of result) }
    {
        let layout = self.layout;
        let rest = after_archives(layout.archives, layout.archive_count, n, layout.version);
        first_archive(rest, layout.archive_count - n, layout.version)
    }

    /// The archives in order. Takes no memory.
    pub fn archives(&self) -> ArchiveList<'a>
        ensures { result ≡ self.now.archives }
    {
        let layout = self.layout;
        ArchiveList::of(layout.archives, layout.archive_count, layout.version)
    }

    /// How many messages there are.
    #[tactic(auto, using(crate::proofs::ViewLaws::Opening::count_records))]
    pub fn message_count(&self) -> u32
        ensures { result ≡ length self.now.messages }
    {
        self.layout.message_count
    }

    /// The message with this number, from 0.
    pub fn message(&self, n: u32) -> Record
        requires { n < length self.now.messages }
        ensures { slice_get self.now.messages n ≡ Some result }
    {
        Record::read(self.layout.records.split_at(RECORD * n as usize).1)
    }

    /// The records of all messages. No key can be reached from them. Takes no memory.
    pub fn records(&self) -> Records<'a>
        ensures { result ≡ self.now.messages }
    {
        Records::of(self.layout.records, self.layout.message_count)
    }

    /// The keys in order, to be compared.
    fn compared_keys(&self) -> ComparedKeys<'a>
        ensures { result.directory ≡ self.now.keys }
    {
        ComparedKeys::of(self.layout.directory())
    }

    /// The keys of a kind, in the order of their bytes. Finds them by two binary searches, which look up no key and are
    /// no steps. Takes no memory.
    pub fn keys(&self, kind: Kind) -> Keys<'a>
        ensures { result ≡ map text_and_numbers (keys_of kind self.now.keys) }
    {
        self.keys_beginning(kind, &[])
    }

    /// The keys of a kind whose texts begin with this one, in the order of their bytes. Finds them as `keys` does. Takes
    /// no memory.
    pub fn keys_beginning(&self, kind: Kind, text: &[u8]) -> Keys<'a>
        ensures { result ≡ map text_and_numbers (keys_beginning kind text.now self.now.keys) }
    {
        Keys::beginning(self.layout.directory(), kind, text)
    }

    /// The numbers of the messages that have the key; none if there is no such key. A binary search: each comparison of
    /// a key is a step, and there are at most as many as the number of keys has binary digits.
    pub fn look_up(&self, kind: Kind, text: &[u8], steps: &mut Steps) -> Postings<'a>
        ensures numbers { result ≡ numbers_at kind text.now self.now.keys }
        ensures exact { steps.new ≡ add_steps steps.old (comparisons kind text.now self.now.keys) }
        ensures steps { TakesDigits (length self.now.keys) steps.old steps.new }
    {
        look_up(&self.compared_keys(), kind, text, steps)
    }
}
