//! Checks the records of a section against the archives that they name.
ghost use Rattle.std.specs.Prelude.{◌≡◌, ◌↔◌, ◌-◌, ◌*◌, ◌≤◌, length, MatchOption, IsTrue};
ghost use Rattle.mail_index.specs.Versions.{version_number};
ghost use Rattle.mail_index.specs.Places.{record_size};
ghost use Rattle.mail_index.specs.Records.{SpellsArchives, AreRecords};
ghost use Rattle.mail_index.specs.Inside.Walks.{MayFollow, IsAfterMessage};

use crate::fields::u64_at;
use crate::places::{ARCHIVE_LENGTH_AT, RECORD};
use crate::record::{Record, is_record};
use crate::version::Version;
use crate::view::archive::after_archives;

/// The state of the walk: the archive of the last message, the place in it where that message ended, and the archives
/// from this one on.
#[derive(Clone, Copy)]
struct RecordPlace<'a> {
    archive: u32,
    offset: u64,
    archives: &'a [u8],
}

/// The place after a message, or None if this message may not follow the last one or isn't within its archive. There
/// are `count` archives.
fn after_message<'a>(
    place: RecordPlace<'a>,
    count: u32,
    message: Record,
    version: Version,
) -> Option<RecordPlace<'a>>
    requires bound { place.archive ≤ count }
    requires spelled { SpellsArchives (version_number version)
        (count - place.archive) place.archives.now }
    ensures next { MatchOption result
        (¬ MayFollow (version_number version) count place.entry message)
        (λ p. MayFollow (version_number version) count place.entry message
        × IsAfterMessage (version_number version) count place.entry message p) }
{
    let is_after = place.archive < message.archive
        || (place.archive == message.archive && place.offset <= message.offset);
    if !is_after || message.archive >= count {
        return None;
    }
    let archives = after_archives(
        place.archives,
        count - place.archive,
        message.archive - place.archive,
        version,
    );
    let most = u64_at(archives, ARCHIVE_LENGTH_AT);
    let offset = message.offset.saturating_add(message.length);
    if offset > most || message.size >= message.length {
        return None;
    }
    Some(RecordPlace {
        archive: message.archive,
        offset,
        archives,
    })
}

/// Whether the section consists of the records of this many messages in these archives, in order.
pub(crate) fn are_records(
    section: &[u8],
    messages: u32,
    archives: &[u8],
    count: u32,
    version: Version,
) -> bool
    requires whole { length section.now ≡ record_size * messages }
    requires spelled { SpellsArchives (version_number version) count archives.now }
    ensures { IsTrue result
        ↔ AreRecords (version_number version) count 0 0 archives.now messages section.now }
{
    let mut rest = section;
    let mut place = RecordPlace {
        archive: 0,
        offset: 0,
        archives,
    };
    for number in 0..messages {
        if !is_record(rest) {
            return false;
        }
        place = match after_message(place, count, Record::read(rest), version) {
            Some(after) => after,
            None => return false,
        };
        rest = rest.split_at(RECORD).1;
    }
    true
}
