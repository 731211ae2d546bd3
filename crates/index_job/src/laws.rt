//! Laws of the table of archives.
ghost use Rattle.std.specs.Prelude.{◌≡◌, List, All};
ghost use Rattle.mail_index.specs.Tables.{IsPath, IsWellFormed, Table};
ghost use Rattle.index_job.specs.ArchiveRefusals.{AreSound};
ghost use Rattle.index_job.specs.ArchiveTables.{Mbox, table};
ghost use Rattle.index_job.specs.OneTable.{IsTableOf};

/// The table of archives is well-formed if each path is one that an index may have, no archive is refused, and all
/// together are within the limits. So there is an index file of such archives, whatever bytes they have.
pub fn the_table_of_sound_archives_is_well_formed()
    ensures { (archives : List Mbox) → All (λ a. IsPath a.path) archives → AreSound archives
        → IsWellFormed (table archives) }
{}

/// The table of archives has a record of each of their messages, and the sorted list of all terms of messages, each
/// with the rising list of the numbers of all messages that have it. No other table does.
pub fn one_table_of_archives()
    ensures is { (archives : List Mbox) → IsTableOf archives (table archives) }
    ensures only { (archives : List Mbox) (t u : Table) → IsTableOf archives t
        → IsTableOf archives u → t ≡ u }
{}
